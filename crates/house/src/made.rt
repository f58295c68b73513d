ghost use Rattle.std.specs.Prelude.{◌≡◌, []};
ghost use Rattle.exactly_once.specs.Houses.{parts};
ghost use Rattle.exactly_once.specs.Lived.{Lived};
ghost use Rattle.house.specs.Houses.{house_state, new_house};

use crate::places::{PLACES, Place};
use crate::state::House;
use channel::Channel;
use server::Server;
use service::Service;

impl<S: Service, Q: Channel, R: Channel> House<S, Q, R> {
    /// A house with no session. If both channels are empty, its history begins here.
    // Boot number and first count are two arguments, as the server's: a session id has them as two fields.
    pub fn new(service: S, requests: Q, replies: R, boot: u64, count: u64) -> House<S, Q, R>
        ensures state { house_state S.Service Q.Channel R.Channel result ≡ new_house S.Service Q.Channel R.Channel service requests replies boot count }
        ensures lives { Q.Channel.model.waits (Q.Channel.state requests) ≡ [] → R.Channel.model.waits (R.Channel.state replies) ≡ [] → Lived (parts S.Service Q.Channel R.Channel) (S.Service.content service) [] (house_state S.Service Q.Channel R.Channel result) }
    {
        House {
            server: Server::new(boot, count),
            service,
            places: [Place { terminal: None }; PLACES],
            requests,
            replies,
        }
    }
}

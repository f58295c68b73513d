ghost use Rattle.std.specs.Prelude.{◌≡◌, ◌≤◌, map, length, sum_by, count_by};
ghost use Rattle.server.specs.Models.{model};
ghost use Rattle.server.specs.Server.{free_trays};
ghost use Rattle.exactly_once.specs.Steps.{stands};
ghost use Rattle.house.specs.Houses.{place_model, house_state, Promised};
ghost use Rattle.house.specs.Summaries.{standing, open_at, open_calls, set_aside};

use crate::places::Place;
use crate::state::House;
use channel::Channel;
use server::Server;
use service::Service;

/// What a house holds, counted.
#[derive(Clone, Copy)]
pub struct Summary {
    /// Terminals whose session stands.
    pub sessions: usize,
    /// Trays that no slot owns.
    pub trays: usize,
    /// Calls open at the terminals, whether their sessions stand or not.
    pub open_calls: usize,
    /// Calls in progress at the sessions that stand, so set aside.
    pub set_aside: usize,
}

fn sessions_in(places: &[Place], server: &Server) -> usize
    ensures { result ≡ count_by (stands (model server.now)) (map place_model places.now) }
{
    places.iter().filter(|place| place.stands(server)).count()
}

impl Place {
    // How many calls are open at its record, if there is one.
    fn open_calls(&self) -> usize
        ensures value { result ≡ open_at (place_model self.now) }
        ensures low { result ≤ 16 }
    {
        self.terminal
            .as_ref()
            .map_or(0, |terminal| terminal.open_calls())
    }
}

fn open_in(places: &[Place]) -> usize
    requires { length places.now ≤ 8 }
    ensures { result ≡ sum_by open_at (map place_model places.now) }
{
    places.iter().map(|place| place.open_calls()).sum()
}

impl<S: Service, Q: Channel, R: Channel> House<S, Q, R> {
    /// Counts what the house holds. Whatever its history is, it keeps the promise of sessions.
    pub fn inspect(&self) -> Summary
        ensures sessions { result.sessions ≡ standing (house_state S.Service Q.Channel R.Channel self.now) }
        ensures trays { result.trays ≡ free_trays (house_state S.Service Q.Channel R.Channel self.now).server }
        ensures open_calls { result.open_calls ≡ open_calls (house_state S.Service Q.Channel R.Channel self.now) }
        ensures set_aside { result.set_aside ≡ set_aside (house_state S.Service Q.Channel R.Channel self.now) }
        ensures keeps { Promised S.Service Q.Channel R.Channel self.now }
    {
        Summary {
            sessions: sessions_in(&self.places, &self.server),
            trays: self.server.free_trays(),
            open_calls: open_in(&self.places),
            set_aside: self.server.in_progress(),
        }
    }
}

ghost use Rattle.std.specs.Prelude.{◌≡◌, ◌<◌, not, length, map, IfSome, slice_index_or};
ghost use Rattle.common.specs.Search.{lowest_at};
ghost use Rattle.wire.specs.Models.{answer_model, id_model};
ghost use Rattle.server.specs.Models.{model};
ghost use Rattle.exactly_once.specs.History.{opened, ok, asked_open, asked_retarget, asked_close};
ghost use Rattle.exactly_once.specs.Steps.{stands};
ghost use Rattle.house.specs.Answers.{answer_by};
ghost use Rattle.house.specs.Houses.{place_model, Met};
ghost use Rattle.house.specs.Sessions.{id_in};

use crate::places::{PLACES, Place};
use crate::state::House;
use channel::Channel;
use server::Server;
use service::Service;
use terminal::Terminal;
use wire::{Refusal, SessionId};

/// The lowest place without a standing session.
fn lowest_vacant(places: &[Place], server: &Server) -> Option<usize>
    ensures found { result ≡ lowest_at (λ p. not (stands (model server.now) (place_model p))) places.now 0 }
    ensures within { IfSome result (λ p. p < length places.now) }
{
    places.iter().position(|place| !place.stands(server))
}

impl Place {
    fn id(&self) -> Result<SessionId, Refusal>
        ensures { answer_model id_model result ≡ id_in (place_model self.now) }
    {
        let terminal = self.terminal.as_ref().ok_or(Refusal::NoTerminal)?;
        Ok(terminal.id())
    }
}

/// The session id of the terminal at a place.
pub(crate) fn id_at(places: &[Place], place: usize) -> Result<SessionId, Refusal>
    ensures { answer_model id_model result ≡ id_in (slice_index_or (map place_model places.now) place None) }
{
    places.get(place).ok_or(Refusal::NoTerminal)?.id()
}

impl<S: Service, Q: Channel, R: Channel> House<S, Q, R> {
    /// Opens a session at the lowest place without one, and tells the place.
    pub fn open(&mut self, target: u32) -> Result<usize, Refusal>
        ensures { Met S.Service Q.Channel R.Channel self.old self.new (asked_open target) (answer_by opened result) }
    {
        // Where the server has room for a session, a place is vacant.
        let place = lowest_vacant(&self.places, &self.server).unwrap_or(PLACES - 1);
        let id = self.server.open(target)?;
        self.places[place] = Place {
            terminal: Some(Terminal::new(id, target)),
        };
        Ok(place)
    }

    /// Gives the session of a terminal another target.
    pub fn retarget(&mut self, terminal: usize, target: u32) -> Result<(), Refusal>
        ensures { Met S.Service Q.Channel R.Channel self.old self.new (asked_retarget terminal target) (answer_by (λ _. ok) result) }
    {
        let id = id_at(&self.places, terminal)?;
        self.server.retarget(id, target)
    }

    /// Closes the session of a terminal.
    pub fn close(&mut self, terminal: usize) -> Result<(), Refusal>
        ensures { Met S.Service Q.Channel R.Channel self.old self.new (asked_close terminal) (answer_by (λ _. ok) result) }
    {
        let id = id_at(&self.places, terminal)?;
        self.server.close(id)
    }
}

ghost use Rattle.std.specs.Prelude.{◌≡◌, ◌+◌, ◌<◌, ◌≤◌, true, is_some, Some, None, sum_by, count_by};
ghost use Rattle.wire.specs.Wire.{SessionId as SessionIdM};
ghost use Rattle.wire.specs.Models.{id_model};
ghost use Rattle.server.specs.Server.{SessionM, session_of, place_of, free_trays, open_slots, open_session, open_in, retarget_session, retarget_in, close_session, after_call};
ghost use Rattle.server.specs.Trays.{Apart, is_free};
ghost use Rattle.server.specs.Models.{model};
ghost use Rattle.server.specs.Places.{session_at, change_at, begun, with_target};
ghost use Rattle.server.specs.Calls.{new_server, opening, after_opening, calling};

use crate::records::{PlaceId, Session, Tray};
use crate::state::{PLACES, Server, TRAYS};
use wire::{Refusal, SessionId};

fn free_in(trays: &[Tray]) -> usize
    ensures { result ≡ count_by is_free trays.now }
{
    trays.iter().filter(|tray| tray.owner.is_none()).count()
}

impl Server {
    /// A server with no session. Its sessions get the boot number, and counts from the first one on.
    pub fn new(boot: u64, count: u64) -> Server
        ensures { model result ≡ new_server boot count }
    {
        Server {
            boot,
            count,
            sessions: [None; PLACES],
            trays: [Tray::free(); TRAYS],
        }
    }

    /// Whether the session of an id stands.
    pub fn stands(&self, id: SessionId) -> bool
        ensures { result ≡ is_some (session_of (model self.now) (id_model id)) }
    {
        self.find(id).is_some()
    }

    /// How many trays no slot owns: 64 less the open slots, since no two of them own one tray.
    pub fn free_trays(&self) -> usize
        ensures value { result ≡ free_trays (model self.now) }
        ensures counted { result + sum_by open_slots (model self.now).sessions ≡ 64 }
        ensures apart { Apart self.now.sessions }
    {
        free_in(&self.trays)
    }

    // A session stands at a vacant place, its slots all shut.
    fn begin(&mut self, place: PlaceId, id: SessionId, target: u32)
        requires vacant { session_at (model self.old) place ≡ None }
        requires counts { self.old.count < 18446744073709551615 }
        requires low { target ≤ 15 }
        ensures { model self.new ≡ begun (model self.old) place (id_model id) target }
    {
        self.count += 1;
        self.sessions[place.get()] = Some(Session::new(id, target));
    }

    // Opens a session at a vacant place.
    fn open_at(&mut self, place: PlaceId, target: u32) -> Result<SessionId, Refusal>
        requires vacant { session_at (model self.old) place ≡ None }
        requires low { target ≤ 15 }
        ensures answer { opening result (model self.new) ≡ open_in (model self.old) target place }
        ensures state { model self.new ≡ after_opening (model self.old) (open_in (model self.old) target place) }
    {
        if self.count == u64::MAX {
            return Err(Refusal::NoCount);
        }
        let slots = target as usize + 1;
        if self.free_trays() < slots {
            return Err(Refusal::FewTrays);
        }
        let id = SessionId {
            boot: self.boot,
            count: self.count,
        };
        self.begin(place, id, target);
        self.open_slots(place, slots);
        Ok(id)
    }

    /// Opens a session with slots 0 to target.
    pub fn open(&mut self, target: u32) -> Result<SessionId, Refusal>
        ensures answer { opening result (model self.new) ≡ open_session (model self.old) target }
        ensures state { model self.new ≡ after_opening (model self.old) (open_session (model self.old) target) }
    {
        if target > 15 {
            return Err(Refusal::HighTarget);
        }
        let place = self.vacant().ok_or(Refusal::NoPlace)?;
        self.open_at(place, target)
    }

    // The session at a place gets another target.
    fn aim(&mut self, place: PlaceId, target: u32)
        requires { target ≤ 15 }
        ensures { model self.new ≡ change_at (model self.old) place (with_target target) }
    {
        if let Some(session) = &mut self.sessions[place.get()] {
            session.target = target;
        }
    }

    // Retargets the session at a place.
    fn retarget_at(&mut self, place: PlaceId, target: u32) -> Result<(), Refusal>
        requires { is_some (session_at (model self.old) place) ≡ true }
        ensures answer { (s : SessionM) → session_at (model self.old) place ≡ Some s → (id : SessionIdM) → place_of (model self.old) id ≡ Some place → calling result (model self.new) ≡ retarget_in (model self.old) id target s }
        ensures state { (s : SessionM) → session_at (model self.old) place ≡ Some s → (id : SessionIdM) → place_of (model self.old) id ≡ Some place → model self.new ≡ after_call (model self.old) (retarget_in (model self.old) id target s) }
    {
        if target > 15 {
            return Err(Refusal::HighTarget);
        }
        let slots = target as usize + 1;
        if self.free_trays() < self.session(place).shut_below(slots) {
            return Err(Refusal::FewTrays);
        }
        self.open_slots(place, slots);
        self.aim(place, target);
        Ok(())
    }

    /// Gives a session another target, and opens each shut slot up to it.
    pub fn retarget(&mut self, id: SessionId, target: u32) -> Result<(), Refusal>
        ensures answer { calling result (model self.new) ≡ retarget_session (model self.old) (id_model id) target }
        ensures state { model self.new ≡ after_call (model self.old) (retarget_session (model self.old) (id_model id) target) }
    {
        let place = self.find(id).ok_or(Refusal::NotStanding)?;
        self.retarget_at(place, target)
    }

    /// Closes a session: its trays are free, and what was set aside there is gone.
    pub fn close(&mut self, id: SessionId) -> Result<(), Refusal>
        ensures answer { calling result (model self.new) ≡ close_session (model self.old) (id_model id) }
        ensures state { model self.new ≡ after_call (model self.old) (close_session (model self.old) (id_model id)) }
    {
        let place = self.find(id).ok_or(Refusal::NotStanding)?;
        self.free_slots(place);
        self.sessions[place.get()] = None;
        Ok(())
    }
}

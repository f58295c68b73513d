ghost use Rattle.std.specs.Prelude.{◌≡◌, ◌+◌, ◌≤◌, true, [], map, length, is_some, Some, None, count_by, slice_index_or};
ghost use Rattle.std.specs.List.{position};
ghost use Rattle.std.specs.Option.{is_none};
ghost use Rattle.wire.specs.Models.{id_model, request_model};
ghost use Rattle.server.specs.Server.{SessionM, place_of, slot_at, free_trays, with_open, accepted, new};
ghost use Rattle.server.specs.Trays.{Owned, is_free, shut_in, tray_of};
ghost use Rattle.server.specs.Models.{model, session_model, entry_model, bears};
ghost use Rattle.server.specs.Places.{bare_in, concluded, emptied, session_at, vacant_place, change_in, change_at, at_slot, at_front, shut_at, shut_below, verdict_at};

use crate::answers::Outcome;
use crate::records::{Entry, PlaceId, Session, Spot, Tray, TrayId};
use crate::state::Server;
use slots::{SLOTS, SlotId, put};
use wire::{Request, SessionId};

fn bears(place: &Option<Session>, id: SessionId) -> bool
    ensures { result ≡ bears id place.now }
{
    place.as_ref().is_some_and(|session| session.id == id)
}

fn first_bearing(places: &[Option<Session>], id: SessionId) -> Option<usize>
    ensures { result ≡ position (bears id) places.now }
{
    places.iter().position(|place| bears(place, id))
}

fn first_vacant(places: &[Option<Session>]) -> Option<usize>
    ensures { result ≡ position is_none places.now }
{
    places.iter().position(|place| place.is_none())
}

// The lowest tray that no slot owns.
fn free_tray(trays: &[Tray]) -> Option<usize>
    ensures { result ≡ position is_free trays.now }
{
    trays.iter().position(|tray| tray.owner.is_none())
}

// The next three take both arrays apart: a method would have the server whole while slot and tray disagree.
// What they need of the arrays stands in the clauses of each for that reason.

// Shuts a slot and frees its tray.
fn release(sessions: &mut [Option<Session>], trays: &mut [Tray], spot: &Spot)
    requires whole { (length sessions.old ≡ 8) × (length trays.old ≡ 64) }
    requires owned { Owned sessions.old trays.old }
    ensures owned { Owned sessions.new trays.new }
    ensures state { map (session_model trays.new) sessions.new ≡ change_in (map (session_model trays.old) sessions.old) spot.now.place (at_slot emptied spot.now.slot) }
{
    let Some(session) = &mut sessions[spot.place.get()] else {
        return;
    };
    let i = spot.slot.get();
    if let Some(tray) = session.slots[i].tray {
        let shut = session.slots[i].opened(None);
        put(&mut session.slots, i, shut);
        // Its bytes stay where they are: no slot reads them, and the next that owns the tray empties it.
        trays[tray.get()].owner = None;
    }
}

// Opens a slot that is shut, with a free tray. Not one function with `release`: each leaves another fact of the free trays.
fn claim(sessions: &mut [Option<Session>], trays: &mut [Tray], spot: &Spot)
    requires whole { (length sessions.old ≡ 8) × (length trays.old ≡ 64) }
    requires owned { Owned sessions.old trays.old }
    requires room { shut_in sessions.old spot.now.place spot.now.slot ≤ count_by is_free trays.old }
    ensures owned { Owned sessions.new trays.new }
    ensures free { count_by is_free trays.new + shut_in sessions.old spot.now.place spot.now.slot ≡ count_by is_free trays.old }
    ensures state { map (session_model trays.new) sessions.new ≡ change_in (map (session_model trays.old) sessions.old) spot.now.place (at_slot (with_open true) spot.now.slot) }
{
    let Some(session) = &mut sessions[spot.place.get()] else {
        return;
    };
    let i = spot.slot.get();
    if session.slots[i].tray.is_some() {
        return;
    }
    if let Some(tray) = free_tray(trays) {
        let open = session.slots[i].opened(TrayId::new(tray));
        put(&mut session.slots, i, open);
        trays[tray].give(*spot);
    }
}

// A new call is in progress at an open slot.
fn accept(sessions: &mut [Option<Session>], trays: &mut [Tray], spot: &Spot, request: Request<'_>)
    requires whole { (length sessions.old ≡ 8) × (length trays.old ≡ 64) }
    requires owned { Owned sessions.old trays.old }
    requires open { is_some (tray_of sessions.old spot.now.place spot.now.slot) ≡ true }
    requires short { length request.body.now ≤ 256 }
    ensures owned { Owned sessions.new trays.new }
    ensures state { map (session_model trays.new) sessions.new ≡ change_in (map (session_model trays.old) sessions.old) spot.now.place (at_slot (λ x. accepted x (request_model request.entry)) spot.now.slot) }
{
    let Some(session) = &mut sessions[spot.place.get()] else {
        return;
    };
    let i = spot.slot.get();
    let slot = session.slots[i];
    let Some(tray) = slot.tray else {
        return;
    };
    trays[tray.get()].put_request(request.body);
    put(&mut session.slots, i, slot.started(request));
}

// The call at a slot has run. Not one function with `accept`: each changes another body.
fn conclude(sessions: &mut [Option<Session>], trays: &mut [Tray], spot: &Spot, outcome: &Outcome)
    requires whole { (length sessions.old ≡ 8) × (length trays.old ≡ 64) }
    requires owned { Owned sessions.old trays.old }
    requires bare { tray_of sessions.old spot.now.place spot.now.slot ≡ None → outcome.now.body ≡ [] }
    ensures owned { Owned sessions.new trays.new }
    ensures state { map (session_model trays.new) sessions.new ≡ change_in (map (session_model trays.old) sessions.old) spot.now.place (at_slot (λ x. concluded x outcome.now.highest outcome.now.target outcome.now.body) spot.now.slot) }
{
    let Some(session) = &mut sessions[spot.place.get()] else {
        return;
    };
    let i = spot.slot.get();
    let slot = session.slots[i];
    let keeps = slot.entry(trays).is_kept();
    put(&mut session.slots, i, slot.concluded(keeps, outcome));
    if let Some(tray) = slot.tray {
        trays[tray.get()].keep(keeps, &outcome.body);
    }
}

impl Server {
    // The place at which the session of an id stands.
    pub(crate) fn find(&self, id: SessionId) -> Option<PlaceId>
        ensures { result ≡ place_of (model self.now) (id_model id) }
    {
        PlaceId::new(first_bearing(&self.sessions, id)?)
    }

    // The lowest place at which none stands.
    pub(crate) fn vacant(&self) -> Option<PlaceId>
        ensures { result ≡ vacant_place (model self.now) }
    {
        PlaceId::new(first_vacant(&self.sessions)?)
    }

    // The session at a place where one stands. That it stands is a clause here and below: no reference to it
    // can be handed on, since its slots change together with the trays.
    pub(crate) fn session(&self, place: PlaceId) -> &Session
        requires { is_some (session_at (model self.now) place) ≡ true }
        ensures { slice_index_or self.now.sessions place None ≡ Some result.now }
    {
        self.sessions[place.get()].as_ref().unwrap()
    }

    // Shuts a slot and frees its tray.
    pub(crate) fn free_slot(&mut self, spot: &Spot)
        ensures { model self.new ≡ change_at (model self.old) spot.now.place (at_slot emptied spot.now.slot) }
    {
        release(&mut self.sessions, &mut self.trays, spot);
    }

    // Opens a slot that is shut, with a free tray.
    pub(crate) fn open_slot(&mut self, spot: &Spot)
        requires room { shut_at (model self.old) spot.now.place spot.now.slot ≤ free_trays (model self.old) }
        ensures state { model self.new ≡ change_at (model self.old) spot.now.place (at_slot (with_open true) spot.now.slot) }
        ensures free { free_trays (model self.new) + shut_at (model self.old) spot.now.place spot.now.slot ≡ free_trays (model self.old) }
    {
        claim(&mut self.sessions, &mut self.trays, spot);
    }

    // Opens each of the first slots that is shut.
    pub(crate) fn open_slots(&mut self, place: PlaceId, count: usize)
        requires few { count ≤ 16 }
        requires room { shut_below (model self.old) place count ≤ free_trays (model self.old) }
        ensures { model self.new ≡ change_at (model self.old) place (at_front (with_open true) count) }
    {
        // By number: each slot claims a tray of the server, which an iterator over the slots would keep lent.
        for i in 0..count {
            if let Some(slot) = SlotId::new(i) {
                self.open_slot(&Spot { place, slot });
            }
        }
    }

    // Shuts every slot and frees its tray.
    pub(crate) fn free_slots(&mut self, place: PlaceId)
        ensures { model self.new ≡ change_at (model self.old) place (at_front emptied 16) }
    {
        // By number, as they are opened. Not one function for both, since only opening needs free trays.
        for i in 0..SLOTS {
            if let Some(slot) = SlotId::new(i) {
                self.free_slot(&Spot { place, slot });
            }
        }
    }

    // The slot at a spot, with its tray.
    pub(crate) fn entry(&self, spot: &Spot) -> Entry<'_>
        requires { is_some (session_at (model self.now) spot.now.place) ≡ true }
        ensures { (s : SessionM) → session_at (model self.now) spot.now.place ≡ Some s → slot_at s spot.now.slot ≡ entry_model result }
    {
        self.session(spot.place).slots[spot.slot.get()].entry(&self.trays)
    }

    // A new call is in progress.
    pub(crate) fn accept_at(&mut self, place: PlaceId, request: Request<'_>)
        requires fresh { verdict_at (model self.old) place (request_model request) ≡ new }
        requires short { length request.body.now ≤ 256 }
        ensures { model self.new ≡ change_at (model self.old) place (at_slot (λ x. accepted x (request_model request.entry)) request.entry.slot) }
    {
        if let Some(slot) = SlotId::new(request.slot as usize) {
            let spot = Spot { place, slot };
            accept(&mut self.sessions, &mut self.trays, &spot, request);
        }
    }

    // Keeps the outcome of a slot's call, if that was asked for or the call is bare.
    pub(crate) fn keep(&mut self, spot: &Spot, outcome: &Outcome)
        requires stands { is_some (session_at (model self.old) spot.now.place) ≡ true }
        requires bare { bare_in (model self.old) spot.now.place spot.now.slot ≡ true → outcome.now.body ≡ [] }
        ensures { model self.new ≡ change_at (model self.old) spot.now.place (at_slot (λ x. concluded x outcome.now.highest outcome.now.target outcome.now.body) spot.now.slot) }
    {
        conclude(&mut self.sessions, &mut self.trays, spot, outcome);
    }
}

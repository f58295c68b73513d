ghost use Rattle.std.specs.Prelude.{◌≡◌, true, [], is_some, Some, Ok, IfOk};
ghost use Rattle.wire.specs.Models.{id_model, answer_model};
ghost use Rattle.slots.specs.Slots.{highest_at};
ghost use Rattle.server.specs.Server.{SlotM, SessionM, place_of, slot_at, run_slot, resume_work, set_work_aside, server_after, content_after, run_highest, run_bytes, run_content, with_slot, finished};
ghost use Rattle.server.specs.Models.{model};
ghost use Rattle.server.specs.Calls.{call_model, running};
ghost use Rattle.server.specs.Places.{Holds, concluded, session_at, change_at, at_slot, works_in, bare_in, settled, ended};

use crate::answers::{Answer, Outcome};
use crate::bodies::reply_of;
use crate::orders::Call;
use crate::records::Spot;
use crate::state::Server;
use service::Service;
use wire::{Refusal, SessionId};

impl Server {
    // Where the call that a work order names is in progress.
    pub(crate) fn in_hand(&self, call: Call) -> Result<Spot, Refusal>
        ensures answer { answer_model (λ _. tt) result ≡ set_work_aside (model self.now) (call_model call) }
        ensures there { IfOk result (λ at. Holds (model self.now) (call_model call) at.place at.slot) }
    {
        let place = self.find(call.id).ok_or(Refusal::NoWork)?;
        let session = self.session(place);
        let slot = session.working_slot(call.slot).ok_or(Refusal::NoWork)?;
        if session.slots[slot.get()].number != call.number {
            return Err(Refusal::NoWork);
        }
        Ok(Spot { place, slot })
    }

    // Shuts a slot whose call in progress is bare and asks for it. That a call is in progress is a clause here and below:
    // a spot that said so by its type would have to be made anew after each change of the server.
    fn settle(&mut self, spot: &Spot)
        requires { works_in (model self.old) spot.now.place spot.now.slot ≡ true }
        ensures { model self.new ≡ change_at (model self.old) spot.now.place (settled spot.now.slot) }
    {
        let target = self.session(spot.place).target;
        if self.entry(spot).shuts(spot.slot.get(), target) {
            self.free_slot(spot);
        }
    }

    // Runs a slot's call, on the service unless it is bare, and keeps its outcome.
    fn end<S: Service>(&mut self, spot: &Spot, service: &mut S) -> Outcome
        requires { is_some (session_at (model self.old) spot.now.place) ≡ true }
        ensures outcome { (s : SessionM) → session_at (model self.old) spot.now.place ≡ Some s → (result.highest ≡ highest_at (λ (x : SlotM). x.is_open) s.slots 0 0) × (result.target ≡ s.target) × (result.body ≡ run_bytes S.Service.model (S.Service.content service.old) (slot_at s spot.now.slot)) }
        ensures state { model self.new ≡ change_at (model self.old) spot.now.place (ended spot.now.slot result.body) }
        ensures content { (s : SessionM) → session_at (model self.old) spot.now.place ≡ Some s → S.Service.content service.new ≡ run_content S.Service.model (S.Service.content service.old) (slot_at s spot.now.slot) }
    {
        let session = self.session(spot.place);
        let highest = session.highest_open();
        let target = session.target;
        let body = reply_of(service, self.entry(spot).request());
        let outcome = Outcome {
            highest,
            target,
            body,
        };
        self.keep(spot, &outcome);
        outcome
    }

    // Runs the call in progress at a slot.
    pub(crate) fn run_at<S: Service>(&mut self, spot: &Spot, service: &mut S) -> Outcome
        requires { works_in (model self.old) spot.now.place spot.now.slot ≡ true }
        ensures outcome { (s : SessionM) → session_at (model self.old) spot.now.place ≡ Some s → (result.highest ≡ run_highest s spot.now.slot) × (result.target ≡ s.target) × (result.body ≡ run_bytes S.Service.model (S.Service.content service.old) (slot_at s spot.now.slot)) }
        ensures state { model self.new ≡ change_at (model self.old) spot.now.place (λ s. with_slot s spot.now.slot (finished s spot.now.slot result.body)) }
        ensures content { (s : SessionM) → session_at (model self.old) spot.now.place ≡ Some s → S.Service.content service.new ≡ run_content S.Service.model (S.Service.content service.old) (slot_at s spot.now.slot) }
    {
        self.settle(spot);
        self.end(spot, service)
    }

    // Runs the call in progress at a slot, and answers it.
    pub(crate) fn answer_at<S: Service>(
        &mut self,
        spot: &Spot,
        id: SessionId,
        service: &mut S,
    ) -> Answer
        requires { works_in (model self.old) spot.now.place spot.now.slot ≡ true }
        ensures { (s : SessionM) → session_at (model self.old) spot.now.place ≡ Some s → place_of (model self.old) (id_model id) ≡ Some spot.now.place → running S.Service.model (Ok result) (model self.new) (S.Service.content service.new) ≡ Ok (run_slot S.Service.model (S.Service.content service.old) (model self.old) (id_model id) spot.now.slot s) }
    {
        let call = Call {
            id,
            slot: spot.slot.get() as u32,
            number: self.session(spot.place).slots[spot.slot.get()].number,
        };
        let outcome = self.run_at(spot, service);
        Answer::done(call, outcome)
    }

    /// Runs the call that was set aside at a slot.
    pub fn resume<S: Service>(
        &mut self,
        id: SessionId,
        slot: u32,
        service: &mut S,
    ) -> Result<Answer, Refusal>
        ensures answer { running S.Service.model result (model self.new) (S.Service.content service.new) ≡ resume_work S.Service.model (S.Service.content service.old) (model self.old) (id_model id) slot }
        ensures state { model self.new ≡ server_after S.Service.model (model self.old) (resume_work S.Service.model (S.Service.content service.old) (model self.old) (id_model id) slot) }
        ensures content { S.Service.content service.new ≡ content_after S.Service.model (S.Service.content service.old) (resume_work S.Service.model (S.Service.content service.old) (model self.old) (id_model id) slot) }
    {
        let place = self.find(id).ok_or(Refusal::NotStanding)?;
        let session = self.session(place);
        let slot = session.working_slot(slot).ok_or(Refusal::NoWork)?;
        Ok(self.answer_at(&Spot { place, slot }, id, service))
    }
}

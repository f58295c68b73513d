ghost use Rattle.std.specs.Prelude.{◌≡◌, ◌≤◌, true, length, is_some, Some, Ok};
ghost use Rattle.wire.specs.Wire.{refusing};
ghost use Rattle.wire.specs.Models.{id_model, request_model, status_number};
ghost use Rattle.server.specs.Server.{SessionM, Serving, place_of, verdict, serve_by, serve_read, serve, outcome_reply};
ghost use Rattle.server.specs.Models.{model, answer_model};
ghost use Rattle.server.specs.Places.{session_at};
ghost use Rattle.server.specs.Calls.{served_model};

use crate::answers::{Answer, Outcome, Served, Verdict};
use crate::orders::{Call, WorkOrder};
use crate::records::PlaceId;
use crate::state::Server;
use slots::Body;
use wire::{Refusal, Request, Status, read_request};

impl Answer {
    // The reply to a request that carries nothing but a status, with bytes of its own: it outlives the request.
    pub(crate) fn refusing(request: Request<'_>, status: Status) -> Answer
        ensures { answer_model result ≡ refusing (request_model request.entry) (status_number status) }
    {
        Answer {
            status,
            id: request.id,
            number: request.number,
            slot: request.slot,
            highest: 0,
            target: 0,
            body: Body::empty(),
        }
    }

    // The reply that carries the outcome of a call.
    pub(crate) fn done(call: Call, outcome: Outcome) -> Answer
        ensures { answer_model result ≡ outcome_reply (id_model call.id) call.number call.slot outcome.highest outcome.target outcome.body }
    {
        Answer {
            status: Status::Ok,
            id: call.id,
            number: call.number,
            slot: call.slot,
            highest: outcome.highest,
            target: outcome.target,
            body: outcome.body,
        }
    }
}

impl Server {
    // Serves a request at the place of its session. That its body is short the reader tells; a request type of its own
    // for that would be one more copy of every field.
    fn serve_at(&mut self, place: PlaceId, request: Request<'_>) -> Served
        requires stands { is_some (session_at (model self.old) place) ≡ true }
        requires short { length request.body.now ≤ 256 }
        ensures { (s : SessionM) → session_at (model self.old) place ≡ Some s → place_of (model self.old) (request_model request.entry).id ≡ Some place → ◌≡◌ {A = Serving} (record { answer = served_model (Ok result); after = model self.new }) (serve_by (verdict s (request_model request.entry)) (model self.old) s (request_model request.entry)) }
    {
        let call = Call {
            id: request.id,
            slot: request.slot,
            number: request.number,
        };
        match self.session(place).judge(&self.trays, request) {
            Verdict::Refuse(status) => Served::Says(Answer::refusing(request, status)),
            Verdict::Repeat(outcome) => Served::Old(Answer::done(call, outcome)),
            Verdict::New => {
                self.accept_at(place, request);
                Served::Work(WorkOrder { call })
            }
        }
    }

    // Serves a request.
    fn handle(&mut self, request: Request<'_>) -> Served
        requires { length request.body.now ≤ 256 }
        ensures { ◌≡◌ {A = Serving} (record { answer = served_model (Ok result); after = model self.new }) (serve_read (model self.old) (Ok (request_model request.entry))) }
    {
        match self.find(request.id) {
            None => Served::Says(Answer::refusing(request, Status::BadSession)),
            Some(place) => self.serve_at(place, request),
        }
    }

    /// Serves any byte string.
    pub fn serve(&mut self, bytes: &[u8]) -> Result<Served, Refusal>
        ensures { ◌≡◌ {A = Serving} (record { answer = served_model result; after = model self.new }) (serve (model self.old) bytes.now) }
    {
        let request = read_request(bytes)?;
        Ok(self.handle(request))
    }
}

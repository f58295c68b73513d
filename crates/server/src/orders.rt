ghost use Rattle.std.specs.Prelude.{◌≡◌};
ghost use Rattle.wire.specs.Models.{itself, answer_model};
ghost use Rattle.server.specs.Server.{run_work, set_work_aside, server_after, content_after};
ghost use Rattle.server.specs.Models.{model};
ghost use Rattle.server.specs.Calls.{work_model, running};

use crate::answers::Answer;
use crate::state::Server;
use service::Service;
use wire::{Refusal, SessionId};

/// The call that a work order names.
// A reader's `Head` has these fields too, but it is private there, since messages are flat for their users.
#[derive(Clone, Copy)]
pub struct Call {
    pub(crate) id: SessionId,
    pub(crate) slot: u32,
    pub(crate) number: u32,
}

/// A work order: a call taken into a slot and not yet run. It cannot be dropped or copied;
/// one runs it or sets it aside, and is rid of it even if that is refused.
pub struct WorkOrder {
    pub(crate) call: Call,
}

impl WorkOrder {
    /// Runs the call.
    pub fn run<S: Service>(self, server: &mut Server, service: &mut S) -> Result<Answer, Refusal>
        ensures answer { running S.Service.model result (model server.new) (S.Service.content service.new) ≡ run_work S.Service.model (S.Service.content service.old) (model server.old) (work_model self) }
        ensures state { model server.new ≡ server_after S.Service.model (model server.old) (run_work S.Service.model (S.Service.content service.old) (model server.old) (work_model self)) }
        ensures content { S.Service.content service.new ≡ content_after S.Service.model (S.Service.content service.old) (run_work S.Service.model (S.Service.content service.old) (model server.old) (work_model self)) }
    {
        let WorkOrder { call } = self;
        let spot = server.in_hand(call)?;
        Ok(server.answer_at(&spot, call.id, service))
    }

    /// Sets the call aside, to be resumed later: it stays in progress.
    pub fn set_aside(self, server: &Server) -> Result<(), Refusal>
        ensures { answer_model itself result ≡ set_work_aside (model server.now) (work_model self) }
    {
        let WorkOrder { call } = self;
        server.in_hand(call).map(|_| ())
    }
}

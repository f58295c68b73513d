ghost use Rattle.std.specs.Prelude.{◌≡◌, ◌<◌};
ghost use Rattle.terminal.specs.Terminal.{begun, at_rest, is_busy, is_ready};
ghost use Rattle.terminal.specs.Models.{call_model, end_model, opened, staled};

use crate::state::{End, OpenCall};
use slots::{Change, Record, next_number};

impl End {
    /// The slot with a call begun: its number rises by one.
    pub(crate) fn begun(self, call: OpenCall) -> End
        requires { self.number < 4294967295 }
        ensures { end_model result ≡ begun (end_model self) (call_model call) }
    {
        End {
            number: self.number + 1,
            call: Some(call),
            ..self
        }
    }

    pub(crate) fn at_rest(self) -> End
        ensures { end_model result ≡ at_rest (end_model self) }
    {
        End { call: None, ..self }
    }
}

impl Record for End {
    ghost active = { λ e. is_busy (end_model e) };

    ghost ready = { λ e. is_ready (end_model e) };

    fn is_active(&self) -> bool {
        self.call.is_some()
    }

    fn is_ready(&self) -> bool {
        self.usable && self.call.is_none() && next_number(self.number).is_some()
    }
}

/// A slot becomes usable.
#[derive(Drop)]
pub(crate) struct Opening;

impl Change<End> for Opening {
    ghost changed = { λ _ e. opened e };

    fn apply(&self, kept: &mut End) {
        kept.usable = true;
    }
}

/// A slot's open call, if any, ceases to be fresh.
#[derive(Drop)]
pub(crate) struct Staling;

impl Change<End> for Staling {
    ghost changed = { λ _ e. staled e };

    fn apply(&self, kept: &mut End) {
        if let Some(call) = &mut kept.call {
            call.fresh = false;
        }
    }
}

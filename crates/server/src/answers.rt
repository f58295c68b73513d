ghost use Rattle.std.specs.Prelude.{◌≤◌};
ghost use Rattle.server.specs.Fits.{Fits};

use crate::orders::WorkOrder;
use slots::Body;
use wire::{SessionId, Status};

/// The outcome of a finished call. Highest and target are two fields, as in replies and in the rules. What is kept of it in a slot is the same but for the body, which lies in the tray.
#[derive(Clone, Copy)]
pub struct Outcome {
    pub(crate) highest: u32,
    pub(crate) target: u32,
    pub(crate) body: Body,
    ghost low: { (highest ≤ 15) × (target ≤ 15) },
}

/// What a slot says of a request: a status, the outcome of the call that it repeats, or that it is new.
/// No Result, since a status is an answer of the rules like the others and none of the three ends the judging.
#[derive(Clone, Copy)]
pub enum Verdict {
    Refuse(Status),
    Repeat(Outcome),
    New,
}

/// A reply with bytes of its own. No `Reply` over another body, since this one can always be written.
#[derive(Clone, Copy)]
pub struct Answer {
    pub(crate) status: Status,
    pub(crate) id: SessionId,
    pub(crate) number: u32,
    pub(crate) slot: u32,
    pub(crate) highest: u32,
    pub(crate) target: u32,
    pub(crate) body: Body,
    ghost fit: { Fits status highest target body },
}

/// What serving a request gives: a reply with a status, a reply with an old outcome, or a work order.
pub enum Served {
    Says(Answer),
    Old(Answer),
    Work(WorkOrder),
}

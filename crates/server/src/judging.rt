ghost use Rattle.std.specs.Prelude.{◌≡◌, ℕ, ◌≤◌, ◌&&◌, cond, List, length, None, nat_lt};
ghost use Rattle.wire.specs.Models.{request_model};
ghost use Rattle.server.specs.Server.{new_slot, is_working, is_same, judge_last, judge_repeat, is_repeat, is_new, is_bare, is_kept, judge_new, bad_highest, judge, accepted};
ghost use Rattle.server.specs.Trays.{no_tray};
ghost use Rattle.server.specs.Models.{last_model, slot_model, slot_in, tray_lent, entry_model, verdict_model};
ghost use Rattle.server.specs.Places.{concluded};

use crate::answers::{Outcome, Verdict};
use crate::records::{Entry, Last, Slot, Tray, TrayId};
use slots::{Body, next_number};
use wire::{Request, Status};

impl Last {
    pub(crate) fn is_working(self) -> bool
        ensures { (b : List ℕ) → result ≡ is_working (last_model self b) }
    {
        matches!(self, Last::InProgress)
    }
}

fn bad_highest(request: Request<'_>) -> bool
    ensures { result ≡ bad_highest (request_model request.entry) }
{
    request.highest > 15 || request.highest < request.slot && request.body.len() > 0
}

impl Slot {
    // Never used. No derived `Default`: the contract tells what it means, which a derived one would not.
    pub(crate) fn new() -> Slot
        ensures shut { result.tray ≡ None }
        ensures value { slot_model no_tray result ≡ new_slot }
    {
        Slot {
            tray: None,
            number: 0,
            highest: 0,
            keep: false,
            last: Last::Never,
        }
    }

    // The slot with a tray; one that opens keeps all else.
    pub(crate) fn opened(mut self, tray: Option<TrayId>) -> Slot
        ensures { result ≡ record self { tray = tray } }
    {
        self.tray = tray;
        self
    }

    // The slot with its tray.
    pub(crate) fn entry<'a>(&'a self, trays: &'a [Tray]) -> Entry<'a>
        requires { length trays.now ≡ 64 }
        ensures { entry_model result ≡ slot_in trays.now self.now }
    {
        let tray = match self.tray {
            Some(tray) => Some(&trays[tray.get()]),
            None => None,
        };
        Entry { slot: self, tray }
    }

    // A call is in progress at the slot.
    pub(crate) fn started(mut self, request: Request<'_>) -> Slot
        ensures value { (t : Tray) → slot_model (record t { request = request.entry.body.now }) result ≡ accepted (slot_model t self) (request_model request.entry) }
        ensures tray { result.tray ≡ self.tray }
    {
        self.number = request.number;
        self.highest = request.highest;
        self.keep = request.keep;
        self.last = Last::InProgress;
        self
    }

    // The slot's call has run. Its outcome is kept, if it is to be.
    pub(crate) fn concluded(mut self, keeps: bool, outcome: &Outcome) -> Slot
        ensures value { (t : Tray) → is_kept (slot_model t self) ≡ keeps → slot_model (record t { reply = cond keeps outcome.now.body t.reply }) result ≡ concluded (slot_model t self) outcome.now.highest outcome.now.target outcome.now.body }
        ensures tray { result.tray ≡ self.tray }
    {
        if keeps {
            self.last = Last::Kept {
                highest: outcome.highest,
                target: outcome.target,
            };
        } else {
            self.last = Last::NotKept;
        }
        self
    }
}

impl Entry<'_> {
    // The body of its last request.
    pub(crate) fn request(&self) -> &[u8]
        ensures { result.now ≡ (entry_model self.now).body }
    {
        match self.tray {
            Some(tray) => tray.request.as_slice(),
            None => &[],
        }
    }

    fn is_same(&self, request: Request<'_>) -> bool
        ensures { result ≡ is_same (entry_model self.now) (request_model request.entry) }
    {
        self.slot.highest == request.highest
            && self.slot.keep == request.keep
            && self.request() == request.body
    }

    // The reply body that was kept.
    fn reply(&self) -> Body
        ensures { result ≡ (tray_lent self.now.tray).reply }
    {
        match self.tray {
            Some(tray) => tray.reply,
            None => Body::empty(),
        }
    }

    fn judge_last(&self) -> Verdict
        ensures { verdict_model result ≡ judge_last (entry_model self.now).last }
    {
        match self.slot.last {
            Last::Never | Last::NotKept => Verdict::Refuse(Status::RetryUncachedRep),
            Last::InProgress => Verdict::Refuse(Status::Delay),
            Last::Kept { highest, target } => Verdict::Repeat(Outcome {
                highest,
                target,
                body: self.reply(),
            }),
        }
    }

    fn judge_repeat(&self, request: Request<'_>) -> Verdict
        ensures { verdict_model result ≡ judge_repeat (entry_model self.now) (request_model request.entry) }
    {
        if self.is_same(request) {
            self.judge_last()
        } else {
            Verdict::Refuse(Status::SeqFalseRetry)
        }
    }

    fn judge_new(&self, request: Request<'_>) -> Verdict
        ensures { verdict_model result ≡ judge_new (entry_model self.now) (request_model request.entry) }
    {
        if self.slot.tray.is_none() {
            return Verdict::Refuse(Status::BadSlot);
        }
        if bad_highest(request) {
            return Verdict::Refuse(Status::BadHighSlot);
        }
        Verdict::New
    }

    fn is_repeat(&self, request: Request<'_>) -> bool
        ensures { result ≡ is_repeat (entry_model self.now) (request_model request.entry) }
    {
        request.number == self.slot.number && request.number != 0
    }

    fn is_new(&self, request: Request<'_>) -> bool
        ensures { result ≡ is_new (entry_model self.now) (request_model request.entry) }
    {
        next_number(self.slot.number) == Some(request.number) && !self.slot.last.is_working()
    }

    // The decision on a sequence number.
    pub(crate) fn judge(&self, request: Request<'_>) -> Verdict
        ensures { verdict_model result ≡ judge (entry_model self.now) (request_model request.entry) }
    {
        if self.is_repeat(request) {
            return self.judge_repeat(request);
        }
        if self.is_new(request) {
            return self.judge_new(request);
        }
        Verdict::Refuse(Status::SeqMisordered)
    }

    pub(crate) fn is_bare(&self) -> bool
        ensures { result ≡ is_bare (entry_model self.now) }
    {
        self.request().is_empty()
    }

    // Whether the slot, number `slot`, is open and its call shuts it when it runs.
    pub(crate) fn shuts(&self, slot: usize, target: u32) -> bool
        ensures { result ≡ ((entry_model self.now).is_open && (is_bare (entry_model self.now) && (nat_lt self.now.slot.now.highest slot && nat_lt target slot))) }
    {
        self.slot.tray.is_some()
            && self.is_bare()
            && (self.slot.highest as usize) < slot
            && (target as usize) < slot
    }

    // Whether the outcome of its call is to be kept: if that was asked for, and always without a body.
    pub(crate) fn is_kept(&self) -> bool
        ensures { result ≡ is_kept (entry_model self.now) }
    {
        self.is_bare() || self.slot.keep
    }
}

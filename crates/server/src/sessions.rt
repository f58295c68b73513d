ghost use Rattle.std.specs.Prelude.{◌≡◌, ℕ, ◌≤◌, cond, ◌&&◌, List, [], length, take, replicate, is_some, Some, None, count_by, not};
ghost use Rattle.slots.specs.Slots.{highest_at};
ghost use Rattle.wire.specs.Models.{id_model, request_model};
ghost use Rattle.server.specs.Server.{is_working, new_slot, works_at, verdict};
ghost use Rattle.server.specs.Trays.{tray_in, slots_open};
ghost use Rattle.server.specs.Models.{last_model, standing_model, verdict_model};

use crate::answers::Verdict;
use crate::records::{Session, Slot, Tray};
use slots::{Record, SLOTS, SlotId, highest_active};
use wire::{Request, SessionId, Status};

impl Record for Slot {
    ghost active = { λ x. is_some x.tray };

    ghost ready = { λ x. is_some x.tray && not (is_working (last_model x.last [])) };

    fn is_active(&self) -> bool {
        self.tray.is_some()
    }

    fn is_ready(&self) -> bool {
        self.tray.is_some() && !self.last.is_working()
    }
}

impl Session {
    // A session whose slots are all shut.
    pub(crate) fn new(id: SessionId, target: u32) -> Session
        requires { target ≤ 15 }
        ensures value { (ts : List Tray) → standing_model ts result ≡ record { id = id_model id; target = target; slots = replicate 16 new_slot } }
        ensures none { ((i : ℕ) → tray_in (Some result) i ≡ None) × (slots_open (Some result) ≡ 0) }
    {
        Session {
            id,
            target,
            slots: [Slot::new(); SLOTS],
        }
    }

    // How many of the first slots are shut.
    pub(crate) fn shut_below(&self, n: usize) -> usize
        requires { n ≤ 16 }
        ensures { result ≡ count_by (λ (x : Slot). not (is_some x.tray)) (take n self.now.slots) }
    {
        self.slots[..n]
            .iter()
            .filter(|slot| slot.tray.is_none())
            .count()
    }

    // The slot of that number, if a call is in progress there.
    pub(crate) fn working_slot(&self, slot: u32) -> Option<SlotId>
        ensures { (ts : List Tray) → result ≡ cond (works_at (standing_model ts self.now) slot) (Some slot) None }
    {
        SlotId::new(slot as usize).filter(|slot| self.slots[slot.get()].last.is_working())
    }

    // The highest open slot.
    pub(crate) fn highest_open(&self) -> u32
        ensures low { result ≤ 15 }
        ensures value { result ≡ highest_at (λ (x : Slot). is_some x.tray) self.now.slots 0 0 }
    {
        highest_active(&self.slots) as u32
    }

    pub(crate) fn judge(&self, trays: &[Tray], request: Request<'_>) -> Verdict
        requires { length trays.now ≡ 64 }
        ensures { verdict_model result ≡ verdict (standing_model trays.now self.now) (request_model request.entry) }
    {
        let Some(slot) = SlotId::new(request.slot as usize) else {
            return Verdict::Refuse(Status::BadSlot);
        };
        let entry = self.slots[slot.get()].entry(trays);
        entry.judge(request)
    }
}

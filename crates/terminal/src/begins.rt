ghost use Rattle.std.specs.Prelude.{◌≡◌, ◌<◌, IfOk};
ghost use Rattle.wire.specs.Models.{answer_model, itself};
ghost use Rattle.terminal.specs.Terminal.{end_at, with_end, begun, order_highest, order_sends, part_sends, resend_sends, can_part, after_sending};
ghost use Rattle.terminal.specs.Models.{terminal_model, call_model};
ghost use Rattle.terminal.specs.Sends.{slot_of};

use crate::state::{OpenCall, Terminal};
use slots::{Body, Record, SLOTS};
use wire::Refusal;

impl Terminal {
    fn begin(&mut self, slot: usize, call: OpenCall)
        requires { (end_at (terminal_model self.old) slot).number < 4294967295 }
        ensures { terminal_model self.new ≡ with_end (terminal_model self.old) slot (begun (end_at (terminal_model self.old) slot) (call_model call)) }
    {
        let end = self.end_at(slot);
        self.put_end(slot, end.begun(call));
    }

    /// The highest slot with an open call once one is begun at that slot.
    fn highest_with(&self, slot: usize) -> usize
        ensures { result ≡ order_highest (terminal_model self.now) slot }
    {
        slot.max(self.highest())
    }

    /// Begins a call with that body at the lowest slot that can take one, and tells the slot.
    pub(crate) fn begin_order(&mut self, keep: bool, body: &[u8]) -> Result<usize, Refusal>
        ensures answer { answer_model itself result ≡ slot_of (order_sends (terminal_model self.old) keep body.now) }
        ensures terminal { terminal_model self.new ≡ after_sending (terminal_model self.old) (order_sends (terminal_model self.old) keep body.now) }
        ensures resends { IfOk result (λ i. resend_sends (terminal_model self.new) i ≡ order_sends (terminal_model self.old) keep body.now) }
    {
        let body = Body::copied(body).ok_or(Refusal::LongBody)?;
        let slot = self.lowest().ok_or(Refusal::NoSlot)?;
        let call = OpenCall {
            highest: self.highest_with(slot) as u32,
            keep,
            body,
            part: false,
            fresh: true,
        };
        self.begin(slot, call);
        Ok(slot)
    }

    /// Whether a part may be sent at that slot.
    fn can_part(&self, slot: usize) -> bool
        ensures { result ≡ can_part (terminal_model self.now) slot }
    {
        1 <= slot && slot < SLOTS && (self.heard as usize) < slot && self.end_at(slot).is_ready()
    }

    /// Begins a part at that slot.
    pub(crate) fn begin_part(&mut self, slot: usize) -> Result<usize, Refusal>
        ensures answer { answer_model itself result ≡ slot_of (part_sends (terminal_model self.old) slot) }
        ensures terminal { terminal_model self.new ≡ after_sending (terminal_model self.old) (part_sends (terminal_model self.old) slot) }
        ensures resends { IfOk result (λ i. resend_sends (terminal_model self.new) i ≡ part_sends (terminal_model self.old) slot) }
    {
        if !self.can_part(slot) {
            return Err(Refusal::NoPart);
        }
        let call = OpenCall {
            highest: slot as u32 - 1,
            keep: false,
            body: Body::empty(),
            part: true,
            fresh: true,
        };
        self.begin(slot, call);
        Ok(slot)
    }
}

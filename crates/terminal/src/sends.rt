ghost use Rattle.std.specs.Prelude.{◌≡◌, ◌≤◌, length, IfOk};
ghost use Rattle.wire.specs.Models.{answer_model, itself, request_model};
ghost use Rattle.terminal.specs.Terminal.{call_request, order_sends, part_sends, resend_sends, after_sending};
ghost use Rattle.terminal.specs.Models.{terminal_model, call_model};
ghost use Rattle.terminal.specs.Sends.{in_scratch, told, scratch_after, message_of, front_of};

use crate::state::{OpenCall, Terminal};
use wire::{Refusal, Request, has_room, write};

/// A message that stands at the front of the caller's scratch: the slot of its call, and its length.
// A length and no slice: one that lent the scratch would leave its value at the exit unknown.
// That it fits is a clause and no ghost field: `told` makes one of any sending, whose message the rules do not bound.
#[derive(Clone, Copy)]
pub struct Sent {
    pub slot: usize,
    pub len: usize,
}

// The three functions that send repeat their clauses, each by its name, since a caller takes them one by one.
// A slot is any number: one that no slot has is refused.
impl Terminal {
    /// Begins a call with that body at the lowest slot that can take one, and writes its request to the front of
    /// the scratch. Nothing changes where it is refused.
    pub fn order(&mut self, keep: bool, body: &[u8], scratch: &mut [u8]) -> Result<Sent, Refusal>
        ensures answer { answer_model itself result ≡ told (in_scratch (length scratch.old) (order_sends (terminal_model self.old) keep body.now)) }
        ensures terminal { terminal_model self.new ≡ after_sending (terminal_model self.old) (in_scratch (length scratch.old) (order_sends (terminal_model self.old) keep body.now)) }
        ensures scratch { scratch.new ≡ scratch_after scratch.old (in_scratch (length scratch.old) (order_sends (terminal_model self.old) keep body.now)) }
        ensures message { front_of result scratch.new ≡ message_of (in_scratch (length scratch.old) (order_sends (terminal_model self.old) keep body.now)) }
        ensures fits { IfOk result (λ s. s.len ≤ 304) }
    {
        has_room(scratch)?;
        let slot = self.begin_order(keep, body)?;
        self.resend(slot, scratch)
    }

    // Not one function with `order` over a closure: each contract names what is begun, and the closure would hide it.
    /// Offers to part with a slot above the heard target: begins a bare call there, and writes its request likewise.
    pub fn part(&mut self, slot: usize, scratch: &mut [u8]) -> Result<Sent, Refusal>
        ensures answer { answer_model itself result ≡ told (in_scratch (length scratch.old) (part_sends (terminal_model self.old) slot)) }
        ensures terminal { terminal_model self.new ≡ after_sending (terminal_model self.old) (in_scratch (length scratch.old) (part_sends (terminal_model self.old) slot)) }
        ensures scratch { scratch.new ≡ scratch_after scratch.old (in_scratch (length scratch.old) (part_sends (terminal_model self.old) slot)) }
        ensures message { front_of result scratch.new ≡ message_of (in_scratch (length scratch.old) (part_sends (terminal_model self.old) slot)) }
        ensures fits { IfOk result (λ s. s.len ≤ 304) }
    {
        has_room(scratch)?;
        let slot = self.begin_part(slot)?;
        self.resend(slot, scratch)
    }

    /// The request of the call with that number at a slot.
    fn request<'a>(&self, slot: u32, number: u32, call: &'a OpenCall) -> Request<'a>
        ensures value { request_model result ≡ call_request (terminal_model self.now) slot number (call_model call.now) }
        ensures short { length result.body.now ≤ 256 }
    {
        Request {
            id: self.id,
            number,
            slot,
            highest: call.highest,
            keep: call.keep,
            body: call.body.as_slice(),
        }
    }

    /// Writes the open call of a slot again, the same bytes as at first.
    pub fn resend(&self, slot: usize, scratch: &mut [u8]) -> Result<Sent, Refusal>
        ensures answer { answer_model itself result ≡ told (in_scratch (length scratch.old) (resend_sends (terminal_model self.now) slot)) }
        ensures scratch { scratch.new ≡ scratch_after scratch.old (in_scratch (length scratch.old) (resend_sends (terminal_model self.now) slot)) }
        ensures message { front_of result scratch.new ≡ message_of (in_scratch (length scratch.old) (resend_sends (terminal_model self.now) slot)) }
        ensures fits { IfOk result (λ s. s.len ≤ 304) }
    {
        has_room(scratch)?;
        let end = self.seen(slot).ok_or(Refusal::NoOpenCall)?;
        let call = end.call.as_ref().ok_or(Refusal::NoOpenCall)?;
        let len = write(self.request(slot as u32, end.number, call), scratch)?;
        Ok(Sent { slot, len })
    }
}

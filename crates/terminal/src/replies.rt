ghost use Rattle.std.specs.Prelude.{◌≡◌};
ghost use Rattle.std.specs.Option.{option_map};
ghost use Rattle.wire.specs.Models.{answer_model, reply_model};
ghost use Rattle.terminal.specs.Terminal.{closed, parted, learns_target, learns, reply_effect, after_effect, after_accept};
ghost use Rattle.terminal.specs.Models.{terminal_model, end_model, call_model};
ghost use Rattle.terminal.specs.Replies.{effect_model, accept_answer, call_numbered, call_of};

use crate::state::{End, OpenCall, Terminal};
use wire::{Refusal, Reply, Status};

/// What a reply did to the open call that it belongs to. B holds the body of the reply.
#[derive(Clone, Copy, PartialEq, Eq, Debug)]
pub enum Effect<B> {
    /// Closed: it was served, and this is its reply.
    Answered(B),
    /// Closed: it was served, but its reply was not kept.
    Done,
    /// Closed: its session is gone, so whether it was served is not known.
    Unknown,
    /// Still open: the server did not serve it at this time.
    StillOpen(Status),
}

impl End {
    /// The open call, if it has that number.
    fn call_numbered(&self, number: u32) -> Option<OpenCall>
        ensures { option_map call_model result ≡ call_numbered number (end_model self.now) }
    {
        self.call.filter(|_| self.number == number)
    }
}

fn effect_of(reply: Reply<'_>) -> Effect<&[u8]>
    ensures { effect_model result ≡ reply_effect (reply_model reply.entry) }
{
    match reply.status {
        Status::Ok => Effect::Answered(reply.body),
        Status::RetryUncachedRep => Effect::Done,
        Status::BadSession => Effect::Unknown,
        status => Effect::StillOpen(status),
    }
}

impl Terminal {
    /// The open call that a reply belongs to: session id, slot and number agree.
    fn call_of(&self, reply: Reply<'_>) -> Option<OpenCall>
        ensures { option_map call_model result ≡ call_of (terminal_model self.now) (reply_model reply.entry) }
    {
        if !self.has_id(reply.id) {
            return None;
        }
        self.end_at(reply.slot as usize).call_numbered(reply.number)
    }

    fn close(&mut self, slot: usize)
        ensures { terminal_model self.new ≡ closed (terminal_model self.old) slot }
    {
        let end = self.end_at(slot);
        self.put_end(slot, end.at_rest());
    }

    /// A slot stops being usable. What the other open calls' replies say of the target may be older than this.
    fn shut(&mut self, slot: usize)
        ensures { terminal_model self.new ≡ parted (terminal_model self.old) slot }
    {
        let end = self.end_at(slot);
        self.put_end(
            slot,
            End {
                usable: false,
                ..end
            },
        );
        self.stale_all();
    }

    // The call and its reply stay two arguments here and below: the rules' definitions take them so.
    fn learn_target(&mut self, call: OpenCall, reply: Reply<'_>)
        ensures { terminal_model self.new ≡ learns_target (terminal_model self.old) (call_model call) (reply_model reply.entry) }
    {
        if call.fresh {
            self.hear(reply.target);
        }
    }

    /// What the reply to a served call tells: the target, and of a part, whether its slot is given up.
    fn learn(&mut self, call: OpenCall, reply: Reply<'_>)
        ensures { terminal_model self.new ≡ learns (terminal_model self.old) (call_model call) (reply_model reply.entry) }
    {
        let given_up = call.part && reply.target < reply.slot;
        self.learn_target(call, reply);
        if given_up {
            self.shut(reply.slot as usize);
        }
    }

    fn settle(&mut self, call: OpenCall, reply: Reply<'_>, effect: Effect<&[u8]>)
        ensures { terminal_model self.new ≡ after_effect (terminal_model self.old) (call_model call) (reply_model reply.entry) (effect_model effect.entry) }
    {
        match effect {
            Effect::Answered(_) => {
                self.close(reply.slot as usize);
                self.learn(call, reply);
            }
            Effect::Done | Effect::Unknown => self.close(reply.slot as usize),
            Effect::StillOpen(_) => {}
        }
    }

    /// Takes a reply: closes the open call that it belongs to, if its status does, and learns what it tells.
    pub fn accept<'a>(&mut self, reply: Reply<'a>) -> Result<Effect<&'a [u8]>, Refusal>
        ensures answer { answer_model effect_model result ≡ accept_answer (terminal_model self.old) (reply_model reply.entry) }
        ensures terminal { terminal_model self.new ≡ after_accept (terminal_model self.old) (reply_model reply.entry) }
    {
        let call = self.call_of(reply).ok_or(Refusal::NoCall)?;
        let effect = effect_of(reply);
        self.settle(call, reply, effect);
        Ok(effect)
    }
}

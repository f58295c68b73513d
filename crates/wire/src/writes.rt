ghost use Rattle.std.specs.Prelude.{◌≡◌, ℕ, ◌≤◌, if◌then◌else◌, length, take, Ok, Err, None, Option, IfOk, nat_lt};
ghost use Rattle.common.specs.Bytes.{Bytes};
ghost use Rattle.wire.specs.Wire.{request_message, reply_message, forbidden_request, forbidden_reply, permits, short_scratch, write_answer, write_out};
ghost use Rattle.wire.specs.Models.{answer_model, itself, request_model, reply_model};
ghost use Rattle.wire.specs.Written.{written};

use crate::messages::{Reply, Request};
use crate::refusals::Refusal;
use crate::writer::Writer;

/// The room that any message fits in.
pub const ROOM: usize = 304;

/// Refuses a buffer that has not the room.
pub fn has_room(buffer: &[u8]) -> Result<(), Refusal>
    ensures { answer_model itself result ≡ (if nat_lt (length buffer.now) 304 then Err short_scratch else Ok tt) }
{
    if buffer.len() < ROOM {
        return Err(Refusal::ShortScratch);
    }
    Ok(())
}

// No default for `assembled`: it would make two private functions of each message methods of this public trait.
/// What can be written: a request or a reply.
pub trait Message: Drop {
    // Its bytes.
    ghost message: { Self → Bytes };

    // The offset of its first forbidden field.
    ghost forbidden: { Self → Option ℕ };

    /// The message, or the refusal of its first forbidden field.
    fn assembled(&self) -> Result<Writer, Refusal>
        ensures { answer_model written result ≡ permits (message self.now) (forbidden self.now) };
}

// A message's `forbidden` gives the offset and not yet this refusal: the rules' definitions give the offset.
/// The refusal of a forbidden field, if there is one.
fn permit(forbidden: Option<usize>) -> Result<(), Refusal>
    ensures { answer_model itself result ≡ permits tt forbidden }
{
    match forbidden {
        Some(offset) => Err(Refusal::Unreadable { offset }),
        None => Ok(()),
    }
}

impl Request<'_> {
    fn forbidden(&self) -> Option<usize>
        ensures { result ≡ forbidden_request (request_model self.now) }
    {
        (self.body.len() > 256).then_some(36)
    }

    fn fields(&self) -> Writer
        requires { forbidden_request (request_model self.now) ≡ None }
        ensures { written result ≡ request_message (request_model self.now) }
    {
        let mut writer = Writer::new();
        writer.u32(53);
        writer.head(self.id, self.number, self.slot);
        writer.u32(self.highest);
        writer.u32(u32::from(self.keep));
        writer.body(self.body);
        writer
    }
}

impl Message for Request<'_> {
    ghost message = { λ q. request_message (request_model q) };

    ghost forbidden = { λ q. forbidden_request (request_model q) };

    fn assembled(&self) -> Result<Writer, Refusal> {
        permit(self.forbidden())?;
        Ok(self.fields())
    }
}

impl Reply<'_> {
    fn forbidden(&self) -> Option<usize>
        ensures { result ≡ forbidden_reply (reply_model self.now) }
    {
        let top = self.status.top();
        if self.highest > top {
            return Some(32);
        }
        if self.target > top {
            return Some(36);
        }
        let longest = self.status.longest() as usize;
        (self.body.len() > longest).then_some(44)
    }

    fn fields(&self) -> Writer
        requires { forbidden_reply (reply_model self.now) ≡ None }
        ensures { written result ≡ reply_message (reply_model self.now) }
    {
        let mut writer = Writer::new();
        writer.u32(53);
        writer.u32(u32::from(self.status));
        writer.head(self.id, self.number, self.slot);
        writer.u32(self.highest);
        writer.u32(self.target);
        writer.u32(0);
        writer.body(self.body);
        writer
    }
}

impl Message for Reply<'_> {
    ghost message = { λ r. reply_message (reply_model r) };

    ghost forbidden = { λ r. forbidden_reply (reply_model r) };

    fn assembled(&self) -> Result<Writer, Refusal> {
        permit(self.forbidden())?;
        Ok(self.fields())
    }
}

/// Writes a message into the front of a buffer of at least 304 bytes, and tells its length.
/// The buffer is the caller's, and what lies behind the message stays, so that a length is told and no slice.
/// The buffer is judged first, then the fields. A refusal leaves the buffer as it was.
pub fn write<M: Message>(message: M, out: &mut [u8]) -> Result<usize, Refusal>
    ensures answer { answer_model itself result ≡ write_answer (M.forbidden message) (M.message message) (length out.old) }
    ensures out { out.new ≡ write_out (M.message message) out.old (answer_model itself result) }
    ensures message { IfOk result (λ n. take n out.new ≡ M.message message) }
    ensures fits { IfOk result (λ n. n ≤ 304) }
{
    has_room(out)?;
    let writer = message.assembled()?;
    let bytes = writer.as_slice();
    out[..bytes.len()].copy_from_slice(bytes);
    Ok(bytes.len())
}

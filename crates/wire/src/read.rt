ghost use Rattle.std.specs.Prelude.{◌≡◌, ◌≤◌, length, IfOk};
ghost use Rattle.wire.specs.Wire.{read_request, read_reply};
ghost use Rattle.wire.specs.Models.{answer_model, request_model, reply_model};

use crate::messages::{Reply, Request};
use crate::reader::Reader;
use crate::refusals::Refusal;

// Two functions and no `TryFrom`: that has one relation for both clauses, and callers use each by its name.

/// Reads any byte string as a request; its body is lent from the bytes.
pub fn read_request(bytes: &[u8]) -> Result<Request<'_>, Refusal>
    ensures value { answer_model request_model result ≡ read_request bytes.now }
    ensures short { IfOk result (λ q. length q.body.now ≤ 256) }
{
    Reader::new(bytes).request()
}

/// Reads any byte string as a reply.
pub fn read_reply(bytes: &[u8]) -> Result<Reply<'_>, Refusal>
    ensures value { answer_model reply_model result ≡ read_reply bytes.now }
    ensures short { IfOk result (λ p. length p.body.now ≤ 256) }
{
    Reader::new(bytes).reply()
}

ghost use Rattle.std.specs.Prelude.{◌≡◌, ◌++◌, length, drop};
ghost use Rattle.ledger.specs.Forms.{reply_bytes, reply_read};

use crate::refused::Refused;

/// What the ledger answers where it refuses nothing.
#[derive(Clone, Copy, PartialEq, Eq, Debug)]
pub enum Answer {
    /// A move is done: the two new counts.
    Moved { from: u32, to: u32 },
    /// What a bin holds.
    Counted { grams: u32 },
}

/// Writes the reply at the front of the buffer, and says how long it is.
// The tree refuses in the same form, but the services know nothing of one another.
pub fn write_reply(outcome: Result<Answer, Refused>, out: &mut [u8; 256]) -> usize
    ensures size { result ≡ length (reply_bytes outcome) }
    ensures out { out.new ≡ reply_bytes outcome ++ drop result out.old }
{
    match outcome {
        Ok(Answer::Moved { from, to }) => {
            out[0] = 0;
            out[1..5].copy_from_slice(&from.to_be_bytes());
            out[5..9].copy_from_slice(&to.to_be_bytes());
            9
        }
        Ok(Answer::Counted { grams }) => {
            out[0] = 0;
            out[1..5].copy_from_slice(&grams.to_be_bytes());
            5
        }
        Err(refused) => {
            out[0] = refused.into();
            1
        }
    }
}

/// What a reply says, if it is one of the ledger's.
// No `TryFrom`: there is one way to be none of its replies, so that an error would say no more than none does.
pub fn read_reply(reply: &[u8]) -> Option<Result<Answer, Refused>>
    ensures { result ≡ reply_read reply.now }
{
    match reply {
        [0, a, b, c, d] => {
            let grams = u32::from_be_bytes([*a, *b, *c, *d]);
            Some(Ok(Answer::Counted { grams }))
        }
        [0, a, b, c, d, e, f, g, h] => {
            let from = u32::from_be_bytes([*a, *b, *c, *d]);
            let to = u32::from_be_bytes([*e, *f, *g, *h]);
            Some(Ok(Answer::Moved { from, to }))
        }
        [status] => {
            let refused = Refused::try_from(*status).ok()?;
            Some(Err(refused))
        }
        _ => None,
    }
}

ghost use Rattle.std.specs.Prelude.{◌≡◌, ◌++◌, length, drop, Ok};
ghost use Rattle.tree.specs.Replies.{reply_bytes};

use crate::nodes::{Kind, NodeId};
use crate::refused::Refused;

/// What the tree answers where it refuses nothing.
#[derive(Clone, Copy, PartialEq, Eq, Debug)]
pub enum Answer {
    /// Made, removed or moved.
    Done,
    /// The node of a name, and its kind.
    Found { node: NodeId, kind: Kind },
}

impl Answer {
    fn write(self, out: &mut [u8; 256]) -> usize
        ensures size { result ≡ length (reply_bytes (Ok self)) }
        ensures out { out.new ≡ reply_bytes (Ok self) ++ drop result out.old }
    {
        out[0] = 0;
        match self {
            Answer::Done => 1,
            Answer::Found { node, kind } => {
                out[1] = node.get() as u8;
                out[2] = kind.into();
                3
            }
        }
    }
}

/// Writes the reply at the front of the buffer, and says how long it is.
// The ledger refuses in the same form, but the services know nothing of one another.
pub fn write_reply(outcome: Result<Answer, Refused>, out: &mut [u8; 256]) -> usize
    ensures size { result ≡ length (reply_bytes outcome) }
    ensures out { out.new ≡ reply_bytes outcome ++ drop result out.old }
{
    match outcome {
        Ok(answer) => answer.write(out),
        Err(refused) => {
            out[0] = refused.into();
            1
        }
    }
}

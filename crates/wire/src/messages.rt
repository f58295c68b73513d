ghost use Rattle.std.specs.Prelude.{◌≡◌, ◌^◌, ◌<◌};
ghost use Rattle.wire.specs.Wire.{padded, refusing};
ghost use Rattle.wire.specs.Models.{request_model, reply_model, status_number};

use crate::statuses::Status;

/// Names a session for ever: the server's boot number, and a count that each session raises.
#[derive(Clone, Copy, PartialEq, Eq, Debug)]
pub struct SessionId {
    pub boot: u64,
    pub count: u64,
}

/// The fields that both messages have. The messages themselves stay flat, as their users write them.
#[derive(Clone, Copy)]
pub(crate) struct Head {
    pub(crate) id: SessionId,
    pub(crate) number: u32,
    pub(crate) slot: u32,
}

/// What a reply tells of the session's slots: the highest open one, and the one the server aims at.
#[derive(Clone, Copy)]
pub(crate) struct Reach {
    pub(crate) highest: u32,
    pub(crate) target: u32,
}

/// The length of a body with its padding.
pub(crate) fn padded(len: usize) -> usize
    requires { len < 2 ^ 32 }
    ensures { result ≡ padded len }
{
    len.next_multiple_of(4)
}

/// What a terminal asks. `number` is the sequence number of its slot, `keep` asks that the reply be cached.
#[derive(Clone, Copy)]
pub struct Request<'a> {
    pub id: SessionId,
    pub number: u32,
    pub slot: u32,
    pub highest: u32,
    pub keep: bool,
    pub body: &'a [u8],
}

/// What the server answers. `highest` is its highest open slot, `target` the one it aims at.
#[derive(Clone, Copy)]
pub struct Reply<'a> {
    pub status: Status,
    pub id: SessionId,
    pub number: u32,
    pub slot: u32,
    pub highest: u32,
    pub target: u32,
    pub body: &'a [u8],
}

impl Request<'_> {
    /// The reply to this request that carries nothing but a status.
    pub fn refusing(&self, status: Status) -> Reply<'static>
        ensures { reply_model result ≡ refusing (request_model self.now) (status_number status) }
    {
        Reply {
            status,
            id: self.id,
            number: self.number,
            slot: self.slot,
            highest: 0,
            target: 0,
            body: &[],
        }
    }
}

ghost use Rattle.std.specs.Prelude.{◌≡◌, ◌+◌, ◌≤◌, [], ◌++◌, length};
ghost use Rattle.common.specs.Bytes.{bytes4, bytes8};
ghost use Rattle.wire.specs.Wire.{body_field};
ghost use Rattle.wire.specs.Models.{id_model};
ghost use Rattle.wire.specs.Written.{written, head_bytes};

use crate::messages::{SessionId, padded};
use crate::writes::ROOM;
use arrayvec::ArrayVec;

/// A message as it is assembled, apart from the caller's buffer. Outside this crate it has no name, so that
/// only the two messages here are a `Message`.
#[derive(Drop)]
pub struct Writer {
    bytes: ArrayVec<u8, ROOM>,
}

impl Writer {
    pub(crate) fn new() -> Writer
        ensures { written result ≡ [] }
    {
        Writer {
            bytes: ArrayVec::new(),
        }
    }

    /// Puts bytes behind those that stand there. Each method asks for the room that it needs: no two need the same.
    fn put(&mut self, more: &[u8])
        requires { length (written self.old) + length more.now ≤ 304 }
        ensures { written self.new ≡ written self.old ++ more.now }
    {
        self.bytes.try_extend_from_slice(more).unwrap();
    }

    pub(crate) fn u32(&mut self, n: u32)
        requires { length (written self.old) + 4 ≤ 304 }
        ensures { written self.new ≡ written self.old ++ bytes4 n }
    {
        self.put(&n.to_be_bytes());
    }

    // Not one function with `u32`: `to_be_bytes` belongs to no trait, and one for it repeats both bodies.
    fn u64(&mut self, n: u64)
        requires { length (written self.old) + 8 ≤ 304 }
        ensures { written self.new ≡ written self.old ++ bytes8 n }
    {
        self.put(&n.to_be_bytes());
    }

    /// The fields that both messages have.
    pub(crate) fn head(&mut self, id: SessionId, number: u32, slot: u32)
        requires { length (written self.old) + 24 ≤ 304 }
        ensures { written self.new ≡ written self.old ++ head_bytes (id_model id) number slot }
    {
        self.u64(id.boot);
        self.u64(id.count);
        self.u32(number);
        self.u32(slot);
    }

    /// A body behind its length, and its padding.
    pub(crate) fn body(&mut self, body: &[u8])
        requires short { length body.now ≤ 256 }
        requires room { length (written self.old) ≤ 44 }
        ensures { written self.new ≡ written self.old ++ body_field body.now }
    {
        let n = body.len();
        self.u32(n as u32);
        self.put(body);
        self.put(&[0; 4][..padded(n) - n]);
    }

    /// The message.
    pub(crate) fn as_slice(&self) -> &[u8]
        ensures value { result.now ≡ written self.now }
        ensures fits { length result.now ≤ 304 }
    {
        self.bytes.as_slice()
    }
}

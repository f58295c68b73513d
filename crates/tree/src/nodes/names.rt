ghost use Rattle.std.specs.Prelude.{◌≡◌, ◌≤◌, [], length, ◌==◌};
ghost use Rattle.std.specs.List.{prefix_len};
ghost use Rattle.tree.specs.Tree.{is_graphic, name_read};

use common::ByteString;
use std::marker::Model;

fn are_graphic(bytes: &[u8]) -> bool
    ensures { result ≡ (prefix_len is_graphic bytes.now == length bytes.now) }
{
    bytes.iter().all(|byte| byte.is_ascii_graphic())
}

/// At most 16 bytes; only the root's name is empty.
#[derive(Clone, Copy, PartialEq, Eq, Debug)]
pub struct Name {
    bytes: ByteString<16>,
}

impl Model for Name {
    ghost use Rattle.std.specs.Prelude.{ℕ, List};

    ghost Value = { List ℕ };

    ghost view = { λ name. name.bytes };

    ghost inverse = { λ bytes. record { bytes = bytes } };
}

impl Name {
    // The root's name.
    pub(crate) fn empty() -> Name
        ensures { result ≡ [] }
    {
        Name {
            bytes: ByteString::empty(),
        }
    }

    /// The name of 1 to 16 bytes, each hex 21 to 7E.
    // No `TryFrom`: whichever of these fails, the body is unfit, so that an error would say no more than none does.
    pub fn read(bytes: &[u8]) -> Option<Name>
        ensures { result ≡ name_read bytes.now }
    {
        // First the copy, which refuses a long one by its length alone: no byte of such a name is read.
        let copy = ByteString::copied(bytes)?;
        if bytes.is_empty() || !are_graphic(bytes) {
            return None;
        }
        Some(Name { bytes: copy })
    }

    pub fn as_bytes(&self) -> &[u8]
        ensures value { result.now ≡ self.now }
        ensures fits { length result.now ≤ 16 }
    {
        self.bytes.as_slice()
    }
}

ghost use Rattle.std.specs.Prelude.{◌≡◌, ◌≤◌, [], length, take, nat_lt, if◌then◌else◌, nat_le, Some, None};

use std::marker::Model;

/// At most N bytes, kept in place: no record of this house has memory of its own.
#[derive(Clone, Copy, PartialEq, Eq, Debug)]
pub struct ByteString<const N: usize> {
    bytes: [u8; N],
    len: usize,
}

impl<const N: usize> Model for ByteString<N> {
    ghost use Rattle.std.specs.Prelude.{◌≡◌, ℕ, ◌≤◌, ◌-◌, List, ◌++◌, length, take, drop, replicate};
    ghost use Rattle.std.proofs.Common.{ap, ◌∙◌};
    ghost use Rattle.common.specs.Padding.{length_taken, refilled};

    ghost Value = { List ℕ };

    ghost view = { λ s. take s.len s.bytes };

    ghost invariant = { λ s. (length s.bytes ≡ N) × (s.len ≤ length s.bytes) × (drop s.len s.bytes ≡ replicate (N - s.len) 0) };

    ghost inverse = { λ v. record { bytes = v ++ replicate (N - length v) 0; len = length v } };

    ghost inverse_ok = { λ a h. ap (λ bs. record { bytes = bs; len = length (take a.len a.bytes) }) (refilled N a.len a.bytes h.1 h.2) ∙ ap (λ k. record { bytes = a.bytes; len = k }) (length_taken a.len a.bytes h.1) };
}

impl<const N: usize> ByteString<N> {
    pub fn empty() -> ByteString<N>
        ensures { result ≡ [] }
    {
        ByteString {
            bytes: [0; N],
            len: 0,
        }
    }

    /// A copy of the bytes, unless they are too many.
    pub fn copied(from: &[u8]) -> Option<ByteString<N>>
        ensures { result ≡ (if nat_lt N (length from.now) then None else Some from.now) }
    {
        let len = from.len();
        if len > N {
            return None;
        }
        let mut bytes = [0; N];
        bytes[..len].copy_from_slice(from);
        Some(ByteString { bytes, len })
    }

    /// The first `len` bytes of an array, or all of them.
    pub fn front(mut bytes: [u8; N], len: usize) -> ByteString<N>
        ensures { result ≡ take len bytes.entry }
    {
        let len = len.min(N);
        let all = &mut bytes[..];
        all[len..].fill(0);
        ByteString { bytes, len }
    }

    /// Leaves no bytes. Only those that were there are wiped: the others are 0.
    pub fn clear(&mut self)
        ensures { self.new ≡ [] }
    {
        self.bytes[..self.len].fill(0);
        self.len = 0;
    }

    /// Puts other bytes in the place of these, and tells whether they fit. Too many leave these as they are.
    pub fn set(&mut self, from: &[u8]) -> bool
        ensures fits { result ≡ nat_le (length from.now) N }
        ensures after { self.new ≡ (if nat_le (length from.now) N then from.now else self.old) }
    {
        let len = from.len();
        if N < len {
            return false;
        }
        self.clear();
        self.bytes[..len].copy_from_slice(from);
        self.len = len;
        true
    }

    pub fn as_slice(&self) -> &[u8]
        ensures value { result.now ≡ self.now }
        ensures fits { length result.now ≤ N }
    {
        &self.bytes[..self.len]
    }
}

impl<const N: usize> Default for ByteString<N> {
    ghost is_default = { λ s. s ≡ [] };

    fn default() -> Self {
        Self::empty()
    }
}

ghost use Rattle.std.specs.Prelude.{◌≡◌, ◌<◌, if◌then◌else◌, Some, None, nat_lt};

use std::marker::Model;

/// A number below N: that of a slot, a place or a tray. In a contract it is the number itself.
#[derive(Clone, Copy, PartialEq, Eq, Debug)]
pub struct Index<const N: usize> {
    number: usize,
}

impl<const N: usize> Model for Index<N> {
    ghost use Rattle.std.specs.Prelude.{ℕ, ◌<◌};

    ghost Value = { ℕ };

    ghost view = { λ i. i.number };

    ghost invariant = { λ i. i.number < N };

    ghost inverse = { λ n. record { number = n } };
}

impl<const N: usize> Index<N> {
    /// The number, if it is below N.
    pub fn new(number: usize) -> Option<Index<N>>
        ensures { result ≡ (if nat_lt number N then Some number else None) }
    {
        if number < N {
            Some(Index { number })
        } else {
            None
        }
    }

    /// The number.
    pub fn get(self) -> usize
        ensures value { result ≡ self.entry }
        ensures below { result < N }
    {
        self.number
    }
}

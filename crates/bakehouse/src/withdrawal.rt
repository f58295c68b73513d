ghost use Rattle.std.specs.Prelude.{◌≡◌, ℕ, ◌<◌, T};
ghost use Rattle.ledger.specs.Books.{held};
ghost use Rattle.ledger.specs.Ledger.{ledger_after};
ghost use Rattle.ledger.specs.Forms.{move_bytes};
ghost use Rattle.bakehouse.specs.Stock.{bin_number, opening_bins, withdrawal_ask, withdrawn};

use crate::bins::Bin;
use ledger::{Ledger, move_body};
use service::Service;

/// Grams taken from a bin for the mixer.
#[derive(Clone, Copy)]
pub struct Withdrawal {
    pub bin: Bin,
    pub grams: u32,
}

impl Withdrawal {
    /// The body that asks for it.
    pub fn body(self) -> [u8; 7]
        ensures { result ≡ move_bytes (bin_number self.bin) 31 self.grams }
    {
        move_body(u8::from(self.bin), u8::from(Bin::Mixer), self.grams)
    }

    /// The book once it was made.
    fn make(self, mut ledger: Ledger) -> Ledger
        ensures { result ≡ ledger_after ledger (withdrawal_ask self) }
    {
        let mut reply = [0; 256];
        ledger.run(&self.body(), &mut reply);
        ledger
    }
}

/// The book as the day begins.
pub fn opening_book() -> Ledger
    ensures { result ≡ opening_bins }
{
    let mut bins = [0; 32];
    bins[0] = 25_000;
    bins[1] = 8_000;
    bins[3] = 1_200;
    Ledger::new(bins)
}

/// The book once these withdrawals were made, each once.
pub fn book_after(withdrawals: &[Withdrawal]) -> Ledger
    ensures { result ≡ withdrawn opening_bins withdrawals.now }
{
    withdrawals.iter().fold(opening_book(), |ledger, withdrawal| withdrawal.make(ledger))
}

/// Whether two books are the same.
pub fn same_book(one: &Ledger, other: &Ledger) -> bool
    ensures same { T result → (k : ℕ) → k < 32 → held one.now k ≡ held other.now k }
    ensures finds { one.now ≡ other.now → T result }
{
    one == other
}

ghost use Rattle.std.specs.Prelude.{◌≡◌};
ghost use Rattle.bakehouse.specs.Stock.{bin_number};

use std::fmt;

/// The bins that the bakehouse has in use.
#[derive(Clone, Copy)]
pub enum Bin {
    Flour,
    Sugar,
    Salt,
    Mixer,
}

impl Bin {
    pub const IN_USE: [Bin; 4] = [Bin::Flour, Bin::Sugar, Bin::Salt, Bin::Mixer];
}

/// A bin's number in the ledger.
impl From<Bin> for u8 {
    ghost from_gives = { λ bin number. number ≡ bin_number bin };

    fn from(bin: Bin) -> u8 {
        match bin {
            Bin::Flour => 0,
            Bin::Sugar => 1,
            Bin::Salt => 3,
            Bin::Mixer => 31,
        }
    }
}

impl fmt::Display for Bin {
    fn fmt<W: fmt::Write>(&self, f: &mut fmt::Formatter<W>) -> fmt::Result {
        f.pad(match self {
            Bin::Flour => "flour",
            Bin::Sugar => "sugar",
            Bin::Salt => "salt",
            Bin::Mixer => "mixer",
        })
    }
}

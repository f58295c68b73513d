ghost use Rattle.std.specs.Prelude.{◌≡◌, Some};
ghost use Rattle.ledger.specs.Refusals.{status_number, status_read, reason};

use std::error::Error;
use std::fmt;

/// Why a body is refused, smallest status first.
#[derive(Clone, Copy, PartialEq, Eq, Debug)]
pub enum Refused {
    /// It is neither a move nor a count.
    NotOfForm,
    /// It names a bin above 31.
    NoSuchBin,
    /// The amount is above what the bin holds.
    HoldsLess,
    /// The other bin would pass 4,294,967,295 grams.
    WouldPass,
}

/// A status that refuses nothing.
// A type of its own: it names what its number is none of, and no crate that has such a type knows another.
#[derive(Clone, Copy, PartialEq, Eq, Debug)]
pub struct NoRefusal(pub u8);

/// The status that a reply gives.
impl From<Refused> for u8 {
    ghost from_gives = { λ refused status. status ≡ status_number refused };

    fn from(refused: Refused) -> u8 {
        match refused {
            Refused::NotOfForm => 1,
            Refused::NoSuchBin => 2,
            Refused::HoldsLess => 3,
            Refused::WouldPass => 4,
        }
    }
}

/// The refusal of a status, if it is one.
impl TryFrom<u8> for Refused {
    type Error = NoRefusal;

    ghost try_from_gives = { λ status refused. refused ≡ status_read status };

    fn try_from(status: u8) -> Result<Refused, NoRefusal> {
        match status {
            1 => Ok(Refused::NotOfForm),
            2 => Ok(Refused::NoSuchBin),
            3 => Ok(Refused::HoldsLess),
            4 => Ok(Refused::WouldPass),
            _ => Err(NoRefusal(status)),
        }
    }
}

impl fmt::Display for Refused {
    ghost output = { λ refused. Some (reason refused) };

    fn fmt<W: fmt::Write>(&self, f: &mut fmt::Formatter<W>) -> fmt::Result {
        f.write_str(match self {
            Refused::NotOfForm => "the body is neither a move nor a count",
            Refused::NoSuchBin => "there is no such bin",
            Refused::HoldsLess => "the bin holds less",
            Refused::WouldPass => "the other bin has no room",
        })
    }
}

impl Error for Refused {}

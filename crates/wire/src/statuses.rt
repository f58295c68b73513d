ghost use Rattle.std.specs.Prelude.{◌≡◌, if◌then◌else◌, Ok, Err, ◌==◌};
ghost use Rattle.wire.specs.Wire.{is_status, top_with, longest_with};
ghost use Rattle.wire.specs.Models.{status_number, number_in};

/// A reply's status: done, or the reason for which the server did not serve the call.
#[derive(Clone, Copy, PartialEq, Eq, Debug)]
pub enum Status {
    Ok,
    Delay,
    BadSession,
    BadSlot,
    SeqMisordered,
    RetryUncachedRep,
    SeqFalseRetry,
    BadHighSlot,
}

/// A number that is no status.
// A type of its own: it names what its number is none of, and no crate that has such a type knows another.
#[derive(Clone, Copy, PartialEq, Eq, Debug)]
pub struct UnknownStatus(pub u32);

impl From<Status> for u32 {
    ghost from_gives = { λ status number. number ≡ status_number status };

    fn from(status: Status) -> u32 {
        match status {
            Status::Ok => 0,
            Status::Delay => 10008,
            Status::BadSession => 10052,
            Status::BadSlot => 10053,
            Status::SeqMisordered => 10063,
            Status::RetryUncachedRep => 10068,
            Status::SeqFalseRetry => 10076,
            Status::BadHighSlot => 10077,
        }
    }
}

impl TryFrom<u32> for Status {
    type Error = UnknownStatus;

    ghost try_from_gives = { λ number r. number_in r ≡ (if is_status number then Ok number else Err number) };

    fn try_from(number: u32) -> Result<Status, UnknownStatus> {
        match number {
            0 => Ok(Status::Ok),
            10008 => Ok(Status::Delay),
            10052 => Ok(Status::BadSession),
            10053 => Ok(Status::BadSlot),
            10063 => Ok(Status::SeqMisordered),
            10068 => Ok(Status::RetryUncachedRep),
            10076 => Ok(Status::SeqFalseRetry),
            10077 => Ok(Status::BadHighSlot),
            _ => Err(UnknownStatus(number)),
        }
    }
}

impl Status {
    /// Whether the call was done.
    pub fn is_ok(self) -> bool
        ensures { result ≡ (status_number self == 0) }
    {
        self == Status::Ok
    }

    /// The greatest highest and target slot that a reply with this status may carry.
    pub(crate) fn top(self) -> u32
        ensures { result ≡ top_with (status_number self) }
    {
        if self.is_ok() { 15 } else { 0 }
    }

    /// The longest body that a reply with this status may carry.
    pub(crate) fn longest(self) -> u32
        ensures { result ≡ longest_with (status_number self) }
    {
        if self.is_ok() { 256 } else { 0 }
    }
}

ghost use Rattle.ledger.specs.Runs.{RunKeeps, Alters, Smallest, Readable};

/// No run of bodies makes or loses a gram, and every bin stays one of 32 bits.
pub fn run_keeps()
    ensures { RunKeeps }
{}

/// A body that is refused and a count leave every bin; a move alters its two.
pub fn alters()
    ensures { Alters }
{}

/// The status is the smallest that applies.
pub fn smallest()
    ensures { Smallest }
{}

/// A body asks what it was made for, and a reply says what was answered.
pub fn readable()
    ensures { Readable }
{}

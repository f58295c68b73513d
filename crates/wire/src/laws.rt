ghost use Rattle.std.specs.Prelude.{◌≡◌};
ghost use Rattle.wire.specs.Bounds.{BodyBounds};
ghost use Rattle.wire.specs.Models.{id_model};
ghost use Rattle.wire.specs.Wire.{ReadsWritten, same_id};

use crate::messages::SessionId;

/// Each message is read exactly as it was written, and nothing else is read.
pub fn reads_written()
    ensures { ReadsWritten }
{}

/// A request's body of 256 bytes is read, one of 257 is not.
pub fn body_bounds()
    ensures { BodyBounds }
{}

/// Ids are equal exactly where they name the same session.
pub fn equal_ids()
    ensures { (a b : _) → ⟦<SessionId as PartialEq>⟧.eq a b ≡ same_id (id_model a) (id_model b) }
{}

ghost use Rattle.std.specs.Prelude.{◌≡◌, ◌+◌, length, sum_by, count_by};
ghost use Rattle.server.specs.Trays.{Marked, is_free, slots_open};

use crate::records::{Session, Tray};

/// How many sessions can stand.
pub const PLACES: usize = 8;

/// How many trays there are for all open slots.
pub const TRAYS: usize = 64;

/// Up to eight sessions, and the trays that their open slots own.
/// Contracts name what it means by a function and no model hides the fields: `Apart` speaks of who owns which tray.
#[derive(Drop)]
pub struct Server {
    pub(crate) boot: u64,
    pub(crate) count: u64,
    pub(crate) sessions: [Option<Session>; PLACES],
    pub(crate) trays: [Tray; TRAYS],
    ghost whole: { (length sessions ≡ 8) × (length trays ≡ 64) },
    // the tray of an open slot has that slot as its owner, so no two slots have one tray
    ghost marked: { Marked sessions trays },
    // a tray is free unless an open slot has it
    ghost counted: { count_by is_free trays + sum_by slots_open sessions ≡ 64 },
}

ghost use Rattle.std.specs.Prelude.{◌≡◌, ◌≤◌, length};
ghost use Rattle.server.specs.Fits.{kept_highest, kept_target};

use crate::state::{PLACES, TRAYS};
use common::Index;
use slots::{Body, SLOTS, SlotId};
use wire::SessionId;

/// The longest body of a request or a reply.
pub const LONGEST: usize = 256;

/// The number of a place at which a session can stand.
pub type PlaceId = Index<PLACES>;

/// The number of a tray.
pub type TrayId = Index<TRAYS>;

/// Where a slot is: the place of its session, and its number there.
/// It is lent to the functions that take it beside both arrays.
#[derive(Clone, Copy)]
pub struct Spot {
    pub(crate) place: PlaceId,
    pub(crate) slot: SlotId,
}

/// A tray: the request body and the kept reply body of the slot that owns it, if one does.
/// Tray and slot name each other by number, since 128 slots share 64 trays and nothing here has memory of its own.
#[derive(Clone, Copy)]
pub struct Tray {
    pub(crate) owner: Option<Spot>,
    pub(crate) request: Body,
    pub(crate) reply: Body,
}

/// What is kept of a slot's last call.
#[derive(Clone, Copy)]
pub enum Last {
    Never,
    InProgress,
    Kept { highest: u32, target: u32 },
    NotKept,
}

/// A slot of a session: the head of its last request, and what is kept of that call.
#[derive(Clone, Copy)]
pub struct Slot {
    // an open slot owns one; only a call without a body shuts its slot, so there is nothing to keep
    pub(crate) tray: Option<TrayId>,
    pub(crate) number: u32,
    pub(crate) highest: u32,
    pub(crate) keep: bool,
    pub(crate) last: Last,
    ghost low: { (kept_highest last ≤ 15) × (kept_target last ≤ 15) },
}

/// An entry of the reply cache, read where it lies: a slot with the tray that it owns, or with none where it is shut.
#[derive(Clone, Copy)]
pub struct Entry<'a> {
    pub(crate) slot: &'a Slot,
    pub(crate) tray: Option<&'a Tray>,
}

/// A session that stands. Its target is the number that replies carry; open and retarget refuse one above 15.
#[derive(Clone, Copy)]
pub struct Session {
    pub(crate) id: SessionId,
    pub(crate) target: u32,
    pub(crate) slots: [Slot; SLOTS],
    ghost whole: { length slots ≡ 16 },
    ghost low: { target ≤ 15 },
}

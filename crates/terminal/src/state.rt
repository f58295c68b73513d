use slots::{Body, SLOTS};
use wire::SessionId;

/// A call that was sent and not yet closed by a reply.
#[derive(Clone, Copy)]
pub(crate) struct OpenCall {
    pub(crate) highest: u32,
    pub(crate) keep: bool,
    pub(crate) body: Body,
    // A part is a bare call that offers to give up its slot. No kind of call of its own: its request has all the fields.
    pub(crate) part: bool,
    // Only a fresh call's reply is believed about the target: an older one may tell of the past.
    pub(crate) fresh: bool,
}

/// The terminal's end of a slot: the sequence number of its last call, and its open call, if any.
#[derive(Clone, Copy, Default)]
pub(crate) struct End {
    pub(crate) number: u32,
    pub(crate) usable: bool,
    pub(crate) call: Option<OpenCall>,
}

/// One session as its terminal knows it.
// Contracts name its model by a function, as the definitions of both ends take it, and the proofs of `ends` need the
// records themselves, which an `impl Model` hides.
#[derive(Clone, Copy)]
pub struct Terminal {
    pub(crate) id: SessionId,
    // The target that the server named last.
    pub(crate) heard: u32,
    pub(crate) ends: [End; SLOTS],
}

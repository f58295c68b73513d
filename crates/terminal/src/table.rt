ghost use Rattle.std.specs.Prelude.{◌≡◌, ◌<◌, ◌≤◌, count_by, OnSome, IfSome};
ghost use Rattle.common.specs.Search.{lowest_at};
ghost use Rattle.slots.specs.Slots.{highest_at};
ghost use Rattle.wire.specs.Wire.{same_id};
ghost use Rattle.wire.specs.Models.{id_model};
ghost use Rattle.terminal.specs.Terminal.{new_terminal, end_at, with_end, is_busy, is_ready, heard_target};
ghost use Rattle.terminal.specs.Models.{terminal_model, end_model, end_lent, all_stale};

use crate::ends::{Opening, Staling};
use crate::state::{End, Terminal};
use slots::{SLOTS, change_front, count_active, highest_active, lowest_ready, put};
use wire::SessionId;

impl Terminal {
    /// The terminal of a session just opened with that target.
    pub fn new(id: SessionId, target: u32) -> Terminal
        ensures { terminal_model result ≡ new_terminal (id_model id) target }
    {
        let mut terminal = Terminal {
            id,
            heard: target,
            ends: [End::default(); SLOTS],
        };
        terminal.hear(target);
        terminal
    }

    pub fn id(&self) -> SessionId
        ensures { id_model result ≡ (terminal_model self.now).id }
    {
        self.id
    }

    /// Whether this is the terminal of that session.
    pub fn has_id(&self, id: SessionId) -> bool
        ensures { result ≡ same_id (terminal_model self.now).id (id_model id) }
    {
        self.id == id
    }

    /// The target that was heard last.
    pub fn heard(&self) -> u32
        ensures { result ≡ (terminal_model self.now).heard }
    {
        self.heard
    }

    /// How many calls are open.
    pub fn open_calls(&self) -> usize
        ensures value { result ≡ count_by is_busy (terminal_model self.now).slots }
        ensures low { result ≤ 16 }
    {
        count_active(&self.ends)
    }

    /// The lowest slot that can take a new call.
    #[tactic(auto, using(slots::proofs::Slots::lowest_map))]
    pub(crate) fn lowest(&self) -> Option<usize>
        ensures { result ≡ lowest_at is_ready (terminal_model self.now).slots 0 }
    {
        lowest_ready(&self.ends)
    }

    /// The highest slot with an open call, or 0.
    #[tactic(auto, using(slots::proofs::Slots::highest_map))]
    pub(crate) fn highest(&self) -> usize
        ensures { result ≡ highest_at is_busy (terminal_model self.now).slots 0 0 }
    {
        highest_active(&self.ends)
    }

    /// The end of a slot. Beyond the table each is as one never used: no call is open there, and none can begin.
    pub(crate) fn end_at(&self, slot: usize) -> End
        ensures value { end_model result ≡ end_at (terminal_model self.now) slot }
        ensures within { OnSome result.call (slot < 16) }
    {
        self.ends.get(slot).copied().unwrap_or_default()
    }

    /// The end of a slot, lent: an end is large, and to send a call again none is copied.
    pub(crate) fn seen(&self, slot: usize) -> Option<&End>
        ensures value { end_lent result ≡ end_at (terminal_model self.now) slot }
        ensures within { IfSome result (λ _. slot < 16) }
    {
        self.ends.get(slot)
    }

    /// Puts an end in a slot's place, if there is such a slot.
    #[tactic(auto, using(crate::proofs::Shown::put_shown))]
    pub(crate) fn put_end(&mut self, slot: usize, end: End)
        ensures { terminal_model self.new ≡ with_end (terminal_model self.old) slot (end_model end) }
    {
        put(&mut self.ends, slot, end);
    }

    /// Believes a target: slots 0 to it become usable.
    pub(crate) fn hear(&mut self, target: u32)
        ensures { terminal_model self.new ≡ heard_target (terminal_model self.old) target }
    {
        self.heard = target;
        change_front(&mut self.ends, target as usize + 1, &Opening);
    }

    #[tactic(auto, using(crate::proofs::Shown::staled_shown))]
    pub(crate) fn stale_all(&mut self)
        ensures { terminal_model self.new ≡ all_stale (terminal_model self.old) }
    {
        change_front(&mut self.ends, SLOTS, &Staling);
    }
}

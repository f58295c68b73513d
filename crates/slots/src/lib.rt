//! The slot table, one thing for every kind of record: functions on slices, and `SlotTable` over records that are lent.
#![tactic(auto)]

ghost use Rattle.std.specs.Prelude.{◌≡◌, Bool, if◌then◌else◌, Some, None, count_by, slice_set, unwrap_or};
ghost use Rattle.std.specs.List.{slice_get};
ghost use Rattle.common.specs.Search.{lowest_at};
ghost use Rattle.slots.specs.Slots.{highest_at, front_changed, next_number, has_next};

pub mod laws;

use common::{ByteString, Index};

/// How many slots a session has, at both ends.
pub const SLOTS: usize = 16;

/// The number of a slot.
pub type SlotId = Index<SLOTS>;

/// What an end keeps of a message's body: at most 256 bytes.
pub type Body = ByteString<256>;

/// What one end keeps of a slot: the server a call's outcome, the terminal its open call.
pub trait Record {
    ghost active: { Self → Bool };

    ghost ready: { Self → Bool };

    /// In use: open at the server, with an open call at the terminal.
    fn is_active(&self) -> bool
        ensures { result ≡ active self.now };

    /// Can take a new call.
    fn is_ready(&self) -> bool
        ensures { result ≡ ready self.now };
}

/// A change to be made at several slots. A trait and no closure: a public function may have no `requires`, and to call
/// a closure that a caller hands in needs one.
pub trait Change<R> {
    ghost changed: { Self → R → R };

    fn apply(&self, kept: &mut R)
        ensures { kept.new ≡ changed self.now kept.old };
}

/// The number of the call behind the one with that number, at both ends; none behind the last.
/// A slot never used has number 0, so its first call has number 1.
pub fn next_number(number: u32) -> Option<u32>
    ensures { result ≡ (if has_next number then Some (next_number number) else None) }
{
    number.checked_add(1)
}

fn last_active<R: Record>(records: &[R]) -> Option<usize>
    ensures { unwrap_or result 0 ≡ highest_at R.Record.active records.now 0 0 }
{
    records.iter().rposition(|r| r.is_active())
}

/// The highest slot that is active, or 0.
pub fn highest_active<R: Record>(records: &[R]) -> usize
    ensures { result ≡ highest_at R.Record.active records.now 0 0 }
{
    last_active(records).unwrap_or(0)
}

/// The lowest slot that is ready.
pub fn lowest_ready<R: Record>(records: &[R]) -> Option<usize>
    ensures { result ≡ lowest_at R.Record.ready records.now 0 }
{
    records.iter().position(|r| r.is_ready())
}

/// How many of the records are active.
pub fn count_active<R: Record>(records: &[R]) -> usize
    ensures { result ≡ count_by R.Record.active records.now }
{
    records.iter().filter(|r| r.is_active()).count()
}

#[tactic(auto, using(crate::proofs::Slots::front_all))]
fn change_each<R, C: Change<R>>(records: &mut [R], count: usize, change: &C)
    ensures { records.new ≡ front_changed (C.Change.changed change.now) count records.old }
{
    let end = count.min(records.len());
    for record in &mut records[..end] {
        change.apply(record);
    }
}

// The next two lend a table the records that they are lent, so that every slot that is written is written by the table.
// A caller whose records hold a value with a model (a byte string, a bounded number) goes through them: from a table
// of its own making such records would come back unknown to its proof.

/// Puts a record in the place of a slot's, and leaves all others; where there is no such slot, all.
pub fn put<R: Drop>(records: &mut [R], slot: usize, value: R)
    ensures { records.new ≡ slice_set records.old slot value }
{
    let mut table = SlotTable::new(records);
    table.put(slot, value);
}

/// Makes a change at the first `count` records.
pub fn change_front<R, C: Change<R>>(records: &mut [R], count: usize, change: &C)
    ensures { records.new ≡ front_changed (C.Change.changed change.now) count records.old }
{
    let mut table = SlotTable::new(records);
    table.change(count, change);
}

/// Slots over the records that a caller lends, read and changed in place.
#[derive(Drop)]
pub struct SlotTable<'a, R> {
    records: &'a mut [R],
}

impl<'a, R> SlotTable<'a, R> {
    pub fn new(records: &'a mut [R]) -> SlotTable<'a, R>
        ensures now { result.records.now ≡ records.old }
        ensures name { result.records.ghost_name ≡ records.entry.ghost_name }
    {
        SlotTable { records }
    }

    /// The record of a slot, if there is such a slot.
    pub fn get(&self, slot: usize) -> Option<R>
    where
        R: Copy,
        ensures { result ≡ slice_get self.now.records.now slot }
    {
        self.records.get(slot).copied()
    }

    /// Puts a record in the place of a slot's, and leaves all others; where there is no such slot, all.
    pub fn put(&mut self, slot: usize, value: R)
    where
        R: Drop,
        ensures after { self.new.records.now ≡ slice_set self.old.records.now slot value }
        ensures name { self.new.records.ghost_name ≡ self.old.records.ghost_name }
    {
        // Not `get_mut`: of a slice behind it a proof knows the length alone.
        if slot < self.records.len() {
            self.records[slot] = value;
        }
    }

    /// Makes a change at the first `count` slots.
    pub fn change<C: Change<R>>(&mut self, count: usize, change: &C)
        ensures after { self.new.records.now ≡ front_changed (C.Change.changed change.now) count self.old.records.now }
        ensures name { self.new.records.ghost_name ≡ self.old.records.ghost_name }
    {
        change_each(self.records, count, change);
    }
}

impl<R: Record> SlotTable<'_, R> {
    /// The highest slot that is active, or 0.
    pub fn highest(&self) -> usize
        ensures { result ≡ highest_at R.Record.active self.now.records.now 0 0 }
    {
        highest_active(self.records)
    }

    /// The lowest slot that is ready.
    pub fn lowest(&self) -> Option<usize>
        ensures { result ≡ lowest_at R.Record.ready self.now.records.now 0 }
    {
        lowest_ready(self.records)
    }
}

ghost use Rattle.std.specs.Prelude.{◌≡◌, ◌&&◌, nat_le};
ghost use Rattle.driver.specs.Sums.{sum, counted};

use crate::jobs::Stake;
use std::fmt;
use wire::{Refusal, Status};

/// What calls added and took away, all together.
#[derive(Clone, Copy, Default)]
pub struct Sums {
    pub added: u64,
    pub taken: u64,
}

impl Sums {
    /// Adds what a call has at stake.
    pub fn add(&mut self, stake: Stake)
        ensures added { self.new.added ≡ sum self.old.added stake.adds }
        ensures taken { self.new.taken ≡ sum self.old.taken stake.takes }
    {
        self.added = self.added.saturating_add(u64::from(stake.adds));
        self.taken = self.taken.saturating_add(u64::from(stake.takes));
    }
}

/// What came of the calls.
#[derive(Clone, Copy)]
pub struct Tally {
    /// Calls made of the house.
    pub calls: u32,
    pub ordered: u32,
    pub ran: u32,
    pub again: u32,
    pub answered: u32,
    pub done: u32,
    pub unknown: u32,
    /// Refusals by their number; an unreadable message counts at 0.
    refusals: [u32; 15],
    /// How often each status besides 0 was heard.
    statuses: [(Status, u32); 7],
    /// What the calls known to be done added and took away.
    pub known: Sums,
    /// What the calls of which nothing is known may have added and taken away besides.
    pub in_doubt: Sums,
}

/// Counts one more.
pub fn count(counter: &mut u32)
    ensures { counter.new ≡ counted counter.old }
{
    *counter = counter.saturating_add(1);
}

impl Tally {
    // No derived `Default`: each row of `statuses` begins with a status of its own.
    pub fn new() -> Tally {
        Tally {
            calls: 0,
            ordered: 0,
            ran: 0,
            again: 0,
            answered: 0,
            done: 0,
            unknown: 0,
            refusals: [0; 15],
            statuses: [
                (Status::Delay, 0),
                (Status::BadSession, 0),
                (Status::BadSlot, 0),
                (Status::SeqMisordered, 0),
                (Status::RetryUncachedRep, 0),
                (Status::SeqFalseRetry, 0),
                (Status::BadHighSlot, 0),
            ],
            known: Sums::default(),
            in_doubt: Sums::default(),
        }
    }

    pub fn refuse(&mut self, refusal: Refusal) {
        // By index: a refusal's number is its row, and 10036 alone has none.
        let number = refusal.number() as usize;
        let row = if number < 15 { number } else { 0 };
        count(&mut self.refusals[row]);
    }

    pub fn hear_status(&mut self, status: Status) {
        // No `find`: what it lends of `iter_mut` is not proved to come back whole.
        for (known, counter) in self.statuses.iter_mut() {
            if *known == status {
                count(counter);
            }
        }
    }

    /// Whether what is there now, beyond what was there at first, is what the calls known to be done left,
    /// give or take those of which nothing is known.
    pub fn agrees(&self, gained: u64) -> bool
        ensures { result ≡ nat_le self.now.known.added (sum (sum gained self.now.known.taken) self.now.in_doubt.taken) && nat_le (sum gained self.now.known.taken) (sum self.now.known.added self.now.in_doubt.added) }
    {
        let Tally {
            known,
            in_doubt,
            ..
        } = self;
        let with_taken = gained.saturating_add(known.taken);
        known.added <= with_taken.saturating_add(in_doubt.taken)
            && with_taken <= known.added.saturating_add(in_doubt.added)
    }
}

impl fmt::Display for Tally {
    fn fmt<W: fmt::Write>(&self, f: &mut fmt::Formatter<W>) -> fmt::Result {
        writeln!(
            f,
            "  ordered {}, heard new {}, heard again {}",
            self.ordered, self.ran, self.again
        )?;
        writeln!(
            f,
            "  answered {}, done {}, unknown {}",
            self.answered, self.done, self.unknown
        )?;
        write!(f, "  refused, by number:")?;
        for (number, count) in self.refusals.iter().enumerate() {
            if *count > 0 {
                write!(f, " {number}: {count}")?;
            }
        }
        write!(f, "\n  statuses heard:")?;
        for (status, count) in self.statuses {
            if count > 0 {
                write!(f, " {}: {count}", u32::from(status))?;
            }
        }
        Ok(())
    }
}

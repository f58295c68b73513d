ghost use Rattle.std.specs.Prelude.{◌≡◌, if◌then◌else◌, nat_lt, slice_set};

use crate::dice::Dice;
use crate::jobs::{Stake, Trade};
use crate::tally::{Tally, count};
use channel::Channel;
use house::{Closing, Heard, House, Taken, Told};
use std::mem;
use wire::{ROOM, Refusal};

/// The stakes of a terminal's open calls, by slot.
#[derive(Clone, Copy)]
struct Desk {
    stakes: [Option<Stake>; 16],
}

impl Desk {
    const EMPTY: Desk = Desk { stakes: [None; 16] };

    /// Puts a stake at a slot or clears it, and gives what was there.
    fn swap(&mut self, slot: usize, stake: Option<Stake>) -> Option<Stake>
        ensures { self.new.stakes ≡ (if nat_lt slot 16 then slice_set self.old.stakes slot stake else self.old.stakes) }
    {
        // By index: of what `get_mut` lends, a contract knows no element afterwards.
        if slot < 16 {
            mem::replace(&mut self.stakes[slot], stake)
        } else {
            None
        }
    }
}

/// A house under random calls, with what is at stake in its open calls.
#[derive(Drop)]
pub struct Floor<S: Trade, Q: Channel, R: Channel> {
    pub house: House<S, Q, R>,
    pub tally: Tally,
    scratch: [u8; ROOM],
    desks: [Desk; 8],
    dice: Dice,
}

impl<S: Trade, Q: Channel, R: Channel> Floor<S, Q, R> {
    pub fn new(house: House<S, Q, R>, seed: u64) -> Floor<S, Q, R> {
        Floor {
            house,
            tally: Tally::new(),
            scratch: [0; ROOM],
            desks: [Desk::EMPTY; 8],
            dice: Dice::seeded(seed),
        }
    }

    fn swap(&mut self, terminal: usize, slot: usize, stake: Option<Stake>) -> Option<Stake> {
        self.desks.get_mut(terminal)?.swap(slot, stake)
    }

    /// Of the calls still open at a terminal nothing is known.
    fn doubt_all(&mut self, terminal: usize) {
        let Some(desk) = self.desks.get_mut(terminal) else {
            return;
        };
        let left = mem::replace(desk, Desk::EMPTY);
        for stake in left.stakes.into_iter().flatten() {
            self.tally.in_doubt.add(stake);
        }
    }

    fn open(&mut self) -> Result<(), Refusal> {
        let target = self.dice.byte() % 16;
        let place = self.house.open(u32::from(target))?;
        self.doubt_all(place);
        Ok(())
    }

    fn order(&mut self, terminal: usize) -> Result<(), Refusal> {
        let job = S::job(&mut self.dice);
        let body = job.body.as_slice();
        let slot = self
            .house
            .order(terminal, job.keep, body, &mut self.scratch)?;
        count(&mut self.tally.ordered);
        if let Some(old) = self.swap(terminal, slot, Some(job.stake)) {
            self.tally.in_doubt.add(old);
        }
        Ok(())
    }

    fn part(&mut self, terminal: usize, slot: usize) -> Result<(), Refusal> {
        self.house.part(terminal, slot, &mut self.scratch)?;
        count(&mut self.tally.ordered);
        Ok(())
    }

    fn hear(&mut self, told: Told) -> Result<(), Refusal> {
        match self.house.hear(told, &mut self.scratch)? {
            Heard::Ran => count(&mut self.tally.ran),
            Heard::Aside => {}
            Heard::Again => count(&mut self.tally.again),
            Heard::Status(status) => self.tally.hear_status(status),
        }
        Ok(())
    }

    /// A call is closed: what it had at stake is settled, or not known.
    fn close_call(&mut self, taken: Taken) {
        if let Closing::StillOpen(_) = taken.closing {
            return;
        }
        // A bare call has nothing at stake.
        let stake = self.swap(taken.terminal, taken.slot as usize, None);
        let stake = stake.unwrap_or_default();
        match taken.closing {
            Closing::Answered(body) => {
                count(&mut self.tally.answered);
                if let [0, ..] = body.as_slice() {
                    self.tally.known.add(stake);
                }
            }
            Closing::Done => {
                count(&mut self.tally.done);
                self.tally.known.add(stake);
            }
            Closing::Unknown => {
                count(&mut self.tally.unknown);
                self.tally.in_doubt.add(stake);
            }
            Closing::StillOpen(_) => {}
        }
    }

    fn take(&mut self) -> Result<(), Refusal> {
        let taken = self.house.take(&mut self.scratch)?;
        self.close_call(taken);
        Ok(())
    }

    fn retarget(&mut self, terminal: usize) -> Result<(), Refusal> {
        let target = self.dice.byte() % 16;
        self.house.retarget(terminal, u32::from(target))
    }

    /// A random call.
    fn act(&mut self, closes: bool) {
        let terminal = usize::from(self.dice.byte() % 8);
        let slot = usize::from(self.dice.byte() % 16);
        // As ranges of the throw, so that one match shows how often each call is made.
        let result = match self.dice.byte() {
            0..=9 => self.open(),
            10..=79 => self.order(terminal),
            80..=95 => self.part(terminal, slot),
            96..=111 => self.house.resend(terminal, slot, &mut self.scratch),
            112..=159 => self.hear(Told::Run),
            160..=175 => self.hear(Told::Aside),
            176..=191 => self.house.resume(terminal, slot, &mut self.scratch),
            192..=246 => self.take(),
            247..=253 => self.retarget(terminal),
            _ if closes => self.house.close(terminal),
            _ => self.take(),
        };
        count(&mut self.tally.calls);
        if let Err(refusal) = result {
            self.tally.refuse(refusal);
        }
    }

    /// Makes that many random calls.
    pub fn work(&mut self, calls: u32, closes: bool) {
        for _ in 0..calls {
            self.act(closes);
        }
    }

    /// Sends every open call again, resumes what was set aside, and takes every reply, so often that losses are made up for.
    // The numbers name the terminals and slots that are called; nothing is indexed by them.
    pub fn drain(&mut self) {
        for _ in 0..4 {
            for terminal in 0..8 {
                self.drain_at(terminal);
            }
        }
        for terminal in 0..8 {
            self.doubt_all(terminal);
        }
    }

    fn drain_at(&mut self, terminal: usize) {
        for slot in 0..16 {
            let _ = self.house.resume(terminal, slot, &mut self.scratch);
            let _ = self.house.resend(terminal, slot, &mut self.scratch);
            for _ in 0..4 {
                let _ = self.hear(Told::Run);
                let _ = self.take();
            }
        }
    }
}

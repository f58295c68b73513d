use crate::bins::Bin;
use crate::shift::Shift;
use crate::withdrawal::Withdrawal;
use channel::Channel;
use channel::pipe::Pipe;
use channel::shelf::Shelf;
use house::Told;
use ledger::Ledger;
use std::io;

/// A counter whose requests lie on a shelf, where a later one can overtake.
pub type Window<'a> = Shift<'a, Ledger, Shelf<'a>, Pipe>;

/// The places that are heard, in turn: the second stays on the shelf once it was heard.
pub const CHOICES: [u8; 8] = [0, 128, 1, 1, 1, 2, 1, 0];

pub const FIRST: Withdrawal = Withdrawal {
    bin: Bin::Salt,
    grams: 60,
};

pub const SECOND: Withdrawal = Withdrawal {
    bin: Bin::Salt,
    grams: 70,
};

fn count_once(window: &mut Window<'_>) -> io::Result<()> {
    window.count_salt(true, "any call will do to hear of it")?;
    window.hear(Told::Run, "it overtakes the copy that stayed")?;
    window.take_answer("the terminal hears the target with it")
}

fn part_with_one(window: &mut Window<'_>) -> io::Result<()> {
    window.part(0, 1, "a bare call in slot 1 offers it")?;
    window.hear(Told::Run, "the slot shuts, and its tray is free")?;
    match window.take("the terminal uses slot 1 no more")? {
        Some(body) => {
            let len = body.as_slice().len();
            println!(window.rt; "    a bare call is answered with {len} bytes")
        }
        None => Ok(()),
    }
}

/// A copy of the first call of slot 1 stays behind.
pub fn leave_behind(window: &mut Window<'_>) -> io::Result<()> {
    println!(window.rt; "A copy of a request stays behind on the shelf.")?;
    window.open(1, "slots 0 and 1")?;
    window.count_salt(true, "how much salt is there?")?;
    window.withdraw(0, FIRST, "60 g of salt")?;
    window.hear(Told::Run, "counted")?;
    window.hear(Told::Run, "the salt moves, and a copy stays on the shelf")?;
    window.take_answer("a reply")?;
    window.take_answer("a reply")
}

/// Slot 1 is shut and opens again: it goes on with its numbers.
pub fn part_and_return(window: &mut Window<'_>) -> io::Result<()> {
    println!(window.rt; "Slot 1 is parted with, and taken up again.")?;
    window.retarget(0, 0, "the server wants slot 1 back")?;
    count_once(window)?;
    part_with_one(window)?;
    window.retarget(0, 1, "there are trays again, so slot 1 opens")?;
    count_once(window)
}

/// The copy is heard after slot 1 has gone on.
pub fn turn_away(window: &mut Window<'_>) -> io::Result<()> {
    println!(window.rt; "The copy arrives at last, and is turned away.")?;
    window.count_salt(true, "how much salt is there?")?;
    window.withdraw(0, SECOND, "70 g of salt; its number is 3, not 1")?;
    window.hear(Told::Run, "the withdrawal overtakes the count")?;
    window.hear(Told::Run, "the count")?;
    window.hear(
        Told::Run,
        "number 1 is behind, so the 60 g do not move again",
    )?;
    window.take_answer("a reply")?;
    window.take_answer("a reply")?;
    window.take_answer("nobody waits for the late copy's status")
}

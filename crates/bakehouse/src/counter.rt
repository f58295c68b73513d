use crate::bins::Bin;
use crate::shift::Shift;
use crate::withdrawal::Withdrawal;
use channel::Channel;
use channel::double::Double;
use channel::loss::Loss;
use channel::pipe::Pipe;
use house::Told;
use ledger::Ledger;
use std::io;

/// The counter: requests go over the shop pile, replies over a pipe that loses every third.
pub type Counter<'a> = Shift<'a, Ledger, Double<Loss<Pipe>>, Loss<Pipe>>;

/// How long the messages of a move are: its request, its reply, and the reply that refuses it.
// As numbers: they are what the story shows.
const REQUEST: usize = 48;

const REPLY: usize = 60;

const REFUSAL: usize = 52;

pub const SALT: Withdrawal = Withdrawal {
    bin: Bin::Salt,
    grams: 150,
};

pub const SUGAR: Withdrawal = Withdrawal {
    bin: Bin::Sugar,
    grams: 500,
};

pub const FLOUR: Withdrawal = Withdrawal {
    bin: Bin::Flour,
    grams: 1_000,
};

pub const PINCH: Withdrawal = Withdrawal {
    bin: Bin::Sugar,
    grams: 100,
};

const TOO_MUCH: Withdrawal = Withdrawal {
    bin: Bin::Salt,
    grams: 2_000,
};

pub fn doubled(counter: &mut Counter<'_>) -> io::Result<()> {
    println!(counter.rt; "A request is doubled, and the salt moves once.")?;
    counter.open(2, "the counter, with slots 0 to 2")?;
    counter.open(0, "the oven, with slot 0 alone")?;
    let why = "150 g of salt for the mixer; the pile puts the request in twice";
    counter.withdraw(0, SALT, why)?;
    counter.show_message("request", &counter.scratch[..REQUEST])?;
    counter.hear(Told::Run, "the first copy is a new call, so the salt moves")?;
    counter.hear(
        Told::Run,
        "the second is a repeat, so the kept reply goes out",
    )?;
    let answered = counter.take("the reply belongs to the open call")?;
    counter.show_message("reply", &counter.scratch[..REPLY])?;
    counter.tell_answer(answered)?;
    counter.take_answer("its second copy finds no open call")
}

pub fn lost(counter: &mut Counter<'_>) -> io::Result<()> {
    println!(counter.rt; "A reply is lost, and the call is sent again.")?;
    counter.withdraw(0, SUGAR, "500 g of sugar")?;
    counter.hear(Told::Run, "the sugar moves, and the third reply is lost")?;
    counter.take_answer("no reply waits, so nobody can tell yet whether it moved")?;
    counter.resend(0, 0, "the same bytes, twice more by the pile")?;
    counter.hear(
        Told::Run,
        "the second copy of the first sending is a repeat",
    )?;
    counter.take_answer("the kept reply arrives")?;
    counter.hear(Told::Run, "the first copy that was resent")?;
    counter.hear(Told::Run, "and the second, whose reply is lost")?;
    counter.take_answer("the call is closed, so the reply has none to go to")
}

pub fn refused(counter: &mut Counter<'_>) -> io::Result<()> {
    println!(counter.rt; "The bin holds less, so the ledger refuses.")?;
    counter.withdraw(0, TOO_MUCH, "2000 g of salt")?;
    counter.hear(Told::Run, "served, though the ledger's answer is a refusal")?;
    counter.hear(Told::Run, "the repeat is refused in the same bytes")?;
    let answered = counter.take("the call is over")?;
    counter.show_message("reply", &counter.scratch[..REFUSAL])?;
    counter.tell_answer(answered)?;
    counter.take_answer("the spare reply")
}

pub fn aside(counter: &mut Counter<'_>) -> io::Result<()> {
    println!(counter.rt; "Work is set aside, and resumed.")?;
    counter.withdraw(1, FLOUR, "1000 g of flour")?;
    counter.hear(Told::Aside, "the scale is taken, so the flour waits")?;
    counter.inspect()?;
    counter.hear(Told::Run, "the repeat may not run what is in progress")?;
    counter.take_answer("that status is lost on its way")?;
    counter.resume(1, 0, "the scale is free, so the flour moves now")?;
    counter.take_answer("and the oven hears of it")
}

pub fn closed(counter: &mut Counter<'_>) -> io::Result<()> {
    println!(counter.rt; "A session is closed while a call is open.")?;
    counter.withdraw(1, FLOUR, "1000 g of flour more")?;
    counter.close(1, "the oven goes home before it was heard")?;
    counter.hear(Told::Run, "no session has that id, so nothing moves")?;
    counter.hear(Told::Run, "nor for the second copy")?;
    counter.take_answer("the oven cannot know whether the flour moved before the close")
}

pub fn counted(counter: &mut Counter<'_>) -> io::Result<()> {
    println!(counter.rt; "A reply that need not be kept is not.")?;
    counter.count_salt(false, "how much salt is there?")?;
    counter.hear(Told::Run, "counted")?;
    counter.hear(Told::Run, "a repeat, but the counts were not kept")?;
    counter.take_answer("the first reply has them")?;
    counter.take_answer("the second finds the call closed")
}

pub fn unkept(counter: &mut Counter<'_>) -> io::Result<()> {
    println!(counter.rt; "Even then a withdrawal is made once.")?;
    counter.order(0, false, &PINCH.body(), "100 g of sugar")?;
    counter.hear(Told::Run, "the sugar moves, and the reply is lost")?;
    counter.hear(Told::Run, "the repeat does not move it again")?;
    counter.take_answer("so the sugar was moved, but how much is left was not kept")
}

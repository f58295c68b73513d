use crate::bins::Bin;
use crate::shift::Shift;
use crate::withdrawal::Withdrawal;
use channel::Channel;
use ledger::{Answer, Ledger, count_body, read_reply};
use slots::Body;
use std::io;

pub fn print_book(rt: &HostRuntime, title: &str, ledger: &Ledger) -> io::Result<()> {
    println!(rt; "{title}")?;
    for bin in Bin::IN_USE {
        let number = u8::from(bin);
        let grams = ledger.count(number).unwrap_or(0);
        println!(rt; "  bin {number:>2}  {bin:<6} {grams:>6} g")?;
    }
    println!(rt; "  in all         {:>6} g", ledger.total())
}

impl<Q: Channel, R: Channel> Shift<'_, Ledger, Q, R> {
    /// Orders a withdrawal whose reply is kept.
    pub fn withdraw(&mut self, terminal: usize, what: Withdrawal, why: &str) -> io::Result<()> {
        self.order(terminal, true, &what.body(), why)
    }

    /// Asks at terminal 0 how much salt there is.
    pub fn count_salt(&mut self, keep: bool, why: &str) -> io::Result<()> {
        self.order(0, keep, &count_body(u8::from(Bin::Salt)), why)
    }

    /// Tells what the ledger answered, if it did.
    pub fn tell_answer(&self, answered: Option<Body>) -> io::Result<()> {
        let Some(body) = answered else {
            return Ok(());
        };
        // By match: each arm prints another line.
        match read_reply(body.as_slice()) {
            Some(Ok(Answer::Moved { from, to })) => {
                println!(self.rt; "    moved: {from} g are left, the mixer holds {to} g")
            }
            Some(Ok(Answer::Counted { grams })) => println!(self.rt; "    counted: {grams} g"),
            Some(Err(refused)) => {
                println!(self.rt; "    not moved, status {}: {refused}", u8::from(refused))
            }
            None => println!(self.rt; "    not an answer of the ledger's"),
        }
    }

    pub fn take_answer(&mut self, why: &str) -> io::Result<()> {
        let answered = self.take(why)?;
        self.tell_answer(answered)
    }
}

//! A day at the bakehouse, told line by line: what each call came to, and why.
#![tactic(auto)]

mod bins;
mod cards;
mod counter;
mod hex;
mod late;
mod post;
mod prints;
mod shift;
mod withdrawal;

use channel::loss::Loss;
use channel::pile::shop_pile;
use channel::pipe::Pipe;
use channel::shelf::Shelf;
use ledger::Ledger;
use prints::print_book;
use shift::Shift;
use std::io;
use withdrawal::{Withdrawal, book_after, opening_book, same_book};

// The book, and whether it is the opening one after these withdrawals, each made once.
fn close_book(rt: &HostRuntime, ledger: &Ledger, made: &[Withdrawal]) -> io::Result<()> {
    print_book(rt, "The book at the end:", ledger)?;
    if same_book(ledger, &book_after(made)) {
        println!(rt; "  right: each withdrawal was made once")
    } else {
        println!(rt; "  WRONG")
    }
}

fn at_the_counter(rt: &HostRuntime) -> io::Result<()> {
    let replies = Loss::over(Pipe::new(), 3);
    let mut counter = Shift::begin(rt, opening_book(), shop_pile(), replies);
    counter::doubled(&mut counter)?;
    counter::lost(&mut counter)?;
    counter::refused(&mut counter)?;
    counter::aside(&mut counter)?;
    counter::closed(&mut counter)?;
    counter::counted(&mut counter)?;
    counter::unkept(&mut counter)?;
    counter.inspect()?;
    let made = [
        counter::SALT,
        counter::SUGAR,
        counter::FLOUR,
        counter::PINCH,
    ];
    close_book(rt, counter.house.service(), &made)
}

fn at_the_window(rt: &HostRuntime) -> io::Result<()> {
    let requests = Shelf::over(&late::CHOICES);
    let mut window = Shift::begin(rt, opening_book(), requests, Pipe::new());
    late::leave_behind(&mut window)?;
    late::part_and_return(&mut window)?;
    late::turn_away(&mut window)?;
    close_book(rt, window.house.service(), &[late::FIRST, late::SECOND])
}

fn main(rt: HostRuntime) -> io::Result<()> {
    print_book(&rt, "The book as the day begins:", &opening_book())?;
    at_the_counter(&rt)?;
    at_the_window(&rt)?;
    cards::recipe_cards(&rt)?;
    post::channels(&rt)
}

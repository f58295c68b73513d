//! Random calls over channels that lose, double and reorder, and the check that every call known to be done was done once.
#![tactic(auto)]

mod dice;
mod floor;
mod jobs;
mod tally;

use channel::Channel;
use channel::double::Double;
use channel::loss::Loss;
use channel::pipe::Pipe;
use channel::shelf::Shelf;
use dice::Dice;
use floor::Floor;
use house::House;
use jobs::{STOCK, Trade};
use ledger::Ledger;
use std::{array, io};
use tally::Tally;
use tree::Tree;

/// How a house is driven.
#[derive(Clone, Copy)]
struct Plan {
    seed: u64,
    closes: bool,
}

fn print_verdict(rt: &impl Print, tally: &Tally, gained: u64, is_sound: bool) -> io::Result<()> {
    println!(rt;
        "  gained {gained}; known {} in and {} out; not known {} in and {} out",
        tally.known.added, tally.known.taken, tally.in_doubt.added, tally.in_doubt.taken
    )?;
    if is_sound && tally.agrees(gained) {
        println!(rt; "  book right")
    } else {
        println!(rt; "  BOOK WRONG")
    }
}

impl Plan {
    /// Drives a house, and tells what came of it.
    fn drive<S: Trade + Drop, Q: Channel + Drop, R: Channel + Drop>(
        self,
        rt: &impl Print,
        title: &str,
        service: S,
        requests: Q,
        replies: R,
    ) -> io::Result<()> {
        let Plan { seed, closes } = self;
        let house = House::new(service, requests, replies, 1, 1);
        let mut floor = Floor::new(house, seed);
        floor.work(2_000, closes);
        floor.drain();
        println!(rt; "{title}, dice set to {seed}: {} calls", floor.tally.calls)?;
        println!(rt; "{}", floor.tally)?;
        let service = floor.house.service();
        print_verdict(rt, &floor.tally, service.gained(), service.is_sound())
    }
}

fn choices(seed: u64) -> [u8; 1024] {
    let mut dice = Dice::seeded(seed);
    array::from_fn(|_| dice.byte())
}

fn stocked() -> Ledger {
    let mut bins = [0; 32];
    bins[0] = STOCK;
    Ledger::new(bins)
}

fn drive_all(rt: &impl Print, seed: u64) -> io::Result<()> {
    let calm = Plan {
        seed,
        closes: false,
    };
    let closing = Plan { seed, closes: true };
    let there = choices(seed);
    let back = choices(seed.wrapping_add(100));

    let title = "ledger over a shelf, back over a loss of every seventh";
    let requests = Shelf::over(&there);
    let replies = Loss::over(Pipe::new(), 7);
    calm.drive(rt, title, stocked(), requests, replies)?;

    let title = "ledger over a double over a loss of every fifth, back over a shelf, with closes";
    let requests = Double::over(Loss::over(Pipe::new(), 5));
    let replies = Shelf::over(&back);
    closing.drive(rt, title, stocked(), requests, replies)?;

    let title = "tree over a double over a shelf, back over a loss of every third";
    let requests = Double::over(Shelf::over(&there));
    let replies = Loss::over(Pipe::new(), 3);
    calm.drive(rt, title, Tree::new(), requests, replies)?;

    let title = "tree over a loss of every fourth, back over a double over a shelf, with closes";
    let requests = Loss::over(Pipe::new(), 4);
    let replies = Double::over(Shelf::over(&back));
    closing.drive(rt, title, Tree::new(), requests, replies)
}

fn main(rt: HostRuntime) -> io::Result<()> {
    for seed in 1..3 {
        drive_all(&rt, seed)?;
    }
    Ok(())
}

use crate::hex::Text;
use channel::Channel;
use channel::double::Double;
use channel::loss::Loss;
use channel::pipe::Pipe;
use channel::shelf::Shelf;
use std::io;
use wire::ROOM;

const WORDS: [&str; 3] = ["rye", "oat", "bun"];

fn tell_next<C: Channel>(rt: &HostRuntime, channel: &mut C) -> io::Result<()> {
    let mut buffer = [0; ROOM];
    match channel.take(&mut buffer) {
        Some(len) => print!(rt; " {}", Text(&buffer[..len])),
        None => print!(rt; " -"),
    }
}

// Puts three words into a channel, and tells what comes out.
fn tell<C: Channel>(rt: &HostRuntime, channel: &mut C, title: &str) -> io::Result<()> {
    print!(rt; "  rye, oat, bun {title}:")?;
    for word in WORDS {
        channel.put(word.as_bytes());
    }
    for _ in 0..6 {
        tell_next(rt, channel)?;
    }
    println!(rt; "")
}

/// What each channel does to three messages.
pub fn channels(rt: &HostRuntime) -> io::Result<()> {
    println!(rt; "What the channels do to messages.")?;
    tell(rt, &mut Pipe::new(), "through a pipe, in order")?;
    let mut lossy = Loss::over(Pipe::new(), 2);
    tell(rt, &mut lossy, "through a loss of every second")?;
    let mut doubling = Double::over(Pipe::new());
    tell(rt, &mut doubling, "through a double, each twice")?;
    let mut shelf = Shelf::over(&[2, 129, 0]);
    tell(
        rt,
        &mut shelf,
        "over a shelf, where bun overtakes and oat comes twice",
    )
}

use crate::shift::Shift;
use channel::Channel;
use channel::pipe::Pipe;
use house::Told;
use slots::Body;
use std::io;
use tree::Tree;

/// The recipe box: a name tree, over plain pipes.
type Cards<'a> = Shift<'a, Tree, Pipe, Pipe>;

impl Cards<'_> {
    fn tell_found(&self, answered: Option<Body>) -> io::Result<()> {
        let Some(body) = answered else {
            return Ok(());
        };
        // The bytes as they stand: the tree has no reader of its replies.
        match body.as_slice() {
            [0] => println!(self.rt; "    done"),
            [0, node, b'd'] => println!(self.rt; "    node {node}, a folder"),
            [0, node, _] => println!(self.rt; "    node {node}, a card"),
            [status, ..] => println!(self.rt; "    refused, status {status}"),
            [] => Ok(()),
        }
    }

    fn ask(&mut self, body: &[u8], why: &str) -> io::Result<()> {
        self.order(0, true, body, why)?;
        self.hear(Told::Run, "a new call")?;
        let answered = self.take("its reply")?;
        self.tell_found(answered)
    }
}

/// A recipe card is made, moved and looked up.
pub fn recipe_cards(rt: &HostRuntime) -> io::Result<()> {
    println!(rt; "The same sessions carry a name tree: recipe cards in folders.")?;
    let mut cards: Cards<'_> = Shift::begin(rt, Tree::new(), Pipe::new(), Pipe::new());
    cards.open(0, "the office")?;
    cards.ask(b"m\x00\x01dbreads", "make folder 1, breads, in the root")?;
    cards.ask(b"m\x00\x02frye", "make card 2, rye, in the root")?;
    cards.ask(b"v\x02\x01rye", "move it into breads")?;
    cards.ask(b"l\x01rye", "look it up there")?;
    cards.ask(b"l\x00rye", "it is no longer in the root")
}

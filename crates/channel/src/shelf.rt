// Shelf: a channel that gives its messages in any order and any number of times, as a list of choices says.
ghost use Rattle.std.specs.Prelude.{◌≡◌, [], drop, slice_index};
ghost use Rattle.channel.specs.Channels.{shelf_model};
ghost use Rattle.channel.specs.Held.{shelf_state};
ghost use Rattle.channel.specs.Laws.{shelf_laws};

use crate::Channel;
use crate::rack::{Rack, lay, put};

/// From this choice on, the message that is given stays.
const STAYS: u8 = 128;

#[derive(Drop)]
pub struct Shelf<'a> {
    rack: Rack,
    // those that are left
    choices: &'a [u8],
}

impl<'a> Shelf<'a> {
    /// An empty shelf that will go by these choices.
    pub fn over(choices: &'a [u8]) -> Shelf<'a>
        ensures { shelf_state result ≡ record { messages = []; choices = choices.now } }
    {
        let rack = Rack::new();
        Shelf { rack, choices }
    }
}

/// The next choice, 0 when they are used up, and those after it.
fn next(choices: &[u8]) -> (u8, &[u8])
    ensures choice { result.0 ≡ slice_index choices.now 0 }
    ensures rest { result.1.now ≡ drop 1 choices.now }
{
    match choices {
        [choice, rest @ ..] => (*choice, rest),
        [] => (0, choices),
    }
}

impl<'a> Channel for Shelf<'a> {
    ghost model = { shelf_model };

    ghost state = { shelf_state };

    ghost lawful = { shelf_laws };

    fn put(&mut self, message: &[u8]) {
        put(&mut self.rack, message);
    }

    fn take(&mut self, buffer: &mut [u8]) -> Option<usize> {
        let (choice, rest) = next(self.choices);
        let i = usize::from(choice).checked_rem(self.rack.len())?;
        let len = lay(self.rack.get(i), buffer)?;
        self.choices = rest;
        if choice < STAYS {
            self.rack.remove(i);
        }
        Some(len)
    }

    fn is_empty(&self) -> bool {
        self.rack.is_empty()
    }
}

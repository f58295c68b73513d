// Pipe: a channel that keeps order, and loses only what is put while it is full.
ghost use Rattle.std.specs.Prelude.{◌≡◌, []};
ghost use Rattle.channel.specs.Channels.{pipe_model};
ghost use Rattle.channel.specs.Held.{pipe_state};
ghost use Rattle.channel.specs.Laws.{pipe_laws};

use crate::Channel;
use crate::rack::{Rack, lay, put};

#[derive(Drop)]
pub struct Pipe {
    rack: Rack,
}

impl Pipe {
    /// An empty pipe.
    pub fn new() -> Pipe
        ensures { pipe_state result ≡ [] }
    {
        Pipe { rack: Rack::new() }
    }
}

impl Channel for Pipe {
    ghost model = { pipe_model };

    ghost state = { pipe_state };

    ghost lawful = { pipe_laws };

    fn put(&mut self, message: &[u8]) {
        put(&mut self.rack, message);
    }

    fn take(&mut self, buffer: &mut [u8]) -> Option<usize> {
        let len = lay(self.rack.first(), buffer)?;
        self.rack.remove(0);
        Some(len)
    }

    fn is_empty(&self) -> bool {
        self.rack.is_empty()
    }
}

// Loss: over any channel, one that loses every k-th put.
ghost use Rattle.std.specs.Prelude.{◌<◌, max};

use crate::Channel;

#[derive(Drop)]
pub struct Loss<C: Channel> {
    // k, where 0 loses none as in the written steps, and how many puts were made since the last loss
    every: u8,
    since: u8,
    inner: C,
    ghost behind: { since < max every 1 },
}

impl<C: Channel> Loss<C> {
    ghost use Rattle.std.specs.Prelude.{◌≡◌};
    ghost use Rattle.channel.specs.Channels.{loss_start};
    ghost use Rattle.channel.specs.Held.{loss_state};

    /// Loses each put whose number is a multiple of `every`, counted from now; with 0 none.
    pub fn over(inner: C, every: u8) -> Loss<C>
        ensures { loss_state C.Channel result ≡ loss_start every (C.Channel.state inner) }
    {
        Loss {
            every,
            since: 0,
            inner,
        }
    }
}

impl<C: Channel> Channel for Loss<C> {
    ghost use Rattle.channel.specs.Channels.{loss_model};
    ghost use Rattle.channel.specs.Held.{loss_state};
    ghost use Rattle.channel.specs.Laws.{loss_laws};

    ghost model = { loss_model C.Channel.model };

    ghost state = { loss_state C.Channel };

    ghost lawful = { loss_laws C.Channel.model C.Channel.lawful };

    fn put(&mut self, message: &[u8]) {
        let next = self.since + 1;
        if next != self.every {
            self.inner.put(message);
        }
        self.since = if next < self.every { next } else { 0 };
    }

    fn take(&mut self, buffer: &mut [u8]) -> Option<usize> {
        self.inner.take(buffer)
    }

    fn is_empty(&self) -> bool {
        self.inner.is_empty()
    }
}

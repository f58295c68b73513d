// Double: over any channel, one that puts each message twice.
ghost use Rattle.std.specs.Prelude.{◌≡◌};
ghost use Rattle.channel.specs.Channels.{double_model};
ghost use Rattle.channel.specs.Held.{double_state};
ghost use Rattle.channel.specs.Laws.{double_laws};

use crate::Channel;

#[derive(Drop)]
pub struct Double<C: Channel> {
    inner: C,
}

impl<C: Channel> Double<C> {
    /// From now on, each message put goes in twice.
    pub fn over(inner: C) -> Double<C>
        ensures { double_state C.Channel result ≡ C.Channel.state inner }
    {
        Double { inner }
    }
}

impl<C: Channel> Channel for Double<C> {
    ghost model = { double_model C.Channel.model };

    ghost state = { double_state C.Channel };

    ghost lawful = { double_laws C.Channel.model C.Channel.lawful };

    fn put(&mut self, message: &[u8]) {
        self.inner.put(message);
        self.inner.put(message)
    }

    fn take(&mut self, buffer: &mut [u8]) -> Option<usize> {
        self.inner.take(buffer)
    }

    fn is_empty(&self) -> bool {
        self.inner.is_empty()
    }
}

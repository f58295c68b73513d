// Channels: what carries messages between terminals and server, and may lose, repeat or reorder them.
#![tactic(auto)]

ghost use Rattle.std.specs.Prelude.{◌≡◌, ◌≤◌, length, IfSome};
ghost use Rattle.channel.specs.Channel.{ChannelModel, ChannelLaws, take_step, take_gives, taken, laid, none_waits};

pub mod double;
pub mod laws;
pub mod loss;
pub mod pile;
pub mod pipe;
mod rack;
pub mod shelf;
#[cfg(test)]
mod tests;

/// A channel is known by the messages that wait in it and by its own steps for put and take.
pub trait Channel {
    ghost model: { ChannelModel };

    ghost state: { Self → model.State };

    ghost lawful: { ChannelLaws model };

    /// Puts a message. Nothing tells whether it was lost.
    fn put(&mut self, message: &[u8])
        ensures after { state self.new ≡ model.puts (state self.old) message.now };

    /// Takes a message into the front of the buffer and answers its length. A buffer under 304 bytes gets none.
    // The buffer is the caller's and a length is answered: with no heap, a channel has no memory to hand a message out in.
    fn take(&mut self, buffer: &mut [u8]) -> Option<usize>
        ensures after { state self.new ≡ take_step model (state self.old) (length buffer.old) }
        ensures gave { taken result buffer.new ≡ take_gives model (state self.old) (length buffer.old) }
        ensures front { buffer.new ≡ laid (take_gives model (state self.old) (length buffer.old)) buffer.old }
        ensures bound { IfSome result (λ n. n ≤ 304) };

    /// Whether no message waits.
    fn is_empty(&self) -> bool
        ensures value { result ≡ none_waits model (state self.now) };
}

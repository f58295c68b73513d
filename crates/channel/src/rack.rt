// A rack: up to eight messages in a row, the oldest first. Pipe and shelf keep theirs in one.
ghost use Rattle.std.specs.Prelude.{◌≡◌, ◌≤◌, None, IfSome, cond, length, nat_le};
ghost use Rattle.std.specs.Option.{option_copied};
ghost use Rattle.channel.specs.Channel.{taken, laid};
ghost use Rattle.channel.specs.Channels.{racked};

use arrayvec::ArrayVec;
use common::ByteString;

/// The longest message. A channel carries bytes and knows no messages, so this is not taken from `wire`.
const LONGEST: usize = 304;

/// How many messages a rack holds.
const PLACES: usize = 8;

pub(crate) type Message = ByteString<LONGEST>;

pub(crate) type Rack = ArrayVec<Message, PLACES>;

/// One message more, unless it is too long or the rack is full.
pub(crate) fn put(rack: &mut Rack, message: &[u8])
    ensures { rack.new.items ≡ racked rack.old.items message.now }
{
    // Nothing is copied where there is no room.
    if rack.is_full() {
        return;
    }
    if let Some(message) = Message::copied(message) {
        rack.push(message);
    }
}

/// Lays a message, if there is one, at the front of the buffer and answers its length. A buffer under 304 bytes gets none.
pub(crate) fn lay(message: Option<&Message>, buffer: &mut [u8]) -> Option<usize>
    ensures gave { taken result buffer.new ≡ cond (nat_le 304 (length buffer.old)) (option_copied message.entry) None }
    ensures front { buffer.new ≡ laid (cond (nat_le 304 (length buffer.old)) (option_copied message.entry) None) buffer.old }
    ensures bound { IfSome result (λ n. n ≤ 304) }
{
    let bytes = message?.as_slice();
    if buffer.len() < LONGEST {
        return None;
    }
    buffer[..bytes.len()].copy_from_slice(bytes);
    Some(bytes.len())
}

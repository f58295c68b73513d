ghost use Rattle.std.specs.Prelude.{◌≡◌, ◌≤◌, length, IfOk};
ghost use Rattle.std.specs.Result.{result_ok};
ghost use Rattle.channel.specs.Channel.{take_step, laid};
ghost use Rattle.house.specs.Took.{took, front};

use channel::Channel;
use wire::{Refusal, has_room};

/// Takes a message from a channel into the front of the scratch, and tells its length.
pub(crate) fn take_from<C: Channel>(channel: &mut C, scratch: &mut [u8]) -> Result<usize, Refusal>
    ensures after { C.Channel.state channel.new ≡ take_step C.Channel.model (C.Channel.state channel.old) (length scratch.old) }
    ensures gave { front result scratch.new ≡ took C.Channel.model (C.Channel.state channel.old) (length scratch.old) }
    ensures scratch { scratch.new ≡ laid (result_ok (took C.Channel.model (C.Channel.state channel.old) (length scratch.old))) scratch.old }
    ensures bound { IfOk result (λ n. n ≤ length scratch.new) }
{
    has_room(scratch)?;
    channel.take(scratch).ok_or(Refusal::NothingWaits)
}

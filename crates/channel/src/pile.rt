// The shop pile: each message twice and none lost, over a pipe.
ghost use Rattle.std.specs.Prelude.{◌≡◌, []};
ghost use Rattle.channel.specs.Channels.{loss_start};
ghost use Rattle.channel.specs.Held.{pile_channel};

use crate::double::Double;
use crate::loss::Loss;
use crate::pipe::Pipe;

/// An empty shop pile.
pub fn shop_pile() -> Double<Loss<Pipe>>
    ensures { pile_channel.state result ≡ loss_start 0 [] }
{
    Double::over(Loss::over(Pipe::new(), 0))
}

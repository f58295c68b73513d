// What channels keep over any run of puts and takes. Each function's contract is the law.
ghost use Rattle.channel.specs.Runs.{NothingNew, KeepsOrder, GivesWhileWaiting, LosesEvery, GivesAtMostTwice, GivesTwice};

use crate::Channel;

/// Whatever comes out of a channel waited in it at first or was put.
pub fn nothing_new<C: Channel>()
    ensures { NothingNew C.Channel.model }
{}

/// Through a pipe that never fills, the messages taken are the messages put, in order, each once; a take gives none only when nothing waits.
pub fn pipe_keeps_order()
    ensures order { KeepsOrder }
    ensures gives { GivesWhileWaiting }
{}

/// Loss with k loses exactly the k-th, the 2k-th, .. put.
pub fn loss_loses_every<C: Channel>()
    ensures { LosesEvery C.Channel.model }
{}

/// What a double over a pipe gives is each message put, at most twice, and exactly twice while there is room.
pub fn double_gives_twice()
    ensures at_most { GivesAtMostTwice }
    ensures exactly { GivesTwice }
{}

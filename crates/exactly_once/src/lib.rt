//! The promise of sessions: each call is done exactly once, and both ends of a slot agree.
#![tactic(auto)]

ghost use Rattle.exactly_once.specs.Houses.{parts};
ghost use Rattle.exactly_once.specs.Lived.{Keeps};

use channel::Channel;
use service::Service;

/// Every house keeps its promise after every history, whatever its service and its two channels do.
pub fn keeps_promise<S: Service, Q: Channel, R: Channel>()
    ensures { Keeps (parts S.Service Q.Channel R.Channel) }
{}

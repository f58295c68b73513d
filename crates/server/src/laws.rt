ghost use Rattle.server.specs.Laws.{Cases, StaysManned, Repeats};

use service::Service;

/// The worked cases of the rules.
pub fn cases()
    ensures { Cases }
{}

/// Whatever is called, slots 0 to target of a session that stands are open.
pub fn stays_manned<S: Service>()
    ensures { StaysManned S.Service.model }
{}

/// Work runs once, and a repeat gets its outcome as first made.
pub fn repeats<S: Service>()
    ensures { Repeats S.Service.model }
{}

ghost use Rattle.std.specs.Prelude.{◌≡◌};
ghost use Rattle.server.specs.Models.{model};
ghost use Rattle.exactly_once.specs.Steps.{stands};
ghost use Rattle.house.specs.Houses.{place_model};

use server::Server;
use terminal::Terminal;

/// How many terminals a house can have: a budget of its own, though it is the server's for sessions too.
pub(crate) const PLACES: usize = 8;

/// A place for a terminal: the record of the one opened there last, if one was.
#[derive(Clone, Copy)]
pub struct Place {
    pub(crate) terminal: Option<Terminal>,
}

impl Place {
    /// Whether the session of its terminal stands.
    pub(crate) fn stands(&self, server: &Server) -> bool
        ensures { result ≡ stands (model server.now) (place_model self.now) }
    {
        self.terminal
            .as_ref()
            .is_some_and(|terminal| server.stands(terminal.id()))
    }
}

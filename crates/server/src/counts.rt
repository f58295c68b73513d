ghost use Rattle.std.specs.Prelude.{◌≡◌, ◌^◌, ◌<◌, ◌≤◌, sum_by};
ghost use Rattle.server.specs.Counts.{working_calls, slots_working};
ghost use Rattle.server.specs.Models.{model};

use crate::records::Session;
use crate::state::Server;

// At how many slots of a place a call is in progress; none where no session stands.
// The bound is told here so that the sum over places fits; a type for a count of slots would end where sums begin.
fn working_in(place: &Option<Session>) -> usize
    ensures low { result ≤ 16 }
    ensures value { result ≡ slots_working place.now }
{
    let Some(session) = place else {
        return 0;
    };
    session
        .slots
        .iter()
        .filter(|slot| slot.last.is_working())
        .count()
}

fn working_calls(places: &[Option<Session>]) -> usize
    requires { sum_by slots_working places.now < 2 ^ 32 }
    ensures { result ≡ sum_by slots_working places.now }
{
    places.iter().map(|place| working_in(place)).sum()
}

impl Server {
    /// How many calls are in progress at the sessions that stand: those set aside, or whose work order is not spent.
    pub fn in_progress(&self) -> usize
        ensures { result ≡ working_calls (model self.now) }
    {
        working_calls(&self.sessions)
    }
}

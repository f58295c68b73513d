ghost use Rattle.std.specs.Prelude.{◌≡◌};

use crate::state::House;
use channel::Channel;
use service::Service;

impl<S: Service, Q: Channel, R: Channel> House<S, Q, R> {
    /// The service as it is now.
    pub fn service(&self) -> &S
        ensures { result.now ≡ self.now.service }
    {
        &self.service
    }
}

use crate::places::{PLACES, Place};
use channel::Channel;
use server::Server;
use service::Service;

/// A house: a server, the service that it runs calls on, the terminals, and a channel each way.
// Its callers name terminals and slots by any number: one that no terminal or slot has is refused.
#[derive(Drop)]
pub struct House<S: Service, Q: Channel, R: Channel> {
    pub(crate) server: Server,
    pub(crate) service: S,
    pub(crate) places: [Place; PLACES],
    pub(crate) requests: Q,
    pub(crate) replies: R,
}

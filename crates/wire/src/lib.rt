//! The messages between terminals and their server, and the refusals that every layer passes up.
#![tactic(auto)]

mod laws;
mod messages;
mod read;
mod reader;
mod refusals;
mod statuses;
mod writer;
mod writes;

pub use laws::{body_bounds, equal_ids, reads_written};
pub use messages::{Reply, Request, SessionId};
pub use read::{read_reply, read_request};
pub use refusals::{Place, Refusal};
pub use statuses::{Status, UnknownStatus};
pub use writes::{Message, ROOM, has_room, write};

#[cfg(test)]
mod tests;

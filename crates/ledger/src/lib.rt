//! The ledger: 32 bins, each a count of grams, and the service that moves grams between them and tells counts.
#![tactic(auto)]

mod body;
mod book;
pub mod laws;
mod refused;
mod reply;
#[cfg(test)]
mod tests;

pub use body::{Ask, count_body, move_body};
pub use book::Ledger;
pub use refused::{NoRefusal, Refused};
pub use reply::{Answer, read_reply, write_reply};

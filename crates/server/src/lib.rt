//! The server: sessions, their slots with the reply cache, and what it does with a request.
#![tactic(auto)]

pub mod answers;
mod bodies;
mod calls;
mod counts;
mod judging;
pub mod laws;
pub mod orders;
mod places;
pub mod records;
mod running;
mod serving;
mod sessions;
pub mod state;

pub use answers::{Answer, Served};
pub use laws::{cases, repeats, stays_manned};
pub use orders::WorkOrder;
pub use state::Server;

//! One terminal of a session: which calls it has open at which slots, what it sends, and what it learns from replies.
#![tactic(auto)]

mod begins;
mod ends;
pub mod laws;
pub mod replies;
pub mod sends;
pub mod state;
mod table;
#[cfg(test)]
mod tests;

pub use replies::Effect;
pub use sends::Sent;
pub use state::Terminal;

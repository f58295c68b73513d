//! The name tree: 64 nodes, folders and cards, of which node 0 is the root folder; a service that makes, removes, moves and looks up.
#![tactic(auto)]

mod body;
mod nodes;
mod reached;
mod refused;
mod reply;
#[cfg(test)]
mod tests;

pub use body::Ask;
pub use nodes::{Kind, Name, NoKind, NodeId, Tree};
pub use reached::stays_a_tree;
pub use refused::Refused;
pub use reply::{Answer, write_reply};

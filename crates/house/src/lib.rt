//! A house: one server and its service, up to eight terminals, and a channel each way between them.
#![tactic(auto)]

mod channels;
pub mod hears;
mod made;
mod places;
mod reads;
mod sends;
mod sessions;
pub mod state;
pub mod summary;
pub mod takes;

pub use hears::{Heard, Told};
pub use state::House;
pub use summary::Summary;
pub use takes::{Closing, Taken};

//! What every layer counts and keeps: numbers below a bound, and byte strings of a bounded length.
#![tactic(auto)]

mod byte_string;
mod index;
#[cfg(test)]
mod tests;

pub use byte_string::ByteString;
pub use index::Index;

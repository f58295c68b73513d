//! Tests as tables that need several layers at once. They stand apart, above all the layers that they need.
#![tactic(auto)]

#[cfg(test)]
mod servers;

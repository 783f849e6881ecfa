//! Calls of the program over a shelf and sinks in memory, and a whole case of two nodes: for the crates that test it.
#![tactic(auto)]

pub mod calls;
pub mod documents;

//! The outside: a shelf of named documents and a sink for bytes, each as a trait, with a fake in memory that tells all
//! it does, and an adapter to the machine.
#![tactic(auto)]

mod counting;
pub mod dir_shelf;
pub mod mem_shelf;
pub mod mem_sink;
pub mod shelf;
pub mod sink;
pub mod std_sink;

pub use dir_shelf::DirShelf;
pub use mem_shelf::MemShelf;
pub use mem_sink::MemSink;
pub use shelf::{Fetch, Shelf};
pub use sink::{PutFailed, Sink};
pub use std_sink::StdSink;

#[cfg(test)]
mod tests;

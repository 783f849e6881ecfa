//! Enclosures of the exact angles of a grid state: a barrier, and for each right side whole numbers that are off by at most
//! the barrier.
#![tactic(auto)]

mod barriers;
mod columns;
mod corrections;
mod remainders;
mod spans;
mod swept;

pub use barriers::{barrier, barrier_from, barrier_side, barrier_with, try_barrier_from};
pub use columns::{enclose, enclose_from, enclose_with, try_enclose_from};
pub use spans::angle_span;

#[cfg(test)]
mod tests;

//! A factorisation of the grid matrix of a state, for guesses of the angles that a right side makes, and how they change when a
//! branch is out. Nothing rests on how near a guess comes, so all arithmetic is in fixed point: it rounds where it must, and
//! where a number would leave its range it wraps or stays at the end.
#![tactic(auto)]

mod elimination;
mod factors;
mod fractions;
mod guesses;
mod links;
mod numbers;
mod outages;
mod queue;
mod remainders;
mod shares;
mod sizes;
mod solutions;
mod solvers;
mod solving;

pub use factors::Factor;
pub use guesses::{limit_of, total_of};
pub use outages::Outage;
pub use sizes::Sizes;
pub use solutions::Solutions;
pub use solvers::Solver;

#[cfg(test)]
mod tests;

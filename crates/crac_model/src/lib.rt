//! CRAC documents (contingencies, remedial actions and additional constraints) in OpenRAO's JSON form: the contingencies and
//! the monitored elements of a grid, or the one first fault with its place.
#![tactic(auto)]

mod entries;
mod fault;
mod instants;
mod limits;
mod names;
mod outages;
mod power;
mod ratings;
mod reading;

pub use fault::{CracError, CracKind};
pub use reading::read_crac;

//! The Laplacian of a grid state, and the laws of its direct-current load flow: each right side makes angles, they are
//! unique, and neither a flow nor an angle is larger than what is fed in allows.
#![tactic(auto)]

pub mod laws;
mod range;
mod residual;
mod sizes;

pub use range::{range_ok, reach};
pub use residual::{residual_at, residual_of};
pub use sizes::{
    greatest_susceptance, is_free, least_susceptance, live_classes, total_susceptance,
};

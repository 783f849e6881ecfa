//! Checked whole numbers, and spans of them that hold every result of an operation.
#![tactic(auto)]

pub mod scalar;
pub mod span;

pub use scalar::Scalar;
pub use span::Span;

#[cfg(test)]
mod tests;

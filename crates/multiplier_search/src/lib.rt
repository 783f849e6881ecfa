//! The search for multipliers that prove a row from others.
//!
//! Each try takes given multipliers of rows with the best multiplier of the balance. What is left to find are the
//! multipliers of the rows: none, one row, two rows at tenths, and what two simplexes propose. No clause rests on a
//! simplex, since what it proposes is tried.
#![tactic(auto)]

pub mod corners;
pub mod proposals;
pub mod search;
pub mod simplex;
pub mod table;
pub mod tries;
pub mod weighing;
pub mod whole_simplex;

pub use search::find;

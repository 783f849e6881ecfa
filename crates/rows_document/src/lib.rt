//! The rows document: a box of net positions, rows, a target row and the multipliers that are to prove it.
#![tactic(auto)]

mod draft;
mod lines;
pub mod reader;
pub mod record;

pub use reader::{RowsDocument, RowsError, read_rows};

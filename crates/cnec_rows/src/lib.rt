//! The numbers of one row of a domain, put together: a monitored element in one direction, in one grid state.
#![tactic(auto)]

mod factors;
mod flows;
mod row;
mod types;

pub use flows::branch_flows;
pub use row::{row_numbers, row_on};
pub use types::{BranchFlows, RowProof, RowSpans, RowTerms, RowZones};

//! Certificates of domains: what a domain is computed from, its rows, and what is proved of each grid state.
#![tactic(auto)]

mod indices;
mod made;
mod row;
mod run;
mod terms;
mod types;
mod zones;

pub use cnec_rows::{RowProof, RowSpans, RowZones};
pub use made::{MadeRow, state_rows};
pub use row::{make_rows, row_at, row_of};
pub use run::run_rows;
pub use state_proofs::StateProof;
pub use types::{Certificate, Cite, Direction, Inputs, RunRow};
pub use zones::row_zones;

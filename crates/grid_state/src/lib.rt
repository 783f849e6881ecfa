//! The state of a grid after an outage: which nodes are of one class, which classes are live, and which branches carry.
#![tactic(auto)]

mod build;
mod changes;
mod components;
mod flat_rows;
mod keyed_nodes;
mod links;
mod rows;
mod sharing;
mod split;
mod state_fault;
mod types;
mod whole;

pub use build::{state, state_from};
pub use keyed_nodes::KeyedNodes;
pub use split::slack_of;
pub use state_fault::StateFault;
pub use types::{Edge, State};

//! What a domain is computed from: the parsed documents of a run together with the grid states, or why there are none.
#![tactic(auto)]

mod assembly;
mod fault;
mod outages;
mod range;
mod states;

pub use assembly::run_inputs;
pub use fault::InputsError;

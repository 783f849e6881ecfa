//! The settings of a run, and the validation reductions of its elements.
#![tactic(auto)]

mod document;
mod elements;
mod model;
mod named;
mod nodes;
mod record;
mod reduction;
mod table;
mod times;
mod zones;

pub use document::read_settings;
pub use model::{Settings, SettingsError, SettingsKind, Zone};
pub use nodes::NodeTable;
pub use reduction::{Reduction, ReductionError, ReductionKind};
pub use table::read_reductions;
pub use times::{instant, moment_of};

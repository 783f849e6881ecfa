//! The sizes of a state that bound its angles.

ghost use Rattle.sparse_factor.specs.Bounds.{AreSizes};

use grid_laplacian::{greatest_susceptance, least_susceptance, live_classes, total_susceptance};
use grid_state::State;

/// The sizes of a state that bound its angles, read once for many guesses: how many classes are live, and the sum, the greatest
/// and the least of their susceptances, in kW/rad.
#[derive(Clone, Copy, Debug)]
pub struct Sizes {
    pub(crate) live: u32,
    pub(crate) total: u128,
    pub(crate) greatest: u128,
    pub(crate) least: u64,
}

impl Sizes {
    /// The sizes of a state.
    pub fn new(state: &State) -> Sizes
        ensures { AreSizes state.now result }
    {
        Sizes {
            live: live_classes(state),
            total: total_susceptance(state),
            greatest: greatest_susceptance(state),
            least: least_susceptance(state),
        }
    }
}

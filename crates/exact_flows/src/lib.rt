//! Exact flows: what is fed into the classes of a grid state, the direct-current flows that this makes, and the law that the
//! flows of net positions add up.
#![tactic(auto)]

ghost use Rattle.exact_flows.specs.AddedFlows.{Superposition};

use fb_types::Grid;
use grid_state::State;

/// Law: the flow of a branch where zones have other net positions is its reference flow and, for each zone, the difference of
/// the zone's positions times its factor. It holds for every choice of exact angles.
pub fn superposition(state: &State, _grid: &Grid)
    ensures { Superposition state.now _grid.now }
{
    state.sound();
}

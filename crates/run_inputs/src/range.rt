//! Grid states outside the range rule.

ghost use Rattle.std.specs.Prelude.{◌≤◌, length, All, MatchOption};
ghost use Rattle.grid_laplacian.specs.Ranges.{IsOfGrid, IsInRange};
ghost use Rattle.run_inputs.specs.Building.{IsFirstOutside};

use fb_types::Grid;
use grid_laplacian::range_ok;
use grid_state::State;

/// The number of the first state that is outside the range rule. It is none where all are within.
pub fn first_out_of_range(grid: &Grid, states: &[State]) -> Option<u32>
    requires few { length states.now ≤ 513 }
    requires of_grid { All (IsOfGrid grid.now) states.now }
    ensures { MatchOption result (All (IsInRange grid.now) states.now) (IsFirstOutside grid.now states.now) }
{
    for (number, state) in states.iter().enumerate() {
        if !range_ok(state, grid) {
            return Some(number as u32);
        }
    }
    None
}

//! What holds of a row of a domain whatever the proof of its grid state is: how far its two right sides can be apart,
//! how near the threshold it is where it is left doubtful, how large its numbers are, and that they are right.
//!
//! All of it computes nothing.
#![tactic(auto)]

ghost use Rattle.grid_laplacian.specs.Ranges.{IsOfGrid, IsInRange};
ghost use Rattle.row_gaps.specs.GapLaws.{GapsAreSmall, DoubtsAreNear};
ghost use Rattle.row_gaps.specs.ProofRanges.{ProofsAreInRange};
ghost use Rattle.row_gaps.specs.RowRanges.{RowsAreInRange};
ghost use Rattle.row_gaps.specs.RowTruths.{RowsAreTrue};

use fb_types::Grid;
use grid_state::State;

/// Law: the two right sides of a row differ by at most 1024 + ceil(64·b·H/10^12) W, where b is the size of the
/// susceptance of its branch and H the reach of its state.
pub fn gaps(state: &State, _grid: &Grid)
    requires of_grid { IsOfGrid _grid.now state.now }
    requires range { IsInRange _grid.now state.now }
    ensures { GapsAreSmall state.now _grid.now }
{
    state.sound();
}

/// Law: a row is left doubtful only where its exact spread, in 10^-12, is within 8 + ceil(16·b·H/10^12) of the
/// threshold.
pub fn doubts(state: &State, _grid: &Grid)
    requires of_grid { IsOfGrid _grid.now state.now }
    requires range { IsInRange _grid.now state.now }
    ensures { DoubtsAreNear state.now _grid.now }
{
    state.sound();
}

/// Law: the numbers of a row are in the range of rows: a coefficient within 10^12 for each Core zone, and right sides
/// within 2·10^13 W.
pub fn ranges(state: &State, _grid: &Grid)
    requires of_grid { IsOfGrid _grid.now state.now }
    requires range { IsInRange _grid.now state.now }
    ensures { RowsAreInRange state.now _grid.now }
{
    state.sound();
}

/// Law: the spans of a row hold its exact numbers, a row that is Below is never selected and one that is Certain always
/// is, and the two right sides bracket the exact flow.
pub fn rows_hold(state: &State, _grid: &Grid)
    requires of_grid { IsOfGrid _grid.now state.now }
    requires range { IsInRange _grid.now state.now }
    ensures { RowsAreTrue state.now _grid.now }
{
    state.sound();
}

/// Law: the numbers of a proof of the state are in range, and there are as many as the state has classes and the keys
/// have blocks.
pub fn proof_ranges(state: &State, _grid: &Grid)
    requires of_grid { IsOfGrid _grid.now state.now }
    requires range { IsInRange _grid.now state.now }
    ensures { ProofsAreInRange state.now _grid.now }
{
    state.sound();
}

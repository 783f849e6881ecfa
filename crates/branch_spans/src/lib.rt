//! The spans of the flows of branches, from a barrier and enclosed angles: on them stand zonal factors and reference flows.
#![tactic(auto)]

ghost use Rattle.std.specs.Prelude.{◌≡◌, ◌^◌, ◌*◌, ◌<◌, ℤ, pos, true, ◌-ℤ◌, ◌+ℤ◌, ◌*ℤ◌, ◌≤ℤ◌, length, FitsSigned};
ghost use Rattle.std.specs.Int.{w128};
ghost use Rattle.fb_span.specs.Ends.{EndsWithin};
ghost use Rattle.grid_state.specs.GridState.{classes_of, carries_at};
ghost use Rattle.grid_laplacian.specs.Ranges.{IsOfGrid, IsInRange, HasRoomFor};
ghost use Rattle.grid_laplacian.specs.Enclosures.{IsBarrier};
ghost use Rattle.branch_spans.specs.FlowSpans.{difference_of, doubt_of, flow_span_of, IsColumn, HoldsFlow, ForBranch};

use angle_bounds::angle_span;
use fb_span::Span;
use fb_types::{Angles, Grid, Items};
use grid_state::State;

/// The span of the difference of the angles of two classes.
fn angle_difference(
    state: &State,
    barrier: &Items<i128>,
    angles: &Angles,
    from: u32,
    to: u32,
) -> Span<i128>
    requires from { from < classes_of state.now }
    requires to { to < classes_of state.now }
    requires room { HasRoomFor state.now (2 * 10 ^ 25) }
    requires barrier { IsBarrier state.now barrier.now }
    requires column { IsColumn state.now angles.now }
    ensures { result ≡ (difference_of angles.now from to -ℤ doubt_of barrier.now angles.now from to, difference_of angles.now from to +ℤ doubt_of barrier.now angles.now from to) }
{
    state.sound();
    let first = angle_span(barrier, angles, from);
    let second = angle_span(barrier, angles, to);
    match first.sub(second) {
        Some(span) => span,
        None => unreachable!(),
    }
}

/// The span times a susceptance.
fn scaled(span: Span<i128>, b: i64) -> Span<i128>
    requires positive { pos 1 ≤ℤ b }
    requires low_fits { FitsSigned w128 (b *ℤ span.0) }
    requires high_fits { FitsSigned w128 (b *ℤ span.1) }
    ensures { result ≡ (b *ℤ span.0, b *ℤ span.1) }
{
    span.sound();
    match span.scale(i128::from(b)) {
        Some(span) => span,
        None => unreachable!(),
    }
}

/// The span of the flow that the angles of a column make on a carrying branch, without its phase shift, in 10^-13 W: from
/// b·(d − e) to b·(d + e), with d = w_i − w_j and e = kappa·(v_i + v_j) for its classes i and j, and the barrier v.
///
/// The state is one of the grid and within the range rule, and the angles enclose those of some right side. The span holds the
/// exact flow. The call takes no memory.
pub fn flow_span(
    state: &State,
    grid: &Grid,
    branch: u32,
    barrier: &Items<i128>,
    angles: &Angles,
) -> Span<i128>
    requires of_grid { IsOfGrid grid.now state.now }
    requires range { IsInRange grid.now state.now }
    requires branch { branch < length grid.now.branches }
    requires carries { carries_at state.now branch ≡ true }
    requires barrier { IsBarrier state.now barrier.now }
    requires column { IsColumn state.now angles.now }
    ensures value { ForBranch grid.now branch (λ c. result ≡ flow_span_of state.now c.branch barrier.now angles.now) }
    ensures within { EndsWithin (2 ^ 123) result }
    ensures holds { ForBranch grid.now branch (λ c. HoldsFlow state.now c angles.now result) }
{
    state.sound();
    let line = &grid.branches.as_slice()[branch as usize];
    let difference = angle_difference(
        state,
        barrier,
        angles,
        state.class_of(line.from),
        state.class_of(line.to),
    );
    scaled(difference, line.b)
}

//! The span of the reference flow of a branch.

ghost use Rattle.std.specs.Prelude.{◌≡◌, ◌^◌, ◌<◌, ℤ, pos, true, neg_ℤ, ◌+ℤ◌, ◌*ℤ◌, ◌≤ℤ◌, length};
ghost use Rattle.std.specs.Int.{int_max, int_min};
ghost use Rattle.whole_laws.specs.Quotients.{floor_of, ceil_of};
ghost use Rattle.whole_laws.specs.Sums.{IsWithin};
ghost use Rattle.fb_span.specs.Ends.{EndsWithin};
ghost use Rattle.grid_state.specs.GridState.{carries_at};
ghost use Rattle.grid_laplacian.specs.Ranges.{IsOfGrid, IsInRange};
ghost use Rattle.grid_laplacian.specs.Enclosures.{IsBarrier, EnclosesColumn};
ghost use Rattle.security.specs.Balances.{reference_side};
ghost use Rattle.branch_spans.specs.FlowSpans.{ForBranch};
ghost use Rattle.reference_flows.specs.ReferenceSpans.{greatest_flow, carried_span_of, reference_span_of, HoldsReference};

use branch_spans::flow_span;
use fb_span::Span;
use fb_types::{Angles, Grid, Items};
use grid_state::State;

/// The greatest reference flow within the range rule, in picowatts.
const GREATEST: i128 = 3_000_000_000_000_000_000_000_000;

/// A susceptance times a phase shift, in nanowatts.
fn product(b: i64, phi: i64) -> i128
    requires some { pos 1 ≤ℤ b }
    requires small { b ≤ℤ pos 100_000_000_000 }
    ensures value { result ≡ b *ℤ phi }
    ensures within { IsWithin 922_337_203_685_477_580_800_000_000_000 result }
{
    i128::from(b) * i128::from(phi)
}

/// What the phase shift of a branch adds to its flow, in 10^-13 W.
fn shift(b: i64, phi: i64) -> i128
    requires some { pos 1 ≤ℤ b }
    requires small { b ≤ℤ pos 100_000_000_000 }
    ensures value { result ≡ (b *ℤ phi) *ℤ pos 10000 }
    ensures within { IsWithin 9_223_372_036_854_775_808_000_000_000_000_000 result }
{
    product(b, phi) * 10_000
}

/// A flow with what the phase shift adds to it.
fn shifted(flow: Span<i128>, shift: i128) -> Span<i128>
    requires flow_in { EndsWithin (2 ^ 123) flow }
    requires shift_in { IsWithin 9_223_372_036_854_775_808_000_000_000_000_000 shift }
    ensures { result ≡ (flow.0 +ℤ shift, flow.1 +ℤ shift) }
{
    match flow.add(Span::exactly(shift)) {
        Some(span) => span,
        None => unreachable!(),
    }
}

/// The part of the span that is within the range of reference flows.
fn clipped(span: Span<i128>) -> Span<i128>
    requires { int_max span.0 (neg_ℤ greatest_flow) ≤ℤ int_min span.1 greatest_flow }
    ensures value { result ≡ (int_max span.0 (neg_ℤ greatest_flow), int_min span.1 greatest_flow) }
    ensures within { EndsWithin 3_000_000_000_000_000_000_000_000 result }
{
    match span.meet(Span::between(-GREATEST, GREATEST)) {
        Some(span) => span,
        None => unreachable!(),
    }
}

/// The span of the reference flow of a branch, in picowatts: what flows from its first node to its second with the loads and
/// generations of the grid and its phase shifts, the slack node balancing them (Fref; Core day-ahead capacity calculation
/// methodology, ACER decision 02-2019, annex I). The angles enclose those of the base balance. A branch that does not carry has
/// the flow 0.
///
/// The state is one of the grid and within the range rule. The span holds the exact flow. The call takes no memory.
pub fn reference_span(
    state: &State,
    grid: &Grid,
    branch: u32,
    barrier: &Items<i128>,
    angles: &Angles,
) -> Span<i128>
    requires of_grid { IsOfGrid grid.now state.now }
    requires range { IsInRange grid.now state.now }
    requires branch { branch < length grid.now.branches }
    requires barrier { IsBarrier state.now barrier.now }
    requires encloses { EnclosesColumn state.now (reference_side state.now grid.now) angles.now }
    ensures value { ForBranch grid.now branch (λ c. result ≡ reference_span_of state.now c barrier.now angles.now) }
    ensures within { EndsWithin 3_000_000_000_000_000_000_000_000 result }
    ensures holds { ForBranch grid.now branch (λ c. HoldsReference state.now grid.now c result) }
{
    state.sound();
    if !state.carries(branch) {
        return Span::exactly(0);
    }
    let line = &grid.branches.as_slice()[branch as usize];
    let shift = shift(line.b, line.phi);
    let flow = flow_span(state, grid, branch, barrier, angles);
    clipped(shifted(flow, shift).div_pos(10))
}

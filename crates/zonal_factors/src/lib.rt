//! Zonal factors: how much of a megawatt that a zone exports flows over a branch, as spans that hold the exact factor.
#![tactic(auto)]

mod shares;

pub use shares::shared;

#[cfg(test)]
mod tests;

ghost use Rattle.std.specs.Prelude.{◌≡◌, ◌+◌, ◌^◌, ◌*◌, ◌<◌, ◌≤◌, ℤ, pos, true, neg_ℤ, ◌-ℤ◌, ◌+ℤ◌, ◌*ℤ◌, ◌≤ℤ◌, length, All, IfSome, IsSome};
ghost use Rattle.std.specs.Int.{int_max, int_min};
ghost use Rattle.std.specs.List.{AllZip, zip};
ghost use Rattle.whole_laws.specs.Quotients.{floor_of, ceil_of};
ghost use Rattle.whole_laws.specs.Sums.{IsWithin, sum_over};
ghost use Rattle.fb_span.specs.Ends.{EndsWithin};
ghost use Rattle.grid_state.specs.GridState.{carries_at};
ghost use Rattle.grid_laplacian.specs.Ranges.{IsOfGrid, IsInRange};
ghost use Rattle.grid_laplacian.specs.Enclosures.{IsBarrier, EnclosesColumn};
ghost use Rattle.security.specs.Balances.{block_side};
ghost use Rattle.branch_spans.specs.FlowSpans.{ForBranch};
ghost use Rattle.zonal_factors.specs.FactorSpans.{trillion, block_span_of, zone_span_of, factor_span_of, IsBlock, IsKey, EnclosesKey, HoldsFactor};
ghost use Rattle.zonal_factors.specs.SharedSpans.{parts_of, IsShared};

use crate::shares::WeightedSum;
use branch_spans::flow_span;
use fb_span::{Scalar, Span};
use fb_types::{Angles, Block, Column, Grid, Items};
use grid_state::State;

/// The number of 10^-12 in one.
const TRILLION: i128 = 1_000_000_000_000;

/// The flow over ten times the total, rounded outwards.
fn quotient(flow: Span<i128>, total: i64) -> Span<i128>
    requires some { pos 1 ≤ℤ total }
    requires small { total ≤ℤ pos 1_000_000_000_000 }
    ensures { result ≡ (floor_of flow.0 (pos 10 *ℤ total), ceil_of flow.1 (pos 10 *ℤ total)) }
{
    flow.div_pos(10 * i128::from(total))
}

/// The part of the span from −1 to 1.
fn clipped(span: Span<i128>) -> Span<i128>
    requires { int_max span.0 (neg_ℤ trillion) ≤ℤ int_min span.1 trillion }
    ensures value { result ≡ (int_max span.0 (neg_ℤ trillion), int_min span.1 trillion) }
    ensures within { EndsWithin 1_000_000_000_000 result }
{
    match span.meet(Span::between(-TRILLION, TRILLION)) {
        Some(span) => span,
        None => unreachable!(),
    }
}

/// The span of the flow of a block's weights over their total, in 10^-12.
fn block_span(
    state: &State,
    grid: &Grid,
    branch: u32,
    barrier: &Items<i128>,
    block: &Block,
    angles: &Angles,
) -> Span<i128>
    requires of_grid { IsOfGrid grid.now state.now }
    requires range { IsInRange grid.now state.now }
    requires branch { branch < length grid.now.branches }
    requires carries { carries_at state.now branch ≡ true }
    requires barrier { IsBarrier state.now barrier.now }
    requires block { IsBlock block.now }
    requires encloses { EnclosesColumn state.now (block_side state.now block.now) angles.now }
    ensures value { ForBranch grid.now branch (λ c. result ≡ block_span_of state.now c barrier.now block.now angles.now) }
    ensures within { EndsWithin 1_000_000_000_000 result }
{
    state.sound();
    let flow = flow_span(state, grid, branch, barrier, angles);
    clipped(quotient(flow, block.total))
}

/// The sum of the spans of blocks times their shares, over the sum of the shares, or none exactly where a number on the way is
/// past `T`.
fn blocks_span<T: Scalar>(
    state: &State,
    grid: &Grid,
    branch: u32,
    barrier: &Items<i128>,
    blocks: &[Block],
    angles: &[Angles],
) -> Option<Span<T>>
    requires of_grid { IsOfGrid grid.now state.now }
    requires range { IsInRange grid.now state.now }
    requires branch { branch < length grid.now.branches }
    requires carries { carries_at state.now branch ≡ true }
    requires barrier { IsBarrier state.now barrier.now }
    requires blocks { All IsBlock blocks.now }
    requires shares { sum_over (λ b. b.share) blocks.now ≡ pos 100_000_000 }
    requires encloses { AllZip (λ b a. EnclosesColumn state.now (block_side state.now b) a) blocks.now angles.now }
    ensures { ForBranch grid.now branch (λ c. IsShared T.whole (T.whole T.LOW) (T.whole T.HIGH) result
        (parts_of state.now c barrier.now (zip blocks.now angles.now))) }
{
    let mut sum = WeightedSum::<T>::empty()?;
    for place in 0..blocks.len() {
        let block = &blocks[place];
        let span = block_span(state, grid, branch, barrier, block, &angles[place]);
        sum = sum.add(span, block.share)?;
    }
    Some(sum.quotient())
}

/// The span of the factor that blocks with their angles make, summed over 64 bits, or none where a number on the way is past
/// them. It is there wherever the ends of the spans of all blocks are within 9·10^10.
fn narrow_span(
    state: &State,
    grid: &Grid,
    branch: u32,
    barrier: &Items<i128>,
    blocks: &[Block],
    angles: &[Angles],
) -> Option<Span<i128>>
    requires of_grid { IsOfGrid grid.now state.now }
    requires range { IsInRange grid.now state.now }
    requires branch { branch < length grid.now.branches }
    requires carries { carries_at state.now branch ≡ true }
    requires barrier { IsBarrier state.now barrier.now }
    requires blocks { All IsBlock blocks.now }
    requires shares { sum_over (λ b. b.share) blocks.now ≡ pos 100_000_000 }
    requires encloses { AllZip (λ b a. EnclosesColumn state.now (block_side state.now b) a) blocks.now angles.now }
    ensures value { ForBranch grid.now branch (λ c. IfSome result (λ s. s ≡ zone_span_of state.now c barrier.now (zip blocks.now angles.now))) }
    ensures small { ForBranch grid.now branch (λ c. All (λ z. EndsWithin 90_000_000_000 z.0) (parts_of state.now c barrier.now (zip blocks.now angles.now))
        → IsSome result) }
{
    let span = blocks_span::<i64>(state, grid, branch, barrier, blocks, angles)?;
    Some(span.wide())
}

/// The same span, summed over 128 bits.
fn wide_span(
    state: &State,
    grid: &Grid,
    branch: u32,
    barrier: &Items<i128>,
    blocks: &[Block],
    angles: &[Angles],
) -> Span<i128>
    requires of_grid { IsOfGrid grid.now state.now }
    requires range { IsInRange grid.now state.now }
    requires branch { branch < length grid.now.branches }
    requires carries { carries_at state.now branch ≡ true }
    requires barrier { IsBarrier state.now barrier.now }
    requires blocks { All IsBlock blocks.now }
    requires shares { sum_over (λ b. b.share) blocks.now ≡ pos 100_000_000 }
    requires encloses { AllZip (λ b a. EnclosesColumn state.now (block_side state.now b) a) blocks.now angles.now }
    ensures { ForBranch grid.now branch (λ c. result ≡ zone_span_of state.now c barrier.now (zip blocks.now angles.now)) }
{
    state.sound();
    match blocks_span::<i128>(state, grid, branch, barrier, blocks, angles) {
        Some(span) => span,
        None => unreachable!(),
    }
}

/// The span of the factor that blocks with their angles make, in 10^-12, on a branch that carries.
fn zone_span(
    state: &State,
    grid: &Grid,
    branch: u32,
    barrier: &Items<i128>,
    blocks: &[Block],
    angles: &[Angles],
) -> Span<i128>
    requires of_grid { IsOfGrid grid.now state.now }
    requires range { IsInRange grid.now state.now }
    requires branch { branch < length grid.now.branches }
    requires carries { carries_at state.now branch ≡ true }
    requires barrier { IsBarrier state.now barrier.now }
    requires blocks { All IsBlock blocks.now }
    requires shares { sum_over (λ b. b.share) blocks.now ≡ pos 100_000_000 }
    requires encloses { AllZip (λ b a. EnclosesColumn state.now (block_side state.now b) a) blocks.now angles.now }
    ensures value { ForBranch grid.now branch (λ c. result ≡ zone_span_of state.now c barrier.now (zip blocks.now angles.now)) }
    ensures within { EndsWithin 1_000_000_000_000 result }
{
    state.sound();
    match narrow_span(state, grid, branch, barrier, blocks, angles) {
        Some(span) => span,
        None => wide_span(state, grid, branch, barrier, blocks, angles),
    }
}

/// The span of the factor of a zone on a branch, in 10^-12: how much of a watt that the zone exports flows over the branch from
/// its first node to its second, as the zone's shift key feeds it in and the slack node takes it out (zonal PTDF; Core day-ahead
/// capacity calculation methodology, ACER decision 02-2019, annex I). Block k of the key has its enclosed angles at the place
/// `first + k` of `angles`. A branch that does not carry, and a zone without blocks, have the factor 0.
///
/// The state is one of the grid and within the range rule. The span holds the exact factor. The call takes no memory.
pub fn factor_span(
    state: &State,
    grid: &Grid,
    branch: u32,
    barrier: &Items<i128>,
    column: &Column,
    angles: &Items<Angles>,
    first: u32,
) -> Span<i128>
    requires of_grid { IsOfGrid grid.now state.now }
    requires range { IsInRange grid.now state.now }
    requires branch { branch < length grid.now.branches }
    requires barrier { IsBarrier state.now barrier.now }
    requires key { IsKey column.now }
    requires encloses { EnclosesKey state.now column.now angles.now first }
    ensures value { ForBranch grid.now branch (λ c. result ≡ factor_span_of state.now c barrier.now column.now angles.now first) }
    ensures within { EndsWithin 1_000_000_000_000 result }
    ensures holds { ForBranch grid.now branch (λ c. HoldsFactor state.now c column.now result) }
{
    state.sound();
    let blocks = column.blocks.as_slice();
    if blocks.is_empty() {
        return Span::exactly(0);
    }
    if !state.carries(branch) {
        return Span::exactly(0);
    }
    let first = first as usize;
    let own = &angles.as_slice()[first..first + blocks.len()];
    zone_span(state, grid, branch, barrier, blocks, own)
}

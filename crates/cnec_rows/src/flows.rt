//! The flows of a branch in its own direction.

ghost use Rattle.std.specs.Prelude.{◌≡◌, ◌+◌, ◌<◌, length, All, IfOk};
ghost use Rattle.std.specs.List.{AllZip};
ghost use Rattle.fb_span.specs.Ends.{EndsWithin};
ghost use Rattle.grid_laplacian.specs.Ranges.{IsOfGrid, IsInRange};
ghost use Rattle.branch_spans.specs.FlowSpans.{ForBranch};
ghost use Rattle.zonal_factors.specs.FactorSpans.{IsKey, HoldsFactor};
ghost use Rattle.state_proofs.specs.StateProofs.{IsStateProof};
ghost use Rattle.cnec_rows.specs.RowNumbers.{factors_from};
ghost use Rattle.cnec_rows.specs.RowFlows.{branch_flows_of, AreFlows};

use crate::types::BranchFlows;
use fb_span::Span;
use fb_types::{Column, Grid, Items};
use grid_state::State;
use reference_flows::reference_span;
use state_proofs::StateProof;
use std::alloc::{AllocError, Global};
use zonal_factors::factor_span;

/// The place behind so many blocks more. No memory has room for the angles of 2^32 blocks.
fn place_behind(first: u32, blocks: u64) -> Result<u32, AllocError>
    ensures { IfOk result (λ place. place ≡ first + blocks) }
{
    let Ok(blocks) = u32::try_from(blocks) else {
        return Err(AllocError);
    };
    match first.checked_add(blocks) {
        Some(place) => Ok(place),
        None => Err(AllocError),
    }
}

/// The factors of all zones on a branch, from its first node to its second, in 10^-12.
fn factor_spans(
    alloc: Global,
    state: &State,
    grid: &Grid,
    branch: u32,
    columns: &Items<Column>,
    proof: &StateProof,
) -> Result<Items<Span<i128>>, AllocError>
    requires of_grid { IsOfGrid grid.now state.now }
    requires range { IsInRange grid.now state.now }
    requires branch { branch < length grid.now.branches }
    requires keys { All IsKey columns.now }
    requires proof { IsStateProof state.now grid.now columns.now proof.now }
    ensures value { IfOk result (λ factors. ForBranch grid.now branch (λ c. factors ≡ factors_from state.now c proof.now 0 columns.now)) }
    ensures count { IfOk result (λ factors. length factors ≡ length columns.now) }
    ensures within { IfOk result (λ factors. All (EndsWithin 1_000_000_000_000) factors) }
    ensures holds { IfOk result (λ factors. ForBranch grid.now branch (λ c. AllZip (HoldsFactor state.now c) columns.now factors)) }
{
    let mut factors = Items::new(alloc);
    let mut first = 0;
    for column in columns.as_slice() {
        let factor = factor_span(
            state,
            grid,
            branch,
            &proof.barrier,
            column,
            &proof.blocks,
            first,
        );
        factors.add(factor)?;
        first = place_behind(first, column.blocks.len())?;
    }
    Ok(factors)
}

/// The flows of a branch in a grid state, from its first node to its second: the reference flow and the factors of all zones, from
/// the proof of the state. The rows of the branch, in either direction, are made from them. Each span holds the exact number.
///
/// The state is one of the grid and within the range rule. (Core day-ahead capacity calculation methodology, ACER decision 02-2019,
/// annex I.)
pub fn branch_flows(
    alloc: Global,
    state: &State,
    grid: &Grid,
    columns: &Items<Column>,
    branch: u32,
    proof: &StateProof,
) -> Result<BranchFlows, AllocError>
    requires of_grid { IsOfGrid grid.now state.now }
    requires range { IsInRange grid.now state.now }
    requires branch { branch < length grid.now.branches }
    requires keys { All IsKey columns.now }
    requires proof { IsStateProof state.now grid.now columns.now proof.now }
    ensures value { IfOk result (λ flows. ForBranch grid.now branch (λ c. flows ≡ branch_flows_of state.now columns.now c proof.now)) }
    ensures flows { IfOk result (λ flows. AreFlows state.now grid.now columns.now branch flows) }
{
    let reference = reference_span(state, grid, branch, &proof.barrier, &proof.reference);
    let factors = factor_spans(alloc, state, grid, branch, columns, proof)?;
    Ok(BranchFlows { reference, factors })
}

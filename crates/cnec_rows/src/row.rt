//! The numbers of a row.

ghost use Rattle.std.specs.Prelude.{◌≡◌, ◌<◌, ◌≤◌, ◌≤ℤ◌, length, All, IfOk};
ghost use Rattle.fb_span.specs.Ends.{EndsWithin};
ghost use Rattle.fb_types.specs.Domain.{AreBounds};
ghost use Rattle.grid_laplacian.specs.Ranges.{IsOfGrid, IsInRange};
ghost use Rattle.branch_spans.specs.FlowSpans.{ForBranch};
ghost use Rattle.cnec_selection.specs.Classes.{IsRight};
ghost use Rattle.domain_rows.specs.Brackets.{Brackets};
ghost use Rattle.reference_flows.specs.WithoutExchanges.{sizes_of};
ghost use Rattle.zonal_factors.specs.FactorSpans.{IsKey};
ghost use Rattle.state_proofs.specs.StateProofs.{IsStateProof};
ghost use Rattle.cnec_rows.specs.RowNumbers.{row_on, stated_of, keyed_zones, of_core, spans_from, proof_from, row_spans_of, row_proof_of, HoldNumbers, IsRightRow, AreTerms, AreRowZones};
ghost use Rattle.cnec_rows.specs.RowParts.{HoldFrom};
ghost use Rattle.cnec_rows.specs.RowFlows.{row_spans_on, row_proof_on, AreFlows};

use crate::factors::{core_factors, directed, directed_factors};
use crate::flows::branch_flows;
use crate::types::{BranchFlows, RowProof, RowSpans, RowTerms, RowZones};
use cnec_selection::{classify, zone_to_zone};
use domain_rows::bracket;
use fb_span::Span;
use fb_types::{Column, Grid, Items};
use grid_state::State;
use ram_formulas::ram;
use reference_flows::{external, without_any, without_core};
use row_security::bracketing;
use state_proofs::StateProof;
use std::alloc::{AllocError, Global};

/// The spans of a row's numbers, from the reference flow, the factors of all zones and those of the Core zones.
pub fn spans_from(
    zones: &RowZones,
    terms: &RowTerms,
    fref: Span<i128>,
    factors: &Items<Span<i128>>,
    core: &Items<Span<i128>>,
) -> RowSpans
    requires terms { AreTerms terms.now }
    requires as_many_positions { length zones.now.positions ≡ length factors.now }
    requires as_many_flags { length zones.now.core ≡ length factors.now }
    requires positions_in { sizes_of zones.now.positions ≤ 1_000_000_000_000 }
    requires fref_in { EndsWithin 3_000_000_000_000_000_000_000_000 fref }
    requires factors_in { All (EndsWithin 1_000_000_000_000) factors.now }
    requires core_in { All (EndsWithin 1_000_000_000_000) core.now }
    requires core { core.now ≡ of_core zones.now.core factors.now }
    requires some { 0 < length core.now }
    ensures value { result ≡ spans_from terms.now zones.now fref factors.now }
    ensures ram_in { EndsWithin 5_000_000_000_000_000_000_000_000 result.ram }
    ensures holds { HoldFrom (stated_of terms.now) zones.now factors.now result }
{
    let f0core = without_core(fref, factors, &zones.positions, &zones.core);
    let fuaf = external(factors, &zones.positions, &zones.core);
    RowSpans {
        fref,
        f0core,
        f0all: without_any(fref, factors, &zones.positions),
        fuaf,
        ram: ram(
            terms.limit,
            terms.margin,
            f0core,
            fuaf,
            terms.ramr,
            terms.cva,
            terms.iva,
        ),
        spread: zone_to_zone(core),
    }
}

/// The row of the domain, from the factors of the Core zones, the margin and the spread.
pub fn proof_from(
    alloc: Global,
    zones: &RowZones,
    terms: &RowTerms,
    core: &Items<Span<i128>>,
    ram: Span<i128>,
    spread: Span<i128>,
) -> Result<RowProof, AllocError>
    requires as_many_bounds { length zones.now.bounds ≡ length core.now }
    requires core_in { All (EndsWithin 1_000_000_000_000) core.now }
    requires ram_in { EndsWithin 5_000_000_000_000_000_000_000_000 ram }
    requires bounds_in { AreBounds zones.now.bounds }
    requires ordered { All (λ b. b.low ≤ℤ b.high) zones.now.bounds }
    ensures value { IfOk result (λ row. row ≡ proof_from terms.now zones.now core.now ram spread) }
    ensures right { IfOk result (λ row. IsRight spread terms.now.threshold row.class) }
    ensures brackets { IfOk result (λ row. Brackets core.now ram zones.now.bounds row.a row.r_in row.r_out) }
{
    let mut a = vec![in alloc; 0; core.as_slice().len()]?;
    let sides = bracket(core, ram, &zones.bounds, &mut a);
    Ok(RowProof {
        class: classify(spread, terms.threshold),
        a: Items::from_vec(a),
        r_in: sides.r_in,
        r_out: sides.r_out,
    })
}

/// The spans of a row's numbers, and the row of the domain, from the flows of its branch in its grid state, which are turned into
/// the row's direction. Each span holds the exact number, the class is right, and the two right sides bracket the exact flow.
///
/// The state is one of the grid and within the range rule. (Core day-ahead capacity calculation methodology, ACER decision 02-2019,
/// annex I.)
pub fn row_on(
    alloc: Global,
    state: &State,
    grid: &Grid,
    _columns: &Items<Column>,
    zones: &RowZones,
    terms: &RowTerms,
    flows: &BranchFlows,
) -> Result<(RowSpans, RowProof), AllocError>
    requires of_grid { IsOfGrid grid.now state.now }
    requires range { IsInRange grid.now state.now }
    requires zones { AreRowZones _columns.now zones.now }
    requires terms { AreTerms terms.now }
    requires flows { AreFlows state.now grid.now _columns.now terms.now.branch flows.now }
    ensures spans { IfOk result (λ row. row.0 ≡ row_spans_on zones.now terms.now flows.now) }
    ensures row { IfOk result (λ row. row.1 ≡ row_proof_on zones.now terms.now flows.now) }
    ensures holds { IfOk result (λ row. ForBranch grid.now terms.now.branch (λ c. HoldNumbers state.now grid.now (keyed_zones _columns.now zones.now) (row_on terms.now c) row.0)) }
    ensures right { IfOk result (λ row. ForBranch grid.now terms.now.branch (λ c. IsRightRow state.now grid.now _columns.now zones.now (row_on terms.now c) terms.now.threshold row.1)) }
{
    bracketing(state, grid);
    let fref = directed(terms.against, flows.reference);
    let factors = directed_factors(alloc, terms.against, &flows.factors)?;
    let core = core_factors(alloc, &zones.core, &factors)?;
    let spans = spans_from(zones, terms, fref, &factors, &core);
    let row = proof_from(alloc, zones, terms, &core, spans.ram, spans.spread)?;
    Ok((spans, row))
}

/// The spans of a row's numbers, and the row of the domain, from the proof of its grid state. Each span holds the exact number, the
/// class is right, and the two right sides bracket the exact flow.
///
/// The state is one of the grid and within the range rule. (Core day-ahead capacity calculation methodology, ACER decision 02-2019,
/// annex I.)
pub fn row_numbers(
    alloc: Global,
    state: &State,
    grid: &Grid,
    columns: &Items<Column>,
    zones: &RowZones,
    terms: &RowTerms,
    proof: &StateProof,
) -> Result<(RowSpans, RowProof), AllocError>
    requires of_grid { IsOfGrid grid.now state.now }
    requires range { IsInRange grid.now state.now }
    requires branch { terms.now.branch < length grid.now.branches }
    requires keys { All IsKey columns.now }
    requires zones { AreRowZones columns.now zones.now }
    requires terms { AreTerms terms.now }
    requires proof { IsStateProof state.now grid.now columns.now proof.now }
    ensures spans { IfOk result (λ row. ForBranch grid.now terms.now.branch (λ c. row.0 ≡ row_spans_of state.now columns.now zones.now terms.now c proof.now)) }
    ensures row { IfOk result (λ row. ForBranch grid.now terms.now.branch (λ c. row.1 ≡ row_proof_of state.now columns.now zones.now terms.now c proof.now)) }
    ensures holds { IfOk result (λ row. ForBranch grid.now terms.now.branch (λ c. HoldNumbers state.now grid.now (keyed_zones columns.now zones.now) (row_on terms.now c) row.0)) }
    ensures right { IfOk result (λ row. ForBranch grid.now terms.now.branch (λ c. IsRightRow state.now grid.now columns.now zones.now (row_on terms.now c) terms.now.threshold row.1)) }
{
    let flows = branch_flows(alloc, state, grid, columns, terms.branch, proof)?;
    row_on(alloc, state, grid, columns, zones, terms, &flows)
}

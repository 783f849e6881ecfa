//! The numbers of rows.

ghost use Rattle.std.specs.Prelude.{◌≡◌, ◌≤◌, length, Some, IfOk, IfSome};
ghost use Rattle.std.specs.List.{AllZip, Contains};
ghost use Rattle.fb_certificate.specs.Capacity.{HoldRow, IsRight};
ghost use Rattle.fb_certificate.specs.CracRows.{CracRow, crac_rows};
ghost use Rattle.fb_certificate.specs.Lists.{numbered};
ghost use Rattle.fb_certificate.specs.RowsMade.{AreFlowsIn};
ghost use Rattle.fb_certificate.specs.RunRows.{run_row, run_rows};
ghost use Rattle.fb_certificate.specs.Valid.{AreProofs, AreNumbersOf, AreRowsOf};
ghost use Rattle.fb_certificate.specs.Whole.{IsWhole, row_zones};

use crate::made::{MadeRow, StateFlows, row_after};
use crate::run::run_rows;
use crate::types::{Inputs, RunRow};
use crate::zones::row_zones;
use cnec_rows::{RowProof, RowSpans, RowZones};
use fb_types::Items;
use state_proofs::StateProof;
use std::alloc::{AllocError, Global};

/// The numbers of a row of the run, from the proofs of the states, and the flows of its branch. The flows that were made last are
/// taken where they are of the row's branch and state.
fn row_among(
    alloc: Global,
    inputs: &Inputs,
    states: &Items<StateProof>,
    zones: &RowZones,
    row: &RunRow,
    last: Option<StateFlows>,
) -> Result<(MadeRow, StateFlows), AllocError>
    requires whole { IsWhole inputs.now }
    requires proofs { AreProofs inputs.now states.now }
    requires zones { zones.now ≡ row_zones inputs.now.settings inputs.now.keys }
    requires listed { Contains (run_rows inputs.now) row.now }
    requires last { IfSome last (AreFlowsIn inputs.now states.now) }
    ensures numbers { IfOk result (λ found. (c : CracRow) → run_row inputs.now c ≡ row.now → AreNumbersOf inputs.now states.now c found.0.spans found.0.numbers) }
    ensures holds { IfOk result (λ found. (c : CracRow) → run_row inputs.now c ≡ row.now → HoldRow inputs.now c found.0.spans) }
    ensures right { IfOk result (λ found. (c : CracRow) → run_row inputs.now c ≡ row.now → IsRight inputs.now c found.0.numbers) }
    ensures flows { IfOk result (λ found. AreFlowsIn inputs.now states.now found.1) }
{
    let proof = &states.as_slice()[row.state as usize];
    row_after(alloc, inputs, zones, proof, row, last)
}

/// The numbers of a row of the run, and the row of the domain, from the proofs of the states: one for each state of the
/// inputs. The zones are those that rows see.
///
/// Each span holds the exact number, the class is right, and the two right sides bracket the exact flow of the row.
pub fn row_of(
    alloc: Global,
    inputs: &Inputs,
    states: &Items<StateProof>,
    zones: &RowZones,
    row: &RunRow,
) -> Result<(RowSpans, RowProof), AllocError>
    requires whole { IsWhole inputs.now }
    requires proofs { AreProofs inputs.now states.now }
    requires zones { zones.now ≡ row_zones inputs.now.settings inputs.now.keys }
    requires listed { Contains (run_rows inputs.now) row.now }
    ensures numbers { IfOk result (λ found. (c : CracRow) → run_row inputs.now c ≡ row.now → AreNumbersOf inputs.now states.now c found.0 found.1) }
    ensures holds { IfOk result (λ found. (c : CracRow) → run_row inputs.now c ≡ row.now → HoldRow inputs.now c found.0) }
    ensures right { IfOk result (λ found. (c : CracRow) → run_row inputs.now c ≡ row.now → IsRight inputs.now c found.1) }
{
    let (made, _) = row_among(alloc, inputs, states, zones, row, None)?;
    Ok((made.spans, made.numbers))
}

/// The numbers of the row with this number, from 1, and the row of the domain, from the proofs of the states: one for each
/// state of the inputs.
///
/// Each span holds the exact number, the class is right, and the two right sides bracket the exact flow of the row.
pub fn row_at(
    alloc: Global,
    inputs: &Inputs,
    states: &Items<StateProof>,
    row: u32,
) -> Result<(RowSpans, RowProof), AllocError>
    requires whole { IsWhole inputs.now }
    requires proofs { AreProofs inputs.now states.now }
    requires first { 1 ≤ row }
    requires last { row ≤ length (crac_rows inputs.now.crac.elements) }
    ensures numbers { IfOk result (λ found. (c : CracRow) → numbered (crac_rows inputs.now.crac.elements) row ≡ Some c → AreNumbersOf inputs.now states.now c found.0 found.1) }
    ensures holds { IfOk result (λ found. (c : CracRow) → numbered (crac_rows inputs.now.crac.elements) row ≡ Some c → HoldRow inputs.now c found.0) }
    ensures right { IfOk result (λ found. (c : CracRow) → numbered (crac_rows inputs.now.crac.elements) row ≡ Some c → IsRight inputs.now c found.1) }
{
    let rows = run_rows(alloc, inputs)?;
    let zones = row_zones(alloc, &inputs.settings, &inputs.keys)?;
    row_of(alloc, inputs, states, &zones, &rows[row as usize - 1])
}

/// The rows of the domain, in the order of the run, from the proofs of the states: one for each state of the inputs.
///
/// Each has its numbers, its class is right, and its two right sides bracket its exact flow.
pub fn make_rows(
    alloc: Global,
    inputs: &Inputs,
    states: &Items<StateProof>,
) -> Result<Items<RowProof>, AllocError>
    requires whole { IsWhole inputs.now }
    requires proofs { AreProofs inputs.now states.now }
    ensures numbers { IfOk result (λ rows. AreRowsOf inputs.now states.now rows) }
    ensures right { IfOk result (λ rows. AllZip (IsRight inputs.now) (crac_rows inputs.now.crac.elements) rows) }
{
    let zones = row_zones(alloc, &inputs.settings, &inputs.keys)?;
    let rows = run_rows(alloc, inputs)?;
    let mut made = Items::new(alloc);
    let mut last = None;
    for row in rows.as_slice() {
        let (found, flows) = row_among(alloc, inputs, states, &zones, row, last)?;
        made.add(found.numbers)?;
        last = Some(flows);
    }
    Ok(made)
}

//! The rows of a grid state, made from its proof one after another.

ghost use Rattle.std.specs.Prelude.{◌≡◌, ◌↔◌, All, IfOk, IfSome, IsTrue};
ghost use Rattle.std.specs.List.{AllZip, Contains};
ghost use Rattle.fb_certificate.specs.RowsMade.{AreFlowsBy, AreRowFlows, IsMadeBy, IsProofAt};
ghost use Rattle.fb_certificate.specs.RunRows.{run_rows};
ghost use Rattle.fb_certificate.specs.Whole.{IsWhole, row_zones};

use crate::types::{Inputs, RunRow};
use cnec_rows::{BranchFlows, RowProof, RowSpans, RowZones, branch_flows, row_on};
use fb_types::Items;
use state_proofs::StateProof;
use std::alloc::{AllocError, Global};

/// The spans of a row's numbers, and the row of the domain.
#[derive(Debug, Drop)]
pub struct MadeRow {
    pub spans: RowSpans,
    pub numbers: RowProof,
}

/// The flows of a branch in a grid state. The rows of the branch in the state share them.
#[derive(Debug, Drop)]
pub(crate) struct StateFlows {
    pub state: u32,
    pub branch: u32,
    pub flows: BranchFlows,
}

/// Whether flows are those of the row's branch in its state.
fn are_of(made: &StateFlows, row: &RunRow) -> bool
    ensures { IsTrue result ↔ (made.now.state ≡ row.now.state) × (made.now.branch ≡ row.now.terms.branch) }
{
    made.state == row.state && made.branch == row.terms.branch
}

/// The flows of a row's branch in its state, from the proof of the state.
fn flows_of(
    alloc: Global,
    inputs: &Inputs,
    proof: &StateProof,
    row: &RunRow,
) -> Result<StateFlows, AllocError>
    requires whole { IsWhole inputs.now }
    requires listed { Contains (run_rows inputs.now) row.now }
    requires proof { IsProofAt inputs.now row.now.state proof.now }
    ensures { IfOk result (AreRowFlows inputs.now proof.now row.now) }
{
    let branch = row.terms.branch;
    let flows = branch_flows(
        alloc,
        &inputs.states.as_slice()[row.state as usize],
        &inputs.grid,
        &inputs.keys.columns,
        branch,
        proof,
    )?;
    Ok(StateFlows {
        state: row.state,
        branch,
        flows,
    })
}

/// The flows of a row's branch in its state: those that were made last, if they are of this branch and state, or new ones.
fn flows_after(
    alloc: Global,
    inputs: &Inputs,
    proof: &StateProof,
    row: &RunRow,
    last: Option<StateFlows>,
) -> Result<StateFlows, AllocError>
    requires whole { IsWhole inputs.now }
    requires listed { Contains (run_rows inputs.now) row.now }
    requires proof { IsProofAt inputs.now row.now.state proof.now }
    requires last { IfSome last (λ made. made.state ≡ row.now.state → AreFlowsBy inputs.now proof.now made) }
    ensures { IfOk result (AreRowFlows inputs.now proof.now row.now) }
{
    let Some(made) = last else {
        return flows_of(alloc, inputs, proof, row);
    };
    if !are_of(&made, row) {
        return flows_of(alloc, inputs, proof, row);
    }
    Ok(made)
}

/// The numbers of a row of the run, from the proof of its state, and the flows of its branch. The flows that were made last are
/// taken where they are of the row's branch and state. The zones are those that rows see.
pub(crate) fn row_after(
    alloc: Global,
    inputs: &Inputs,
    zones: &RowZones,
    proof: &StateProof,
    row: &RunRow,
    last: Option<StateFlows>,
) -> Result<(MadeRow, StateFlows), AllocError>
    requires whole { IsWhole inputs.now }
    requires zones { zones.now ≡ row_zones inputs.now.settings inputs.now.keys }
    requires listed { Contains (run_rows inputs.now) row.now }
    requires proof { IsProofAt inputs.now row.now.state proof.now }
    requires last { IfSome last (λ made. made.state ≡ row.now.state → AreFlowsBy inputs.now proof.now made) }
    ensures made { IfOk result (λ found. IsMadeBy inputs.now proof.now row.now found.0) }
    ensures flows { IfOk result (λ found. AreRowFlows inputs.now proof.now row.now found.1) }
{
    let made = flows_after(alloc, inputs, proof, row, last)?;
    let (spans, numbers) = row_on(
        alloc,
        &inputs.states.as_slice()[row.state as usize],
        &inputs.grid,
        &inputs.keys.columns,
        zones,
        &row.terms,
        &made.flows,
    )?;
    Ok((MadeRow { spans, numbers }, made))
}

/// The numbers of rows of the run, all of one state, from its proof. The zones are those that rows see.
///
/// Rows that follow one another on one branch share its flows, as the two directions of an element do.
pub fn state_rows(
    alloc: Global,
    inputs: &Inputs,
    zones: &RowZones,
    proof: &StateProof,
    rows: &[RunRow],
) -> Result<Items<MadeRow>, AllocError>
    requires whole { IsWhole inputs.now }
    requires zones { zones.now ≡ row_zones inputs.now.settings inputs.now.keys }
    requires listed { All (Contains (run_rows inputs.now)) rows.now }
    requires proof { All (λ row. IsProofAt inputs.now row.state proof.now) rows.now }
    ensures { IfOk result (AllZip (IsMadeBy inputs.now proof.now) rows.now) }
{
    let mut made = Items::new(alloc);
    let mut last = None;
    for row in rows {
        let (numbers, flows) = row_after(alloc, inputs, zones, proof, row, last)?;
        made.add(numbers)?;
        last = Some(flows);
    }
    Ok(made)
}

//! Whether the states of a certificate are proved, judged by several workers.

ghost use Rattle.std.specs.Prelude.{◌≡◌, ◌≤◌, map, IfOk};
ghost use Rattle.std.specs.List.{zip};
ghost use Rattle.grid_laplacian.specs.Ranges.{IsOfGrid, IsInRange};
ghost use Rattle.fb_certificate.specs.Whole.{IsWhole};
ghost use Rattle.certificate_check.specs.Judged.{IsStateJudged, AreEachJudged, AreStatesJudged, number_of};

use crate::barriers::barrier_fault;
use crate::blocks::{judge_zones, reference_fault};
use crate::judgement::{Judgement, joined};
use crate::verdict::Reason;
use fan_out::{Gate, Work, all_made, fan};
use fb_certificate::{Inputs, StateProof};
use fb_types::Items;
use grid_state::State;
use std::alloc::{AllocError, Global};
use std::thread::Threads;

/// Judges the records of a state: its mark, its barrier, the column of the reference and those of the blocks.
fn judge_state(
    alloc: Global,
    inputs: &Inputs,
    state: &State,
    proof: &StateProof,
) -> Result<Judgement, AllocError>
    requires whole { IsWhole inputs.now }
    requires of_grid { IsOfGrid inputs.now.grid state.now }
    requires range { IsInRange inputs.now.grid state.now }
    ensures judged { IfOk result (IsStateJudged inputs.now state.now proof.now) }
    ensures small { IfOk result (λ j. number_of j ≤ 303) }
{
    if let Some(reason) = barrier_fault(state, proof.barrier.as_slice()) {
        return Ok(Judgement::Failed { record: 2, reason });
    }
    if let Some(reason) = reference_fault(alloc, state, &inputs.grid, &proof.reference)? {
        return Ok(Judgement::Failed { record: 3, reason });
    }
    let zones = inputs.keys.columns.as_slice();
    let blocks = judge_zones(alloc, state, zones, proof.blocks.as_slice())?;
    Ok(blocks.behind(3))
}

/// A state of the inputs and the proof that the certificate has for it.
#[derive(Drop)]
struct Claim<'a> {
    state: &'a State,
    proof: &'a StateProof,
}

/// Each state with its proof, in order, as far as both lists go.
fn claims_of<'a>(
    alloc: Global,
    states: &'a [State],
    proofs: &'a [StateProof],
) -> Result<Items<Claim<'a>>, AllocError>
    ensures { IfOk result (λ claims.
        map (λ claim. (claim.state.now, claim.proof.now)) claims ≡ zip states.now proofs.now) }
{
    let mut claims = Items::new(alloc);
    for (state, proof) in states.iter().zip(proofs) {
        claims.add(Claim { state, proof })?;
    }
    Ok(claims)
}

/// Judges the records of a state of the inputs.
#[derive(Drop)]
struct StateJudge<'a> {
    inputs: &'a Inputs,
}

impl<'a> Work for StateJudge<'a> {
    type Item = Claim<'a>;

    type Out = Result<Judgement, AllocError>;

    ghost takes = { λ judge claim. IsWhole judge.inputs.now
        × IsOfGrid judge.inputs.now.grid claim.state.now
        × IsInRange judge.inputs.now.grid claim.state.now };

    ghost gives = { λ judge claim answer. IfOk answer (λ j.
        IsStateJudged judge.inputs.now claim.state.now claim.proof.now j × (number_of j ≤ 303)) };

    fn run(&self, alloc: Global, claim: &Claim<'a>) -> Result<Judgement, AllocError> {
        judge_state(alloc, self.inputs, claim.state, claim.proof)
    }
}

/// Judges the records of each state that has a proof, by so many workers. The place of a state at the gate is its
/// number.
fn judge_each<R: Threads + Sync, G: Gate + Sync>(
    rt: &R,
    alloc: Global,
    inputs: &Inputs,
    proofs: &[StateProof],
    gate: &G,
    workers: u32,
) -> Result<Items<Judgement>, AllocError>
    requires whole { IsWhole inputs.now }
    requires workers { (1 ≤ workers) × (workers ≤ 64) }
    ensures { IfOk result (AreEachJudged inputs.now proofs.now) }
{
    let claims = claims_of(alloc, inputs.states.as_slice(), proofs)?;
    let judge = StateJudge { inputs };
    let answers = fan(rt, alloc, &judge, gate, &claims, workers)?;
    all_made(alloc, answers)
}

/// Judges the records of all states, by so many workers.
pub(crate) fn judge_states<R: Threads + Sync, G: Gate + Sync>(
    rt: &R,
    alloc: Global,
    inputs: &Inputs,
    proofs: &[StateProof],
    gate: &G,
    workers: u32,
) -> Result<Judgement, AllocError>
    requires whole { IsWhole inputs.now }
    requires workers { (1 ≤ workers) × (workers ≤ 64) }
    ensures judged { IfOk result (AreStatesJudged inputs.now proofs.now) }
    ensures small { IfOk result (λ j. number_of j ≤ 200000) }
{
    let judgements = judge_each(rt, alloc, inputs, proofs, gate, workers)?;
    let judgement = joined(judgements.as_slice());
    if inputs.states.len() == proofs.len() as u64 {
        return Ok(judgement);
    }
    let misplaced = Judgement::Failed {
        record: 1,
        reason: Reason::Order,
    };
    Ok(judgement.then(misplaced))
}

//! The proofs of the grid states, split among threads.

ghost use Rattle.std.specs.Prelude.{◌≤◌, IfOk};
ghost use Rattle.grid_laplacian.specs.Ranges.{IsOfGrid, IsInRange};
ghost use Rattle.state_proofs.specs.StateProofs.{IsStateProof};
ghost use Rattle.fb_certificate.specs.Valid.{AreProofs};
ghost use Rattle.fb_certificate.specs.Whole.{IsWhole};

use fan_out::{Gate, Work, all_made, fan};
use fb_certificate::{Inputs, StateProof};
use fb_types::Items;
use grid_state::State;
use state_proofs::{Groundwork, prove_after};
use std::alloc::{AllocError, Global};
use std::thread::Threads;

/// What the proofs of all grid states share, from the base state.
pub(crate) fn groundwork_of<'a>(
    alloc: Global,
    inputs: &'a Inputs,
) -> Result<Groundwork<'a>, AllocError>
    requires { IsWhole inputs.now }
{
    let states = inputs.states.as_slice();
    Groundwork::new(alloc, &states[0], &inputs.grid, &inputs.keys.columns)
}

/// Proves a grid state of the inputs, from what the proofs of all states share.
#[derive(Drop)]
struct StateProver<'a> {
    inputs: &'a Inputs,
    groundwork: &'a Groundwork<'a>,
}

impl<'a> Work for StateProver<'a> {
    type Item = State;

    type Out = Result<StateProof, AllocError>;

    ghost takes = { λ prover s. IsWhole prover.inputs.now
        × IsOfGrid prover.inputs.now.grid s
        × IsInRange prover.inputs.now.grid s };

    ghost gives = { λ prover s answer.
        IfOk answer (IsStateProof s prover.inputs.now.grid prover.inputs.now.keys.columns) };

    fn run(&self, alloc: Global, state: &State) -> Result<StateProof, AllocError> {
        let inputs = self.inputs;
        prove_after(
            alloc,
            self.groundwork,
            state,
            &inputs.grid,
            &inputs.keys.columns,
        )
    }
}

/// The proof of each grid state, in the order of the states, by so many workers. The place of a state at the gate is
/// its number.
pub(crate) fn prove_states<R: Threads + Sync, G: Gate + Sync>(
    rt: &R,
    alloc: Global,
    inputs: &Inputs,
    gate: &G,
    workers: u32,
) -> Result<Items<StateProof>, AllocError>
    requires whole { IsWhole inputs.now }
    requires workers { (1 ≤ workers) × (workers ≤ 64) }
    ensures { IfOk result (λ proofs. AreProofs inputs.now proofs) }
{
    let groundwork = groundwork_of(alloc, inputs)?;
    let prover = StateProver {
        inputs,
        groundwork: &groundwork,
    };
    let answers = fan(rt, alloc, &prover, gate, &inputs.states, workers)?;
    all_made(alloc, answers)
}

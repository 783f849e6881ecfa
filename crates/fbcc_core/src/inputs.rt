//! The inputs of a domain: the documents of a run, with the grid states that they speak of.

ghost use Rattle.std.specs.Prelude.{◌≡◌, IfOk};
ghost use Rattle.fb_certificate.specs.Whole.{IsWhole};
ghost use Rattle.fbcc_core.specs.Commands.{fault_of, puts_together};
ghost use Rattle.fbcc_core.specs.Understood.{AreInOrder};

use crate::answer::Fault;
use crate::documents::RunDocuments;
use fb_certificate::Inputs;
use run_inputs::{InputsError, run_inputs};
use std::alloc::Global;

/// The inputs of the documents, with the grid states.
pub fn put_together(alloc: Global, documents: RunDocuments) -> Result<Inputs, Fault>
    requires { AreInOrder documents }
    ensures step { puts_together documents result }
    ensures whole { IfOk result IsWhole }
{
    let RunDocuments {
        grid,
        crac,
        settings,
        keys,
        reductions,
    } = documents;
    match run_inputs(alloc, grid, crac, settings, keys, reductions) {
        Ok(inputs) => Ok(inputs),
        Err(error) => Err(fault_of(error)),
    }
}

/// The fault that tells why there are no inputs.
fn fault_of(error: InputsError) -> Fault
    ensures { result ≡ fault_of error }
{
    match error {
        InputsError::NoSlack => Fault::NoSlack,
        InputsError::SplitGrid { state, node } => Fault::SplitGrid { state, node },
        InputsError::RangeExceeded { state } => Fault::RangeExceeded { state },
        InputsError::Memory(e) => Fault::Memory(e),
    }
}

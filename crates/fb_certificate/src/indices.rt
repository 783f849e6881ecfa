//! Where the reduction of a row and the grid state of a contingency are found.

ghost use Rattle.std.specs.Prelude.{◌≡◌, ◌<◌, ◌^◌, ◌==◌, ◌&&◌, All, IfOk, IfSome, map, length};
ghost use Rattle.std.specs.Bool.{beq};
ghost use Rattle.std.specs.List.{find};
ghost use Rattle.fb_certificate.specs.CracRows.{state_number};
ghost use Rattle.fb_certificate.specs.RowIndices.{AreIndices, key_of, reduction_key};
ghost use Rattle.fb_certificate.specs.Whole.{IsWhole};

use crate::types::Inputs;
use place_tables::first_places;
use run_settings::Reduction;
use std::alloc::{AllocError, Global};

/// Places by number.
#[derive(Debug, Drop)]
pub(crate) struct Indices {
    /// The place of the reduction of each element in each direction: of element e at 2e for DIRECT, at 2e + 1 for OPPOSITE.
    pub reductions: Vec<Option<usize>>,
    /// The place of each contingency in the list of outages.
    pub states: Vec<Option<usize>>,
}

/// The key of an element in a direction.
fn key_of(element: u32, opposite: bool) -> u32
    requires { element < 2 ^ 31 }
    ensures { result ≡ key_of element opposite }
{
    2 * element + u32::from(opposite)
}

/// The key of each reduction.
fn reduction_keys(alloc: Global, reductions: &[Reduction]) -> Result<Vec<u32>, AllocError>
    requires { All (λ r. r.element < 2 ^ 31) reductions.now }
    ensures { IfOk result (λ keys. keys.items ≡ map reduction_key reductions.now) }
{
    let mut keys = Vec::new(alloc);
    for reduction in reductions {
        keys.push(key_of(reduction.element, reduction.opposite))?;
    }
    Ok(keys)
}

/// The indices of the inputs of a run.
pub(crate) fn indices_of(alloc: Global, inputs: &Inputs) -> Result<Indices, AllocError>
    requires { IsWhole inputs.now }
    ensures { IfOk result (λ indices. AreIndices inputs.now indices) }
{
    let keys = reduction_keys(alloc, inputs.reductions.as_slice())?;
    let elements = inputs.crac.elements.len() as u32;
    let contingencies = inputs.crac.contingencies.len() as u32;
    Ok(Indices {
        reductions: first_places(alloc, 2 * elements, keys.as_slice())?,
        states: first_places(alloc, contingencies, inputs.outages.as_slice())?,
    })
}

impl Indices {
    /// The reduction of an element in a direction, if there is one.
    pub(crate) fn reduction_of(
        &self,
        inputs: &Inputs,
        element: u32,
        opposite: bool,
    ) -> Option<Reduction>
        requires whole { IsWhole inputs.now }
        requires are { AreIndices inputs.now self.now }
        requires element { element < length inputs.now.crac.elements }
        ensures { result ≡ find (λ r. (r.element == element) && beq r.opposite opposite) inputs.now.reductions }
    {
        let place = self.reductions[key_of(element, opposite) as usize]?;
        Some(inputs.reductions.as_slice()[place])
    }

    /// The number of the grid state after a contingency: 0 for the base state.
    pub(crate) fn state_of(&self, inputs: &Inputs, contingency: Option<u32>) -> u32
        requires whole { IsWhole inputs.now }
        requires are { AreIndices inputs.now self.now }
        requires known { IfSome contingency (λ k. k < length inputs.now.crac.contingencies) }
        ensures { result ≡ state_number inputs.now.outages contingency }
    {
        let Some(contingency) = contingency else {
            return 0
        };
        match self.states[contingency as usize] {
            Some(place) => place as u32 + 1,
            None => 1,
        }
    }
}

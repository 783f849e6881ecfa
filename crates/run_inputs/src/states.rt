//! The grid states of a run.

ghost use Rattle.std.specs.Prelude.{◌≡◌, ℕ, ◌+◌, ◌<◌, ◌≤◌, length, All, IfOk, IfErr};
ghost use Rattle.grid_state.specs.Split.{AreKeysOf};
ghost use Rattle.fb_certificate.specs.CracRows.{out_by_state};
ghost use Rattle.fb_certificate.specs.Whole.{IsCracOver};
ghost use Rattle.run_inputs.specs.Building.{out_in, AreUnsplit, IsToldAt, IsSplitAt};
ghost use Rattle.run_inputs.specs.Refusals.{code_at};

use crate::fault::InputsError;
use fb_types::{Column, Crac, Grid, Items, Text};
use grid_state::{KeyedNodes, State, StateFault, state_from};
use std::alloc::{AllocError, Global};

/// The branches that are out in the state of this number: none in the base state, of number 0, and behind it come the states
/// after each outage.
fn out_in<'a>(crac: &'a Crac, outages: &[u32], number: usize) -> &'a [u32]
    requires outages { All (λ k. k < length crac.now.contingencies) outages.now }
    requires number { number ≤ length outages.now }
    ensures { result.now ≡ out_in crac.now outages.now number }
{
    if number == 0 {
        return &[];
    }
    let outage = outages[number - 1];
    let contingency = &crac.contingencies.as_slice()[outage as usize];
    contingency.branches.as_slice()
}

/// The code of the node at a place, counted from 0. It is empty past the end.
fn code_at(grid: &Grid, node: u32) -> &str
    ensures { result.now ≡ code_at grid.now node }
{
    match grid.nodes.get(u64::from(node)) {
        Some(node) => node.code.as_text(),
        None => "",
    }
}

/// Why there are no inputs, where the state of this number is refused.
fn refused_at(alloc: Global, grid: &Grid, number: u32, fault: StateFault) -> InputsError
    ensures { IsToldAt grid.now number fault result }
{
    match fault {
        StateFault::SplitGrid { node } => match Text::from_text(alloc, code_at(grid, node)) {
            Ok(node) => InputsError::SplitGrid {
                state: number,
                node,
            },
            Err(e) => InputsError::Memory(e),
        },
        StateFault::Memory(e) => InputsError::Memory(e),
    }
}

/// A state which shares its parts with the first of others, the base state, where it changes little of them.
fn beside_first(alloc: Global, state: State, states: &Items<State>) -> Result<State, AllocError>
    ensures { IfOk result (λ s. s ≡ state) }
{
    match states.get(0) {
        Some(base) => state.shared_with(alloc, base),
        None => Ok(state),
    }
}

/// The base state and the states after each outage, none of which is split, or the first that is.
pub fn states(
    alloc: Global,
    grid: &Grid,
    slack: u32,
    crac: &Crac,
    outages: &[u32],
    columns: &Items<Column>,
) -> Result<Items<State>, InputsError>
    requires slack { slack < length grid.now.nodes }
    requires crac { IsCracOver (length grid.now.branches) crac.now }
    requires outages { All (λ k. k < length crac.now.contingencies) outages.now }
    requires few { length outages.now ≤ 512 }
    requires keys { AreKeysOf (length grid.now.nodes) columns.now }
    ensures states { IfOk result (AreUnsplit grid.now slack columns.now (out_by_state crac.now outages.now)) }
    ensures cause { IfErr result (IsSplitAt grid.now slack columns.now (out_by_state crac.now outages.now)) }
{
    let keyed = KeyedNodes::of(alloc, grid.nodes.as_slice().len(), columns)?;
    let mut states = Items::new(alloc);
    for number in 0..outages.len() + 1 {
        let out = out_in(crac, outages, number);
        match state_from(alloc, grid, slack, out, &keyed) {
            Ok(state) => {
                let state = beside_first(alloc, state, &states)?;
                states.add(state)?;
            }
            Err(fault) => return Err(refused_at(alloc, grid, number as u32, fault)),
        }
    }
    Ok(states)
}

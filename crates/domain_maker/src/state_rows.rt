//! The rows of a run, state by state, split among threads.

ghost use Rattle.std.specs.Prelude.{◌≡◌, ◌≤◌, ◌<◌, [], length, map, IfOk, slice_index_or};
ghost use Rattle.std.specs.List.{AllZip, range_with_len};
ghost use Rattle.fb_certificate.specs.Whole.{IsWhole};
ghost use Rattle.domain_maker.specs.Made.{AreMade, AreMadeAt, AreReady, AreRowsByState};

use crate::states::groundwork_of;
use cnec_rows::RowZones;
use fan_out::{Gate, Work, all_made, fan};
use fb_certificate::{Inputs, MadeRow, RunRow, row_zones, run_rows, state_rows};
use fb_types::Items;
use number_groups::{grouped, regrouped};
use state_proofs::{Groundwork, prove_after};
use std::alloc::{AllocError, Global};
use std::thread::Threads;

/// Proves the grid state with a number, makes its rows, and lets the proof go.
#[derive(Drop)]
struct RowMaker<'a> {
    inputs: &'a Inputs,
    groundwork: &'a Groundwork<'a>,
    zones: &'a RowZones,
    /// The rows of each state.
    groups: &'a [Items<RunRow>],
}

impl<'a> Work for RowMaker<'a> {
    type Item = u32;

    type Out = Result<Items<MadeRow>, AllocError>;

    ghost takes = { λ maker number. AreReady maker.inputs.now maker.zones.now maker.groups.now
        × (number < length maker.inputs.now.states) };

    ghost gives = { λ maker number answer.
        IfOk answer (AreMadeAt maker.inputs.now number (slice_index_or maker.groups.now number [])) };

    fn run(&self, alloc: Global, number: &u32) -> Result<Items<MadeRow>, AllocError> {
        let inputs = self.inputs;
        let place = *number as usize;
        let proof = prove_after(
            alloc,
            self.groundwork,
            &inputs.states.as_slice()[place],
            &inputs.grid,
            &inputs.keys.columns,
        )?;
        let rows = self.groups[place].as_slice();
        state_rows(alloc, inputs, self.zones, &proof, rows)
    }
}

/// The number of the state of each row.
fn states_of(alloc: Global, rows: &[RunRow]) -> Result<Vec<u32>, AllocError>
    ensures { IfOk result (λ numbers. numbers.items ≡ map (λ row. row.state) rows.now) }
{
    let mut numbers = Vec::new(alloc);
    for row in rows {
        numbers.push(row.state)?;
    }
    Ok(numbers)
}

/// The numbers below a count.
fn numbers_below(alloc: Global, count: u32) -> Result<Items<u32>, AllocError>
    ensures { IfOk result (λ numbers. numbers ≡ range_with_len 0 count) }
{
    let mut numbers = Items::new(alloc);
    for number in 0..count {
        numbers.add(number)?;
    }
    Ok(numbers)
}

/// The rows of each state, from the groups of the rows of the run: state by state, by so many workers.
fn rows_by_state<R: Threads + Sync, G: Gate + Sync>(
    rt: &R,
    alloc: Global,
    inputs: &Inputs,
    groups: &[Items<RunRow>],
    gate: &G,
    workers: u32,
) -> Result<Items<Items<MadeRow>>, AllocError>
    requires whole { IsWhole inputs.now }
    requires groups { AreRowsByState inputs.now groups.now }
    requires workers { (1 ≤ workers) × (workers ≤ 64) }
    ensures { IfOk result (λ made. AllZip (λ number. AreMadeAt inputs.now number (slice_index_or groups.now number []))
        (range_with_len 0 (length inputs.now.states)) made) }
{
    let groundwork = groundwork_of(alloc, inputs)?;
    let zones = row_zones(alloc, &inputs.settings, &inputs.keys)?;
    let maker = RowMaker {
        inputs,
        groundwork: &groundwork,
        zones: &zones,
        groups,
    };
    let numbers = numbers_below(alloc, groups.len() as u32)?;
    let answers = fan(rt, alloc, &maker, gate, &numbers, workers)?;
    all_made(alloc, answers)
}

/// The numbers of all rows, in the order of the run. Each state is proved once, by one of so many workers, and no proof is
/// kept. The place of a state at the gate is its number.
pub(crate) fn made_rows<R: Threads + Sync, G: Gate + Sync>(
    rt: &R,
    alloc: Global,
    inputs: &Inputs,
    gate: &G,
    workers: u32,
) -> Result<Items<MadeRow>, AllocError>
    requires whole { IsWhole inputs.now }
    requires workers { (1 ≤ workers) × (workers ≤ 64) }
    ensures { IfOk result (AreMade inputs.now) }
{
    let rows = run_rows(alloc, inputs)?;
    let states = states_of(alloc, rows.as_slice())?;
    let count = inputs.states.len() as u32;
    let groups = grouped(alloc, count, states.as_slice(), rows.as_slice())?;
    let made = rows_by_state(rt, alloc, inputs, groups.as_slice(), gate, workers)?;
    regrouped(alloc, states.as_slice(), made)
}

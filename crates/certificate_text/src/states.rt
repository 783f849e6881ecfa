//! The lines of the states.

ghost use Rattle.std.specs.Prelude.{◌≡◌, ◌++◌, ◌∷◌, map, pos, IfOk, OnOk, string_bytes};
ghost use Rattle.std.specs.List.{enumerate_from, flat_map, zip};
ghost use Rattle.csv_rows.specs.Tables.{record_text};
ghost use Rattle.certificate_text.specs.CertificateTexts.{state_ids, lines_of_state, lines_text};
ghost use Rattle.certificate_text.specs.Lines.{barrier_line, fields_of};

use crate::columns::{put_column, put_columns};
use crate::line::put_line;
use crate::numbers::put_numbers;
use csv_rows::Table;
use domain_report::contingency_id;
use fb_certificate::Inputs;
use itoa::Buffer;
use state_proofs::StateProof;
use std::alloc::{AllocError, Global};

/// The id of the contingency of each state, empty for the base state.
///
/// The one error is want of memory.
pub fn state_ids(alloc: Global, inputs: &Inputs) -> Result<Vec<&str>, AllocError>
    ensures { IfOk result (λ ids. map (λ id. id.now) ids.items ≡ state_ids inputs.now) }
{
    let contingencies = inputs.crac.contingencies.as_slice();
    let mut ids = Vec::new(alloc);
    ids.push("")?;
    for outage in inputs.outages.as_slice() {
        ids.push(contingency_id(contingencies, Some(*outage)))?;
    }
    Ok(ids)
}

/// Appends the lines of each state, up to the last that has an id.
pub(crate) fn put_states(
    alloc: Global,
    table: &mut Table,
    ids: &[&str],
    places: &[(usize, usize)],
    proofs: &[StateProof],
) -> Result<(), AllocError>
    ensures { OnOk result (table.new.text ≡ table.old.text ++ lines_text (flat_map (lines_of_state places.now) (zip (enumerate_from 0 (map (λ id. id.now) ids.now)) proofs.now))) }
{
    for (k, proof) in proofs.iter().enumerate() {
        let Some(id) = ids.get(k) else {
            return Ok(());
        };
        put_state(alloc, table, k, id, places, proof)?;
    }
    Ok(())
}

/// Appends the lines of the state with this number and id: its contingency, its barrier, and the columns of the
/// reference and of each block.
fn put_state(
    alloc: Global,
    table: &mut Table,
    state: usize,
    id: &str,
    places: &[(usize, usize)],
    proof: &StateProof,
) -> Result<(), AllocError>
    ensures { OnOk result (table.new.text ≡ table.old.text ++ lines_text (lines_of_state places.now ((state, id.now), proof.now))) }
{
    let mut digits = Buffer::new();
    put_line(table, "state", digits.format(state), id)?;
    put_barrier(alloc, table, state, proof.barrier.as_slice())?;
    put_column(alloc, table, state, (0, 0), &proof.reference)?;
    put_columns(alloc, table, state, places, proof.blocks.as_slice())
}

/// Appends the barrier of the state with this number.
fn put_barrier(
    alloc: Global,
    table: &mut Table,
    state: usize,
    barrier: &[i128],
) -> Result<(), AllocError>
    ensures { OnOk result (table.new.text ≡ table.old.text ++ record_text (fields_of (barrier_line (pos state) barrier.now))) }
{
    let mut digits = Buffer::new();
    let mut value = String::new(alloc);
    put_numbers(&mut value, barrier)?;
    put_line(table, "barrier", digits.format(state), value.as_str())
}

//! The rows of a run.

ghost use Rattle.std.specs.Prelude.{◌≡◌, ◌++◌, Some, IfOk, OnOk, map, slice_get};
ghost use Rattle.run_settings.specs.Reductions.{limit_in};
ghost use Rattle.fb_certificate.specs.CracRows.{row_if};
ghost use Rattle.fb_certificate.specs.RowIndices.{AreIndices};
ghost use Rattle.fb_certificate.specs.RunRows.{is_opposite, run_row, run_rows};
ghost use Rattle.fb_certificate.specs.Whole.{IsWhole};

use crate::indices::{Indices, indices_of};
use crate::terms::{limit_in, terms_of};
use crate::types::{Direction, Inputs, RunRow};
use fb_types::Element;
use std::alloc::{AllocError, Global};

/// Puts the row of an element in a direction behind the others, if it has a limit there. The element goes by its place too.
fn add_row(
    inputs: &Inputs,
    indices: &Indices,
    place: u32,
    element: &Element,
    direction: Direction,
    rows: &mut Vec<RunRow>,
) -> Result<(), AllocError>
    requires whole { IsWhole inputs.now }
    requires are { AreIndices inputs.now indices.now }
    requires stands { slice_get inputs.now.crac.elements place ≡ Some element.now }
    ensures { OnOk result (rows.new.items ≡ rows.old.items ++ map (run_row inputs.now) (row_if (place, element.now) (is_opposite direction) (limit_in (is_opposite direction) element.now))) }
{
    let Some(limit) = limit_in(element, direction) else {
        return Ok(())
    };
    let reduction = indices.reduction_of(inputs, place, direction.is_opposite());
    rows.push(RunRow {
        element: place,
        direction,
        state: indices.state_of(inputs, element.contingency),
        terms: terms_of(inputs, element, direction, limit, reduction),
    })?;
    Ok(())
}

/// The rows of a run: those of all elements, element by element, DIRECT before OPPOSITE, each with all that is stated of it.
///
/// The table's number of a row is its place here, counted from 1. Reductions and states are found by an index, so the call is
/// linear in its input.
pub fn run_rows(alloc: Global, inputs: &Inputs) -> Result<Vec<RunRow>, AllocError>
    requires { IsWhole inputs.now }
    ensures { IfOk result (λ rows. rows.items ≡ run_rows inputs.now) }
{
    let indices = indices_of(alloc, inputs)?;
    let mut rows = Vec::new(alloc);
    for (place, element) in inputs.crac.elements.as_slice().iter().enumerate() {
        let place = place as u32;
        add_row(
            inputs,
            &indices,
            place,
            element,
            Direction::Direct,
            &mut rows,
        )?;
        add_row(
            inputs,
            &indices,
            place,
            element,
            Direction::Opposite,
            &mut rows,
        )?;
    }
    Ok(rows)
}

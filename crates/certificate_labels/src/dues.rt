//! The records that are due for the inputs, up to the last row.

ghost use Rattle.std.specs.Prelude.{◌≡◌, ◌+◌, ◌-◌, ◌≤◌, ◌++◌, length, map, IfOk, OnOk};
ghost use Rattle.fb_certificate.specs.CracRows.{crac_rows};
ghost use Rattle.certificate_labels.specs.Kinds.{label_of, labels_if, labels_of_rows, labels_of_columns};
ghost use Rattle.certificate_labels.specs.Labels.{due_labels, labels_of_state};

use crate::record::Due;
use certificate_text::{block_places, state_ids};
use fb_certificate::Inputs;
use fb_types::Element;
use std::alloc::{AllocError, Global};

/// The records that are due: of the version, of each state, and of each row.
pub(crate) fn due_records(alloc: Global, inputs: &Inputs) -> Result<Vec<Due<'_>>, AllocError>
    ensures { IfOk result (λ dues. map label_of dues.items ≡ due_labels inputs.now) }
{
    let ids = state_ids(alloc, inputs)?;
    let places = block_places(alloc, inputs.keys.columns.as_slice())?;
    let mut dues = Vec::new(alloc);
    dues.push(Due::Version)?;
    for (number, id) in ids.iter().enumerate() {
        put_state(&mut dues, number, id, places.as_slice())?;
    }
    put_rows(&mut dues, inputs.crac.elements.as_slice())?;
    Ok(dues)
}

/// Appends the records of the state with this number and id: its own, its barrier, and the columns of the reference and
/// of each block.
fn put_state<'a>(
    dues: &mut Vec<Due<'a>>,
    number: usize,
    id: &'a str,
    places: &[(usize, usize)],
) -> Result<(), AllocError>
    ensures { OnOk result (map label_of dues.new.items ≡ map label_of dues.old.items ++ labels_of_state places.now (number, id.now)) }
{
    dues.push(Due::State { number, id })?;
    dues.push(Due::Barrier { state: number })?;
    dues.push(Due::Column {
        state: number,
        zone: 0,
        block: 0,
    })?;
    put_columns(dues, number, places)
}

/// Appends the column of each block of the state with this number.
fn put_columns(
    dues: &mut Vec<Due<'_>>,
    state: usize,
    places: &[(usize, usize)],
) -> Result<(), AllocError>
    ensures { OnOk result (map label_of dues.new.items ≡ map label_of dues.old.items ++ labels_of_columns state places.now) }
{
    for place in places {
        let (zone, block) = *place;
        dues.push(Due::Column { state, zone, block })?;
    }
    Ok(())
}

/// Appends the rows of each element, numbered from 1.
fn put_rows(dues: &mut Vec<Due<'_>>, elements: &[Element]) -> Result<(), AllocError>
    ensures { OnOk result (map label_of dues.new.items ≡ map label_of dues.old.items ++ labels_of_rows 1 (crac_rows elements.now)) }
{
    let before = dues.len();
    for element in elements {
        put_row(dues, before, element.direct)?;
        put_row(dues, before, element.opposite)?;
    }
    Ok(())
}

/// Appends the row of an element in a direction, if it has a limit there. So many records stand before the first row.
fn put_row(dues: &mut Vec<Due<'_>>, before: usize, limit: Option<i64>) -> Result<(), AllocError>
    requires { before ≤ length dues.old.items }
    ensures { OnOk result (map label_of dues.new.items ≡ map label_of dues.old.items ++ labels_if limit (length dues.old.items - before + 1)) }
{
    if limit.is_none() {
        return Ok(());
    }
    let number = dues.len() - before + 1;
    dues.push(Due::Row { number })?;
    Ok(())
}

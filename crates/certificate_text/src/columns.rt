//! The columns of a state.

ghost use Rattle.std.specs.Prelude.{◌≡◌, ◌++◌, map, pos, IfOk, OnOk, string_bytes};
ghost use Rattle.std.specs.List.{zip};
ghost use Rattle.csv_rows.specs.Tables.{record_text};
ghost use Rattle.certificate_text.specs.CertificateTexts.{block_places, zone_places, line_of_column, lines_text};
ghost use Rattle.certificate_text.specs.Lines.{angles_text, place_text, fields_of};

use crate::line::put_line;
use crate::numbers::put_numbers;
use csv_rows::{Table, put_whole};
use fb_types::{Angles, Column};
use std::alloc::{AllocError, Global};

/// The zone and the number of each block, zone by zone, both from 1: the places of the columns that follow a state's
/// reference.
///
/// The one error is want of memory.
pub fn block_places(alloc: Global, columns: &[Column]) -> Result<Vec<(usize, usize)>, AllocError>
    ensures { IfOk result (λ places. places.items ≡ block_places columns.now) }
{
    let mut places = Vec::new(alloc);
    for (k, column) in columns.iter().enumerate() {
        put_zone_places(&mut places, k + 1, column)?;
    }
    Ok(places)
}

/// Appends the place of each block of the zone with this number.
fn put_zone_places(
    places: &mut Vec<(usize, usize)>,
    zone: usize,
    column: &Column,
) -> Result<(), AllocError>
    ensures { OnOk result (places.new.items ≡ places.old.items ++ zone_places (zone, column.now)) }
{
    for (k, _) in column.blocks.as_slice().iter().enumerate() {
        places.push((zone, k + 1))?;
    }
    Ok(())
}

/// Appends a column for each block of the state with this number, up to the last that has a place.
pub(crate) fn put_columns(
    alloc: Global,
    table: &mut Table,
    state: usize,
    places: &[(usize, usize)],
    blocks: &[Angles],
) -> Result<(), AllocError>
    ensures { OnOk result (table.new.text ≡ table.old.text ++ lines_text (map (line_of_column state) (zip places.now blocks.now))) }
{
    for (k, angles) in blocks.iter().enumerate() {
        let Some(place) = places.get(k) else {
            return Ok(());
        };
        put_column(alloc, table, state, *place, angles)?;
    }
    Ok(())
}

/// Appends a column of the state with this number, at a zone and a block.
pub(crate) fn put_column(
    alloc: Global,
    table: &mut Table,
    state: usize,
    place: (usize, usize),
    angles: &Angles,
) -> Result<(), AllocError>
    ensures { OnOk result (table.new.text ≡ table.old.text ++ record_text (fields_of (line_of_column state (place, angles.now)))) }
{
    let key = place_text(alloc, state, place)?;
    let value = angles_text(alloc, angles)?;
    put_line(table, "column", key.as_str(), value.as_str())
}

/// The number of a state, a zone and a block.
fn place_text(alloc: Global, state: usize, place: (usize, usize)) -> Result<String, AllocError>
    ensures { IfOk result (λ text. string_bytes text ≡ place_text (record { state = pos state; zone = pos place.0; block = pos place.1 })) }
{
    let (zone, block) = place;
    let mut text = String::new(alloc);
    put_numbers(&mut text, &[state as i128, zone as i128, block as i128])?;
    Ok(text)
}

/// Kappa, and then the angles.
fn angles_text(alloc: Global, angles: &Angles) -> Result<String, AllocError>
    ensures { IfOk result (λ text. string_bytes text ≡ angles_text angles.now) }
{
    let mut text = String::new(alloc);
    put_whole(&mut text, i128::from(angles.kappa))?;
    text.push(' ')?;
    put_numbers(&mut text, angles.w.as_slice())?;
    Ok(text)
}

//! A whole document of shift keys.

ghost use Rattle.std.specs.Prelude.{◌≡◌, codes, IfOk};
ghost use Rattle.json_reading.specs.Place.{in_item};
ghost use Rattle.json_reading.specs.Outcome.{Gives, Refuses, same};
ghost use Rattle.json_reading.specs.Here.{at_of};
ghost use Rattle.glsk_keys.specs.Columns.{keys_at};
ghost use Rattle.glsk_keys.specs.Facts.{facts_of};
ghost use Rattle.glsk_keys.specs.declared.model.KeyKind.TheVariants.{NoSeries};

use crate::columns::{columns, first_bare, positions};
use crate::known::Known;
use crate::model::{KeyKind, Keys};
use crate::series::SeriesReader;
use fb_types::{Items, Text};
use json_reading::{Here, ReadError, required_array};
use std::alloc::{AllocError, Global};

/// The place of a zone in the settings.
fn zone_place(alloc: Global, zone: u32) -> Result<Text, AllocError>
    ensures { IfOk result (λ t. t ≡ in_item (codes "zones") zone) }
{
    let text = format!(in alloc; "zones[{zone}]")?;
    Ok(Text::from_string(text))
}

/// The fault of a Core zone without a series.
fn no_series(alloc: Global, zone: u32) -> ReadError<KeyKind>
    ensures { Refuses result (in_item (codes "zones") zone) NoSeries }
{
    match zone_place(alloc, zone) {
        Ok(place) => ReadError::Fault {
            place,
            kind: KeyKind::NoSeries,
        },
        Err(e) => ReadError::Memory(e),
    }
}

/// The keys of the document at the spot.
#[tactic(auto, using(json_reading::proofs::Refused::refused), unfolding(crate::specs::Columns::keys_at))]
pub fn keys_at(
    alloc: Global,
    known: &Known<'_>,
    at: &Here<'_, KeyKind>,
) -> Result<Keys, ReadError<KeyKind>>
    ensures { Gives same result (keys_at (facts_of known.now) (at_of at.now)) }
{
    let reader = SeriesReader { known };
    let series = required_array(alloc, &reader, &mut (), at, "series")?;
    if let Some(zone) = first_bare(known.zones, &series) {
        return Err(no_series(alloc, zone));
    }
    let columns = columns(alloc, known, series)?;
    let positions = positions(alloc, known)?;
    Ok(Keys {
        columns: Items::from_vec(columns),
        positions: Items::from_vec(positions),
    })
}

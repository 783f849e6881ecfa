//! The series of a document.

ghost use Rattle.std.specs.Prelude.{◌≡◌, ◌<◌, ◌^◌, length, ⊤};
ghost use Rattle.json_reading.specs.Outcome.{Gives, same};
ghost use Rattle.json_reading.specs.Here.{at_of};
ghost use Rattle.glsk_keys.specs.Document.{has_series, matching_of, holds, zone_series_of, series_of};
ghost use Rattle.glsk_keys.specs.Facts.{facts_of};

use crate::blocks::blocks_of;
use crate::homes::zone_named;
use crate::known::Known;
use crate::model::KeyKind;
use fb_types::{Column, Items};
use jiff::Timestamp;
use json_reading::{Here, ItemReader, ReadError};
use run_settings::moment_of;
use std::alloc::Global;

/// Whether a series of the zone matched.
pub fn has_series(zone: u32, columns: &[Column]) -> bool
    ensures { result ≡ has_series zone columns.now }
{
    columns.iter().any(|column| column.zone == zone)
}

/// A series that matches the moment.
#[tactic(auto, using(json_reading::proofs::Refused::refused), unfolding(crate::specs::Document::matching_of))]
fn matching_of(
    alloc: Global,
    known: &Known<'_>,
    zone: u32,
    before: &[Column],
    at: &Here<'_, KeyKind>,
) -> Result<Option<Column>, ReadError<KeyKind>>
    ensures { Gives same result (matching_of (facts_of known.now) zone before.now (at_of at.now)) }
{
    if has_series(zone, before) {
        return Err(at.fault(alloc, KeyKind::TwoSeries));
    }
    let blocks = blocks_of(alloc, known, zone, at)?;
    Ok(Some(Column {
        zone,
        blocks: Items::from_vec(blocks),
    }))
}

/// Whether the moment is not before the series begins, and before it ends.
fn holds(from: Timestamp, to: Timestamp, moment: Timestamp) -> bool
    ensures { result ≡ holds from.nanosecond to.nanosecond moment.nanosecond }
{
    from <= moment && moment < to
}

/// A series of a zone of the settings. The rest of one that does not match the moment is passed over.
#[tactic(auto, unfolding(crate::specs::Document::zone_series_of))]
fn zone_series_of(
    alloc: Global,
    known: &Known<'_>,
    zone: u32,
    before: &[Column],
    at: &Here<'_, KeyKind>,
) -> Result<Option<Column>, ReadError<KeyKind>>
    ensures { Gives same result (zone_series_of (facts_of known.now) zone before.now (at_of at.now)) }
{
    let from = moment_of(alloc, KeyKind::BadTime, "from", at)?;
    let to = moment_of(alloc, KeyKind::BadTime, "to", at)?;
    if holds(from, to, known.moment) {
        return matching_of(alloc, known, zone, before, at);
    }
    Ok(None)
}

/// Reads the series of a document. Those of zones that the settings do not have are passed over unread.
#[derive(Drop)]
pub struct SeriesReader<'a> {
    pub known: &'a Known<'a>,
}

impl<'a> ItemReader for SeriesReader<'a> {
    type Item = Column;

    type Kind = KeyKind;

    type Index = ();

    ghost reads = { λ r. series_of (facts_of r.known.now) };

    ghost keeps = { λ _ _. ⊤ };

    #[tactic(auto, unfolding(crate::specs::Document::series_of))]
    fn read(
        &self,
        alloc: Global,
        index: &mut (),
        before: &[Column],
        at: &Here<'_, KeyKind>,
    ) -> Result<Option<Column>, ReadError<KeyKind>> {
        let id = at.required_text(alloc, "zone")?;
        match zone_named(self.known.zones, id) {
            None => Ok(None),
            Some(zone) => zone_series_of(alloc, self.known, zone, before, at),
        }
    }
}

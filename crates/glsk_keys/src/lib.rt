//! Shift keys: how the zones share an exchange among their nodes.
#![tactic(auto)]

ghost use Rattle.std.specs.Prelude.{◌≡◌, ℕ, List, Ok, Err, IfOk};
ghost use Rattle.fb_json.specs.Spots.{doc_tree};
ghost use Rattle.glsk_keys.specs.Answer.{Answers, IsFault, AreRead};
ghost use Rattle.glsk_keys.specs.Columns.{keys_of};
ghost use Rattle.glsk_keys.specs.Laws.{AreKeys};
ghost use Rattle.glsk_keys.specs.declared.model.KeyKind.{KeyKind};
ghost use Rattle.glsk_keys.specs.declared.model.Keys.{Keys};

mod blocks;
mod columns;
mod document;
mod homes;
mod known;
mod measures;
mod model;
mod nodes;
mod scaling;
mod series;

use document::keys_at;
use fb_json::Doc;
use fb_types::Grid;
use homes::homes;
use json_reading::{Here, Place, ReadError};
use known::Known;
pub use model::{KeyError, KeyKind, Keys};
use run_settings::{NodeTable, Settings};
use std::alloc::{AllocError, Global};

/// What the document says.
#[tactic(auto, unfolding(crate::specs::Columns::keys_of))]
fn read(alloc: Global, doc: &Doc, grid: &Grid, settings: &Settings) -> Result<Keys, KeyError>
    ensures { Answers (keys_of grid.now.nodes settings.now.zones settings.now.moment.nanosecond (doc_tree doc.now)) result }
{
    let zones = settings.zones.as_slice();
    // So many zones have no room in any memory.
    if zones.len() >= 4_294_967_296 {
        return Err(KeyError::Memory(AllocError));
    }
    let nodes = grid.nodes.as_slice();
    let homes = match homes(alloc, zones, nodes) {
        Ok(homes) => homes,
        Err(e) => return Err(KeyError::Memory(e)),
    };
    let table = match NodeTable::new(alloc, grid) {
        Ok(table) => table,
        Err(e) => return Err(KeyError::Memory(e)),
    };
    let known = Known {
        nodes,
        homes: &homes,
        table: &table,
        zones,
        moment: settings.moment,
    };
    let at = Here {
        spot: doc.root(),
        place: Place::Root,
        missing: KeyKind::Missing,
        wrong: KeyKind::WrongType,
    };
    match keys_at(alloc, &known, &at) {
        Ok(keys) => Ok(keys),
        Err(ReadError::Fault { place, kind }) => Err(KeyError::Fault { place, kind }),
        Err(ReadError::Memory(e)) => Err(KeyError::Memory(e)),
    }
}

/// The shift keys of the zones of the settings at their moment, and the reference net positions, or the document's first
/// fault.
pub fn read_keys(
    alloc: Global,
    doc: &Doc,
    grid: &Grid,
    settings: &Settings,
) -> Result<Keys, KeyError>
    // Keys are exactly those that the document gives; a fault is the document's first.
    ensures reads { Answers (keys_of grid.now.nodes settings.now.zones settings.now.moment.nanosecond (doc_tree doc.now)) result }

    // Where the document has a first fault, the answer is that one.
    ensures fault { (place : List ℕ) (kind : KeyKind) → keys_of grid.now.nodes settings.now.zones settings.now.moment.nanosecond (doc_tree doc.now) ≡ Err (record { place = place; kind = kind }) → IsFault place kind result }

    // Where it has none, the answer is what it gives.
    ensures keys { (what : Keys) → keys_of grid.now.nodes settings.now.zones settings.now.moment.nanosecond (doc_tree doc.now) ≡ Ok what → AreRead what result }

    // Each zone has a column and a position, each Core zone has blocks, and all numbers are in their ranges.
    ensures laws { IfOk result (AreKeys grid.now.nodes settings.now.zones) }
{
    read(alloc, doc, grid, settings)
}

//! A whole settings document.

ghost use Rattle.std.specs.Prelude.{◌≡◌, ℕ, List, Ok, Err, IfOk};
ghost use Rattle.fb_json.specs.Spots.{doc_tree};
ghost use Rattle.json_reading.specs.Here.{at_of};
ghost use Rattle.json_reading.specs.Outcome.{Gives, same};
ghost use Rattle.run_settings.specs.Laws.{AreSettings};
ghost use Rattle.run_settings.specs.Settings.{Said, permille_in, slack_in, settings_at, settings_of};
ghost use Rattle.run_settings.specs.Views.{said, Answers, IsFault, AreSaid};

use crate::model::{Settings, SettingsError, SettingsKind};
use crate::nodes::NodeTable;
use crate::times::moment_of;
use crate::zones::zones_of;
use fb_json::Doc;
use fb_types::{Grid, Items};
use json_reading::{Here, Place, ReadError};
use std::alloc::Global;

#[tactic(auto, using(json_reading::proofs::Refused::refused), unfolding(crate::specs::Settings::permille_in))]
fn permille_in(
    alloc: Global,
    default: u16,
    name: &str,
    at: &Here<'_, SettingsKind>,
) -> Result<u16, ReadError<SettingsKind>>
    ensures { Gives same result (permille_in default name.now (at_of at.now)) }
{
    match at.optional_decimal(alloc, name)? {
        None => Ok(default),
        Some(number) => {
            let millionths = number.millionths;
            let size = millionths.unsigned_abs();
            if size % 1_000_000 != 0 {
                return Err(at.fault_in(alloc, name, SettingsKind::WrongType));
            }
            if millionths < 0 || millionths > 1_000_000_000 {
                return Err(at.fault_in(alloc, name, SettingsKind::OutOfRange));
            }
            Ok((size / 1_000_000) as u16)
        }
    }
}

#[tactic(auto, using(json_reading::proofs::Refused::refused), unfolding(crate::specs::Settings::slack_in))]
fn slack_in(
    alloc: Global,
    grid: &Grid,
    at: &Here<'_, SettingsKind>,
) -> Result<Option<u32>, ReadError<SettingsKind>>
    ensures { Gives same result (slack_in grid.now.nodes (at_of at.now)) }
{
    match at.optional_text(alloc, "slack")? {
        None => Ok(None),
        Some(name) => {
            let nodes = NodeTable::new(alloc, grid)?;
            match nodes.find(alloc, name)? {
                Some(place) => Ok(Some(place)),
                None => Err(at.fault_in(alloc, "slack", SettingsKind::UnknownNode)),
            }
        }
    }
}

#[tactic(auto, unfolding(crate::specs::Settings::settings_at))]
fn settings_at(
    alloc: Global,
    grid: &Grid,
    at: &Here<'_, SettingsKind>,
) -> Result<Settings, ReadError<SettingsKind>>
    ensures { Gives said result (settings_at grid.now.nodes (at_of at.now)) }
{
    let moment = moment_of(alloc, SettingsKind::BadTime, "moment", at)?;
    let zones = zones_of(alloc, at)?;
    let ramr = permille_in(alloc, 700, "ramrPermille", at)?;
    let threshold = permille_in(alloc, 50, "thresholdPermille", at)?;
    let slack = slack_in(alloc, grid, at)?;
    Ok(Settings {
        moment,
        zones: Items::from_vec(zones),
        ramr,
        threshold,
        slack,
    })
}

/// What the document says.
#[tactic(auto, unfolding(crate::specs::Settings::settings_of))]
fn read(alloc: Global, doc: &Doc, grid: &Grid) -> Result<Settings, SettingsError>
    ensures { Answers (settings_of grid.now.nodes (doc_tree doc.now)) result }
{
    let at = Here {
        spot: doc.root(),
        place: Place::Root,
        missing: SettingsKind::Missing,
        wrong: SettingsKind::WrongType,
    };
    match settings_at(alloc, grid, &at) {
        Ok(settings) => Ok(settings),
        Err(ReadError::Fault { place, kind }) => Err(SettingsError::Fault { place, kind }),
        Err(ReadError::Memory(e)) => Err(SettingsError::Memory(e)),
    }
}

/// The settings of a document over the nodes of a grid, or the document's first fault.
pub fn read_settings(alloc: Global, doc: &Doc, grid: &Grid) -> Result<Settings, SettingsError>
    // Settings say exactly what the document says; a fault is the document's first.
    ensures reads { Answers (settings_of grid.now.nodes (doc_tree doc.now)) result }

    // Where the document has a first fault, the answer is that one.
    ensures fault { (place : List ℕ) (kind : SettingsKind) → settings_of grid.now.nodes (doc_tree doc.now) ≡ Err (record { place = place; kind = kind }) → IsFault place kind result }

    // Where it has none, the answer is what it says.
    ensures settings { (what : Said) → settings_of grid.now.nodes (doc_tree doc.now) ≡ Ok what → AreSaid what result }

    // Ids and codes are distinct, there is a Core zone, the box holds a point, and all numbers are in their ranges.
    ensures laws { IfOk result (λ s. AreSettings grid.now.nodes (said s)) }
{
    read(alloc, doc, grid)
}

//! A whole CRAC document.

ghost use Rattle.std.specs.Prelude.{◌≡◌, ◌≤◌, ℕ, List, length, Ok, Err, IfOk};
ghost use Rattle.fb_types.specs.declared.crac.Crac.{Crac};
ghost use Rattle.fb_json.specs.Spots.{doc_tree};
ghost use Rattle.json_reading.specs.Outcome.{Gives, same};
ghost use Rattle.json_reading.specs.Here.{at_of};
ghost use Rattle.crac_model.specs.Naming.{grid_of};
ghost use Rattle.crac_model.specs.Crac.{crac_at, crac_of};
ghost use Rattle.crac_model.specs.Answer.{Answers, IsFault, IsCrac};
ghost use Rattle.crac_model.specs.Laws.{IsCracOver};
ghost use Rattle.crac_model.specs.declared.fault.CracKind.{CracKind};

use crate::entries::ElementReader;
use crate::fault::{CracError, CracKind, error_of};
use crate::instants::read_instants;
use crate::limits::is_word;
use crate::names::{GridNames, branch_places};
use crate::outages::{contingency_places, read_contingencies};
use fb_json::Doc;
use fb_types::{Branch, Crac, Grid, Items, Node};
use json_reading::{Here, Place, ReadError, required_array};
use name_tables::NameTable;
use std::alloc::Global;

#[tactic(auto, unfolding(crate::specs::Crac::crac_at))]
fn crac_at(
    alloc: Global,
    grid: GridNames<'_>,
    at: &Here<'_, CracKind>,
) -> Result<Crac, ReadError<CracKind>>
    ensures { Gives same result (crac_at (grid_of grid.entry) (at_of at.now)) }
{
    let word = at.required_text(alloc, "type")?;
    at.found_or(alloc, "type", CracKind::WrongType, is_word(word, "CRAC"))?;
    let instants = read_instants(alloc, at)?;
    let contingencies = read_contingencies(alloc, grid, at)?;
    let places = contingency_places(alloc, &contingencies)?;
    let reader = ElementReader {
        grid,
        instants: &instants,
        contingencies: &places,
    };
    let mut ids = NameTable::new(alloc);
    let elements = required_array(alloc, &reader, &mut ids, at, "flowCnecs")?;
    Ok(Crac {
        contingencies: Items::from_vec(contingencies),
        elements: Items::from_vec(elements),
    })
}

#[tactic(auto, unfolding(crate::specs::Crac::crac_of))]
fn crac_of(
    alloc: Global,
    doc: &Doc,
    nodes: &[Node],
    branches: &[Branch],
) -> Result<Crac, ReadError<CracKind>>
    requires { length branches.now ≤ 16384 }
    ensures { Gives same result (crac_of nodes.now branches.now (doc_tree doc.now)) }
{
    let places = branch_places(alloc, branches)?;
    let grid = GridNames {
        nodes,
        branches,
        places: &places,
    };
    let at = Here {
        spot: doc.root(),
        place: Place::Root,
        missing: CracKind::Missing,
        wrong: CracKind::WrongType,
    };
    crac_at(alloc, grid, &at)
}

/// The contingencies and the monitored elements that a CRAC document gives of a grid, or its first fault.
pub fn read_crac(alloc: Global, doc: &Doc, grid: &Grid) -> Result<Crac, CracError>
    // A CRAC is exactly what the document says, and a fault is its first one.
    ensures reads { Answers (crac_of grid.now.nodes grid.now.branches (doc_tree doc.now)) result }

    // Where the document has a first fault, the answer is that one.
    ensures fault { (place : List ℕ) (kind : CracKind) → crac_of grid.now.nodes grid.now.branches (doc_tree doc.now) ≡ Err (record { place = place; kind = kind }) → IsFault place kind result }

    // Where it has none, the answer is what it says.
    ensures crac { (crac : Crac) → crac_of grid.now.nodes grid.now.branches (doc_tree doc.now) ≡ Ok crac → IsCrac crac result }

    // Branches and contingencies are those of the grid and of the list, ids are distinct, and all numbers are in their ranges.
    ensures laws { IfOk result (IsCracOver grid.now.branches) }
{
    match crac_of(alloc, doc, grid.nodes.as_slice(), grid.branches.as_slice()) {
        Ok(crac) => Ok(crac),
        Err(e) => Err(error_of(e)),
    }
}

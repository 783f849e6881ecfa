//! The contingencies of a CRAC.

ghost use Rattle.std.specs.Prelude.{◌≡◌, ◌++◌, ◌≤◌, length, IfOk, OnOk, ⊤};
ghost use Rattle.std.specs.List.{flat_map};
ghost use Rattle.json_reading.specs.Outcome.{Gives, same};
ghost use Rattle.json_reading.specs.Here.{at_of};
ghost use Rattle.crac_model.specs.Naming.{places_of, grid_of};
ghost use Rattle.crac_model.specs.Crac.{outage_of, branches_named, contingency_ids, contingency_of, contingency_list, contingencies_of};

use crate::fault::CracKind;
use crate::names::{GridNames, Named, add_name, find_named, note};
use fb_types::{Contingency, Items, Text};
use json_reading::{Here, ItemReader, ReadError, array, required_array};
use name_tables::{NameTable, ValueTable};
use std::alloc::{AllocError, Global};

#[derive(Drop)]
struct OutageReader<'a> {
    grid: GridNames<'a>,
}

impl<'a> ItemReader for OutageReader<'a> {
    type Item = Named;

    type Kind = CracKind;

    type Index = ();

    ghost reads = { λ r. outage_of (grid_of r.grid) };

    ghost keeps = { λ _ _. ⊤ };

    #[tactic(auto, unfolding(crate::specs::Crac::outage_of))]
    fn read(
        &self,
        alloc: Global,
        _index: &mut (),
        _before: &[Named],
        at: &Here<'_, CracKind>,
    ) -> Result<Option<Named>, ReadError<CracKind>> {
        let name = at.text(alloc)?;
        let found = find_named(alloc, &self.grid, name)?;
        let found = at.found_or_here(alloc, CracKind::UnknownElement, found)?;
        Ok(Some(found))
    }
}

/// Adds the branches that a name stands for.
fn add_branches(branches: &mut Items<u32>, outage: Named) -> Result<(), AllocError>
    ensures { OnOk result (branches.new ≡ branches.old ++ branches_named outage) }
{
    branches.add(outage.branch)?;
    match outage.other {
        None => Ok(()),
        Some(other) => branches.add(other),
    }
}

/// All branches that the names stand for.
fn branches_of(alloc: Global, outages: &[Named]) -> Result<Items<u32>, AllocError>
    ensures { IfOk result (λ branches. branches ≡ flat_map branches_named outages.now) }
{
    let mut branches = Items::new(alloc);
    for outage in outages {
        add_branches(&mut branches, *outage)?;
    }
    Ok(branches)
}

#[derive(Drop)]
struct ContingencyReader<'a> {
    grid: GridNames<'a>,
}

impl<'a> ItemReader for ContingencyReader<'a> {
    type Item = Contingency;

    type Kind = CracKind;

    type Index = NameTable;

    ghost reads = { λ r. contingency_of (grid_of r.grid) };

    ghost keeps = { λ ids before. ids ≡ contingency_ids before };

    #[tactic(auto, using(json_reading::proofs::Refused::refused, crate::proofs::TableLaws::push_contingency), unfolding(crate::specs::Crac::contingency_of))]
    fn read(
        &self,
        alloc: Global,
        index: &mut NameTable,
        _before: &[Contingency],
        at: &Here<'_, CracKind>,
    ) -> Result<Option<Contingency>, ReadError<CracKind>> {
        let id = at.required_text(alloc, "id")?;
        if !add_name(alloc, index, id)? {
            return Err(at.fault_in(alloc, "id", CracKind::DuplicateId));
        }
        let reader = OutageReader { grid: self.grid };
        let outages = required_array(alloc, &reader, &mut (), at, "networkElementsIds")?;
        let branches = branches_of(alloc, &outages)?;
        let id = Text::from_text(alloc, id)?;
        Ok(Some(Contingency { id, branches }))
    }
}

#[tactic(auto, using(json_reading::proofs::Refused::refused), unfolding(crate::specs::Crac::contingency_list))]
fn contingency_list(
    alloc: Global,
    grid: GridNames<'_>,
    at: &Here<'_, CracKind>,
) -> Result<Vec<Contingency>, ReadError<CracKind>>
    ensures list { Gives (λ v. v.items) result (contingency_list (grid_of grid.entry) (at_of at.now)) }
    ensures few { IfOk result (λ v. length v.items ≤ 512) }
{
    let count = at.length(alloc)?;
    if count > 512 {
        return Err(at.fault(alloc, CracKind::TooMany));
    }
    let mut ids = NameTable::new(alloc);
    let contingencies = array(alloc, &ContingencyReader { grid }, &mut ids, at)?;
    Ok(contingencies)
}

/// The contingencies.
#[tactic(auto, unfolding(crate::specs::Crac::contingencies_of))]
pub fn read_contingencies(
    alloc: Global,
    grid: GridNames<'_>,
    at: &Here<'_, CracKind>,
) -> Result<Vec<Contingency>, ReadError<CracKind>>
    ensures list { Gives (λ v. v.items) result (contingencies_of (grid_of grid.entry) (at_of at.now)) }
    ensures few { IfOk result (λ v. length v.items ≤ 512) }
{
    match at.inner(alloc, "contingencies")? {
        None => Ok(Vec::new(alloc)),
        Some(inner) => contingency_list(alloc, grid, &inner),
    }
}

/// The places of contingencies by their ids.
pub fn contingency_places(
    alloc: Global,
    contingencies: &[Contingency],
) -> Result<ValueTable<u32>, AllocError>
    requires { length contingencies.now ≤ 512 }
    ensures { IfOk result (λ places. places ≡ places_of (contingency_ids contingencies.now)) }
{
    let mut places = ValueTable::new(alloc);
    let mut place: u32 = 0;
    for contingency in contingencies {
        note(alloc, &mut places, contingency.id.as_text(), place)?;
        place += 1;
    }
    Ok(places)
}

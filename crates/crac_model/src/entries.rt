//! The monitored elements of a CRAC.

ghost use Rattle.std.specs.Prelude.{◌≡◌, ◌++◌, IfOk};
ghost use Rattle.std.specs.Option.{option_map_or, option_to_list};
ghost use Rattle.json_reading.specs.Outcome.{Gives, same};
ghost use Rattle.json_reading.specs.Here.{at_of};
ghost use Rattle.crac_model.specs.Naming.{grid_of};
ghost use Rattle.crac_model.specs.Crac.{is_coupler_at, monitored_of, contingency_for, state_of, margin_in, margin_of, rated_limits, element_ids, element, entered_of, entry_of};
ghost use Rattle.crac_model.specs.Known.{facts_of, state_in};

use crate::fault::CracKind;
use crate::instants::{InstantKind, is_preventive};
use crate::limits::{Limits, read_limits};
use crate::names::{GridNames, Named, add_name, find_named};
use crate::ratings::{amounts, ratings_at};
use fb_decimal::Decimal;
use fb_types::{BranchKind, Element, Text};
use json_reading::{Here, ItemReader, ReadError};
use name_tables::{NameTable, ValueTable};
use std::alloc::{AllocError, Global};

/// Reads elements, knowing the grid, the instants and the contingencies.
#[derive(Drop)]
pub struct ElementReader<'a> {
    pub grid: GridNames<'a>,
    pub instants: &'a ValueTable<InstantKind>,
    pub contingencies: &'a ValueTable<u32>,
}

/// The grid state that an element is monitored in.
#[derive(Clone, Copy)]
struct Monitoring<'a> {
    instant: &'a str,
    contingency: Option<u32>,
}

#[tactic(auto, unfolding(crate::specs::Crac::is_coupler_at))]
fn is_coupler_at(grid: &GridNames<'_>, place: u32) -> bool
    ensures { result ≡ is_coupler_at (grid_of grid.now) place }
{
    match grid.branches.get(place as usize) {
        None => false,
        Some(branch) => branch.kind == BranchKind::Coupler,
    }
}

/// The branch that is monitored.
#[tactic(auto, using(json_reading::proofs::Refused::refused), unfolding(crate::specs::Crac::monitored_of))]
fn monitored_of(
    alloc: Global,
    grid: &GridNames<'_>,
    at: &Here<'_, CracKind>,
) -> Result<Named, ReadError<CracKind>>
    ensures { Gives same result (monitored_of (grid_of grid.now) (at_of at.now)) }
{
    let name = at.required_text(alloc, "networkElementId")?;
    let found = find_named(alloc, grid, name)?;
    let found = at.found_or(alloc, "networkElementId", CracKind::UnknownElement, found)?;
    if is_coupler_at(grid, found.branch) {
        return Err(at.fault_in(alloc, "networkElementId", CracKind::CouplerMonitored));
    }
    Ok(found)
}

#[tactic(auto, unfolding(crate::specs::Crac::contingency_for))]
fn contingency_for(
    alloc: Global,
    preventive: bool,
    contingencies: &ValueTable<u32>,
    at: &Here<'_, CracKind>,
) -> Result<Option<u32>, ReadError<CracKind>>
    ensures { Gives same result (contingency_for preventive contingencies.now (at_of at.now)) }
{
    if preventive {
        at.absent(alloc, "contingencyId")?;
        return Ok(None);
    }
    let id = at.required_text(alloc, "contingencyId")?;
    let found = contingencies.get(id);
    let place = at.found_or(alloc, "contingencyId", CracKind::UnknownContingency, found)?;
    Ok(Some(place))
}

/// The state that the element is monitored in.
#[tactic(auto, unfolding(crate::specs::Crac::state_of))]
fn state_of<'a>(
    alloc: Global,
    reader: &ElementReader<'_>,
    at: &Here<'a, CracKind>,
) -> Result<Monitoring<'a>, ReadError<CracKind>>
    ensures { Gives state_in result (state_of (facts_of reader.now) (at_of at.now)) }
{
    let instant = at.required_text(alloc, "instant")?;
    let found = reader.instants.get(instant);
    let kind = at.found_or(alloc, "instant", CracKind::UnknownInstant, found)?;
    let contingency = contingency_for(alloc, is_preventive(kind), reader.contingencies, at)?;
    Ok(Monitoring {
        instant,
        contingency,
    })
}

/// The margin in watts that a member gives.
#[tactic(auto, using(json_reading::proofs::Refused::refused), unfolding(crate::specs::Crac::margin_in))]
fn margin_in(alloc: Global, name: &str, at: &Here<'_, CracKind>) -> Result<i64, ReadError<CracKind>>
    ensures { Gives same result (margin_in name.now (at_of at.now)) }
{
    match at.optional_decimal(alloc, name)? {
        None => Ok(0),
        Some(Decimal { millionths }) => {
            if millionths < 0 || millionths > 100_000_000_000 {
                return Err(at.fault_in(alloc, name, CracKind::OutOfRange));
            }
            Ok(millionths as i64)
        }
    }
}

#[tactic(auto, using(json_reading::proofs::Refused::refused), unfolding(crate::specs::Crac::margin_of))]
fn margin_of(alloc: Global, at: &Here<'_, CracKind>) -> Result<i64, ReadError<CracKind>>
    ensures { Gives same result (margin_of (at_of at.now)) }
{
    let long = at.has(alloc, "reliabilityMargin")?;
    let short = at.has(alloc, "frm")?;
    match (short, long) {
        (true, true) => Err(at.fault(alloc, CracKind::BothMargins)),
        (true, false) => margin_in(alloc, "frm", at),
        (false, _) => margin_in(alloc, "reliabilityMargin", at),
    }
}

/// The limits of an element on the branch at a place.
#[tactic(auto, unfolding(crate::specs::Crac::rated_limits))]
fn rated_limits(
    alloc: Global,
    grid: &GridNames<'_>,
    place: u32,
    at: &Here<'_, CracKind>,
) -> Result<Limits, ReadError<CracKind>>
    ensures { Gives same result (rated_limits (grid_of grid.now) place (at_of at.now)) }
{
    let currents = amounts(alloc, 0, 1_000_000_000_000, "iMax", at)?;
    let voltages = amounts(alloc, 1_000, 1_000_000_000, "nominalV", at)?;
    read_limits(alloc, &ratings_at(grid, place, currents, voltages), at)
}

fn element(
    alloc: Global,
    id: &str,
    state: Monitoring<'_>,
    found: Named,
    margin: i64,
    limits: Limits,
) -> Result<Element, AllocError>
    ensures { IfOk result (λ e. e ≡ element id.now (state_in state.entry) found margin limits) }
{
    let id = Text::from_text(alloc, id)?;
    let instant = Text::from_text(alloc, state.instant)?;
    Ok(Element {
        id,
        instant,
        contingency: state.contingency,
        branch: found.branch,
        turned: found.turned,
        margin,
        direct: limits.direct,
        opposite: limits.opposite,
    })
}

#[tactic(auto, using(json_reading::proofs::Refused::refused, crate::proofs::TableLaws::push_element), unfolding(crate::specs::Crac::entered_of))]
fn entered_of(
    alloc: Global,
    reader: &ElementReader<'_>,
    ids: &mut NameTable,
    before: &[Element],
    at: &Here<'_, CracKind>,
) -> Result<Option<Element>, ReadError<CracKind>>
    requires { ids.old ≡ element_ids before.now }
    ensures element { Gives same result (entered_of (facts_of reader.now) before.now (at_of at.now)) }
    ensures ids { IfOk result (λ item. ids.new ≡ element_ids (before.now ++ option_to_list item)) }
{
    if before.len() >= 20_000 {
        return Err(at.fault(alloc, CracKind::TooMany));
    }
    let id = at.required_text(alloc, "id")?;
    if !add_name(alloc, ids, id)? {
        return Err(at.fault_in(alloc, "id", CracKind::DuplicateId));
    }
    let found = monitored_of(alloc, &reader.grid, at)?;
    let state = state_of(alloc, reader, at)?;
    let margin = margin_of(alloc, at)?;
    let limits = rated_limits(alloc, &reader.grid, found.branch, at)?;
    let element = element(alloc, id, state, found, margin, limits)?;
    Ok(Some(element))
}

impl<'a> ItemReader for ElementReader<'a> {
    type Item = Element;

    type Kind = CracKind;

    type Index = NameTable;

    ghost reads = { λ r. entry_of (facts_of r) };

    ghost keeps = { λ ids before. ids ≡ element_ids before };

    #[tactic(auto, unfolding(crate::specs::Crac::entry_of))]
    fn read(
        &self,
        alloc: Global,
        index: &mut NameTable,
        before: &[Element],
        at: &Here<'_, CracKind>,
    ) -> Result<Option<Element>, ReadError<CracKind>> {
        if at.is_true(alloc, "optimized")? {
            return entered_of(alloc, self, index, before, at);
        }
        Ok(None)
    }
}

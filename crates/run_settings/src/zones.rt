//! The zones of the settings.

ghost use Rattle.std.specs.Prelude.{◌≡◌, ◌∷◌, ◌++◌, [], List, ℕ, IfOk, OnOk};
ghost use Rattle.std.specs.Option.{option_to_list};
ghost use Rattle.json_reading.specs.Here.{at_of};
ghost use Rattle.json_reading.specs.Outcome.{Gives, same};
ghost use Rattle.name_tables.specs.Tables.{with_names};
ghost use Rattle.run_settings.specs.Codes.{AreCodes};
ghost use Rattle.run_settings.specs.Zones.{code_of, listed_codes, bound_in, bounds_of, has_id, zone_of, has_core, is_reversed, least_sum, greatest_sum, zones_of};

use crate::model::{SettingsKind, Zone};
use fb_types::{Bounds, Items, Text};
use json_reading::{Here, ItemReader, ReadError, optional_array, required_array};
use name_tables::NameTable;
use std::alloc::{AllocError, Global};

#[derive(Drop)]
struct CodeReader<'a> {
    earlier: &'a NameTable,
}

impl<'a> ItemReader for CodeReader<'a> {
    type Item = Text;

    type Kind = SettingsKind;

    type Index = NameTable;

    ghost reads = { λ r. code_of r.earlier.now };

    ghost keeps = { λ table before. table ≡ before };

    #[tactic(auto, using(json_reading::proofs::Refused::refused), unfolding(crate::specs::Zones::code_of))]
    fn read(
        &self,
        alloc: Global,
        index: &mut NameTable,
        _before: &[Text],
        at: &Here<'_, SettingsKind>,
    ) -> Result<Option<Text>, ReadError<SettingsKind>> {
        let code = at.text(alloc)?;
        if self.earlier.contains(code) {
            return Err(at.fault(alloc, SettingsKind::Twice));
        }
        if index.contains(code) {
            return Err(at.fault(alloc, SettingsKind::Twice));
        }
        index.add(String::from_str(alloc, code)?)?;
        let code = Text::from_text(alloc, code)?;
        Ok(Some(code))
    }
}

fn only(alloc: Global, id: &str) -> Result<Vec<Text>, AllocError>
    ensures { IfOk result (λ v. v.items ≡ id.now ∷ []) }
{
    let mut codes = Vec::new(alloc);
    codes.push(Text::from_text(alloc, id)?)?;
    Ok(codes)
}

#[tactic(auto, using(json_reading::proofs::Refused::refused), unfolding(crate::specs::Zones::listed_codes))]
fn listed_codes(
    alloc: Global,
    earlier: &NameTable,
    id: &str,
    at: &Here<'_, SettingsKind>,
) -> Result<Vec<Text>, ReadError<SettingsKind>>
    ensures { Gives (λ v. v.items) result (listed_codes earlier.now id.now (at_of at.now)) }
{
    let reader = CodeReader { earlier };
    let mut table = NameTable::new(alloc);
    match optional_array(alloc, &reader, &mut table, at, "codes")? {
        Some(codes) => Ok(codes),
        None => {
            if earlier.contains(id) {
                return Err(at.fault_in(alloc, "id", SettingsKind::Twice));
            }
            let codes = only(alloc, id)?;
            Ok(codes)
        }
    }
}

#[tactic(auto, using(json_reading::proofs::Refused::refused), unfolding(crate::specs::Zones::bound_in))]
fn bound_in(
    alloc: Global,
    name: &str,
    at: &Here<'_, SettingsKind>,
) -> Result<i64, ReadError<SettingsKind>>
    ensures { Gives same result (bound_in name.now (at_of at.now)) }
{
    let watts = at.required_decimal(alloc, name)?.millionths;
    if watts < -100_000_000_000 || watts > 100_000_000_000 {
        return Err(at.fault_in(alloc, name, SettingsKind::OutOfRange));
    }
    Ok(watts as i64)
}

#[tactic(auto, using(json_reading::proofs::Refused::refused), unfolding(crate::specs::Zones::bounds_of))]
fn bounds_of(
    alloc: Global,
    core: bool,
    at: &Here<'_, SettingsKind>,
) -> Result<Bounds, ReadError<SettingsKind>>
    ensures { Gives same result (bounds_of core (at_of at.now)) }
{
    if !core {
        return Ok(Bounds { low: 0, high: 0 });
    }
    let low = bound_in(alloc, "min", at)?;
    let high = bound_in(alloc, "max", at)?;
    if high < low {
        return Err(at.fault(alloc, SettingsKind::BoxReversed));
    }
    Ok(Bounds { low, high })
}

#[tactic(auto, unfolding(crate::specs::Zones::has_id))]
fn has_id(id: &str, zones: &[Zone]) -> bool
    ensures { result ≡ has_id id.now zones.now }
{
    zones.iter().any(|zone| id == zone.id.as_text())
}

/// Adds the codes to a table.
fn note_codes(alloc: Global, table: &mut NameTable, codes: &[Text]) -> Result<(), AllocError>
    ensures { OnOk result (table.new ≡ with_names table.old codes.now) }
{
    for code in codes {
        table.add(String::from_str(alloc, code.as_text())?)?;
    }
    Ok(())
}

struct ZoneReader;

impl ItemReader for ZoneReader {
    type Item = Zone;

    type Kind = SettingsKind;

    type Index = NameTable;

    ghost reads = { λ _. zone_of };

    ghost keeps = { AreCodes };

    #[tactic(auto, using(json_reading::proofs::Refused::refused), unfolding(crate::specs::Zones::zone_of))]
    fn read(
        &self,
        alloc: Global,
        index: &mut NameTable,
        before: &[Zone],
        at: &Here<'_, SettingsKind>,
    ) -> Result<Option<Zone>, ReadError<SettingsKind>> {
        let id = at.required_text(alloc, "id")?;
        if has_id(id, before) {
            return Err(at.fault_in(alloc, "id", SettingsKind::Twice));
        }
        let codes = listed_codes(alloc, index, id, at)?;
        let core = at.optional_truth(alloc, "core")?.unwrap_or(true);
        let bounds = bounds_of(alloc, core, at)?;
        note_codes(alloc, index, &codes)?;
        let id = Text::from_text(alloc, id)?;
        Ok(Some(Zone {
            id,
            codes: Items::from_vec(codes),
            core,
            bounds,
        }))
    }
}

#[tactic(auto, unfolding(crate::specs::Zones::has_core))]
fn has_core(zones: &[Zone]) -> bool
    ensures { result ≡ has_core zones.now }
{
    zones.iter().any(|zone| zone.core)
}

/// The sum of the least net positions, and that of the greatest ones.
fn sums(zones: &[Zone]) -> (i128, i128)
    ensures low { result.0 ≡ least_sum zones.now }
    ensures high { result.1 ≡ greatest_sum zones.now }
{
    let mut low = 0;
    let mut high = 0;
    for zone in zones {
        low += i128::from(zone.bounds.low);
        high += i128::from(zone.bounds.high);
    }
    (low, high)
}

#[tactic(auto, unfolding(crate::specs::Zones::is_reversed))]
fn is_reversed(zones: &[Zone]) -> bool
    ensures { result ≡ is_reversed zones.now }
{
    let (low, high) = sums(zones);
    low > 0 || high < 0
}

/// The zones of a document.
#[tactic(auto, using(json_reading::proofs::Refused::refused), unfolding(crate::specs::Zones::zones_of))]
pub fn zones_of(
    alloc: Global,
    at: &Here<'_, SettingsKind>,
) -> Result<Vec<Zone>, ReadError<SettingsKind>>
    ensures { Gives (λ v. v.items) result (zones_of (at_of at.now)) }
{
    let count = at.required_length(alloc, "zones")?;
    if count == 0 {
        return Err(at.fault_in(alloc, "zones", SettingsKind::Missing));
    }
    if count > 64 {
        return Err(at.fault_in(alloc, "zones", SettingsKind::TooMany));
    }
    let mut codes = NameTable::new(alloc);
    let zones = required_array(alloc, &ZoneReader, &mut codes, at, "zones")?;
    if !has_core(&zones) {
        return Err(at.fault_in(alloc, "zones", SettingsKind::Missing));
    }
    if is_reversed(&zones) {
        return Err(at.fault_in(alloc, "zones", SettingsKind::BoxReversed));
    }
    Ok(zones)
}

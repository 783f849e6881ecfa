//! The zone of each node.

ghost use Rattle.std.specs.Prelude.{◌≡◌, ◌<◌, ◌^◌, length, IfOk, OnOk};
ghost use Rattle.glsk_keys.specs.Homes.{AreHomes, AreNoted};
ghost use Rattle.glsk_keys.specs.Zones.{homes_of, zone_named};

use fb_types::{Node, Text};
use name_tables::ValueTable;
use run_settings::Zone;
use std::alloc::{AllocError, Global};

/// The zone with this id, by its place.
pub fn zone_named(zones: &[Zone], id: &str) -> Option<u32>
    requires { length zones.now < 2 ^ 32 }
    ensures { result ≡ zone_named zones.now id.now }
{
    for (place, zone) in zones.iter().enumerate() {
        if zone.id.as_text() == id {
            return Some(place as u32);
        }
    }
    None
}

/// Notes the codes of a zone, where an earlier zone does not have them.
fn note_codes(
    alloc: Global,
    table: &mut ValueTable<u32>,
    codes: &[Text],
    zone: u32,
) -> Result<(), AllocError>
    ensures { OnOk result (AreNoted table.old table.new codes.now zone) }
{
    for code in codes {
        let name = String::from_str(alloc, code.as_text())?;
        table.note(name, zone)?;
    }
    Ok(())
}

/// The zone of each code.
fn homes_of_codes(alloc: Global, zones: &[Zone]) -> Result<ValueTable<u32>, AllocError>
    requires { length zones.now < 2 ^ 32 }
    ensures { IfOk result (λ table. AreHomes table zones.now) }
{
    let mut table = ValueTable::new(alloc);
    for (place, zone) in zones.iter().enumerate() {
        note_codes(alloc, &mut table, zone.codes.as_slice(), place as u32)?;
    }
    Ok(table)
}

/// The zone of each node, by its place, or none.
pub fn homes(alloc: Global, zones: &[Zone], nodes: &[Node]) -> Result<Vec<Option<u32>>, AllocError>
    requires { length zones.now < 2 ^ 32 }
    ensures { IfOk result (λ v. v.items ≡ homes_of zones.now nodes.now) }
{
    let table = homes_of_codes(alloc, zones)?;
    let mut homes = Vec::new(alloc);
    for node in nodes {
        homes.push(table.get(node.zone.as_text()))?;
    }
    Ok(homes)
}

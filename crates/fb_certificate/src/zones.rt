//! The zones as rows see them.

ghost use Rattle.std.specs.Prelude.{◌≡◌, map, IfOk};
ghost use Rattle.run_settings.specs.Laws.{core_bounds};
ghost use Rattle.fb_certificate.specs.Whole.{row_zones};

use cnec_rows::RowZones;
use fb_types::{Bounds, Items};
use glsk_keys::Keys;
use run_settings::{Settings, Zone};
use std::alloc::{AllocError, Global};

/// The zones of a run as its rows see them.
pub fn row_zones(alloc: Global, settings: &Settings, keys: &Keys) -> Result<RowZones, AllocError>
    ensures { IfOk result (λ zones. zones ≡ row_zones settings.now keys.now) }
{
    let zones = settings.zones.as_slice();
    let positions = Vec::from_slice(alloc, keys.positions.as_slice())?;
    let core = flags(alloc, zones)?;
    let bounds = bounds(alloc, zones)?;
    Ok(RowZones {
        positions: Items::from_vec(positions),
        core: Items::from_vec(core),
        bounds: Items::from_vec(bounds),
    })
}

/// Whether each zone is one of Core.
fn flags(alloc: Global, zones: &[Zone]) -> Result<Vec<bool>, AllocError>
    ensures { IfOk result (λ flags. flags.items ≡ map (λ zone. zone.core) zones.now) }
{
    let mut flags = Vec::new(alloc);
    for zone in zones {
        flags.push(zone.core)?;
    }
    Ok(flags)
}

/// The bounds of the Core zones.
fn bounds(alloc: Global, zones: &[Zone]) -> Result<Vec<Bounds>, AllocError>
    ensures { IfOk result (λ bounds. bounds.items ≡ core_bounds zones.now) }
{
    let mut bounds = Vec::new(alloc);
    for zone in zones {
        if zone.core {
            bounds.push(zone.bounds)?;
        }
    }
    Ok(bounds)
}

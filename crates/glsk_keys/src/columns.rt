//! The keys of all zones, after all series.

ghost use Rattle.std.specs.Prelude.{◌≡◌, ◌≤◌, ◌<◌, ◌^◌, pos, ◌≤ℤ◌, ◌∷◌, [], map, length, IfOk};
ghost use Rattle.fb_types.specs.GridRanges.{AreInjections};
ghost use Rattle.glsk_keys.specs.Columns.{is_bare, first_bare, sizes_of, default_blocks, default_column, defaults_from, column_or, columns_of, positions_of};
ghost use Rattle.glsk_keys.specs.Facts.{facts_of};
ghost use Rattle.glsk_keys.specs.Measures.{total_of};
ghost use Rattle.glsk_keys.specs.Placing.{ArePlaced};
ghost use Rattle.glsk_keys.specs.Sizes.{AreSmall, AreWeights};

use crate::known::Known;
use crate::measures::{Measure, net, total, values};
use crate::nodes::members;
use crate::scaling::block_with;
use crate::series::has_series;
use fb_types::{Block, Column, Items};
use run_settings::Zone;
use std::alloc::{AllocError, Global};

/// The first Core zone without a matching series, by its place.
pub fn first_bare(zones: &[Zone], columns: &[Column]) -> Option<u32>
    requires { length zones.now < 2 ^ 32 }
    ensures { result ≡ first_bare columns.now 0 zones.now }
{
    for (place, zone) in zones.iter().enumerate() {
        if is_bare(place as u32, zone, columns) {
            return Some(place as u32);
        }
    }
    None
}

/// Whether the zone is a Core zone without a matching series.
fn is_bare(place: u32, zone: &Zone, columns: &[Column]) -> bool
    ensures { result ≡ is_bare columns.now place zone.now }
{
    zone.core && !has_series(place, columns)
}

/// The blocks of a zone outside Core without a series, by the sizes of its loads and generations.
fn default_blocks(alloc: Global, sizes: &[i128]) -> Result<Vec<Block>, AllocError>
    requires small { AreSmall sizes.now }
    requires none_below { AreWeights sizes.now }
    requires total { total_of sizes.now ≤ℤ pos (10 ^ 12) }
    ensures { IfOk result (λ v. v.items ≡ default_blocks sizes.now) }
{
    let mut blocks = Vec::new(alloc);
    let total = total(sizes);
    if total <= 0 {
        return Ok(blocks);
    }
    blocks.push(block_with(alloc, 100_000_000, total, sizes)?)?;
    Ok(blocks)
}

/// The column of a zone without a series.
fn default_column(
    alloc: Global,
    known: &Known<'_>,
    zone: u32,
    core: bool,
) -> Result<Column, AllocError>
    ensures { IfOk result (λ column. column ≡ default_column (facts_of known.now) zone core) }
{
    if core {
        return Ok(Column {
            zone,
            blocks: Items::new(alloc),
        });
    }
    let chosen = members(alloc, zone, known.homes)?;
    let sizes = values(alloc, Measure::Size, &chosen, known.nodes)?;
    let blocks = default_blocks(alloc, &sizes)?;
    Ok(Column {
        zone,
        blocks: Items::from_vec(blocks),
    })
}

/// The columns of all zones, before any series.
fn defaults(alloc: Global, known: &Known<'_>) -> Result<Vec<Column>, AllocError>
    ensures { IfOk result (λ v. v.items ≡ defaults_from (facts_of known.now) 0 known.now.zones.now) }
{
    let mut columns = Vec::new(alloc);
    for (place, zone) in known.zones.iter().enumerate() {
        columns.push(default_column(alloc, known, place as u32, zone.core)?)?;
    }
    Ok(columns)
}

/// The columns, where a zone with a series has the column of that.
fn place_series(defaults: Vec<Column>, series: Vec<Column>) -> Vec<Column>
    requires { ArePlaced defaults.items }
    ensures { result.items ≡ map (column_or series.items) defaults.items }
{
    let mut columns = defaults;
    let mut series = series;
    while let Some(column) = series.pop() {
        let place = column.zone as usize;
        if place >= columns.len() {
            continue;
        }
        columns[place] = column;
    }
    columns
}

/// The columns of all zones.
pub fn columns(
    alloc: Global,
    known: &Known<'_>,
    series: Vec<Column>,
) -> Result<Vec<Column>, AllocError>
    ensures { IfOk result (λ v. v.items ≡ columns_of (facts_of known.now) series.items) }
{
    Ok(place_series(defaults(alloc, known)?, series))
}

/// What each zone feeds in, in watts.
pub fn positions(alloc: Global, known: &Known<'_>) -> Result<Vec<i64>, AllocError>
    ensures { IfOk result (λ v. v.items ≡ positions_of (facts_of known.now)) }
{
    let mut positions = Vec::new(alloc);
    for place in 0..known.zones.len() {
        let chosen = members(alloc, place as u32, known.homes)?;
        positions.push(net(&chosen, known.nodes))?;
    }
    Ok(positions)
}

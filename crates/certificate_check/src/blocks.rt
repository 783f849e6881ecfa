//! Whether the columns of a state enclose the angles of its right sides.

ghost use Rattle.std.specs.Prelude.{◌*◌, ◌^◌, ◌<◌, ◌≤◌, length, All, IfOk};
ghost use Rattle.grid_state.specs.Split.{AreKeysOf};
ghost use Rattle.grid_laplacian.specs.Ranges.{HasRoomFor, IsOfGrid, IsInRange};
ghost use Rattle.security.specs.Balances.{reference_side, block_side};
ghost use Rattle.zonal_factors.specs.FactorSpans.{IsBlock, IsKey};
ghost use Rattle.certificate_check.specs.Judged.{AreBlocksJudged, AreBlocksCounted, AreZonesJudged, number_of};
ghost use Rattle.certificate_check.specs.Rulings.{ColumnRuling};

use crate::columns::column_fault;
use crate::judgement::Judgement;
use crate::verdict::Reason;
use fb_types::{Angles, Block, Column, Grid};
use grid_state::State;
use right_sides::{block_side, reference_side};
use std::alloc::{AllocError, Global};

/// The first reason for which the column of the reference fails, if it does.
pub(crate) fn reference_fault(
    alloc: Global,
    state: &State,
    grid: &Grid,
    angles: &Angles,
) -> Result<Option<Reason>, AllocError>
    requires of_grid { IsOfGrid grid.now state.now }
    requires range { IsInRange grid.now state.now }
    ensures { IfOk result (ColumnRuling state.now (reference_side state.now grid.now) angles.now) }
{
    let p = reference_side(alloc, state, grid)?;
    Ok(column_fault(state, p.as_slice(), angles))
}

/// The first reason for which the column of a block fails, if it does.
fn block_fault(
    alloc: Global,
    state: &State,
    block: &Block,
    angles: &Angles,
) -> Result<Option<Reason>, AllocError>
    requires room { HasRoomFor state.now (2 * 10 ^ 25) }
    requires block { IsBlock block.now }
    requires nodes { All (λ w. w.node < length state.now.class_of) block.now.weights }
    ensures { IfOk result (ColumnRuling state.now (block_side state.now block.now) angles.now) }
{
    let p = block_side(alloc, state, block)?;
    Ok(column_fault(state, p.as_slice(), angles))
}

/// Judges the columns of the blocks of a zone, which stand from the place `first` on.
fn judge_blocks(
    alloc: Global,
    state: &State,
    blocks: &[Block],
    columns: &[Angles],
    first: usize,
) -> Result<Judgement, AllocError>
    requires room { HasRoomFor state.now (2 * 10 ^ 25) }
    requires blocks { All IsBlock blocks.now }
    requires nodes { All (λ block. All (λ w. w.node < length state.now.class_of) block.weights) blocks.now }
    requires first { first ≤ length columns.now }
    requires few { length blocks.now ≤ 4 }
    ensures judged { IfOk result (AreBlocksJudged state.now blocks.now columns.now first) }
    ensures counted { IfOk result (AreBlocksCounted blocks.now columns.now first) }
{
    for i in 0..blocks.len() {
        if columns.len() - first <= i {
            return Ok(Judgement::Failed {
                record: i as u64 + 1,
                reason: Reason::Order,
            });
        }
        if let Some(reason) = block_fault(alloc, state, &blocks[i], &columns[first + i])? {
            return Ok(Judgement::Failed {
                record: i as u64 + 1,
                reason,
            });
        }
    }
    Ok(Judgement::Passed {
        records: blocks.len() as u64,
    })
}

/// Judges the columns of the blocks of all zones.
pub(crate) fn judge_zones(
    alloc: Global,
    state: &State,
    zones: &[Column],
    columns: &[Angles],
) -> Result<Judgement, AllocError>
    requires room { HasRoomFor state.now (2 * 10 ^ 25) }
    requires keys { All IsKey zones.now }
    requires nodes { AreKeysOf (length state.now.class_of) zones.now }
    requires few_zones { length zones.now ≤ 64 }
    requires few_blocks { All (λ zone. length zone.blocks ≤ 4) zones.now }
    ensures judged { IfOk result (AreZonesJudged state.now zones.now columns.now) }
    ensures small { IfOk result (λ j. number_of j ≤ 300) }
{
    let mut first = 0;
    for zone in zones {
        match judge_blocks(alloc, state, zone.blocks.as_slice(), columns, first)? {
            Judgement::Passed { records } => first += records as usize,
            Judgement::Failed { record, reason } => {
                return Ok(Judgement::Failed {
                    record: first as u64 + record,
                    reason,
                });
            }
        }
    }
    if first < columns.len() {
        return Ok(Judgement::Failed {
            record: first as u64 + 1,
            reason: Reason::Order,
        });
    }
    Ok(Judgement::Passed {
        records: first as u64,
    })
}

//! What the proofs of the states of a run share.

ghost use Rattle.std.specs.Prelude.{◌*◌, ◌^◌, ◌<◌, length, All};
ghost use Rattle.grid_state.specs.Split.{AreKeysOf};
ghost use Rattle.grid_laplacian.specs.Ranges.{IsOfGrid, IsInRange, HasRoomFor};
ghost use Rattle.zonal_factors.specs.FactorSpans.{IsBlock, IsKey};

use angle_bounds::barrier_side;
use fb_types::{Block, Column, Grid, Items};
use grid_state::State;
use right_sides::{block_side, reference_side};
use sparse_factor::{Factor, Solutions};
use std::alloc::{AllocError, Global};

/// The place of the barrier's right side among those of a state.
pub(crate) const BARRIER: usize = 0;

/// The place of the reference.
pub(crate) const REFERENCE: usize = 1;

/// The place of the first block.
pub(crate) const FIRST_BLOCK: usize = 2;

/// The work on a base state that the proofs of all states of a run share: the factor of its grid matrix, and its solutions for
/// the barrier, the reference and each block. The states after an outage are guessed from them. Nothing that is proved of a
/// state rests on the groundwork, so that of any other state may be given.
#[derive(Debug, Drop)]
pub struct Groundwork<'a> {
    pub(crate) base: &'a State,
    pub(crate) factor: Factor,
    pub(crate) solutions: Solutions,
}

/// Appends the right side of each block.
fn add_sides(
    alloc: Global,
    state: &State,
    blocks: &[Block],
    sides: &mut Items<Items<i128>>,
) -> Result<(), AllocError>
    requires blocks { All IsBlock blocks.now }
    requires nodes { All (λ block. All (λ w. w.node < length state.now.class_of) block.weights) blocks.now }
{
    for block in blocks {
        sides.add(block_side(alloc, state, block)?)?;
    }
    Ok(())
}

/// The right sides of a state: of the barrier, of the reference and of each block.
fn sides_of(
    alloc: Global,
    state: &State,
    grid: &Grid,
    columns: &[Column],
) -> Result<Items<Items<i128>>, AllocError>
    requires of_grid { IsOfGrid grid.now state.now }
    requires range { IsInRange grid.now state.now }
    requires keys { All IsKey columns.now }
    requires nodes { AreKeysOf (length state.now.class_of) columns.now }
{
    let mut sides = Items::new(alloc);
    sides.add(barrier_side(alloc, state)?)?;
    sides.add(reference_side(alloc, state, grid)?)?;
    for column in columns {
        add_sides(alloc, state, column.blocks.as_slice(), &mut sides)?;
    }
    Ok(sides)
}

impl<'a> Groundwork<'a> {
    /// The groundwork of a base state. The conditions are those of `prove_state`.
    pub fn new(
        alloc: Global,
        base: &'a State,
        grid: &Grid,
        columns: &Items<Column>,
    ) -> Result<Groundwork<'a>, AllocError>
        requires of_grid { IsOfGrid grid.now base.now }
        requires range { IsInRange grid.now base.now }
        requires keys { All IsKey columns.now }
        requires nodes { AreKeysOf (length grid.now.nodes) columns.now }
    {
        let factor = Factor::new(alloc, base)?;
        let sides = sides_of(alloc, base, grid, columns.as_slice())?;
        let solutions = Solutions::new(alloc, &factor, base, sides)?;
        Ok(Groundwork {
            base,
            factor,
            solutions,
        })
    }
}

//! The barrier of a state and its enclosed angles, from guesses.

ghost use Rattle.std.specs.Prelude.{◌≡◌, ◌*◌, ◌^◌, ◌<◌, ◌≤◌, length, All, IfOk, IfSome, OnOk};
ghost use Rattle.grid_state.specs.GridState.{classes_of};
ghost use Rattle.grid_state.specs.Split.{AreKeysOf};
ghost use Rattle.grid_laplacian.specs.Sizes.{size_of};
ghost use Rattle.grid_laplacian.specs.Ranges.{IsOfGrid, IsInRange, HasRoomFor};
ghost use Rattle.grid_laplacian.specs.Enclosures.{IsBarrier, EnclosesColumn};
ghost use Rattle.security.specs.Balances.{reference_side, block_side};
ghost use Rattle.zonal_factors.specs.FactorSpans.{IsBlock, IsKey};
ghost use Rattle.sparse_factor.specs.Bounds.{AreSizes};
ghost use Rattle.sparse_factor.specs.Guesses.{IsGuess};
ghost use Rattle.state_proofs.specs.Enclosed.{AreEnclosed, AddsEnclosed};
ghost use Rattle.state_proofs.specs.StateProofs.{all_blocks};

use crate::groundwork::{BARRIER, FIRST_BLOCK, REFERENCE};
use angle_bounds::{barrier_side, barrier_with, enclose_with, try_barrier_from, try_enclose_from};
use fb_types::{Angles, Block, Column, Grid, Items};
use grid_state::State;
use right_sides::{block_side, reference_side};
use sparse_factor::{Factor, Sizes, Solutions, Solver};
use std::alloc::{AllocError, Global};

/// What the angles of a state are guessed with.
#[derive(Debug, Drop)]
pub struct Means<'a> {
    solver: Solver<'a>,
    solutions: &'a Solutions,
    /// A factor of the state, from when the guesses did not come near enough.
    own: Option<Factor>,
}

impl<'a> Means<'a> {
    pub fn new(solver: Solver<'a>, solutions: &'a Solutions) -> Means<'a> {
        Means {
            solver,
            solutions,
            own: None,
        }
    }

    /// Guesses the angles of the right side at a place, in a state of these sizes.
    fn guess(
        &self,
        alloc: Global,
        state: &State,
        sizes: &Sizes,
        column: usize,
        p: &Items<i128>,
    ) -> Result<Items<i128>, AllocError>
        requires each_class { length p.now ≡ classes_of state.now }
        requires room { HasRoomFor state.now (size_of p.now) }
        requires sizes { AreSizes state.now sizes.now }
        ensures { IfOk result (λ w. IsGuess state.now (size_of p.now) w) }
    {
        match self.solver {
            Solver::Own(_factor) => self.solutions.guess_by(alloc, state, sizes, column, p),
            Solver::After(_factor, outage) => {
                outage.guess_by(alloc, state, sizes, self.solutions, column, p)
            }
        }
    }
}

/// The barrier, by a factor of the state where no guess comes near enough.
pub fn barrier_by(
    alloc: Global,
    state: &State,
    sizes: &Sizes,
    means: &mut Means<'_>,
) -> Result<Items<i128>, AllocError>
    requires room { HasRoomFor state.now 0 }
    requires sizes { AreSizes state.now sizes.now }
    ensures { IfOk result (λ v. IsBarrier state.now v) }
{
    let p = barrier_side(alloc, state)?;
    let guess = means.guess(alloc, state, sizes, BARRIER, &p)?;
    if let Some(barrier) = try_barrier_from(alloc, state, means.solver, guess)? {
        return Ok(barrier);
    }
    let factor = Factor::new(alloc, state)?;
    let barrier = barrier_with(alloc, state, &factor)?;
    means.own = Some(factor);
    Ok(barrier)
}

/// Encloses the angles of a right side by a factor of the state.
fn enclosed_with(
    alloc: Global,
    state: &State,
    factor: &Factor,
    barrier: &Items<i128>,
    p: &Items<i128>,
) -> Result<Angles, AllocError>
    requires barrier { IsBarrier state.now barrier.now }
    requires each_class { length p.now ≡ classes_of state.now }
    requires room { HasRoomFor state.now (2 * 10 ^ 25) }
    requires size { size_of p.now ≤ 2 * 10 ^ 25 }
    ensures { IfOk result (λ angles. EnclosesColumn state.now p.now angles) }
{
    enclose_with(alloc, state, factor, barrier, p)
}

/// Encloses the angles of the right side at a place by guesses alone, if they come near enough.
fn try_enclosed(
    alloc: Global,
    state: &State,
    sizes: &Sizes,
    means: &Means<'_>,
    barrier: &Items<i128>,
    column: usize,
    p: &Items<i128>,
) -> Result<Option<Angles>, AllocError>
    requires sizes { AreSizes state.now sizes.now }
    requires barrier { IsBarrier state.now barrier.now }
    requires each_class { length p.now ≡ classes_of state.now }
    requires room { HasRoomFor state.now (2 * 10 ^ 25) }
    requires size { size_of p.now ≤ 2 * 10 ^ 25 }
    ensures { IfOk result (λ found. IfSome found (λ angles. EnclosesColumn state.now p.now angles)) }
{
    let guess = means.guess(alloc, state, sizes, column, p)?;
    try_enclose_from(alloc, state, means.solver, barrier, p, guess)
}

/// Encloses the angles of the right side at a place, by a factor of the state where no guess comes near enough.
fn enclosed(
    alloc: Global,
    state: &State,
    sizes: &Sizes,
    means: &mut Means<'_>,
    barrier: &Items<i128>,
    column: usize,
    p: &Items<i128>,
) -> Result<Angles, AllocError>
    requires sizes { AreSizes state.now sizes.now }
    requires barrier { IsBarrier state.now barrier.now }
    requires each_class { length p.now ≡ classes_of state.now }
    requires room { HasRoomFor state.now (2 * 10 ^ 25) }
    requires size { size_of p.now ≤ 2 * 10 ^ 25 }
    ensures { IfOk result (λ angles. EnclosesColumn state.now p.now angles) }
{
    if let Some(factor) = &means.own {
        return enclosed_with(alloc, state, factor, barrier, p);
    }
    if let Some(angles) = try_enclosed(alloc, state, sizes, means, barrier, column, p)? {
        return Ok(angles);
    }
    let factor = Factor::new(alloc, state)?;
    let angles = enclosed_with(alloc, state, &factor, barrier, p)?;
    means.own = Some(factor);
    Ok(angles)
}

/// Encloses the angles of the reference.
pub fn enclosed_reference(
    alloc: Global,
    state: &State,
    sizes: &Sizes,
    grid: &Grid,
    means: &mut Means<'_>,
    barrier: &Items<i128>,
) -> Result<Angles, AllocError>
    requires sizes { AreSizes state.now sizes.now }
    requires of_grid { IsOfGrid grid.now state.now }
    requires range { IsInRange grid.now state.now }
    requires barrier { IsBarrier state.now barrier.now }
    ensures { IfOk result (λ angles. EnclosesColumn state.now (reference_side state.now grid.now) angles) }
{
    let p = reference_side(alloc, state, grid)?;
    enclosed(alloc, state, sizes, means, barrier, REFERENCE, &p)
}

/// Encloses the angles of the weights of the block at a place.
fn enclosed_block(
    alloc: Global,
    state: &State,
    sizes: &Sizes,
    means: &mut Means<'_>,
    barrier: &Items<i128>,
    column: usize,
    block: &Block,
) -> Result<Angles, AllocError>
    requires sizes { AreSizes state.now sizes.now }
    requires room { HasRoomFor state.now (2 * 10 ^ 25) }
    requires barrier { IsBarrier state.now barrier.now }
    requires block { IsBlock block.now }
    requires nodes { All (λ w. w.node < length state.now.class_of) block.now.weights }
    ensures { IfOk result (λ angles. EnclosesColumn state.now (block_side state.now block.now) angles) }
{
    let p = block_side(alloc, state, block)?;
    enclosed(alloc, state, sizes, means, barrier, column, &p)
}

/// Appends the enclosed angles of each block.
fn add_blocks(
    alloc: Global,
    state: &State,
    sizes: &Sizes,
    means: &mut Means<'_>,
    barrier: &Items<i128>,
    blocks: &[Block],
    enclosed: &mut Items<Angles>,
) -> Result<(), AllocError>
    requires sizes { AreSizes state.now sizes.now }
    requires room { HasRoomFor state.now (2 * 10 ^ 25) }
    requires barrier { IsBarrier state.now barrier.now }
    requires blocks { All IsBlock blocks.now }
    requires nodes { All (λ block. All (λ w. w.node < length state.now.class_of) block.weights) blocks.now }
    ensures { OnOk result (AddsEnclosed state.now blocks.now enclosed.old enclosed.new) }
{
    for block in blocks {
        let column = FIRST_BLOCK.saturating_add(enclosed.len() as usize);
        let angles = enclosed_block(alloc, state, sizes, means, barrier, column, block)?;
        enclosed.add(angles)?;
    }
    Ok(())
}

/// Encloses the angles of each block of each key.
pub fn enclosed_keys(
    alloc: Global,
    state: &State,
    sizes: &Sizes,
    means: &mut Means<'_>,
    barrier: &Items<i128>,
    columns: &[Column],
) -> Result<Items<Angles>, AllocError>
    requires sizes { AreSizes state.now sizes.now }
    requires room { HasRoomFor state.now (2 * 10 ^ 25) }
    requires barrier { IsBarrier state.now barrier.now }
    requires keys { All IsKey columns.now }
    requires nodes { AreKeysOf (length state.now.class_of) columns.now }
    ensures { IfOk result (AreEnclosed state.now (all_blocks columns.now)) }
{
    let mut enclosed = Items::new(alloc);
    for column in columns {
        add_blocks(
            alloc,
            state,
            sizes,
            means,
            barrier,
            column.blocks.as_slice(),
            &mut enclosed,
        )?;
    }
    Ok(enclosed)
}

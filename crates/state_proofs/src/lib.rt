//! What is proved of a grid state: a barrier, and enclosed angles of the reference and of each block of the zones' shift keys.
#![tactic(auto)]

ghost use Rattle.std.specs.Prelude.{◌*◌, ◌^◌, ◌<◌, length, All, IfOk};
ghost use Rattle.grid_state.specs.Split.{AreKeysOf};
ghost use Rattle.grid_laplacian.specs.Ranges.{IsOfGrid, IsInRange, HasRoomFor};
ghost use Rattle.zonal_factors.specs.FactorSpans.{IsKey};
ghost use Rattle.state_proofs.specs.StateProofs.{IsStateProof};

mod changes;
mod columns;
mod groundwork;

use changes::{Change, change_of};
use columns::{Means, barrier_by, enclosed_keys, enclosed_reference};
use fb_types::{Angles, Column, Grid, Items};
use grid_state::State;
pub use groundwork::Groundwork;
use sparse_factor::{Outage, Sizes, Solver};
use std::alloc::{AllocError, Global};

/// A barrier of a grid state, the enclosed angles of its reference, and those of each block of the shift keys. Each list of
/// numbers has one for each class, in 10^-16 rad.
#[derive(Debug, Drop)]
pub struct StateProof {
    /// The barrier: each exact angle is within kappa (0 or 1) times it of the enclosed one.
    pub barrier: Items<i128>,
    /// The enclosed angles of the base balance.
    pub reference: Angles,
    /// The enclosed angles of the weights of each block, as powers in watts: zone by zone, and within a zone in the order of
    /// its key.
    pub blocks: Items<Angles>,
}

/// The proof of a state by these means.
fn proof_by(
    alloc: Global,
    means: Means<'_>,
    state: &State,
    grid: &Grid,
    columns: &Items<Column>,
) -> Result<StateProof, AllocError>
    requires of_grid { IsOfGrid grid.now state.now }
    requires range { IsInRange grid.now state.now }
    requires keys { All IsKey columns.now }
    requires nodes { AreKeysOf (length grid.now.nodes) columns.now }
    ensures proof { IfOk result (IsStateProof state.now grid.now columns.now) }
{
    let mut means = means;
    let sizes = Sizes::new(state);
    let barrier = barrier_by(alloc, state, &sizes, &mut means)?;
    let reference = enclosed_reference(alloc, state, &sizes, grid, &mut means, &barrier)?;
    let blocks = enclosed_keys(
        alloc,
        state,
        &sizes,
        &mut means,
        &barrier,
        columns.as_slice(),
    )?;
    Ok(StateProof {
        barrier,
        reference,
        blocks,
    })
}

/// Proves of a state what is needed to enclose each flow and each factor in it: a barrier, and enclosed angles of the reference
/// and of each block of the shift keys, which stand zone by zone in the order of `columns`, and within a zone in the order of
/// its key.
///
/// The state is one of the grid and within the range rule. The weights of each block stand at nodes of the grid; none is
/// negative, and they add up to the total of the block, at most 10^12; the shares of a key add up to 10^8.
pub fn prove_state(
    alloc: Global,
    state: &State,
    grid: &Grid,
    columns: &Items<Column>,
) -> Result<StateProof, AllocError>
    requires of_grid { IsOfGrid grid.now state.now }
    requires range { IsInRange grid.now state.now }
    requires keys { All IsKey columns.now }
    requires nodes { AreKeysOf (length grid.now.nodes) columns.now }
    ensures proof { IfOk result (IsStateProof state.now grid.now columns.now) }
{
    let own = Groundwork::new(alloc, state, grid, columns)?;
    let means = Means::new(Solver::Own(&own.factor), &own.solutions);
    proof_by(alloc, means, state, grid, columns)
}

/// The same from the groundwork of a base state of the grid, the base state itself being one of those that may be proved. A
/// state that lacks branches between two classes alone is guessed from the solutions of the base state, and any other by a
/// factor of its own. The groundwork is only read, so states may be proved side by side.
pub fn prove_after(
    alloc: Global,
    groundwork: &Groundwork<'_>,
    state: &State,
    grid: &Grid,
    columns: &Items<Column>,
) -> Result<StateProof, AllocError>
    requires of_grid { IsOfGrid grid.now state.now }
    requires range { IsInRange grid.now state.now }
    requires keys { All IsKey columns.now }
    requires nodes { AreKeysOf (length grid.now.nodes) columns.now }
    ensures proof { IfOk result (IsStateProof state.now grid.now columns.now) }
{
    let factor = &groundwork.factor;
    let solutions = &groundwork.solutions;
    match change_of(groundwork.base, state) {
        Change::Nothing => {
            let means = Means::new(Solver::Own(factor), solutions);
            proof_by(alloc, means, state, grid, columns)
        }
        Change::Between { from, to, b } => {
            let b = u64::try_from(b).unwrap_or(0);
            let outage = Outage::new(alloc, factor, groundwork.base, from, to, b)?;
            let means = Means::new(Solver::After(factor, &outage), solutions);
            proof_by(alloc, means, state, grid, columns)
        }
        Change::At { class: _, b: _ } | Change::More => prove_state(alloc, state, grid, columns),
    }
}

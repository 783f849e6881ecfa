//! Encloses the angles of a right side.

ghost use Rattle.std.specs.Prelude.{◌≡◌, ◌*◌, ◌^◌, ◌<◌, ◌≤◌, pos, length, All, IfOk, IfSome};
ghost use Rattle.std.specs.Bool.{OnTrue};
ghost use Rattle.grid_state.specs.GridState.{classes_of};
ghost use Rattle.grid_laplacian.specs.Sizes.{size_of};
ghost use Rattle.grid_laplacian.specs.Ranges.{HasRoomFor, greatest_total_of};
ghost use Rattle.grid_laplacian.specs.Enclosures.{IsBarrier, EnclosesWithin, EnclosesColumn, HoldsAngles};
ghost use Rattle.angle_bounds.specs.RightSides.{IsProposed, IsAtMostOne};
ghost use Rattle.angle_bounds.specs.Approaches.{Approaches, HasLeastKappa};
ghost use Rattle.sparse_factor.specs.Guesses.{IsGuess};

use crate::corrections::{Approach, approach_of, corrected};
use crate::remainders::{greater_total, is_settled, is_total_within};
use crate::swept::{swept, swept_on};
use fb_types::{Angles, Items};
use grid_laplacian::live_classes;
use grid_state::State;
use sparse_factor::{Factor, Solver, total_of};
use std::alloc::{AllocError, Global};

/// 0 where nothing is left, else 1.
fn kappa_of(left: &[i128]) -> u8
    ensures { HasLeastKappa left.now result }
{
    if is_total_within(left, 0) { 0 } else { 1 }
}

/// Angles with kappa 0 where they leave nothing, else 1.
fn with_kappa(approach: Approach) -> Angles
    ensures same { result.w ≡ approach.w }
    ensures least { HasLeastKappa approach.left result.kappa }
{
    let Approach {
        w,
        left,
        is_settled: _,
    } = approach;
    let kappa = kappa_of(left.as_slice());
    Angles { kappa, w }
}

/// Whether what is left is small enough to be left: below the susceptance everywhere, or at most as much where more than one
/// class is live beside the slack's.
fn is_done(state: &State, approach: &Approach) -> bool
    requires each_class { length approach.now.left ≡ classes_of state.now }
    requires settled { OnTrue approach.now.is_settled (IsAtMostOne state.now approach.now.left (classes_of state.now)) }
    ensures { OnTrue result (IsAtMostOne state.now approach.now.left (classes_of state.now)) }
{
    if approach.is_settled {
        return true;
    }
    is_settled(state, approach.left.as_slice(), live_classes(state) > 2)
}

/// Proposes angles where a guess leaves too much: what it leaves is swept, or all of `p` where it leaves more than `p`.
fn proposed(
    alloc: Global,
    state: &State,
    p: &Items<i128>,
    approach: &Approach,
) -> Result<Items<i128>, AllocError>
    requires each_class { length p.now ≡ classes_of state.now }
    requires room { HasRoomFor state.now (size_of p.now) }
    requires approaches { Approaches state.now p.now approach.now }
    ensures { IfOk result (λ w. IsProposed state.now p.now w) }
{
    let most = greater_total(state, total_of(p.as_slice()));
    if is_total_within(approach.left.as_slice(), most) {
        swept_on(
            alloc,
            state,
            p.as_slice(),
            approach.w.as_slice(),
            &approach.left,
        )
    } else {
        swept(alloc, state, p)
    }
}

/// The angles that are proposed where a guess leaves too much.
fn swept_angles(
    alloc: Global,
    state: &State,
    p: &Items<i128>,
    approach: &Approach,
) -> Result<Angles, AllocError>
    requires each_class { length p.now ≡ classes_of state.now }
    requires room { HasRoomFor state.now (size_of p.now) }
    requires approaches { Approaches state.now p.now approach.now }
    ensures { IfOk result (EnclosesWithin state.now (size_of p.now) p.now) }
{
    let w = proposed(alloc, state, p, approach)?;
    let approach = approach_of(alloc, state, p.as_slice(), w)?;
    Ok(with_kappa(approach))
}

/// Encloses the exact angles of the right side p: w, and the least of 0 and 1 as kappa for which |p - L·w| is at most kappa
/// times the sum of the susceptances of the class, at each live class but the slack's. All other classes have 0. With the
/// barrier v, each exact angle lies from w - kappa·v to w + kappa·v. With p in 10^-13 W and susceptances in kW/rad, w and v
/// are in 10^-16 rad.
///
/// There is one number of p for each class. Wherever a carrying branch joins two classes, n·max(T, 2S) is at most
/// floor(2^120/s)·b: n live classes, T the sum of |p| over all classes, S the sum and s the greatest of the susceptances of
/// the live classes but the slack's, and b the least of a carrying branch between two classes. The range rule gives this for
/// each T up to its P. Each |w| is at most 2·n·max(T, 2S)/b.
pub fn enclose(
    alloc: Global,
    state: &State,
    barrier: &Items<i128>,
    p: &Items<i128>,
) -> Result<Angles, AllocError>
    requires barrier { IsBarrier state.now barrier.now }
    requires each_class { length p.now ≡ classes_of state.now }
    requires room { HasRoomFor state.now (size_of p.now) }
    ensures within { IfOk result (λ angles. EnclosesWithin state.now (size_of p.now) p.now angles) }
    ensures column { IfOk result (λ angles. size_of p.now ≤ greatest_total_of state.now → EnclosesColumn state.now p.now angles) }

    // Angles of the right side exist, and their spans hold them.
    ensures holds { IfOk result (λ angles. HoldsAngles state.now barrier.now p.now angles) }
{
    let factor = Factor::new(alloc, state)?;
    enclose_with(alloc, state, &factor, barrier, p)
}

/// The same with a factor of the state, for more than one right side. Any factor may be given: what is promised does not rest
/// on it.
pub fn enclose_with(
    alloc: Global,
    state: &State,
    factor: &Factor,
    barrier: &Items<i128>,
    p: &Items<i128>,
) -> Result<Angles, AllocError>
    requires barrier { IsBarrier state.now barrier.now }
    requires each_class { length p.now ≡ classes_of state.now }
    requires room { HasRoomFor state.now (size_of p.now) }
    ensures within { IfOk result (λ angles. EnclosesWithin state.now (size_of p.now) p.now angles) }
    ensures column { IfOk result (λ angles. size_of p.now ≤ greatest_total_of state.now → EnclosesColumn state.now p.now angles) }

    // Angles of the right side exist, and their spans hold them.
    ensures holds { IfOk result (λ angles. HoldsAngles state.now barrier.now p.now angles) }
{
    let guess = factor.guess(alloc, state, p)?;
    enclose_from(alloc, state, Solver::Own(factor), barrier, p, guess)
}

/// The same from a guess of the angles, which is corrected by guesses of the solver. Any guess within the bound on |w| may be
/// given, with 0 at the slack's class and at classes that are not live.
pub fn enclose_from(
    alloc: Global,
    state: &State,
    solver: Solver<'_>,
    barrier: &Items<i128>,
    p: &Items<i128>,
    guess: Items<i128>,
) -> Result<Angles, AllocError>
    requires barrier { IsBarrier state.now barrier.now }
    requires each_class { length p.now ≡ classes_of state.now }
    requires room { HasRoomFor state.now (size_of p.now) }
    requires guess { IsGuess state.now (size_of p.now) guess }
    ensures within { IfOk result (λ angles. EnclosesWithin state.now (size_of p.now) p.now angles) }
    ensures column { IfOk result (λ angles. size_of p.now ≤ greatest_total_of state.now → EnclosesColumn state.now p.now angles) }

    // Angles of the right side exist, and their spans hold them.
    ensures holds { IfOk result (λ angles. HoldsAngles state.now barrier.now p.now angles) }
{
    state.sound();
    let approach = corrected(alloc, state, solver, p.as_slice(), guess)?;
    if is_done(state, &approach) {
        Ok(with_kappa(approach))
    } else {
        swept_angles(alloc, state, p, &approach)
    }
}

/// The same without sweeps: it is none where the corrections leave so much that sweeps would have to follow.
pub fn try_enclose_from(
    alloc: Global,
    state: &State,
    solver: Solver<'_>,
    barrier: &Items<i128>,
    p: &Items<i128>,
    guess: Items<i128>,
) -> Result<Option<Angles>, AllocError>
    requires barrier { IsBarrier state.now barrier.now }
    requires each_class { length p.now ≡ classes_of state.now }
    requires room { HasRoomFor state.now (size_of p.now) }
    requires guess { IsGuess state.now (size_of p.now) guess }
    ensures within { IfOk result (λ found. IfSome found (λ angles. EnclosesWithin state.now (size_of p.now) p.now angles)) }
    ensures column { IfOk result (λ found. IfSome found (λ angles. size_of p.now ≤ greatest_total_of state.now → EnclosesColumn state.now p.now angles)) }

    // Angles of the right side exist, and their spans hold them.
    ensures holds { IfOk result (λ found. IfSome found (λ angles. HoldsAngles state.now barrier.now p.now angles)) }
{
    state.sound();
    let approach = corrected(alloc, state, solver, p.as_slice(), guess)?;
    if is_done(state, &approach) {
        Ok(Some(with_kappa(approach)))
    } else {
        Ok(None)
    }
}

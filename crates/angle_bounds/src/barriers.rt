//! Makes the barrier of a state.

ghost use Rattle.std.specs.Prelude.{◌≡◌, ℕ, ◌*◌, ◌<◌, ◌≤ℤ◌, ◌+ℤ◌, pos, length, IfOk, IfSome, IsTrue};
ghost use Rattle.grid_state.specs.GridState.{classes_of};
ghost use Rattle.grid_laplacian.specs.Ranges.{HasRoomFor, reach_of};
ghost use Rattle.grid_laplacian.specs.Sizes.{size_of, total_susceptance_of};
ghost use Rattle.grid_laplacian.specs.Enclosures.{IsBarrier};
ghost use Rattle.angle_bounds.specs.RightSides.{IsMade, IsBarrierAt, free_value, doubled};
ghost use Rattle.sparse_factor.specs.Guesses.{IsGuess};

use crate::corrections::{Approach, corrected};
use angle_sweeps::sweep_up;
use fb_types::Items;
use grid_laplacian::{is_free, reach};
use grid_state::State;
use sparse_factor::{Factor, Solver};
use std::alloc::{AllocError, Global};

/// Twice the susceptance of a live class but the slack's, and 0 for all others.
fn doubled_at(state: &State, class: u32) -> i128
    requires { class < classes_of state.now }
    ensures { result ≡ free_value state.now (doubled state.now) class }
{
    state.sound();
    if is_free(state, class) {
        2 * state.susceptance_at(class)
    } else {
        0
    }
}

/// The right side of a barrier.
fn doubled_susceptances(alloc: Global, state: &State) -> Result<Items<i128>, AllocError>
    ensures { IfOk result (λ p. IsMade state.now (doubled state.now) p (classes_of state.now)) }
{
    let mut right_side = Vec::with_capacity(alloc, state.classes() as usize)?;
    for class in 0..state.classes() {
        right_side.push(doubled_at(state, class))?;
    }
    Ok(Items::from_vec(right_side))
}

/// The right side that a barrier is a guess for: twice the susceptance of each live class but the slack's, and 0 for all
/// others.
pub fn barrier_side(alloc: Global, state: &State) -> Result<Items<i128>, AllocError>
    requires { HasRoomFor state.now 0 }
    ensures each_class { IfOk result (λ p. length p ≡ classes_of state.now) }
    ensures size { IfOk result (λ p. size_of p ≡ 2 * total_susceptance_of state.now) }
    ensures room { IfOk result (λ p. HasRoomFor state.now (size_of p)) }
{
    doubled_susceptances(alloc, state)
}

/// Whether a number is from 0 to twice `far`.
fn is_in_reach(z: i128, far: i128) -> bool
    requires { pos 0 ≤ℤ far }
    ensures { IsTrue result → (pos 0 ≤ℤ z) × (z ≤ℤ (far +ℤ far)) }
{
    0 <= z && z - far <= far
}

fn is_at_most(a: i128, b: i128) -> bool
    ensures { IsTrue result → a ≤ℤ b }
{
    a <= b
}

/// Whether a class has a number from 0 to twice the reach, and what is left there of twice the susceptance is at most once.
fn is_barrier_at(state: &State, v: &[i128], left: &[i128], far: i128, class: u32) -> bool
    requires class { class < classes_of state.now }
    requires v { length v.now ≡ classes_of state.now }
    requires left { length left.now ≡ classes_of state.now }
    requires reach { far ≡ pos (reach_of state.now) }
    ensures { IsTrue result → IsBarrierAt state.now v.now left.now class }
{
    state.sound();
    if !is_in_reach(v[class as usize], far) {
        return false;
    }
    if is_free(state, class) {
        is_at_most(left[class as usize], state.susceptance_at(class))
    } else {
        true
    }
}

/// Whether numbers that leave `left` of the right side of a barrier are one.
fn is_barrier(state: &State, v: &[i128], left: &[i128]) -> bool
    requires v { length v.now ≡ classes_of state.now }
    requires left { length left.now ≡ classes_of state.now }
    ensures { IsTrue result → (i : ℕ) → i < classes_of state.now → IsBarrierAt state.now v.now left.now i }
{
    let far = reach(state);
    for class in 0..state.classes() {
        if !is_barrier_at(state, v, left, far, class) {
            return false;
        }
    }
    true
}

/// A barrier v: whole numbers from 0 to twice the reach whose Laplacian L·v is, at each live class but the slack's, at least
/// the sum of the susceptances of the class. All other classes have 0.
///
/// Wherever a carrying branch joins two classes, 2·n·S is at most floor(2^120/s)·b: n live classes, S the sum and s the
/// greatest of the susceptances of the live classes but the slack's, and b the least of a carrying branch between two classes.
/// The range rule gives this.
pub fn barrier(alloc: Global, state: &State) -> Result<Items<i128>, AllocError>
    requires { HasRoomFor state.now 0 }
    ensures { IfOk result (λ v. IsBarrier state.now v) }
{
    let factor = Factor::new(alloc, state)?;
    barrier_with(alloc, state, &factor)
}

/// The same with a factor of the state. Any factor may be given: what is promised does not rest on it.
pub fn barrier_with(
    alloc: Global,
    state: &State,
    factor: &Factor,
) -> Result<Items<i128>, AllocError>
    requires { HasRoomFor state.now 0 }
    ensures { IfOk result (λ v. IsBarrier state.now v) }
{
    let right_side = barrier_side(alloc, state)?;
    let guess = factor.guess(alloc, state, &right_side)?;
    barrier_from(alloc, state, Solver::Own(factor), guess)
}

/// The same from a guess of the angles of the right side of a barrier, which is corrected by guesses of the solver and then
/// tested; where it is none, sweeps follow. Any guess of at most 4·n·S/b in size may be given, with 0 at the slack's class and
/// at classes that are not live.
pub fn barrier_from(
    alloc: Global,
    state: &State,
    solver: Solver<'_>,
    guess: Items<i128>,
) -> Result<Items<i128>, AllocError>
    requires room { HasRoomFor state.now 0 }
    requires guess { IsGuess state.now (2 * total_susceptance_of state.now) guess }
    ensures { IfOk result (λ v. IsBarrier state.now v) }
{
    match try_barrier_from(alloc, state, solver, guess)? {
        Some(v) => Ok(v),
        None => swept_barrier(alloc, state),
    }
}

/// The same without sweeps: it is none where the corrected guess is no barrier.
pub fn try_barrier_from(
    alloc: Global,
    state: &State,
    solver: Solver<'_>,
    guess: Items<i128>,
) -> Result<Option<Items<i128>>, AllocError>
    requires room { HasRoomFor state.now 0 }
    requires guess { IsGuess state.now (2 * total_susceptance_of state.now) guess }
    ensures { IfOk result (λ found. IfSome found (λ v. IsBarrier state.now v)) }
{
    let right_side = doubled_susceptances(alloc, state)?;
    let approach = corrected(alloc, state, solver, right_side.as_slice(), guess)?;
    if is_barrier(state, approach.w.as_slice(), approach.left.as_slice()) {
        let Approach {
            w,
            left: _,
            is_settled: _,
        } = approach;
        Ok(Some(w))
    } else {
        Ok(None)
    }
}

/// A barrier from sweeps alone.
fn swept_barrier(alloc: Global, state: &State) -> Result<Items<i128>, AllocError>
    requires { HasRoomFor state.now 0 }
    ensures { IfOk result (λ v. IsBarrier state.now v) }
{
    state.sound();
    let right_side = doubled_susceptances(alloc, state)?;
    sweep_up(alloc, state, &right_side)
}

//! Guesses of angles, corrected by guesses of what they leave.

ghost use Rattle.std.specs.Prelude.{◌≡◌, ◌*◌, ◌^◌, ◌<◌, ◌≤◌, ◌+ℤ◌, pos, length, IfOk, IfSome, unsigned_abs};
ghost use Rattle.grid_state.specs.GridState.{classes_of};
ghost use Rattle.grid_laplacian.specs.Sizes.{size_of};
ghost use Rattle.grid_laplacian.specs.Ranges.{HasRoomFor};
ghost use Rattle.sparse_factor.specs.Bounds.{IsLimit};
ghost use Rattle.sparse_factor.specs.Guesses.{IsGuess};
ghost use Rattle.angle_bounds.specs.RightSides.{IsMoved, AreMoved};
ghost use Rattle.angle_bounds.specs.Approaches.{Approaches};

use crate::remainders::{Left, greater_total, is_total_within, remainders};
use fb_types::Items;
use grid_state::State;
use sparse_factor::{Solver, limit_of, total_of};
use std::alloc::{AllocError, Global};

/// Guessed angles, what they leave of the right side, and whether that is below the susceptance at each live class but the
/// slack's.
#[derive(Debug, Drop)]
pub struct Approach {
    pub w: Items<i128>,
    pub left: Items<i128>,
    pub is_settled: bool,
}

/// Angles with what they leave.
pub fn approach_of(
    alloc: Global,
    state: &State,
    p: &[i128],
    w: Items<i128>,
) -> Result<Approach, AllocError>
    requires each_class { length p.now ≡ classes_of state.now }
    requires room { HasRoomFor state.now (size_of p.now) }
    requires guess { IsGuess state.now (size_of p.now) w }
    ensures approaches { IfOk result (Approaches state.now p.now) }
    ensures same { IfOk result (λ approach. approach.w ≡ w) }
{
    let Left {
        numbers: left,
        is_settled,
    } = remainders(alloc, state, p, w.as_slice())?;
    Ok(Approach {
        w,
        left,
        is_settled,
    })
}

/// A number moved as far as a correction says, unless that takes it past the limit.
fn moved(z: i128, by: i128, limit: u128) -> i128
    ensures { IsMoved limit z by result }
{
    match z.checked_add(by) {
        Some(sum) => { if sum.unsigned_abs() <= limit { sum } else { z } }
        None => z,
    }
}

/// The angles moved by a correction.
fn all_moved(alloc: Global, w: &[i128], by: &[i128], limit: u128) -> Result<Items<i128>, AllocError>
    requires { length w.now ≡ length by.now }
    ensures { IfOk result (λ next. AreMoved limit w.now by.now next (length w.now)) }
{
    let mut next = Vec::with_capacity(alloc, w.len())?;
    for i in 0..w.len() {
        next.push(moved(w[i], by[i], limit))?;
    }
    Ok(Items::from_vec(next))
}

/// The angles after one more correction. There is none where they need none, or leave so much that a guess would not help.
fn corrected_once(
    alloc: Global,
    state: &State,
    solver: Solver<'_>,
    p: &[i128],
    approach: &Approach,
) -> Result<Option<Approach>, AllocError>
    requires each_class { length p.now ≡ classes_of state.now }
    requires room { HasRoomFor state.now (size_of p.now) }
    requires approaches { Approaches state.now p.now approach.now }
    ensures { IfOk result (λ found. IfSome found (Approaches state.now p.now)) }
{
    if approach.is_settled {
        return Ok(None);
    }
    let left = approach.left.as_slice();
    let total = total_of(p);
    if is_total_within(left, greater_total(state, total)) {
        let by = solver.guess(alloc, state, &approach.left)?;
        let limit = limit_of(state, total);
        let next = all_moved(alloc, approach.w.as_slice(), by.as_slice(), limit)?;
        Ok(Some(approach_of(alloc, state, p, next)?))
    } else {
        Ok(None)
    }
}

/// A guess of the angles that `p` makes, corrected at most 8 times.
pub fn corrected(
    alloc: Global,
    state: &State,
    solver: Solver<'_>,
    p: &[i128],
    guess: Items<i128>,
) -> Result<Approach, AllocError>
    requires each_class { length p.now ≡ classes_of state.now }
    requires room { HasRoomFor state.now (size_of p.now) }
    requires guess { IsGuess state.now (size_of p.now) guess }
    ensures { IfOk result (Approaches state.now p.now) }
{
    let mut approach = approach_of(alloc, state, p, guess)?;
    for _turn in 0..8 {
        match corrected_once(alloc, state, solver, p, &approach)? {
            Some(next) => approach = next,
            None => break,
        }
    }
    Ok(approach)
}

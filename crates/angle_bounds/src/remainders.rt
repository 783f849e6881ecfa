//! What a list of angles leaves of a right side.

ghost use Rattle.std.specs.Prelude.{◌≡◌, ◌*◌, ◌^◌, ◌<◌, ◌≤◌, ◌↔◌, true, length, IfOk, IsTrue, unsigned_abs};
ghost use Rattle.std.specs.Bool.{OnTrue};
ghost use Rattle.grid_state.specs.GridState.{classes_of, is_free, susceptance_of};
ghost use Rattle.grid_laplacian.specs.Sizes.{size_of};
ghost use Rattle.grid_laplacian.specs.Ranges.{HasRoomFor, greater_total_of};
ghost use Rattle.sparse_factor.specs.Guesses.{IsGuess};
ghost use Rattle.angle_bounds.specs.RightSides.{free_value, remainder_of, IsMade, IsAtMostOne};

use fb_types::Items;
use grid_laplacian::{is_free, residual_of, total_susceptance};
use grid_state::State;
use std::alloc::{AllocError, Global};

/// What is left of a right side, and whether it is settled: below the susceptance at each live class but the slack's.
#[derive(Debug, Drop)]
pub struct Left {
    pub numbers: Items<i128>,
    pub is_settled: bool,
}

/// What is left of `p` at a live class but the slack's, and 0 for all others.
fn remainder_at(state: &State, p: &[i128], w: &[i128], class: u32) -> i128
    requires class { class < classes_of state.now }
    requires each_class { length p.now ≡ classes_of state.now }
    requires room { HasRoomFor state.now (size_of p.now) }
    requires guess { IsGuess state.now (size_of p.now) w.now }
    ensures { result ≡ free_value state.now (remainder_of state.now p.now w.now) class }
{
    state.sound();
    if is_free(state, class) {
        residual_of(state, p, w, class)
    } else {
        0
    }
}

/// Whether a number is 0, or below a susceptance in size, or equal where that is taken.
fn is_little(z: i128, susceptance: i128, equal: bool) -> bool
    ensures { IsTrue result → unsigned_abs z ≤ unsigned_abs susceptance }
{
    let size = z.unsigned_abs();
    let most = susceptance.unsigned_abs();
    size < most || size == 0 || (equal && size == most)
}

/// Whether what is left is still settled with what is left at one more class.
fn stays_settled(state: &State, so_far: bool, here: i128, class: u32) -> bool
    requires { class < classes_of state.now }
    ensures before { IsTrue result → so_far ≡ true }
    ensures little { IsTrue result → unsigned_abs here ≤ susceptance_of state.now class }
{
    so_far && is_little(here, state.susceptance_at(class), false)
}

/// What is left of `p`.
pub fn remainders(alloc: Global, state: &State, p: &[i128], w: &[i128]) -> Result<Left, AllocError>
    requires each_class { length p.now ≡ classes_of state.now }
    requires room { HasRoomFor state.now (size_of p.now) }
    requires guess { IsGuess state.now (size_of p.now) w.now }
    ensures made { IfOk result (λ left. IsMade state.now (remainder_of state.now p.now w.now) left.numbers (classes_of state.now)) }
    ensures settled { IfOk result (λ left. OnTrue left.is_settled (IsAtMostOne state.now left.numbers (classes_of state.now))) }
{
    let mut numbers = Vec::with_capacity(alloc, state.classes() as usize)?;
    let mut is_settled = true;
    for class in 0..state.classes() {
        let here = remainder_at(state, p, w, class);
        is_settled = stays_settled(state, is_settled, here, class);
        numbers.push(here)?;
    }
    Ok(Left {
        numbers: Items::from_vec(numbers),
        is_settled,
    })
}

/// Whether what is left is below the susceptance at each live class but the slack's, or equal to it where that is taken.
pub fn is_settled(state: &State, left: &[i128], equal: bool) -> bool
    requires { length left.now ≡ classes_of state.now }
    ensures { OnTrue result (IsAtMostOne state.now left.now (classes_of state.now)) }
{
    state.sound();
    for class in 0..state.classes() {
        if is_free(state, class)
            && !is_little(left[class as usize], state.susceptance_at(class), equal)
        {
            return false;
        }
    }
    true
}

/// The greater of a total and twice the sum of the susceptances.
pub fn greater_total(state: &State, total: u128) -> u128
    ensures { result ≡ greater_total_of state.now total }
{
    total.max(2 * total_susceptance(state))
}

/// Whether the numbers add up to at most `most` in size.
pub fn is_total_within(left: &[i128], most: u128) -> bool
    ensures { IsTrue result ↔ (size_of left.now ≤ most) }
{
    let mut rest = most;
    for z in left {
        let size = z.unsigned_abs();
        if size > rest {
            return false;
        }
        rest -= size;
    }
    true
}

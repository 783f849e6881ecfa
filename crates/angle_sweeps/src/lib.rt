//! Sweeps over the classes of a grid state: whole numbers that approach the angles of a right side from below, one class at a
//! time (the method of Gauss and Seidel, rounded down).
#![tactic(auto)]

ghost use Rattle.std.specs.Prelude.{◌≡◌, ◌*◌, ◌/◌, ◌<◌, ◌+ℤ◌, ◌-ℤ◌, ◌<ℤ◌, ◌≤ℤ◌, pos, true, length, All, unsigned_abs, FitsSigned, IfOk};
ghost use Rattle.std.specs.Int.{w128};
ghost use Rattle.std.specs.Bool.{OnTrue, OnFalse};
ghost use Rattle.whole_laws.specs.Sums.{at};
ghost use Rattle.grid_state.specs.GridState.{classes_of, is_free, susceptance_of};
ghost use Rattle.grid_laplacian.specs.Laws.{laplacian_at};
ghost use Rattle.grid_laplacian.specs.Ranges.{HasRoomFor};
ghost use Rattle.grid_laplacian.specs.Sizes.{size_of};
ghost use Rattle.angle_sweeps.specs.Rounds.{IsRightSide};
ghost use Rattle.angle_sweeps.specs.Sweeps.{IsUnder, IsClose};

use fb_types::Items;
use grid_laplacian::{is_free, residual_of};
use grid_state::State;
use std::alloc::{AllocError, Global};

/// A number raised by the whole part of a quotient.
fn plus_quotient(here: i128, left: i128, divisor: i128) -> i128
    requires some { pos 0 <ℤ divisor }
    requires nonnegative { pos 0 ≤ℤ left }
    requires room { FitsSigned w128 (here +ℤ pos (unsigned_abs left / unsigned_abs divisor)) }
    ensures { result ≡ here +ℤ pos (unsigned_abs left / unsigned_abs divisor) }
{
    here + left / divisor
}

/// Raises `w` at a class as far as what is left of `p` there allows, and says whether it rose.
fn raise(state: &State, p: &[i128], w: &mut [i128], class: u32) -> bool
    requires class { class < classes_of state.now }
    requires free { is_free state.now class ≡ true }
    requires right_side { IsRightSide state.now p.now }
    requires under { IsUnder state.now p.now w.old }
    ensures under { IsUnder state.now p.now w.new }
    ensures close { (at p.now class -ℤ laplacian_at state.now w.new class) <ℤ pos (susceptance_of state.now class) }
    ensures rose { OnTrue result (size_of w.old < size_of w.new) }
    ensures same { OnFalse result (w.new ≡ w.old) }
{
    state.sound();
    let here = w[class as usize];
    let left = residual_of(state, p, w, class);
    let raised = plus_quotient(here, left, state.susceptance_at(class));
    w[class as usize] = raised;
    raised > here
}

/// One round over the classes. It says whether `w` rose at any.
fn sweep_round(state: &State, p: &[i128], w: &mut [i128]) -> bool
    requires right_side { IsRightSide state.now p.now }
    requires under { IsUnder state.now p.now w.old }
    ensures under { IsUnder state.now p.now w.new }
    ensures rose { OnTrue result (size_of w.old < size_of w.new) }
    ensures close { OnFalse result (IsClose state.now p.now w.new) }
{
    state.sound();
    let mut rose = false;
    for class in 0..state.classes() {
        if is_free(state, class) {
            if raise(state, p, w, class) {
                rose = true;
            }
        }
    }
    rose
}

/// Whole numbers w that approach the angles of the right side p from below: at each live class but the slack's, p - L·w is at
/// least 0 and below the sum of the susceptances of the class; all other classes have 0. With p in 10^-13 W and susceptances
/// in kW/rad, w is in 10^-16 rad.
///
/// There is one number of p for each class, and none is negative. Wherever a carrying branch joins two classes, n·max(T, 2S)
/// is at most floor(2^120/s)·b: n live classes, T the sum of p over all classes, S the sum and s the greatest of the
/// susceptances of the live classes but the slack's, and b the least of a carrying branch between two classes.
pub fn sweep_up(alloc: Global, state: &State, p: &Items<i128>) -> Result<Items<i128>, AllocError>
    requires each_class { length p.now ≡ classes_of state.now }
    requires nonnegative { All (λ z. pos 0 ≤ℤ z) p.now }
    requires room { HasRoomFor state.now (size_of p.now) }
    ensures under { IfOk result (λ w. IsUnder state.now p.now w) }
    ensures close { IfOk result (λ w. IsClose state.now p.now w) }
{
    state.sound();
    let p = p.as_slice();
    let mut w = vec![in alloc; 0; p.len()]?;
    while sweep_round(state, p, &mut w) {}
    Ok(Items::from_vec(w))
}

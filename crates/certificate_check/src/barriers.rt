//! Whether a list is a barrier of a state.

ghost use Rattle.std.specs.Prelude.{◌≡◌, ◌*◌, ◌^◌, ◌<◌, ◌≤ℤ◌, ◌+ℤ◌, ◌-ℤ◌, ◌↔◌, pos, true, All, IsTrue};
ghost use Rattle.std.specs.Bool.{OnTrue, OnFalse};
ghost use Rattle.grid_state.specs.GridState.{classes_of, is_free, susceptance_of};
ghost use Rattle.grid_laplacian.specs.Enclosures.{IsBarrier};
ghost use Rattle.grid_laplacian.specs.Laws.{laplacian_at};
ghost use Rattle.grid_laplacian.specs.Ranges.{HasRoomFor};
ghost use Rattle.certificate_check.specs.Bounded.{IsRanged};
ghost use Rattle.certificate_check.specs.Rulings.{BarrierRuling};

use crate::columns::is_fixed;
use crate::verdict::Reason;
use grid_laplacian::{is_free, reach, residual_of};
use grid_state::State;

/// Whether a number is from 0 to twice this.
fn is_up_to_twice(z: i128, most: i128) -> bool
    requires { pos 0 ≤ℤ most }
    ensures { IsTrue result ↔ ((pos 0 ≤ℤ z) × (z ≤ℤ (most +ℤ most))) }
{
    0 <= z && z - most <= most
}

/// Whether the numbers are from 0 to twice this.
fn are_up_to_twice(v: &[i128], most: i128) -> bool
    requires { pos 0 ≤ℤ most }
    ensures { IsTrue result ↔ All (λ z. (pos 0 ≤ℤ z) × (z ≤ℤ (most +ℤ most))) v.now }
{
    v.iter().all(|z| is_up_to_twice(*z, most))
}

/// Whether a list has a number for each class, each from 0 to twice the reach, and 0 where it is fixed.
fn is_ranged(state: &State, v: &[i128]) -> bool
    ensures yes { OnTrue result (IsRanged state.now v.now) }
    ensures no { OnFalse result (IsRanged state.now v.now → ⊥) }
{
    if v.len() != state.classes() as usize {
        return false;
    }
    if !are_up_to_twice(v, reach(state)) {
        return false;
    }
    is_fixed(state, v)
}

/// Whether the susceptance is at most what is left of a number, none of them negative, once this is taken off.
fn is_at_least(here: i128, left: i128, susceptance: i128) -> bool
    requires here { pos 0 ≤ℤ here }
    requires susceptance { pos 0 ≤ℤ susceptance }
    ensures { IsTrue result ↔ (susceptance ≤ℤ (here -ℤ left)) }
{
    left <= here - susceptance
}

/// Whether the Laplacian of the list is at least the susceptance at a class.
fn is_steep_at(state: &State, v: &[i128], class: u32) -> bool
    requires class { class < classes_of state.now }
    requires live_and_not_slack { is_free state.now class ≡ true }
    requires room { HasRoomFor state.now (2 * 10 ^ 25) }
    requires ranged { IsRanged state.now v.now }
    ensures { IsTrue result ↔ (pos (susceptance_of state.now class) ≤ℤ laplacian_at state.now v.now class) }
{
    state.sound();
    is_at_least(
        v[class as usize],
        residual_of(state, v, v, class),
        state.susceptance_at(class),
    )
}

/// Whether the list is a barrier.
fn is_barrier(state: &State, v: &[i128]) -> bool
    requires room { HasRoomFor state.now (2 * 10 ^ 25) }
    ensures yes { OnTrue result (IsBarrier state.now v.now) }
    ensures no { OnFalse result (IsBarrier state.now v.now → ⊥) }
{
    if !is_ranged(state, v) {
        return false;
    }
    for class in 0..state.classes() {
        if is_free(state, class) && !is_steep_at(state, v, class) {
            return false;
        }
    }
    true
}

/// The reason for which a barrier fails, if it does.
pub(crate) fn barrier_fault(state: &State, v: &[i128]) -> Option<Reason>
    requires room { HasRoomFor state.now (2 * 10 ^ 25) }
    ensures { BarrierRuling state.now v.now result }
{
    if is_barrier(state, v) {
        None
    } else {
        Some(Reason::Barrier)
    }
}

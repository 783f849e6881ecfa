//! Whether a column encloses the angles of a right side.

ghost use Rattle.std.specs.Prelude.{◌≡◌, ◌*◌, ◌/◌, ◌^◌, ◌<◌, ◌≤◌, ◌-ℤ◌, ◌↔◌, true, length, All, IsTrue, unsigned_abs};
ghost use Rattle.std.specs.Bool.{OnTrue, OnFalse};
ghost use Rattle.whole_laws.specs.Sums.{at};
ghost use Rattle.grid_state.specs.GridState.{classes_of, is_free, live_count, susceptance_of};
ghost use Rattle.grid_laplacian.specs.Enclosures.{IsNear};
ghost use Rattle.grid_laplacian.specs.Laws.{laplacian_at};
ghost use Rattle.grid_laplacian.specs.Ranges.{HasRoomFor, greatest_total_of};
ghost use Rattle.grid_laplacian.specs.Sizes.{least_susceptance_of, size_of};
ghost use Rattle.certificate_check.specs.Bounded.{IsBounded, IsSmall, IsFixed};
ghost use Rattle.certificate_check.specs.Rulings.{ColumnRuling};

use crate::verdict::Reason;
use fb_types::Angles;
use grid_laplacian::{is_free, least_susceptance, live_classes, residual_of, total_susceptance};
use grid_state::State;

/// The most that a right side adds up to in size, in 10^-13 W, where the range rule holds.
const GREATEST_SIDE: u128 = 20_000_000_000_000_000_000_000_000;

/// Whether the numbers are 0 at the slack's class and at classes that are not live.
pub(crate) fn is_fixed(state: &State, w: &[i128]) -> bool
    requires { length w.now ≡ classes_of state.now }
    ensures yes { OnTrue result (IsFixed state.now w.now) }
    ensures no { OnFalse result (IsFixed state.now w.now → ⊥) }
{
    for class in 0..state.classes() {
        if !is_free(state, class) && w[class as usize] != 0 {
            return false;
        }
    }
    true
}

/// The greater of 2·10^25 and twice the sum of the susceptances.
fn greatest_total(state: &State) -> u128
    ensures value { result ≡ greatest_total_of state.now }
    ensures small { greatest_total_of state.now ≤ 2 ^ 85 }
{
    GREATEST_SIDE.max(2 * total_susceptance(state))
}

/// The most that a number of a column may be in size: 2·n·P over the least susceptance, with n live classes and P the
/// greater of 2·10^25 and twice the sum of the susceptances.
fn greatest_angle(state: &State) -> u128
    ensures { result ≡ 2 * live_count state.now * greatest_total_of state.now / least_susceptance_of state.now }
{
    2 * u128::from(live_classes(state)) * greatest_total(state)
        / u128::from(least_susceptance(state))
}

/// Whether the numbers are at most this in size.
fn are_within(w: &[i128], most: u128) -> bool
    ensures { IsTrue result ↔ All (λ z. unsigned_abs z ≤ most) w.now }
{
    w.iter().all(|z| z.unsigned_abs() <= most)
}

/// Whether the numbers are in the bound of a column.
fn is_small(state: &State, w: &[i128]) -> bool
    ensures yes { OnTrue result (IsSmall state.now w.now) }
    ensures no { OnFalse result (IsSmall state.now w.now → ⊥) }
{
    state.sound();
    are_within(w, greatest_angle(state))
}

/// Whether a list has a number for each class, each in the bound of a column, and 0 where it is fixed.
fn is_bounded(state: &State, w: &[i128]) -> bool
    ensures yes { OnTrue result (IsBounded state.now w.now) }
    ensures no { OnFalse result (IsBounded state.now w.now → ⊥) }
{
    if w.len() != state.classes() as usize {
        return false;
    }
    if !is_small(state, w) {
        return false;
    }
    is_fixed(state, w)
}

/// Whether what is left is at most kappa times the susceptance.
fn is_at_most(left: i128, kappa: u8, susceptance: i128) -> bool
    requires kappa { kappa ≤ 1 }
    ensures { IsTrue result ↔ (unsigned_abs left ≤ kappa * unsigned_abs susceptance) }
{
    let most = if kappa == 0 {
        0
    } else {
        susceptance.unsigned_abs()
    };
    left.unsigned_abs() <= most
}

/// Whether what is left of `p` at a class is at most kappa times the susceptance.
fn is_near_at(state: &State, p: &[i128], w: &[i128], kappa: u8, class: u32) -> bool
    requires class { class < classes_of state.now }
    requires live_and_not_slack { is_free state.now class ≡ true }
    requires kappa { kappa ≤ 1 }
    requires p_length { length p.now ≡ classes_of state.now }
    requires room { HasRoomFor state.now (2 * 10 ^ 25) }
    requires size { size_of p.now ≤ 2 * 10 ^ 25 }
    requires bounded { IsBounded state.now w.now }
    ensures { IsTrue result ↔ (unsigned_abs (at p.now class -ℤ laplacian_at state.now w.now class) ≤ kappa * susceptance_of state.now class) }
{
    state.sound();
    is_at_most(
        residual_of(state, p, w, class),
        kappa,
        state.susceptance_at(class),
    )
}

/// Whether what is left of `p` is at most kappa times the susceptance at each live class but the slack's.
fn is_near(state: &State, p: &[i128], w: &[i128], kappa: u8) -> bool
    requires kappa { kappa ≤ 1 }
    requires p_length { length p.now ≡ classes_of state.now }
    requires room { HasRoomFor state.now (2 * 10 ^ 25) }
    requires size { size_of p.now ≤ 2 * 10 ^ 25 }
    requires bounded { IsBounded state.now w.now }
    ensures yes { OnTrue result (IsNear state.now p.now w.now kappa) }
    ensures no { OnFalse result (IsNear state.now p.now w.now kappa → ⊥) }
{
    for class in 0..state.classes() {
        if is_free(state, class) && !is_near_at(state, p, w, kappa, class) {
            return false;
        }
    }
    true
}

/// The first reason for which a column fails, if it does.
pub(crate) fn column_fault(state: &State, p: &[i128], angles: &Angles) -> Option<Reason>
    requires p_length { length p.now ≡ classes_of state.now }
    requires room { HasRoomFor state.now (2 * 10 ^ 25) }
    requires size { size_of p.now ≤ 2 * 10 ^ 25 }
    ensures { ColumnRuling state.now p.now angles.now result }
{
    let w = angles.w.as_slice();
    if angles.kappa > 1 || !is_bounded(state, w) {
        return Some(Reason::Angle);
    }
    if !is_near(state, p, w, angles.kappa) {
        return Some(Reason::Angle);
    }
    if angles.kappa != 0 && is_near(state, p, w, 0) {
        return Some(Reason::Kappa);
    }
    None
}

//! Angles that are swept: of a whole right side, or of what a guess leaves of it.

ghost use Rattle.std.specs.Prelude.{◌≡◌, ◌^◌, ◌<◌, ◌≤ℤ◌, ◌+ℤ◌, ◌-ℤ◌, pos, length, All, IfOk};
ghost use Rattle.whole_laws.specs.Sums.{IsWithin};
ghost use Rattle.grid_state.specs.GridState.{classes_of};
ghost use Rattle.grid_laplacian.specs.Sizes.{size_of};
ghost use Rattle.grid_laplacian.specs.Ranges.{HasRoomFor};
ghost use Rattle.angle_bounds.specs.RightSides.{above_zero, below_zero, free_value, part_above, part_below, IsMade, IsDifference, IsSum, IsProposed, remainder_of};
ghost use Rattle.sparse_factor.specs.Guesses.{IsGuess};

use angle_sweeps::sweep_up;
use fb_types::Items;
use grid_laplacian::is_free;
use grid_state::State;
use std::alloc::{AllocError, Global};

fn above_zero(z: i128) -> i128
    ensures { result ≡ above_zero z }
{
    if z < 0 { 0 } else { z }
}

fn below_zero(z: i128) -> i128
    requires { IsWithin (2 ^ 121) z }
    ensures { result ≡ below_zero z }
{
    if z < 0 { -z } else { 0 }
}

/// The part of `p` above 0 at a live class but the slack's, and 0 for all others.
fn above_at(state: &State, p: &[i128], class: u32) -> i128
    requires class { class < classes_of state.now }
    requires each_class { length p.now ≡ classes_of state.now }
    ensures { result ≡ free_value state.now (part_above p.now) class }
{
    if is_free(state, class) {
        above_zero(p[class as usize])
    } else {
        0
    }
}

/// The size of the part of `p` below 0 at a live class but the slack's, and 0 for all others.
fn below_at(state: &State, p: &[i128], class: u32) -> i128
    requires class { class < classes_of state.now }
    requires each_class { length p.now ≡ classes_of state.now }
    requires room { HasRoomFor state.now (size_of p.now) }
    ensures { result ≡ free_value state.now (part_below p.now) class }
{
    state.sound();
    if is_free(state, class) {
        below_zero(p[class as usize])
    } else {
        0
    }
}

fn parts_above(alloc: Global, state: &State, p: &[i128]) -> Result<Items<i128>, AllocError>
    requires { length p.now ≡ classes_of state.now }
    ensures { IfOk result (λ q. IsMade state.now (part_above p.now) q (classes_of state.now)) }
{
    let mut parts = Items::new(alloc);
    for class in 0..state.classes() {
        parts.add(above_at(state, p, class))?;
    }
    Ok(parts)
}

fn parts_below(alloc: Global, state: &State, p: &[i128]) -> Result<Items<i128>, AllocError>
    requires each_class { length p.now ≡ classes_of state.now }
    requires room { HasRoomFor state.now (size_of p.now) }
    ensures { IfOk result (λ q. IsMade state.now (part_below p.now) q (classes_of state.now)) }
{
    let mut parts = Items::new(alloc);
    for class in 0..state.classes() {
        parts.add(below_at(state, p, class))?;
    }
    Ok(parts)
}

/// The difference of two numbers that are not negative.
fn apart(a: i128, b: i128) -> i128
    requires a { pos 0 ≤ℤ a }
    requires b { pos 0 ≤ℤ b }
    ensures { result ≡ a -ℤ b }
{
    a - b
}

/// The differences of two lists of numbers that are not negative.
fn difference(alloc: Global, a: &[i128], b: &[i128]) -> Result<Items<i128>, AllocError>
    requires lengths { length a.now ≡ length b.now }
    requires a { All (λ z. pos 0 ≤ℤ z) a.now }
    requires b { All (λ z. pos 0 ≤ℤ z) b.now }
    ensures { IfOk result (λ w. IsDifference a.now b.now w (length a.now)) }
{
    let mut w = Items::new(alloc);
    for i in 0..a.len() {
        w.add(apart(a[i], b[i]))?;
    }
    Ok(w)
}

/// Proposes angles of the right side: what is above 0 and what is below is swept apart.
pub fn swept(alloc: Global, state: &State, p: &Items<i128>) -> Result<Items<i128>, AllocError>
    requires each_class { length p.now ≡ classes_of state.now }
    requires room { HasRoomFor state.now (size_of p.now) }
    ensures { IfOk result (λ w. IsProposed state.now p.now w) }
{
    state.sound();
    let high = parts_above(alloc, state, p.as_slice())?;
    let low = parts_below(alloc, state, p.as_slice())?;
    let above = sweep_up(alloc, state, &high)?;
    let below = sweep_up(alloc, state, &low)?;
    difference(alloc, above.as_slice(), below.as_slice())
}

/// The sum of two numbers.
fn sum(a: i128, b: i128) -> i128
    requires a { IsWithin (2 ^ 121) a }
    requires b { IsWithin (2 ^ 121) b }
    ensures { result ≡ a +ℤ b }
{
    a + b
}

/// The sums of two lists of angles.
fn sums(alloc: Global, a: &[i128], b: &[i128]) -> Result<Items<i128>, AllocError>
    requires lengths { length a.now ≡ length b.now }
    requires a { All (λ z. IsWithin (2 ^ 121) z) a.now }
    requires b { All (λ z. IsWithin (2 ^ 121) z) b.now }
    ensures { IfOk result (λ w. IsSum a.now b.now w (length a.now)) }
{
    let mut w = Items::new(alloc);
    for i in 0..a.len() {
        w.add(sum(a[i], b[i]))?;
    }
    Ok(w)
}

/// Adds angles of what the guess leaves, from sweeps.
pub fn swept_on(
    alloc: Global,
    state: &State,
    p: &[i128],
    w: &[i128],
    left: &Items<i128>,
) -> Result<Items<i128>, AllocError>
    requires each_class { length p.now ≡ classes_of state.now }
    requires room { HasRoomFor state.now (size_of p.now) }
    requires guess { IsGuess state.now (size_of p.now) w.now }
    requires left { IsMade state.now (remainder_of state.now p.now w.now) left.now (classes_of state.now) }
    requires room_left { HasRoomFor state.now (size_of left.now) }
    ensures { IfOk result (λ next. IsProposed state.now p.now next) }
{
    state.sound();
    let more = swept(alloc, state, left)?;
    sums(alloc, w, more.as_slice())
}

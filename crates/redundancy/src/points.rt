//! Points, and what rows leave at them.

ghost use Rattle.std.specs.Prelude.{◌≡◌, ℕ, ◌*◌, ◌^◌, ◌<◌, ◌≤◌, ◌↔◌, ℤ, pos, ◌*ℤ◌, ◌≤ℤ◌, true, List, length, IsTrue};
ghost use Rattle.std.specs.List.{All};
ghost use Rattle.whole_laws.specs.Sums.{at, IsWithin};
ghost use Rattle.fb_types.specs.Domain.{IsPoint, Meets, IsHalfOver, AreBounds};
ghost use Rattle.redundancy.specs.Points.{value_below, slack_at};

use fb_types::{Bounds, Half};

/// One watt at a coefficient of one, in 10^-12.
const WATT: i128 = 1_000_000_000_000;

/// The greatest size of a bound, in watts.
const GREATEST_BOUND: i64 = 100_000_000_000;

/// Whether the numbers are within the bounds and have the sum 0.
pub fn is_point(x: &[i64], bounds: &[Bounds]) -> bool
    requires bounds_in_range { AreBounds bounds.now }
    ensures { IsTrue result → IsPoint bounds.now x.now }
{
    if x.len() != bounds.len() {
        return false;
    }
    let mut sum: i64 = 0;
    for z in 0..x.len() {
        if !is_inside(x[z], &bounds[z]) {
            return false;
        }
        sum += x[z];
    }
    sum == 0
}

/// Whether a position is within the bounds of its zone.
fn is_inside(x: i64, b: &Bounds) -> bool
    ensures { IsTrue result → (b.now.low ≤ℤ x) × (x ≤ℤ b.now.high) }
{
    b.low <= x && x <= b.high
}

/// What a row leaves at a point.
pub fn slack_of(row: &Half, x: &[i64]) -> i128
    requires over { IsHalfOver (length x.now) row.now }
    requires few { length x.now ≤ 64 }
    requires small { All (λ p. IsWithin (10 ^ 11) p) x.now }
    ensures { result ≡ slack_at row.now x.now }
{
    i128::from(row.r) * WATT - value_of(row, x)
}

/// The sum of a row at a point.
fn value_of(row: &Half, x: &[i64]) -> i128
    requires over { IsHalfOver (length x.now) row.now }
    requires few { length x.now ≤ 64 }
    requires small { All (λ p. IsWithin (10 ^ 11) p) x.now }
    ensures exact { result ≡ value_below row.now x.now (length x.now) }
    ensures small { IsWithin (10 ^ 25) result }
{
    let mut sum: i128 = 0;
    for z in 0..x.len() {
        sum += term_at(row, x, z);
    }
    sum
}

/// The term of a zone in that sum.
fn term_at(row: &Half, x: &[i64], z: usize) -> i128
    requires over { IsHalfOver (length x.now) row.now }
    requires small { All (λ p. IsWithin (10 ^ 11) p) x.now }
    requires inside { z < length x.now }
    ensures exact { result ≡ at row.now.a z *ℤ at x.now z }
    ensures small { IsWithin (10 ^ 23) result }
{
    term(row.a.as_slice()[z], x[z])
}

fn term(a: i64, x: i64) -> i128
    requires a_small { IsWithin (10 ^ 12) a }
    requires x_small { IsWithin (10 ^ 11) x }
    ensures exact { result ≡ a *ℤ x }
    ensures small { IsWithin (10 ^ 23) result }
{
    i128::from(a) * i128::from(x)
}

/// Whether a row holds at a point.
pub fn meets(row: &Half, x: &[i64]) -> bool
    requires over { IsHalfOver (length x.now) row.now }
    requires few { length x.now ≤ 64 }
    requires small { All (λ p. IsWithin (10 ^ 11) p) x.now }
    ensures { IsTrue result ↔ Meets row.now x.now }
{
    value_of(row, x) <= i128::from(row.r) * WATT
}

/// Whether each number is one that a bound may be.
pub fn are_small(x: &[i64]) -> bool
    ensures { IsTrue result → All (λ p. IsWithin (10 ^ 11) p) x.now }
{
    x.iter()
        .all(|p| -GREATEST_BOUND <= *p && *p <= GREATEST_BOUND)
}

/// Takes what the numbers add up to away from them, zone by zone, as far as the bounds let it.
pub fn level(x: &mut [i64], bounds: &[Bounds]) {
    let mut left = sum_of(x);
    for (z, b) in bounds.iter().enumerate() {
        if z >= x.len() {
            return;
        }
        let moved = x[z].wrapping_sub(left).max(b.low).min(b.high);
        left = left.wrapping_sub(x[z].wrapping_sub(moved));
        x[z] = moved;
    }
}

/// The sum of numbers of 64 bits, as far as it fits them.
fn sum_of(x: &[i64]) -> i64 {
    let mut sum: i64 = 0;
    for p in x {
        sum = sum.wrapping_add(*p);
    }
    sum
}

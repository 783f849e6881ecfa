//! The best multiplier of the balance.

ghost use Rattle.std.specs.Prelude.{◌≡◌, ℕ, ◌+◌, ◌*◌, ◌^◌, ◌<◌, ◌≤◌, ◌↔◌, ℤ, pos, ◌-ℤ◌, ◌≤ℤ◌, List, length, IsTrue, MatchOption};
ghost use Rattle.std.specs.List.{All};
ghost use Rattle.whole_laws.specs.Sums.{IsWithin, at};
ghost use Rattle.fb_types.specs.Domain.{AreBounds, greatest};
ghost use Rattle.multiplier_search.specs.Found.{IsBox};
ghost use Rattle.multiplier_search.specs.Corners.{most, weight, fall, IsTurn};

use fb_types::Bounds;
use row_weighing::greatest_at;

/// By how much the most falls for each unit that the multiplier of the balance rises from `t`.
fn fall_at(corners: &[i128], bounds: &[Bounds], t: i128) -> i64
    requires long { length corners.now ≡ length bounds.now }
    requires bounds_in_range { AreBounds bounds.now }
    ensures { result ≡ fall bounds.now (at corners.now) t }
{
    let mut sum: i64 = 0;
    for (z, b) in bounds.iter().enumerate() {
        sum += weight_at(b, corners[z], t);
    }
    sum
}

/// The bound of a zone that counts in the fall.
fn weight_at(b: &Bounds, corner: i128, t: i128) -> i64
    requires low { IsWithin (10 ^ 11) b.now.low }
    requires high { IsWithin (10 ^ 11) b.now.high }
    ensures exact { result ≡ weight (Some b.now) corner t }
    ensures small { IsWithin (10 ^ 11) result }
{
    if corner <= t { b.low } else { b.high }
}

/// The least corner from which the most falls no more.
fn turn(corners: &[i128], bounds: &[Bounds]) -> i128
    requires long { length corners.now ≡ length bounds.now }
    requires bounds_in_range { AreBounds bounds.now }
    requires is_box { IsBox bounds.now }
    ensures { IsTurn bounds.now (at corners.now) result }
{
    let least = least_of(corners);
    if fall_at(corners, bounds, least) <= 0 {
        return least;
    }
    let mut below = least;
    let mut best = greatest_of(corners);
    for c in corners {
        if *c <= below {
            continue;
        }
        if best <= *c {
            continue;
        }
        if fall_at(corners, bounds, *c) <= 0 {
            best = *c;
            continue;
        }
        below = *c;
    }
    best
}

fn least_of(corners: &[i128]) -> i128
    requires { 0 < length corners.now }
    ensures reached { (z : ℕ) × (z < length corners.now) × (result ≡ at corners.now z) }
    ensures least { (z : ℕ) → z < length corners.now → result ≤ℤ at corners.now z }
{
    let mut best = 0;
    for i in 1..corners.len() {
        if corners[i] < corners[best] {
            best = i;
        }
    }
    corners[best]
}

fn greatest_of(corners: &[i128]) -> i128
    requires { 0 < length corners.now }
    ensures reached { (z : ℕ) × (z < length corners.now) × (result ≡ at corners.now z) }
    ensures greatest { (z : ℕ) → z < length corners.now → at corners.now z ≤ℤ result }
{
    let mut best = 0;
    for i in 1..corners.len() {
        if corners[best] < corners[i] {
            best = i;
        }
    }
    corners[best]
}

/// The most that the coefficients, each less `t`, can give within the bounds.
fn most_at(corners: &[i128], bounds: &[Bounds], t: i128) -> i128
    requires long { length corners.now ≡ length bounds.now }
    requires bounds_in_range { AreBounds bounds.now }
    requires corners_small { All (λ c. IsWithin (10 ^ 24) c) corners.now }
    requires small { IsWithin (10 ^ 24) t }
    ensures { result ≡ most bounds.now (at corners.now) t }
{
    let mut sum: i128 = 0;
    for (z, b) in bounds.iter().enumerate() {
        sum += term_at(b, corners[z], t);
    }
    sum
}

fn term_at(b: &Bounds, corner: i128, t: i128) -> i128
    requires low { IsWithin (10 ^ 11) b.now.low }
    requires high { IsWithin (10 ^ 11) b.now.high }
    requires corner_small { IsWithin (10 ^ 24) corner }
    requires small { IsWithin (10 ^ 24) t }
    ensures exact { result ≡ greatest (Some b.now) (corner -ℤ t) }
    ensures small { IsWithin (3 * 10 ^ 35) result }
{
    greatest_at(b, corner - t)
}

/// A multiplier of the balance with which the most is within the room.
pub fn best_balance(corners: &[i128], bounds: &[Bounds], room: i128) -> Option<i128>
    requires long { length corners.now ≡ length bounds.now }
    requires bounds_in_range { AreBounds bounds.now }
    requires is_box { IsBox bounds.now }
    requires corners_small { All (λ c. IsWithin (10 ^ 24) c) corners.now }
    ensures { MatchOption result ((mu : ℤ) → ¬ (most bounds.now (at corners.now) mu ≤ℤ room)) (λ mu. IsWithin (10 ^ 24) mu × (most bounds.now (at corners.now) mu ≤ℤ room)) }
{
    let mu = turn(corners, bounds);
    if most_at(corners, bounds, mu) <= room {
        Some(mu)
    } else {
        None
    }
}

//! The rows of a domain: whole coefficients, and two right sides between which the exact row lies.
#![tactic(auto)]

ghost use Rattle.std.specs.Prelude.{◌≡◌, ◌-◌, ◌*◌, ◌^◌, ◌≤◌, ℕ, ℤ, pos, negsuc, ◌-ℤ◌, ◌≤ℤ◌, length, map};
ghost use Rattle.std.specs.List.{All, zip};
ghost use Rattle.whole_laws.specs.Quotients.{floor_of, ceil_of};
ghost use Rattle.whole_laws.specs.Sums.{IsWithin};
ghost use Rattle.fb_types.specs.Domain.{AreBounds};
ghost use Rattle.fb_span.specs.Ends.{EndsWithin};
ghost use Rattle.fb_span.specs.Exact.{IsFrom, IsExactly};
ghost use Rattle.fb_span.specs.LeastSpans.{IsExactSpan};
ghost use Rattle.domain_rows.specs.Brackets.{trillion, coefficient_of, ends_of_box, least_deviation, greatest_deviation, inner_side, outer_side, Brackets};
ghost use Rattle.domain_rows.specs.FittingReaches.{zones_of, difference_of, reach_of, ReachFits, IsZoneReach, IsReach};

use fb_span::{Scalar, Span};
use fb_types::{Bounds, Items};

#[cfg(test)]
mod tests;

/// The number of 10^-12 in one, and of picowatts in a watt.
const PARTS: i128 = 1_000_000_000_000;

/// What sums may come to for 64 bits to hold every number on the way.
const NARROW_SUM: u128 = 9_000_000_000_000_000_000;

/// The right sides of a row in the inner and in the outer list, in watts.
#[derive(Clone, Copy, Debug, PartialEq, Eq)]
pub struct Sides {
    pub r_in: i64,
    pub r_out: i64,
}

/// The coefficient of a zone.
fn coefficient(factor: Span<i128>) -> i64
    requires { EndsWithin 1_000_000_000_000 factor }
    ensures value { result ≡ coefficient_of factor }
    ensures within { IsWithin 1_000_000_000_000 result }
{
    (factor.low() + factor.high()).div_euclid(2) as i64
}

/// The difference of two spans.
fn difference(a: Span<i128>, b: Span<i128>) -> Span<i128>
    requires a_in { EndsWithin 100_000_000_000_000_000_000_000_000 a }
    requires b_in { EndsWithin 100_000_000_000_000_000_000_000_000 b }
    ensures { result ≡ (a.0 -ℤ b.1, a.1 -ℤ b.0) }
{
    match a.sub(b) {
        Some(span) => span,
        None => unreachable!(),
    }
}

/// How far a factor may be from its coefficient.
fn deviation(factor: Span<i128>, coefficient: i64) -> Span<i128>
    requires factor_in { EndsWithin 1_000_000_000_000 factor }
    requires coefficient_in { IsWithin 1_000_000_000_000 coefficient }
    ensures value { result ≡ (factor.0 -ℤ coefficient, factor.1 -ℤ coefficient) }
    ensures within { EndsWithin 2_000_000_000_000 result }
{
    difference(factor, Span::exactly(i128::from(coefficient)))
}

/// The net positions from the lower bound to the upper one.
fn positions(bounds: Bounds) -> Span<i128>
    requires low_in { IsWithin 100_000_000_000 bounds.low }
    requires high_in { IsWithin 100_000_000_000 bounds.high }
    requires ordered { bounds.low ≤ℤ bounds.high }
    ensures value { result ≡ ends_of_box bounds }
    ensures within { EndsWithin 100_000_000_000 result }
{
    Span::between(i128::from(bounds.low), i128::from(bounds.high))
}

/// Puts the coefficients of a row.
fn put_coefficients(factors: &[Span<i128>], a: &mut [i64])
    requires as_many_places { length a.old ≡ length factors.now }
    requires factors_in { All (EndsWithin 1_000_000_000_000) factors.now }
    ensures coefficients { a.new ≡ map coefficient_of factors.now }
    ensures within { All (IsWithin 1_000_000_000_000) a.new }
{
    for zone in 0..factors.len() {
        a[zone] = coefficient(factors[zone]);
    }
}

/// States that 128 bits hold the numbers of `T`.
fn fits_wide<T: Scalar>()
    ensures low { IsFrom (negsuc (2 ^ 127 - 1)) (pos (2 ^ 127 - 1)) (T.whole T.LOW) }
    ensures high { IsFrom (negsuc (2 ^ 127 - 1)) (pos (2 ^ 127 - 1)) (T.whole T.HIGH) }
{
    T::LOW.wide();
    T::HIGH.wide();
}

/// How far an end of a factor is from its coefficient, or none exactly where that is past 128 bits.
fn wide_deviation(end: i128, coefficient: i64) -> Option<i128>
    ensures { IsExactly (λ z. z) (negsuc (2 ^ 127 - 1)) (pos (2 ^ 127 - 1)) result (end -ℤ coefficient) }
{
    end.minus(i128::from(coefficient))
}

/// How far an end of a factor is from its coefficient, or none exactly where that is past `T`.
fn end_deviation<T: Scalar>(end: i128, coefficient: i64) -> Option<T>
    ensures { IsExactly T.whole (T.whole T.LOW) (T.whole T.HIGH) result (end -ℤ coefficient) }
{
    fits_wide::<T>();
    let difference = wide_deviation(end, coefficient)?;
    T::from_wide(difference)
}

/// How far a factor may be from its coefficient, or none exactly where an end is past `T`.
fn narrow_deviation<T: Scalar>(factor: Span<i128>, coefficient: i64) -> Option<Span<T>>
    ensures { IsExactSpan T.whole (T.whole T.LOW) (T.whole T.HIGH) result
        (factor.0 -ℤ coefficient) (factor.1 -ℤ coefficient) }
{
    factor.sound();
    let low = end_deviation(factor.low(), coefficient)?;
    let high = end_deviation(factor.high(), coefficient)?;
    Some(Span::between(low, high))
}

/// A bound, or none exactly where it is past `T`.
fn narrow_bound<T: Scalar>(bound: i64) -> Option<T>
    ensures { IsExactly T.whole (T.whole T.LOW) (T.whole T.HIGH) result bound }
{
    T::from_wide(i128::from(bound))
}

/// The net positions from the lower bound to the upper one, or none exactly where a bound is past `T`.
fn narrow_positions<T: Scalar>(bounds: Bounds) -> Option<Span<T>>
    requires ordered { bounds.low ≤ℤ bounds.high }
    ensures { IsExactSpan T.whole (T.whole T.LOW) (T.whole T.HIGH) result bounds.low bounds.high }
{
    let low = narrow_bound(bounds.low)?;
    let high = narrow_bound(bounds.high)?;
    Some(Span::between(low, high))
}

/// What a factor's deviation from its coefficient may put on the row, over the net positions of its zone.
fn zone_reach<T: Scalar>(factor: Span<i128>, coefficient: i64, bounds: Bounds) -> Option<Span<T>>
    requires ordered { bounds.low ≤ℤ bounds.high }
    ensures { IsZoneReach T.whole (T.whole T.LOW) (T.whole T.HIGH) result ((factor, coefficient), bounds) }
{
    let deviation = narrow_deviation::<T>(factor, coefficient)?;
    let positions = narrow_positions::<T>(bounds)?;
    deviation.mul(positions)
}

/// The same sum as that of `reach_sum`, over slices.
fn sum_of_reaches<T: Scalar>(
    factors: &[Span<i128>],
    a: &[i64],
    bounds: &[Bounds],
) -> Option<Span<T>>
    requires as_many_places { length a.now ≡ length factors.now }
    requires as_many_bounds { length bounds.now ≡ length factors.now }
    requires ordered { All (λ b. b.low ≤ℤ b.high) bounds.now }
    ensures { IsReach T.whole (T.whole T.LOW) (T.whole T.HIGH) result (zones_of factors.now a.now bounds.now) }
{
    let zero = T::from_wide(0)?;
    let mut sum = Span::exactly(zero);
    for zone in 0..factors.len() {
        let reach = zone_reach(factors[zone], a[zone], bounds[zone])?;
        sum = sum.add(reach)?;
    }
    Some(sum)
}

/// What the deviations of the factors of a row from its coefficients may put on it together, over the net positions of the
/// zones: the sum of the products of the two spans of each zone. It is none exactly where a deviation of an end, a bound, a
/// product or a sum of the first products is past `T`.
pub fn reach_sum<T: Scalar>(
    factors: &Items<Span<i128>>,
    a: &[i64],
    bounds: &Items<Bounds>,
) -> Option<Span<T>>
    requires as_many_places { length a.now ≡ length factors.now }
    requires as_many_bounds { length bounds.now ≡ length factors.now }
    requires ordered { All (λ b. b.low ≤ℤ b.high) bounds.now }
    ensures { IsReach T.whole (T.whole T.LOW) (T.whole T.HIGH) result (zones_of factors.now a.now bounds.now) }
{
    sum_of_reaches(factors.as_slice(), a, bounds.as_slice())
}

/// What the deviations of the factors may put on the row together, summed over the numbers of `T`, which hold every number
/// on the way.
fn fitting_reach<T: Scalar>(
    factors: &Items<Span<i128>>,
    a: &[i64],
    bounds: &Items<Bounds>,
) -> Span<i128>
    requires as_many_places { length a.now ≡ length factors.now }
    requires as_many_bounds { length bounds.now ≡ length factors.now }
    requires ordered { All (λ b. b.low ≤ℤ b.high) bounds.now }
    requires fits { ReachFits (T.whole T.LOW) (T.whole T.HIGH) (zones_of factors.now a.now bounds.now) }
    ensures { result ≡ reach_of (zones_of factors.now a.now bounds.now) }
{
    match reach_sum::<T>(factors, a, bounds) {
        Some(sum) => sum.wide(),
        None => unreachable!(),
    }
}

/// The greater of the sizes of the two ends.
fn size(span: Span<i128>) -> u128
    ensures within { EndsWithin result span }
    ensures least { (m : ℕ) → EndsWithin m span → result ≤ m }
{
    span.low().unsigned_abs().max(span.high().unsigned_abs())
}

/// The greatest size that a deviation of an end of a factor from its coefficient has, in 10^-12.
fn deviation_size(factors: &[Span<i128>], a: &[i64]) -> u128
    requires as_many_places { length a.now ≡ length factors.now }
    requires factors_in { All (EndsWithin 1_000_000_000_000) factors.now }
    requires a_in { All (IsWithin 1_000_000_000_000) a.now }
    ensures within { All (λ d. EndsWithin result (difference_of d)) (zip factors.now a.now) }
    ensures few { result ≤ 2_000_000_000_000 }
{
    let mut greatest = 0_u128;
    for zone in 0..factors.len() {
        let size = size(deviation(factors[zone], a[zone]));
        greatest = greatest.max(size);
    }
    greatest
}

/// The greatest size that a bound has, in watts.
fn bound_size(bounds: &[Bounds]) -> u128
    requires bounds_in { AreBounds bounds.now }
    requires ordered { All (λ b. b.low ≤ℤ b.high) bounds.now }
    ensures within { All (λ b. EndsWithin result (ends_of_box b)) bounds.now }
    ensures few { result ≤ 100_000_000_000 }
{
    let mut greatest = 0_u128;
    for zone in 0..bounds.len() {
        let size = size(positions(bounds[zone]));
        greatest = greatest.max(size);
    }
    greatest
}

/// What as many products of deviations and bounds of these sizes add up to at most.
fn greatest_sum(deviation: u128, bound: u128, zones: u64) -> u128
    requires deviation_in { deviation ≤ 2_000_000_000_000 }
    requires bound_in { bound ≤ 100_000_000_000 }
    requires zones_in { zones ≤ 64 }
    ensures { result ≡ zones * (deviation * bound) }
{
    deviation * bound * u128::from(zones)
}

/// What the deviations of the factors may put on the row together. It is summed over 64 bits where they hold every number
/// on the way.
fn reach(factors: &Items<Span<i128>>, a: &[i64], bounds: &Items<Bounds>) -> Span<i128>
    requires as_many_places { length a.now ≡ length factors.now }
    requires coefficients { a.now ≡ map coefficient_of factors.now }
    requires a_in { All (IsWithin 1_000_000_000_000) a.now }
    requires as_many_bounds { length bounds.now ≡ length factors.now }
    requires factors_in { All (EndsWithin 1_000_000_000_000) factors.now }
    requires bounds_in { AreBounds bounds.now }
    requires ordered { All (λ b. b.low ≤ℤ b.high) bounds.now }
    ensures low { result.0 ≡ least_deviation factors.now bounds.now }
    ensures high { result.1 ≡ greatest_deviation factors.now bounds.now }
    ensures within { EndsWithin 12_800_000_000_000_000_000_000_000 result }
{
    let deviation = deviation_size(factors.as_slice(), a);
    let bound = bound_size(bounds.as_slice());
    if greatest_sum(deviation, bound, factors.len()) <= NARROW_SUM {
        fitting_reach::<i64>(factors, a, bounds)
    } else {
        fitting_reach::<i128>(factors, a, bounds)
    }
}

/// The right sides that a margin gives, less what the deviations of factors may put on the row: rounded down and up.
fn right_sides(ram: Span<i128>, deviation: Span<i128>) -> Span<i128>
    requires ram_in { EndsWithin 5_000_000_000_000_000_000_000_000 ram }
    requires deviation_in { EndsWithin 12_800_000_000_000_000_000_000_000 deviation }
    ensures value { result ≡ (floor_of (ram.0 -ℤ deviation.1) trillion, ceil_of (ram.1 -ℤ deviation.0) trillion) }
    ensures within { EndsWithin 20_000_000_000_000 result }
{
    difference(ram, deviation).div_pos(PARTS)
}

/// A right side in fewer bits.
fn narrow(side: i128) -> i64
    requires { IsWithin 20_000_000_000_000 side }
    ensures { result ≡ side }
{
    side as i64
}

/// The coefficients of a row, put into `a`, and its right sides, from the spans of the factors of the Core zones, in
/// 10^-12, the span of its margin, in picowatts, and the bounds of the zones' net positions, in watts.
///
/// Whatever factors and margin lie in the spans: a point of the box that meets the coefficients with `r_in` keeps the
/// margin, and one that keeps the margin meets them with `r_out`.
pub fn bracket(
    core_factors: &Items<Span<i128>>,
    ram: Span<i128>,
    bounds: &Items<Bounds>,
    a: &mut [i64],
) -> Sides
    requires as_many_bounds { length bounds.now ≡ length core_factors.now }
    requires as_many_places { length a.old ≡ length core_factors.now }
    requires factors_in { All (EndsWithin 1_000_000_000_000) core_factors.now }
    requires ram_in { EndsWithin 5_000_000_000_000_000_000_000_000 ram }
    requires bounds_in { AreBounds bounds.now }
    requires ordered { All (λ b. b.low ≤ℤ b.high) bounds.now }
    ensures coefficients { a.new ≡ map coefficient_of core_factors.now }
    ensures inner { result.r_in ≡ inner_side core_factors.now bounds.now ram }
    ensures outer { result.r_out ≡ outer_side core_factors.now bounds.now ram }
    ensures brackets { Brackets core_factors.now ram bounds.now a.new result.r_in result.r_out }
    ensures within { IsWithin 20_000_000_000_000 result.r_in × IsWithin 20_000_000_000_000 result.r_out }
{
    put_coefficients(core_factors.as_slice(), a);
    let deviation = reach(core_factors, a, bounds);
    let sides = right_sides(ram, deviation);
    Sides {
        r_in: narrow(sides.low()),
        r_out: narrow(sides.high()),
    }
}

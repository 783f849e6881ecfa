//! Which rows are selected: the span of a row's zone-to-zone spread, and its class.
#![tactic(auto)]

ghost use Rattle.std.specs.Prelude.{◌≡◌, ◌<◌, pos, ◌≤ℤ◌, length, MatchOption};
ghost use Rattle.std.specs.Int.{int_max};
ghost use Rattle.std.specs.List.{All};
ghost use Rattle.fb_span.specs.Ends.{EndsWithin, EndsFrom};
ghost use Rattle.fb_span.specs.Exact.{IsFrom, IsExactly};
ghost use Rattle.cnec_selection.specs.Classes.{class_of, IsRight};
ghost use Rattle.cnec_selection.specs.SpreadSpans.{spread_low, spread_high, HoldsSpread};
ghost use Rattle.cnec_selection.specs.FittingSpreads.{AreExtremes, IsSpread};

use fb_span::{Scalar, Span};
use fb_types::Items;

/// The greatest and the least of the low ends and of the high ends of spans.
struct Extremes<T: Scalar> {
    greatest: Span<T>,
    least: Span<T>,
}

/// The extremes of the ends of the factors, or none exactly where an end is past `T`.
fn find_extremes<T: Scalar>(factors: &[Span<i128>]) -> Option<Extremes<T>>
    requires some { 0 < length factors.now }
    ensures { MatchOption result
        (¬ (All (EndsFrom (T.whole T.LOW) (T.whole T.HIGH)) factors.now))
        (λ e. AreExtremes T.whole (T.whole T.LOW) (T.whole T.HIGH) factors.now e.greatest e.least) }
{
    let mut greatest = Span::<T>::from_wide(factors[0])?;
    let mut least = greatest;
    for factor in factors {
        let span = Span::<T>::from_wide(*factor)?;
        greatest = greatest.max(span);
        least = least.min(span);
    }
    Some(Extremes { greatest, least })
}

/// The number, but at least 0, or none exactly where that is past `T`.
fn not_negative<T: Scalar>(number: T) -> Option<T>
    requires { IsFrom (T.whole T.LOW) (T.whole T.HIGH) (T.whole number) }
    ensures { IsExactly T.whole (T.whole T.LOW) (T.whole T.HIGH) result (int_max (T.whole number) (pos 0)) }
{
    if number.is_positive() {
        Some(number)
    } else {
        T::from_wide(0)
    }
}

/// The span of the spread of a row from the spans of its factors: from the greatest low end less the least high one, but
/// at least 0, to the greatest high end less the least low one. It is none exactly where an end or one of the two
/// differences is past `T`.
pub fn spread<T: Scalar>(factors: &Items<Span<i128>>) -> Option<Span<T>>
    requires some { 0 < length factors.now }
    ensures { IsSpread T.whole (T.whole T.LOW) (T.whole T.HIGH) result factors.now }
{
    let Extremes { greatest, least } = find_extremes::<T>(factors.as_slice())?;
    greatest.sound();
    least.sound();
    let low = greatest.low().minus(least.high())?;
    let high = greatest.high().minus(least.low())?;
    Some(Span::between(not_negative(low)?, high))
}

/// The span of the spread of a row, in 10^-12, from the spans of the factors of the Core zones, in 10^-12.
pub fn zone_to_zone(core_factors: &Items<Span<i128>>) -> Span<i128>
    requires some { 0 < length core_factors.now }
    requires factors_in { All (EndsWithin 1_000_000_000_000) core_factors.now }
    ensures low { result.0 ≡ spread_low core_factors.now }
    ensures high { result.1 ≡ spread_high core_factors.now }
    ensures not_negative { pos 0 ≤ℤ result.0 }
    ensures holds { HoldsSpread core_factors.now result }
{
    match spread::<i64>(core_factors) {
        Some(span) => span.wide(),
        None => unreachable!(),
    }
}

/// Whether a row is selected, by the span of its spread: the spread is below the threshold, may be on either side, or is at
/// least the threshold. (Core day-ahead capacity calculation methodology, ACER decision 02-2019, annex I, where the threshold
/// is five per cent.)
#[derive(Clone, Copy, Debug, PartialEq, Eq)]
pub enum Class {
    Below,
    Doubtful,
    Certain,
}

/// The class of a row by the span of its spread, in 10^-12, and the threshold, in thousandths.
pub fn classify(spread: Span<i128>, threshold: u16) -> Class
    ensures rule { result ≡ class_of spread threshold }
    ensures right { IsRight spread threshold result }
{
    let level = i128::from(threshold) * 1_000_000_000;
    if spread.high() < level {
        Class::Below
    } else if level <= spread.low() {
        Class::Certain
    } else {
        Class::Doubtful
    }
}

//! Spans of whole numbers.

ghost use Rattle.std.specs.Prelude.{◌≡◌, ℤ, pos, ◌+ℤ◌, ◌-ℤ◌, ◌*ℤ◌, ◌<ℤ◌, ◌≤ℤ◌, ⊤, IfSome, IfNone, IsNone, MatchOption};
ghost use Rattle.std.specs.Int.{int_max, int_min};
ghost use Rattle.whole_laws.specs.Quotients.{floor_of, ceil_of};
ghost use Rattle.fractions.specs.Fractions.{plus, minus, times, product, maximum, minimum};
ghost use Rattle.fb_span.specs.Ends.{ends_of};
ghost use Rattle.fb_span.specs.LeastSpans.{IsExactSpan, IsLeastOfOne, IsLeastOfTwo, IsLeastOfBoth, HoldsAll, HoldsQuotients, HoldsCommon, AreApart, least_corner, greatest_corner};

use crate::scalar::Scalar;
use std::alloc::AllocError;
use std::marker::Model;

/// The numbers from a low end to a high end, which is at least the low one. A contract sees the two ends.
#[derive(Debug, PartialEq, Eq)]
pub struct Span<T: Scalar> {
    low: T,
    high: T,
}

impl<T: Scalar> Model for Span<T> {
    ghost use Rattle.std.specs.Prelude.{◌≤ℤ◌};
    ghost use Rattle.std.specs.Coded.{coded×};

    ghost Value = { T × T };

    ghost coded = { coded× T.code T.code };

    ghost view = { λ s. (s.low, s.high) };

    ghost invariant = { λ s. T.whole s.low ≤ℤ T.whole s.high };

    ghost inverse = { λ e. record { low = e.0; high = e.1 } };
}

impl<T: Scalar> Clone for Span<T> {
    ghost is_clone = { λ s t. t ≡ s };

    ghost is_infallible = { λ _. ⊤ };

    fn clone(&self) -> Result<Span<T>, AllocError> {
        Ok(*self)
    }
}

impl<T: Scalar> Copy for Span<T> {}

/// The lesser of two numbers.
fn lesser<T: Scalar>(a: T, b: T) -> T
    ensures { T.whole result ≡ int_min (T.whole a) (T.whole b) }
{
    if b < a { b } else { a }
}

/// The greater of two numbers.
fn greater<T: Scalar>(a: T, b: T) -> T
    ensures { T.whole result ≡ int_max (T.whole a) (T.whole b) }
{
    if a < b { b } else { a }
}

/// The least of four numbers.
fn least_of<T: Scalar>(a: T, b: T, c: T, d: T) -> T
    ensures { T.whole result ≡ int_min (int_min (T.whole a) (T.whole b)) (int_min (T.whole c) (T.whole d)) }
{
    lesser(lesser(a, b), lesser(c, d))
}

/// The greatest of four numbers.
fn greatest_of<T: Scalar>(a: T, b: T, c: T, d: T) -> T
    ensures { T.whole result ≡ int_max (int_max (T.whole a) (T.whole b)) (int_max (T.whole c) (T.whole d)) }
{
    greater(greater(a, b), greater(c, d))
}

impl<T: Scalar> Span<T> {
    /// The span from `low` to `high`, or none exactly where `low` is above `high`.
    pub fn new(low: T, high: T) -> Option<Span<T>>
        ensures { MatchOption result (T.whole high <ℤ T.whole low)
            (λ s. (s ≡ (low, high)) × (T.whole low ≤ℤ T.whole high)) }
    {
        if high < low {
            None
        } else {
            Some(Span { low, high })
        }
    }

    /// The span from `low` to `high`, which is at least `low`.
    pub fn between(low: T, high: T) -> Span<T>
        requires { T.whole low ≤ℤ T.whole high }
        ensures { result ≡ (low, high) }
    {
        Span { low, high }
    }

    /// The span that holds one number.
    pub fn exactly(value: T) -> Span<T>
        ensures { result ≡ (value, value) }
    {
        Span {
            low: value,
            high: value,
        }
    }

    /// The low end.
    pub fn low(&self) -> T
        ensures { result ≡ self.now.0 }
    {
        self.low
    }

    /// The high end.
    pub fn high(&self) -> T
        ensures { result ≡ self.now.1 }
    {
        self.high
    }

    /// States that the low end is at most the high one.
    pub fn sound(&self)
        ensures { T.whole self.now.0 ≤ℤ T.whole self.now.1 }
    {
        let _ = &self.low;
    }

    /// The same span in the bits of `T`, or none exactly where an end is past `T`.
    pub fn from_wide(span: Span<i128>) -> Option<Span<T>>
        ensures { IsExactSpan T.whole (T.whole T.LOW) (T.whole T.HIGH) result span.0 span.1 }
    {
        span.sound();
        let low = T::from_wide(span.low())?;
        let high = T::from_wide(span.high())?;
        Some(Span::between(low, high))
    }

    /// The same span in 128 bits.
    pub fn wide(self) -> Span<i128>
        ensures { result ≡ ends_of T.whole self }
    {
        self.sound();
        Span::between(self.low.wide(), self.high.wide())
    }

    /// The least span that holds all sums, or none exactly where an end is past `T`.
    pub fn add(self, other: Span<T>) -> Option<Span<T>>
        ensures exact { IsExactSpan T.whole (T.whole T.LOW) (T.whole T.HIGH) result
            (T.whole self.0 +ℤ T.whole other.0) (T.whole self.1 +ℤ T.whole other.1) }
        ensures least { IfSome result (λ s. IsLeastOfTwo plus
            (ends_of T.whole self) (ends_of T.whole other) (ends_of T.whole s)) }
    {
        let low = self.low.plus(other.low)?;
        let high = self.high.plus(other.high)?;
        Some(Span { low, high })
    }

    /// The least span that holds all differences, or none exactly where an end is past `T`.
    pub fn sub(self, other: Span<T>) -> Option<Span<T>>
        ensures exact { IsExactSpan T.whole (T.whole T.LOW) (T.whole T.HIGH) result
            (T.whole self.0 -ℤ T.whole other.1) (T.whole self.1 -ℤ T.whole other.0) }
        ensures least { IfSome result (λ s. IsLeastOfTwo minus
            (ends_of T.whole self) (ends_of T.whole other) (ends_of T.whole s)) }
    {
        let low = self.low.minus(other.high)?;
        let high = self.high.minus(other.low)?;
        Some(Span { low, high })
    }

    /// The least span that holds all products with `k`, or none exactly where an end is past `T`.
    pub fn scale(self, k: T) -> Option<Span<T>>
        ensures exact { IsExactSpan T.whole (T.whole T.LOW) (T.whole T.HIGH) result
            (int_min (T.whole k *ℤ T.whole self.0) (T.whole k *ℤ T.whole self.1))
            (int_max (T.whole k *ℤ T.whole self.0) (T.whole k *ℤ T.whole self.1)) }
        ensures least { IfSome result (λ s. IsLeastOfOne (times (T.whole k))
            (ends_of T.whole self) (ends_of T.whole s)) }
    {
        let of_low = k.times(self.low)?;
        let of_high = k.times(self.high)?;
        Some(Span {
            low: lesser(of_low, of_high),
            high: greater(of_low, of_high),
        })
    }

    /// The least span that holds all products, or none exactly where an end is past `T`.
    pub fn mul(self, other: Span<T>) -> Option<Span<T>>
        ensures exact { IsExactSpan T.whole (T.whole T.LOW) (T.whole T.HIGH) result
            (least_corner (ends_of T.whole self) (ends_of T.whole other))
            (greatest_corner (ends_of T.whole self) (ends_of T.whole other)) }
        ensures least { IfSome result (λ s. IsLeastOfTwo product
            (ends_of T.whole self) (ends_of T.whole other) (ends_of T.whole s)) }
    {
        let low_low = self.low.times(other.low)?;
        let low_high = self.low.times(other.high)?;
        let high_low = self.high.times(other.low)?;
        let high_high = self.high.times(other.high)?;
        Some(Span {
            low: least_of(low_low, low_high, high_low, high_high),
            high: greatest_of(low_low, low_high, high_low, high_high),
        })
    }

    /// A span that holds all quotients by a positive divisor: the low end is rounded down and the high end up.
    pub fn div_pos(self, divisor: T) -> Span<T>
        requires { pos 0 <ℤ T.whole divisor }
        ensures low { T.whole result.0 ≡ floor_of (T.whole self.0) (T.whole divisor) }
        ensures high { T.whole result.1 ≡ ceil_of (T.whole self.1) (T.whole divisor) }
        ensures holds { HoldsQuotients (ends_of T.whole self) (T.whole divisor) (ends_of T.whole result) }
    {
        Span {
            low: self.low.floor_div(divisor),
            high: self.high.ceil_div(divisor),
        }
    }

    /// The span of the greater of two numbers: the greater of the low ends and of the high ends.
    pub fn max(self, other: Span<T>) -> Span<T>
        ensures low { T.whole result.0 ≡ int_max (T.whole self.0) (T.whole other.0) }
        ensures high { T.whole result.1 ≡ int_max (T.whole self.1) (T.whole other.1) }
        ensures holds { HoldsAll maximum
            (ends_of T.whole self) (ends_of T.whole other) (ends_of T.whole result) }
    {
        Span {
            low: greater(self.low, other.low),
            high: greater(self.high, other.high),
        }
    }

    /// The span of the lesser of two numbers: the lesser of the low ends and of the high ends.
    pub fn min(self, other: Span<T>) -> Span<T>
        ensures low { T.whole result.0 ≡ int_min (T.whole self.0) (T.whole other.0) }
        ensures high { T.whole result.1 ≡ int_min (T.whole self.1) (T.whole other.1) }
        ensures holds { HoldsAll minimum
            (ends_of T.whole self) (ends_of T.whole other) (ends_of T.whole result) }
    {
        Span {
            low: lesser(self.low, other.low),
            high: lesser(self.high, other.high),
        }
    }

    /// The least span that holds both.
    pub fn hull(self, other: Span<T>) -> Span<T>
        ensures low { T.whole result.0 ≡ int_min (T.whole self.0) (T.whole other.0) }
        ensures high { T.whole result.1 ≡ int_max (T.whole self.1) (T.whole other.1) }
        ensures least { IsLeastOfBoth (ends_of T.whole self) (ends_of T.whole other) (ends_of T.whole result) }
    {
        Span {
            low: lesser(self.low, other.low),
            high: greater(self.high, other.high),
        }
    }

    /// The common part, or none exactly where there is none.
    pub fn meet(self, other: Span<T>) -> Option<Span<T>>
        ensures exact { MatchOption result
            (int_min (T.whole self.1) (T.whole other.1) <ℤ int_max (T.whole self.0) (T.whole other.0))
            (λ s. (T.whole s.0 ≡ int_max (T.whole self.0) (T.whole other.0))
            × (T.whole s.1 ≡ int_min (T.whole self.1) (T.whole other.1))
            × (T.whole s.0 ≤ℤ T.whole s.1)) }
        ensures common { IfSome result (λ s. HoldsCommon
            (ends_of T.whole self) (ends_of T.whole other) (ends_of T.whole s)) }
        ensures apart { IfNone result (AreApart (ends_of T.whole self) (ends_of T.whole other)) }
    {
        Span::new(greater(self.low, other.low), lesser(self.high, other.high))
    }
}

//! Types of whole numbers, with operations that are exact or answer nothing.

ghost use Rattle.std.specs.Prelude.{◌≡◌, ℤ, pos, negsuc, ◌+ℤ◌, ◌-ℤ◌, ◌*ℤ◌, ◌^◌, ◌-◌, ◌<ℤ◌, IsTrue, ◌↔◌, refl};
ghost use Rattle.std.specs.Ordering.{int_cmp};
ghost use Rattle.whole_laws.specs.Quotients.{floor_of, ceil_of};
ghost use Rattle.fb_span.specs.Exact.{IsExactly};

use num_traits::{CheckedAdd, CheckedMul, CheckedSub};

/// A type of whole numbers from a least to a greatest.
pub trait Scalar: Copy + Ord {
    /// The whole number that a value stands for.
    ghost whole: { Self → ℤ };

    ghost LOW: { Self };

    ghost HIGH: { Self };

    /// The least value.
    const LOW: Self;

    /// The greatest value.
    const HIGH: Self;

    /// The sum, or none exactly where it is below `LOW` or above `HIGH`.
    fn plus(self, other: Self) -> Option<Self>
        ensures { IsExactly whole (whole LOW) (whole HIGH) result (whole self +ℤ whole other) };

    /// The difference, or none exactly where it is below `LOW` or above `HIGH`.
    fn minus(self, other: Self) -> Option<Self>
        ensures { IsExactly whole (whole LOW) (whole HIGH) result (whole self -ℤ whole other) };

    /// The product, or none exactly where it is below `LOW` or above `HIGH`.
    fn times(self, other: Self) -> Option<Self>
        ensures { IsExactly whole (whole LOW) (whole HIGH) result (whole self *ℤ whole other) };

    /// The greatest whole number that is at most the quotient by a positive divisor.
    fn floor_div(self, divisor: Self) -> Self
        requires { pos 0 <ℤ whole divisor }
        ensures { whole result ≡ floor_of (whole self) (whole divisor) };

    /// The least whole number that is at least the quotient by a positive divisor.
    fn ceil_div(self, divisor: Self) -> Self
        requires { pos 0 <ℤ whole divisor }
        ensures { whole result ≡ ceil_of (whole self) (whole divisor) };

    /// Whether the number is above 0.
    fn is_positive(self) -> bool
        ensures { IsTrue result ↔ (pos 0 <ℤ whole self) };

    /// The same number, or none exactly where it is below `LOW` or above `HIGH`.
    fn from_wide(value: i128) -> Option<Self>
        ensures { IsExactly whole (whole LOW) (whole HIGH) result value };

    /// The same number in 128 bits.
    fn wide(self) -> i128
        ensures { result ≡ whole self };

    /// The order is that of the whole numbers.
    ghost ordered: { (a b : Self) → Self.cmp a b ≡ int_cmp (whole a) (whole b) };

    /// A whole number has one value at most.
    ghost faithful: { (a b : Self) → whole a ≡ whole b → a ≡ b };
}

impl Scalar for i64 {
    ghost whole = { λ x. x };

    ghost LOW = { negsuc (2 ^ 63 - 1) };

    ghost HIGH = { pos (2 ^ 63 - 1) };

    ghost ordered = { λ a b. refl };

    ghost faithful = { λ a b e. e };

    const LOW: i64 = i64::MIN;

    const HIGH: i64 = i64::MAX;

    fn plus(self, other: i64) -> Option<i64> {
        CheckedAdd::checked_add(&self, &other)
    }

    fn minus(self, other: i64) -> Option<i64> {
        CheckedSub::checked_sub(&self, &other)
    }

    fn times(self, other: i64) -> Option<i64> {
        CheckedMul::checked_mul(&self, &other)
    }

    fn floor_div(self, divisor: i64) -> i64 {
        self.div_euclid(divisor)
    }

    fn ceil_div(self, divisor: i64) -> i64 {
        let quotient = self.div_euclid(divisor);
        if self.rem_euclid(divisor) == 0 {
            quotient
        } else {
            quotient + 1
        }
    }

    fn is_positive(self) -> bool {
        0 < self
    }

    fn from_wide(value: i128) -> Option<i64> {
        i64::try_from(value).ok()
    }

    fn wide(self) -> i128 {
        i128::from(self)
    }
}

impl Scalar for i128 {
    ghost whole = { λ x. x };

    ghost LOW = { negsuc (2 ^ 127 - 1) };

    ghost HIGH = { pos (2 ^ 127 - 1) };

    ghost ordered = { λ a b. refl };

    ghost faithful = { λ a b e. e };

    const LOW: i128 = i128::MIN;

    const HIGH: i128 = i128::MAX;

    fn plus(self, other: i128) -> Option<i128> {
        CheckedAdd::checked_add(&self, &other)
    }

    fn minus(self, other: i128) -> Option<i128> {
        CheckedSub::checked_sub(&self, &other)
    }

    fn times(self, other: i128) -> Option<i128> {
        CheckedMul::checked_mul(&self, &other)
    }

    fn floor_div(self, divisor: i128) -> i128 {
        whole_laws::floor_div(self, divisor)
    }

    fn ceil_div(self, divisor: i128) -> i128 {
        whole_laws::ceil_div(self, divisor)
    }

    fn is_positive(self) -> bool {
        0 < self
    }

    fn from_wide(value: i128) -> Option<i128> {
        Some(value)
    }

    fn wide(self) -> i128 {
        self
    }
}

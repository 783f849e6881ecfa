//! Spans times their shares, added up and divided by the sum of the shares, in the bits of any scalar.

ghost use Rattle.std.specs.Prelude.{◌≡◌, ℤ, pos, ◌≤ℤ◌, ◌<ℤ◌, length, MatchOption};
ghost use Rattle.std.specs.List.{All, zip};
ghost use Rattle.whole_laws.specs.Quotients.{floor_of, ceil_of};
ghost use Rattle.whole_laws.specs.Sums.{sum_over};
ghost use Rattle.fb_span.specs.Exact.{IsFrom, IsExactly};
ghost use Rattle.zonal_factors.specs.SharedSpans.{sums_of, no_sums, with_part, StepFits, IsShared};

use fb_span::{Scalar, Span};

/// The sum of spans times their shares, and the sum of the shares.
#[derive(Drop)]
pub(crate) struct WeightedSum<T: Scalar> {
    total: Span<T>,
    weight: T,
}

/// The share in the bits of `T`, or none exactly where it is past `T`.
fn narrow_share<T: Scalar>(share: i64) -> Option<T>
    ensures { IsExactly T.whole (T.whole T.LOW) (T.whole T.HIGH) result share }
{
    T::from_wide(i128::from(share))
}

impl<T: Scalar> WeightedSum<T> {
    /// The sum of no spans, or none exactly where 0 is past `T`.
    pub(crate) fn empty() -> Option<WeightedSum<T>>
        ensures { MatchOption result
            (¬ (IsFrom (T.whole T.LOW) (T.whole T.HIGH) (pos 0)))
            (λ s. (sums_of T.whole s.total s.weight ≡ no_sums) × IsFrom (T.whole T.LOW) (T.whole T.HIGH) (pos 0)) }
    {
        let zero = T::from_wide(0)?;
        Some(WeightedSum {
            total: Span::exactly(zero),
            weight: zero,
        })
    }

    /// The sum with one span more, or none exactly where an end, the share, a product or a sum is past `T`.
    pub(crate) fn add(self, part: Span<i128>, share: i64) -> Option<WeightedSum<T>>
        requires { pos 0 ≤ℤ share }
        ensures { MatchOption result
            (¬ (StepFits (T.whole T.LOW) (T.whole T.HIGH) (sums_of T.whole self.total self.weight) (part, share)))
            (λ s. (sums_of T.whole s.total s.weight ≡ with_part (sums_of T.whole self.total self.weight) (part, share))
            × StepFits (T.whole T.LOW) (T.whole T.HIGH) (sums_of T.whole self.total self.weight) (part, share)) }
    {
        part.sound();
        let factor = Span::<T>::from_wide(part)?;
        let share = narrow_share(share)?;
        let product = factor.scale(share)?;
        let total = self.total.add(product)?;
        let weight = self.weight.plus(share)?;
        Some(WeightedSum { total, weight })
    }

    /// The sum over the sum of the shares, rounded outwards.
    pub(crate) fn quotient(self) -> Span<T>
        requires { pos 0 <ℤ T.whole self.weight }
        ensures low { T.whole result.0 ≡ floor_of (T.whole self.total.0) (T.whole self.weight) }
        ensures high { T.whole result.1 ≡ ceil_of (T.whole self.total.1) (T.whole self.weight) }
    {
        self.total.div_pos(self.weight)
    }
}

/// The sum of the spans times their shares, over the sum of the shares, rounded outwards. It is none exactly where an end, a
/// share, a product, a sum of the first products or the sum of the shares is past `T`. It takes no memory.
pub fn shared<T: Scalar>(parts: &[Span<i128>], shares: &[i64]) -> Option<Span<T>>
    requires lengths { length parts.now ≡ length shares.now }
    requires shares { All (λ b. pos 0 ≤ℤ b) shares.now }
    requires some { pos 0 <ℤ sum_over (λ b. b) shares.now }
    ensures { IsShared T.whole (T.whole T.LOW) (T.whole T.HIGH) result (zip parts.now shares.now) }
{
    let mut sum = WeightedSum::<T>::empty()?;
    for place in 0..parts.len() {
        sum = sum.add(parts[place], shares[place])?;
    }
    Some(sum.quotient())
}

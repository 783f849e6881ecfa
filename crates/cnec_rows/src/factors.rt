//! Spans in a row's direction, and the factors of the Core zones.

ghost use Rattle.std.specs.Prelude.{◌≡◌, length, map, All, IfOk};
ghost use Rattle.std.specs.List.{filter};
ghost use Rattle.fb_span.specs.Ends.{EndsWithin};
ghost use Rattle.cnec_rows.specs.RowNumbers.{directed, of_core};

use fb_span::Span;
use fb_types::Items;
use std::alloc::{AllocError, Global};

/// A span in the direction of a row.
pub fn directed(against: bool, span: Span<i128>) -> Span<i128>
    requires { EndsWithin 3_000_000_000_000_000_000_000_000 span }
    ensures { result ≡ directed against span }
{
    if against {
        Span::between(-span.high(), -span.low())
    } else {
        span
    }
}

/// The factors in the row's direction, in 10^-12, from those along the branch.
pub fn directed_factors(
    alloc: Global,
    against: bool,
    along: &Items<Span<i128>>,
) -> Result<Items<Span<i128>>, AllocError>
    requires { All (EndsWithin 1_000_000_000_000) along.now }
    ensures value { IfOk result (λ factors. factors ≡ map (directed against) along.now) }
    ensures count { IfOk result (λ factors. length factors ≡ length along.now) }
    ensures within { IfOk result (λ factors. All (EndsWithin 1_000_000_000_000) factors) }
{
    let mut factors = Items::new(alloc);
    for factor in along.as_slice() {
        factors.add(directed(against, *factor))?;
    }
    Ok(factors)
}

/// The factors of the Core zones.
pub fn core_factors(
    alloc: Global,
    core: &Items<bool>,
    factors: &Items<Span<i128>>,
) -> Result<Items<Span<i128>>, AllocError>
    requires as_many { length core.now ≡ length factors.now }
    requires factors_in { All (EndsWithin 1_000_000_000_000) factors.now }
    ensures value { IfOk result (λ found. found ≡ of_core core.now factors.now) }
    ensures count { IfOk result (λ found. length found ≡ length (filter (λ flag. flag) core.now)) }
    ensures within { IfOk result (λ found. All (EndsWithin 1_000_000_000_000) found) }
{
    let flags = core.as_slice();
    let spans = factors.as_slice();
    let mut found = Items::new(alloc);
    for zone in 0..spans.len() {
        if !flags[zone] {
            continue;
        }
        found.add(spans[zone])?;
    }
    Ok(found)
}

//! Lists of rows and bounds, and whether they are in their ranges.

ghost use Rattle.std.specs.Prelude.{◌≡◌, ℕ, ◌*◌, ◌^◌, ◌<◌, ◌≤◌, List, length, IsTrue};
ghost use Rattle.std.specs.List.{All};
ghost use Rattle.whole_laws.specs.Sums.{IsWithin};
ghost use Rattle.fb_types.specs.Domain.{IsHalfOver, AreBounds};
ghost use Rattle.multiplier_search.specs.Found.{IsBox};
ghost use Rattle.redundancy.specs.Around.{IsAround};

use fb_types::{Bounds, Half, Items};
use std::alloc::{AllocError, Global};

const COEFFICIENT: i64 = 1_000_000_000_000;

const SIDE: i64 = 20_000_000_000_000;

const BOUND: i64 = 100_000_000_000;

/// Rows with these coefficients and sides.
pub fn rows(alloc: Global, cases: &[(&[i64], i64)]) -> Result<Items<Half>, AllocError> {
    let mut rows = Items::new(alloc);
    for (coefficients, r) in cases {
        let mut a = Items::new(alloc);
        for x in *coefficients {
            a.add(*x)?;
        }
        rows.add(Half { a, r: *r })?;
    }
    Ok(rows)
}

/// Bounds of a gigawatt both ways.
pub fn bounds(alloc: Global, zones: u64) -> Result<Items<Bounds>, AllocError> {
    let mut bounds = Items::new(alloc);
    for _ in 0..zones {
        bounds.add(Bounds {
            low: -1_000_000_000,
            high: 1_000_000_000,
        })?;
    }
    Ok(bounds)
}

fn are_coefficients(a: &[i64]) -> bool
    ensures { IsTrue result → All (λ x. IsWithin (10 ^ 12) x) a.now }
{
    a.iter().all(|x| -COEFFICIENT <= *x && *x <= COEFFICIENT)
}

fn is_half(row: &Half, zones: usize) -> bool
    ensures { IsTrue result → IsHalfOver zones row.now }
{
    let a = row.a.as_slice();
    a.len() == zones && are_coefficients(a) && -SIDE <= row.r && row.r <= SIDE
}

pub fn are_halves(rows: &[Half], zones: usize) -> bool
    ensures { IsTrue result → All (λ row. IsHalfOver zones row) rows.now }
{
    rows.iter().all(|row| is_half(row, zones))
}

fn is_around_zero(b: &Bounds) -> bool
    ensures { IsTrue result → IsAround b.now }
{
    -BOUND <= b.low && b.low <= 0 && 0 <= b.high && b.high <= BOUND
}

fn are_around_zero(bounds: &[Bounds]) -> bool
    ensures { IsTrue result → All IsAround bounds.now }
{
    bounds.iter().all(|b| is_around_zero(b))
}

pub fn is_box(bounds: &[Bounds]) -> bool
    ensures { IsTrue result → AreBounds bounds.now × IsBox bounds.now }
{
    if bounds.len() == 0 {
        return false;
    }
    if bounds.len() > 64 {
        return false;
    }
    are_around_zero(bounds)
}

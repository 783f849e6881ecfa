//! Points that tell that a row does not follow from another: there the other one leaves more than the row does.

ghost use Rattle.std.specs.Prelude.{◌≡◌, ℕ, ◌*◌, ◌^◌, ◌<◌, ◌≤◌, true, ℤ, ◌<ℤ◌, List, length, IfOk, IsTrue};
ghost use Rattle.std.specs.List.{All};
ghost use Rattle.whole_laws.specs.Sums.{at, IsWithin};
ghost use Rattle.fb_types.specs.Domain.{IsPoint, IsHalfOver, AreBounds};
ghost use Rattle.redundancy.specs.Kept.{IsFree};
ghost use Rattle.redundancy.specs.Points.{IsColumn};

use crate::points::{are_small, is_point, level, slack_of};
use fb_types::{Bounds, Half, Items};
use std::alloc::{AllocError, Global};

/// How many points there are.
const POINTS: u32 = 24;

/// What each row leaves at a point.
fn column(
    alloc: Global,
    rows: &[Half],
    x: &[i64],
    bounds: &[Bounds],
) -> Result<Items<i128>, AllocError>
    requires rows_over { All (λ row. IsHalfOver (length bounds.now) row) rows.now }
    requires bounds_in_range { AreBounds bounds.now }
    requires is_point { IsPoint bounds.now x.now }
    requires small { All (λ p. IsWithin (10 ^ 11) p) x.now }
    ensures { IfOk result (λ c. IsColumn rows.now bounds.now c) }
{
    let mut slacks = Items::new(alloc);
    for row in rows {
        slacks.add(slack_of(row, x))?;
    }
    Ok(slacks)
}

/// Whether a point tells that the row at `k` does not follow from the row at `j`.
pub fn is_screened(
    rows: &[Half],
    k: usize,
    j: usize,
    columns: &[Items<i128>],
    _bounds: &[Bounds],
) -> bool
    requires k_inside { k < length rows.now }
    requires j_inside { j < length rows.now }
    requires columns { All (IsColumn rows.now _bounds.now) columns.now }
    ensures { IsTrue result → IsFree rows.now _bounds.now k j }
{
    for i in 0..columns.len() {
        if leaves_less(columns[i].as_slice(), k, j) {
            return true;
        }
    }
    false
}

/// Whether the row at `k` leaves less than the row at `j`.
fn leaves_less(slacks: &[i128], k: usize, j: usize) -> bool
    requires k_inside { k < length slacks.now }
    requires j_inside { j < length slacks.now }
    ensures { IsTrue result → at slacks.now k <ℤ at slacks.now j }
{
    slacks[k] < slacks[j]
}

/// The columns of points in corners of the bounds.
pub fn columns(
    alloc: Global,
    rows: &[Half],
    bounds: &[Bounds],
) -> Result<Vec<Items<i128>>, AllocError>
    requires rows_over { All (λ row. IsHalfOver (length bounds.now) row) rows.now }
    requires bounds_in_range { AreBounds bounds.now }
    ensures { IfOk result (λ v. All (IsColumn rows.now bounds.now) v.items) }
{
    let mut all = Vec::new(alloc);
    for seed in 0..POINTS {
        let x = corner(alloc, seed, bounds)?;
        if !is_point(x.as_slice(), bounds) {
            continue;
        }
        if !are_small(x.as_slice()) {
            continue;
        }
        let slacks = column(alloc, rows, x.as_slice(), bounds)?;
        all.push(slacks)?;
    }
    Ok(all)
}

/// A list of numbers near a corner of the bounds, by a seed.
fn corner(alloc: Global, seed: u32, bounds: &[Bounds]) -> Result<Vec<i64>, AllocError> {
    let mut x = Vec::new(alloc);
    let mut word = seed.wrapping_mul(0x9e37_79b9).wrapping_add(0x7f4a_7c15);
    for b in bounds {
        word = word.wrapping_mul(1_664_525).wrapping_add(1_013_904_223);
        let p = if word & 0x0100_0000 == 0 {
            b.low
        } else {
            b.high
        };
        x.push(p)?;
    }
    level(x.as_mut_slice(), bounds);
    Ok(x)
}

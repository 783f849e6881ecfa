//! A witness: a point that meets each kept row and not the target, which refutes all multipliers at once.

ghost use Rattle.std.specs.Prelude.{◌≡◌, ℕ, ◌*◌, ◌^◌, ◌<◌, ◌≤◌, true, ℤ, List, length, IsTrue, IfOk, IfSome, IfNone};
ghost use Rattle.std.specs.List.{All};
ghost use Rattle.whole_laws.specs.Sums.{IsWithin};
ghost use Rattle.fb_types.specs.Domain.{IsHalfOver, AreBounds};
ghost use Rattle.multiplier_search.specs.Found.{IsBox};
ghost use Rattle.multiplier_search.specs.Tries.{is_kept, IsProof, IsUnpaired};
ghost use Rattle.redundancy.specs.Points.{MeetsKept, IsRefuted};

use crate::points::{are_small, is_point, level, meets};
use fb_types::{Bounds, Half, Multipliers};
use multiplier_search::proposals::search;
use multiplier_search::search::find_among;
use multiplier_search::simplex::Simplex;
use std::alloc::{AllocError, Global};

/// Whether each kept row holds at a point.
fn meets_kept(rows: &[Half], kept: &[bool], x: &[i64]) -> bool
    requires over { All (λ row. IsHalfOver (length x.now) row) rows.now }
    requires few { length x.now ≤ 64 }
    requires small { All (λ p. IsWithin (10 ^ 11) p) x.now }
    requires each { length kept.now ≡ length rows.now }
    ensures { IsTrue result → MeetsKept rows.now kept.now x.now }
{
    for k in 0..rows.len() {
        if !kept[k] {
            continue;
        }
        if !meets(&rows[k], x) {
            return false;
        }
    }
    true
}

/// Whether the numbers are a point that meets each kept row and not the target.
fn is_witness(target: &Half, rows: &[Half], kept: &[bool], bounds: &[Bounds], x: &[i64]) -> bool
    requires target_over { IsHalfOver (length bounds.now) target.now }
    requires rows_over { All (λ row. IsHalfOver (length bounds.now) row) rows.now }
    requires bounds_in_range { AreBounds bounds.now }
    requires each { length kept.now ≡ length rows.now }
    ensures { IsTrue result → IsRefuted target.now rows.now kept.now bounds.now }
{
    if !is_point(x, bounds) {
        return false;
    }
    if !are_small(x) {
        return false;
    }
    if meets(target, x) {
        return false;
    }
    meets_kept(rows, kept, x)
}

/// Whether the point at which the last search of the simplex ended tells that no multipliers of kept rows prove the
/// target.
fn is_refuted(
    simplex: &Simplex,
    target: &Half,
    rows: &[Half],
    kept: &[bool],
    bounds: &[Bounds],
) -> Result<bool, AllocError>
    requires target_over { IsHalfOver (length bounds.now) target.now }
    requires rows_over { All (λ row. IsHalfOver (length bounds.now) row) rows.now }
    requires bounds_in_range { AreBounds bounds.now }
    requires each { length kept.now ≡ length rows.now }
    ensures { IfOk result (λ refuted. refuted ≡ true → IsRefuted target.now rows.now kept.now bounds.now) }
{
    let mut x = simplex.breaking_point(target, rows, kept)?;
    level(x.as_mut_slice(), bounds);
    Ok(is_witness(target, rows, kept, bounds, x.as_slice()))
}

/// Multipliers with which the target follows from kept rows. None, over at most 64 rows, never comes where it follows
/// from two of them at tenths: a witness says so, or else all tries were made.
pub fn find_or_refute(
    alloc: Global,
    simplex: &mut Simplex,
    target: &Half,
    rows: &[Half],
    kept: &[bool],
    bounds: &[Bounds],
    corners: &mut [i128],
) -> Result<Option<Multipliers>, AllocError>
    requires target_over { IsHalfOver (length bounds.now) target.now }
    requires rows_over { All (λ row. IsHalfOver (length bounds.now) row) rows.now }
    requires bounds_in_range { AreBounds bounds.now }
    requires is_box { IsBox bounds.now }
    requires few { length rows.now < 2 ^ 32 }
    requires long { length corners.old ≡ length bounds.now }
    requires each { length kept.now ≡ length rows.now }
    ensures proof { IfOk result (λ o. IfSome o (λ by. IsProof target.now rows.now kept.now bounds.now by)) }
    ensures unpaired { length rows.now ≤ 64 → IfOk result (λ o. IfNone o (IsUnpaired target.now rows.now kept.now bounds.now)) }
{
    if let Some(by) = search(simplex, target, rows, kept, bounds, corners)? {
        return Ok(Some(by));
    }
    if is_refuted(simplex, target, rows, kept, bounds)? {
        return Ok(None);
    }
    find_among(alloc, target, rows, kept, bounds)
}

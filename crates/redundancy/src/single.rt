//! Step one: rows that follow from the bounds or from one other row.

ghost use Rattle.std.specs.Prelude.{◌≡◌, ℕ, ◌+◌, ◌-◌, ◌*◌, ◌^◌, ◌<◌, ◌≤◌, Bool, true, false, ℤ, pos, List, length, MatchOption, IfOk, vec_len};
ghost use Rattle.std.specs.List.{All};
ghost use Rattle.whole_laws.specs.Sums.{IsWithin};
ghost use Rattle.fb_types.specs.Domain.{IsRow, IsHalfOver, AreBounds, Follows};
ghost use Rattle.multiplier_search.specs.Found.{IsBox, none_of, one_of};
ghost use Rattle.multiplier_search.specs.Corners.{IsCovered};
ghost use Rattle.multiplier_search.specs.Tries.{is_kept, IsUncovered};
ghost use Rattle.redundancy.specs.Thinned.{row_of, IsThinned};
ghost use Rattle.redundancy.specs.Kept.{IsNotIdle, IsFree, IsExplained, IsForward, IsBackward};
ghost use Rattle.redundancy.specs.Points.{IsColumn};
ghost use Rattle.redundancy.specs.Sources.{IsSource};
ghost use Rattle.redundancy.specs.Fates.{IsFate, IsState};

use crate::screens::is_screened;
use fb_types::{Bounds, Fate, Half, Items};
use multiplier_search::proposals::search;
use multiplier_search::simplex::Simplex;
use multiplier_search::tries::{OneRow, try_none, try_one, with_none, with_one};
use std::alloc::{AllocError, Global};

/// A multiplier of the balance with which the row at `k` follows from the box.
fn from_box(rows: &[Half], k: usize, bounds: &[Bounds], corners: &mut [i128]) -> Option<i128>
    requires rows_over { All (λ row. IsHalfOver (length bounds.now) row) rows.now }
    requires bounds_in_range { AreBounds bounds.now }
    requires is_box { IsBox bounds.now }
    requires long { length corners.old ≡ length bounds.now }
    requires inside { k < length rows.now }
    ensures { MatchOption result (IsNotIdle rows.now bounds.now k) (λ mu. IsWithin (10 ^ 24) mu × IsCovered (row_of rows.now k) rows.now none_of bounds.now mu) }
{
    try_none(&rows[k], rows, bounds, corners)
}

/// A multiplier of the balance with which the row at `k` follows from the row with this number.
fn from_row(
    rows: &[Half],
    k: usize,
    number: u32,
    bounds: &[Bounds],
    corners: &mut [i128],
) -> Option<i128>
    requires rows_over { All (λ row. IsHalfOver (length bounds.now) row) rows.now }
    requires bounds_in_range { AreBounds bounds.now }
    requires is_box { IsBox bounds.now }
    requires long { length corners.old ≡ length bounds.now }
    requires inside { k < length rows.now }
    requires is_row { IsRow rows.now number }
    ensures { MatchOption result (IsUncovered (row_of rows.now k) rows.now (one_of number) bounds.now) (λ mu. IsWithin (10 ^ 24) mu × IsCovered (row_of rows.now k) rows.now (one_of number) bounds.now mu) }
{
    try_one(&rows[k], rows, number, bounds, corners)
}

/// A kept row from `low` to below `high` from which the row at `k` follows.
fn from_kept(
    rows: &[Half],
    k: usize,
    kept: &[bool],
    low: usize,
    high: usize,
    columns: &[Items<i128>],
    bounds: &[Bounds],
    corners: &mut [i128],
) -> Option<OneRow>
    requires rows_over { All (λ row. IsHalfOver (length bounds.now) row) rows.now }
    requires bounds_in_range { AreBounds bounds.now }
    requires is_box { IsBox bounds.now }
    requires long { length corners.old ≡ length bounds.now }
    requires inside { k < length rows.now }
    requires few { length rows.now < 2 ^ 32 }
    requires each { length kept.now ≡ length rows.now }
    requires ends { high ≤ length rows.now }
    requires columns { All (IsColumn rows.now bounds.now) columns.now }
    ensures { MatchOption result ((j : ℕ) → low ≤ j → j < high → is_kept kept.now j ≡ true → IsFree rows.now bounds.now k j) (λ one. IsSource rows.now bounds.now kept.now k low high one) }
{
    for j in low..high {
        if !kept[j] {
            continue;
        }
        if is_screened(rows, k, j, columns, bounds) {
            continue;
        }
        let number = j as u32 + 1;
        if let Some(mu) = from_row(rows, k, number, bounds, corners) {
            return Some(OneRow { row: number, mu });
        }
    }
    None
}

/// Whether the row at `k` follows neither from the box nor from a kept row before it.
fn is_new(
    rows: &[Half],
    k: usize,
    kept: &[bool],
    columns: &[Items<i128>],
    bounds: &[Bounds],
    corners: &mut [i128],
) -> bool
    requires rows_over { All (λ row. IsHalfOver (length bounds.now) row) rows.now }
    requires bounds_in_range { AreBounds bounds.now }
    requires is_box { IsBox bounds.now }
    requires long { length corners.old ≡ length bounds.now }
    requires inside { k < length rows.now }
    requires few { length rows.now < 2 ^ 32 }
    requires each { length kept.now ≡ length rows.now }
    requires columns { All (IsColumn rows.now bounds.now) columns.now }
    ensures new { result ≡ true → IsNotIdle rows.now bounds.now k × ((j : ℕ) → j < k → is_kept kept.now j ≡ true → IsFree rows.now bounds.now k j) }
    ensures old { result ≡ false → IsExplained rows.now bounds.now kept.now k k }
{
    if let Some(_) = from_box(rows, k, bounds, corners) {
        return false;
    }
    match from_kept(rows, k, kept, 0, k, columns, bounds, corners) {
        Some(_) => false,
        None => true,
    }
}

/// Keeps each row that follows neither from the box nor from a kept row before it.
pub fn forward(
    rows: &[Half],
    kept: &mut [bool],
    columns: &[Items<i128>],
    bounds: &[Bounds],
    corners: &mut [i128],
)
    requires rows_over { All (λ row. IsHalfOver (length bounds.now) row) rows.now }
    requires bounds_in_range { AreBounds bounds.now }
    requires is_box { IsBox bounds.now }
    requires long { length corners.old ≡ length bounds.now }
    requires few { length rows.now < 2 ^ 32 }
    requires each { length kept.old ≡ length rows.now }
    requires columns { All (IsColumn rows.now bounds.now) columns.now }
    ensures { IsForward rows.now bounds.now kept.new (length rows.now) }
{
    for k in 0..rows.len() {
        let new = is_new(rows, k, kept, columns, bounds, corners);
        kept[k] = new;
    }
}

/// Drops each kept row that follows from a kept row after it.
pub fn backward(
    rows: &[Half],
    kept: &mut [bool],
    columns: &[Items<i128>],
    bounds: &[Bounds],
    corners: &mut [i128],
)
    requires rows_over { All (λ row. IsHalfOver (length bounds.now) row) rows.now }
    requires bounds_in_range { AreBounds bounds.now }
    requires is_box { IsBox bounds.now }
    requires long { length corners.old ≡ length bounds.now }
    requires few { length rows.now < 2 ^ 32 }
    requires each { length kept.old ≡ length rows.now }
    requires forward { IsForward rows.now bounds.now kept.old (length rows.now) }
    requires columns { All (IsColumn rows.now bounds.now) columns.now }
    ensures { IsBackward rows.now bounds.now kept.new 0 }
{
    let mut i = rows.len();
    while i > 0 {
        i -= 1;
        if !kept[i] {
            continue;
        }
        if let Some(_) = from_kept(rows, i, kept, i + 1, rows.len(), columns, bounds, corners) {
            kept[i] = false;
        }
    }
}

/// What becomes of the row at `k`.
fn fate_of(
    alloc: Global,
    simplex: &mut Simplex,
    rows: &[Half],
    k: usize,
    kept: &[bool],
    columns: &[Items<i128>],
    bounds: &[Bounds],
    corners: &mut [i128],
) -> Result<Fate, AllocError>
    requires rows_over { All (λ row. IsHalfOver (length bounds.now) row) rows.now }
    requires bounds_in_range { AreBounds bounds.now }
    requires is_box { IsBox bounds.now }
    requires long { length corners.old ≡ length bounds.now }
    requires inside { k < length rows.now }
    requires few { length rows.now < 2 ^ 32 }
    requires each { length kept.now ≡ length rows.now }
    requires passed { IsBackward rows.now bounds.now kept.now 0 }
    requires columns { All (IsColumn rows.now bounds.now) columns.now }
    ensures { IfOk result (λ fate. IsFate rows.now bounds.now kept.now k fate) }
{
    if kept[k] {
        return Ok(Fate::Kept);
    }
    if let Some(mu) = from_box(rows, k, bounds, corners) {
        return Ok(Fate::Removed(with_none(alloc, mu)));
    }
    if let Some(by) = search(simplex, &rows[k], rows, kept, bounds, corners)? {
        return Ok(Fate::Removed(by));
    }
    let one = source(rows, k, kept, columns, bounds, corners);
    Ok(Fate::Removed(with_one(alloc, one)?))
}

/// The kept row from which a row that does not follow from the box follows.
fn source(
    rows: &[Half],
    k: usize,
    kept: &[bool],
    columns: &[Items<i128>],
    bounds: &[Bounds],
    corners: &mut [i128],
) -> OneRow
    requires rows_over { All (λ row. IsHalfOver (length bounds.now) row) rows.now }
    requires bounds_in_range { AreBounds bounds.now }
    requires is_box { IsBox bounds.now }
    requires long { length corners.old ≡ length bounds.now }
    requires inside { k < length rows.now }
    requires few { length rows.now < 2 ^ 32 }
    requires each { length kept.now ≡ length rows.now }
    requires passed { IsBackward rows.now bounds.now kept.now 0 }
    requires is_removed { is_kept kept.now k ≡ false }
    requires not_by_box { IsNotIdle rows.now bounds.now k }
    requires columns { All (IsColumn rows.now bounds.now) columns.now }
    ensures { IsSource rows.now bounds.now kept.now k 0 (length rows.now) result }
{
    match from_kept(rows, k, kept, 0, rows.len(), columns, bounds, corners) {
        Some(one) => one,
        None => unreachable!(),
    }
}

/// What becomes of each row.
pub fn fates(
    alloc: Global,
    simplex: &mut Simplex,
    rows: &[Half],
    kept: &[bool],
    columns: &[Items<i128>],
    bounds: &[Bounds],
    corners: &mut [i128],
) -> Result<Vec<Fate>, AllocError>
    requires rows_over { All (λ row. IsHalfOver (length bounds.now) row) rows.now }
    requires bounds_in_range { AreBounds bounds.now }
    requires is_box { IsBox bounds.now }
    requires long { length corners.old ≡ length bounds.now }
    requires few { length rows.now < 2 ^ 32 }
    requires each { length kept.now ≡ length rows.now }
    requires passed { IsBackward rows.now bounds.now kept.now 0 }
    requires columns { All (IsColumn rows.now bounds.now) columns.now }
    ensures { IfOk result (λ fates. IsState rows.now bounds.now fates.items kept.now) }
{
    let mut all = Vec::new(alloc);
    for k in 0..rows.len() {
        let fate = fate_of(alloc, simplex, rows, k, kept, columns, bounds, corners)?;
        all.push(fate)?;
    }
    Ok(all)
}

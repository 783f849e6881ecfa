//! Step two: rows that follow from several others.

ghost use Rattle.std.specs.Prelude.{◌≡◌, ◌≢◌, ℕ, ◌+◌, ◌-◌, ◌*◌, ◌^◌, ◌<◌, ◌≤◌, ◌↔◌, Bool, true, false, ℤ, pos, List, length, IsTrue, IfOk, OnOk, IfSome, IfNone, slice_get};
ghost use Rattle.std.specs.List.{All};
ghost use Rattle.fb_types.specs.Domain.{IsHalfOver, AreBounds, Follows};
ghost use Rattle.multiplier_search.specs.Found.{IsBox};
ghost use Rattle.multiplier_search.specs.Tries.{is_kept, CitesKept, IsProof};
ghost use Rattle.redundancy.specs.Thinned.{row_of, IsKeptRow, CitesOthers, IsClear, IsUncited, IsSettled};
ghost use Rattle.redundancy.specs.Fates.{IsState, IsProofWithout, IsUnpairedRow, count};

use crate::witness::find_or_refute;
use fb_types::{Bounds, Fate, Half, Mult, Multipliers};
use multiplier_search::proposals::search;
use multiplier_search::simplex::Simplex;
use std::alloc::{AllocError, Global};

/// Multipliers that the search finds for the row at `i` from kept rows other than the row at `k`.
fn search_without(
    simplex: &mut Simplex,
    rows: &[Half],
    i: usize,
    k: usize,
    kept: &mut [bool],
    bounds: &[Bounds],
    corners: &mut [i128],
) -> Result<Option<Multipliers>, AllocError>
    requires rows_over { All (λ row. IsHalfOver (length bounds.now) row) rows.now }
    requires bounds_in_range { AreBounds bounds.now }
    requires is_box { IsBox bounds.now }
    requires long { length corners.old ≡ length bounds.now }
    requires each { length kept.old ≡ length rows.now }
    requires inside { i < length rows.now }
    requires is_kept { is_kept kept.old k ≡ true }
    ensures same { kept.new ≡ kept.old }
    ensures proof { IfOk result (λ o. IfSome o (λ by. IsProofWithout rows.now bounds.now kept.old i k by)) }
{
    kept[k] = false;
    let found = search(simplex, &rows[i], rows, kept, bounds, corners);
    kept[k] = true;
    found
}

/// Multipliers for the row at `k` from other kept rows, unless it is refuted or no try finds any.
fn find_without(
    alloc: Global,
    simplex: &mut Simplex,
    rows: &[Half],
    k: usize,
    kept: &mut [bool],
    bounds: &[Bounds],
    corners: &mut [i128],
) -> Result<Option<Multipliers>, AllocError>
    requires rows_over { All (λ row. IsHalfOver (length bounds.now) row) rows.now }
    requires bounds_in_range { AreBounds bounds.now }
    requires is_box { IsBox bounds.now }
    requires few { length rows.now < 2 ^ 32 }
    requires long { length corners.old ≡ length bounds.now }
    requires each { length kept.old ≡ length rows.now }
    requires is_kept { is_kept kept.old k ≡ true }
    ensures same { kept.new ≡ kept.old }
    ensures proof { IfOk result (λ o. IfSome o (λ by. IsProofWithout rows.now bounds.now kept.old k k by)) }
    ensures unpaired { length rows.now ≤ 64 → IfOk result (λ o. IfNone o (IsUnpairedRow rows.now bounds.now kept.old k)) }
{
    kept[k] = false;
    let found = find_or_refute(alloc, simplex, &rows[k], rows, kept, bounds, corners);
    kept[k] = true;
    found
}

/// Whether a row does not cite the row with this number.
fn spares(fate: &Fate, number: u32) -> bool
    ensures { IsTrue result ↔ IsClear number fate.now }
{
    match fate {
        Fate::Kept => true,
        Fate::Removed(by) => cites_others(by.mults.as_slice(), number),
    }
}

/// Whether no multiplier is of the row with this number.
fn cites_others(mults: &[Mult], number: u32) -> bool
    ensures { IsTrue result ↔ CitesOthers number mults.now }
{
    mults.iter().all(|m| m.row != number)
}

/// Gives each removed row that cites the row at `k` multipliers of other kept rows, and says whether all have them.
fn release(
    simplex: &mut Simplex,
    rows: &[Half],
    k: usize,
    number: u32,
    fates: &mut [Fate],
    kept: &mut [bool],
    bounds: &[Bounds],
    corners: &mut [i128],
) -> Result<bool, AllocError>
    requires is_number { number ≡ k + 1 }
    requires rows_over { All (λ row. IsHalfOver (length bounds.now) row) rows.now }
    requires bounds_in_range { AreBounds bounds.now }
    requires is_box { IsBox bounds.now }
    requires long { length corners.old ≡ length bounds.now }
    requires each { length kept.old ≡ length rows.now }
    requires state { IsState rows.now bounds.now fates.old kept.old }
    requires is_kept { is_kept kept.old k ≡ true }
    requires inside { k < length rows.now }
    ensures same { kept.new ≡ kept.old }
    ensures state { OnOk result (IsState rows.now bounds.now fates.new kept.old) }
    ensures free { IfOk result (λ all. all ≡ true → IsUncited fates.new k) }
{
    for i in 0..rows.len() {
        if spares(&fates[i], number) {
            continue;
        }
        match search_without(simplex, rows, i, k, kept, bounds, corners)? {
            Some(by) => fates[i] = Fate::Removed(by),
            None => return Ok(false),
        }
    }
    Ok(true)
}

/// Removes the row at `k` if multipliers are found for it and for each removed row that cites it.
fn remove(
    simplex: &mut Simplex,
    rows: &[Half],
    k: usize,
    fates: &mut [Fate],
    kept: &mut [bool],
    bounds: &[Bounds],
    corners: &mut [i128],
) -> Result<bool, AllocError>
    requires rows_over { All (λ row. IsHalfOver (length bounds.now) row) rows.now }
    requires bounds_in_range { AreBounds bounds.now }
    requires is_box { IsBox bounds.now }
    requires long { length corners.old ≡ length bounds.now }
    requires few { length rows.now < 2 ^ 32 }
    requires each { length kept.old ≡ length rows.now }
    requires state { IsState rows.now bounds.now fates.old kept.old }
    requires is_kept { is_kept kept.old k ≡ true }
    requires inside { k < length rows.now }
    ensures state { OnOk result (IsState rows.now bounds.now fates.new kept.new) }
    ensures long { length kept.new ≡ length kept.old }
{
    if simplex.leads(rows, k, kept) {
        return Ok(false);
    }
    let Some(by) = search_without(simplex, rows, k, k, kept, bounds, corners)? else {
        return Ok(false);
    };
    let number = k as u32 + 1;
    if !release(simplex, rows, k, number, fates, kept, bounds, corners)? {
        return Ok(false);
    }
    fates[k] = Fate::Removed(by);
    kept[k] = false;
    Ok(true)
}

/// Tries to remove each kept row.
pub fn shrink(
    simplex: &mut Simplex,
    rows: &[Half],
    fates: &mut [Fate],
    kept: &mut [bool],
    bounds: &[Bounds],
    corners: &mut [i128],
) -> Result<(), AllocError>
    requires rows_over { All (λ row. IsHalfOver (length bounds.now) row) rows.now }
    requires bounds_in_range { AreBounds bounds.now }
    requires is_box { IsBox bounds.now }
    requires long { length corners.old ≡ length bounds.now }
    requires few { length rows.now < 2 ^ 32 }
    requires each { length kept.old ≡ length rows.now }
    requires state { IsState rows.now bounds.now fates.old kept.old }
    ensures state { OnOk result (IsState rows.now bounds.now fates.new kept.new) }
    ensures long { length kept.new ≡ length kept.old }
{
    for k in 0..rows.len() {
        if !kept[k] {
            continue;
        }
        if !remove(simplex, rows, k, fates, kept, bounds, corners)? {
            simplex.learn(k)?;
        }
    }
    Ok(())
}

/// Whether no removed row cites the row with this number.
fn all_spare(fates: &[Fate], number: u32) -> bool
    ensures { IsTrue result ↔ All (IsClear number) fates.now }
{
    for i in 0..fates.len() {
        if !spares(&fates[i], number) {
            return false;
        }
    }
    true
}

/// Removes a kept row that no removed row cites and that follows from other kept rows, if there is one.
fn settle_one(
    alloc: Global,
    simplex: &mut Simplex,
    rows: &[Half],
    fates: &mut [Fate],
    kept: &mut [bool],
    bounds: &[Bounds],
    corners: &mut [i128],
) -> Result<bool, AllocError>
    requires rows_over { All (λ row. IsHalfOver (length bounds.now) row) rows.now }
    requires bounds_in_range { AreBounds bounds.now }
    requires is_box { IsBox bounds.now }
    requires few { length rows.now < 2 ^ 32 }
    requires small { length rows.now ≤ 64 }
    requires long { length corners.old ≡ length bounds.now }
    requires each { length kept.old ≡ length rows.now }
    requires state { IsState rows.now bounds.now fates.old kept.old }
    ensures state { OnOk result (IsState rows.now bounds.now fates.new kept.new) }
    ensures long { length kept.new ≡ length kept.old }
    ensures fewer { IfOk result (λ removed. removed ≡ true → count kept.new < count kept.old) }
    ensures settled { IfOk result (λ removed. removed ≡ false → IsSettled rows.now bounds.now fates.new) }
{
    for k in 0..rows.len() {
        if !kept[k] {
            continue;
        }
        let number = k as u32 + 1;
        if !all_spare(fates, number) {
            continue;
        }
        if let Some(by) = find_without(alloc, simplex, rows, k, kept, bounds, corners)? {
            fates[k] = Fate::Removed(by);
            kept[k] = false;
            return Ok(true);
        }
    }
    Ok(false)
}

/// Removes kept rows that no removed row cites until none of them has a pair proof by other kept rows.
pub fn settle(
    alloc: Global,
    simplex: &mut Simplex,
    rows: &[Half],
    fates: &mut [Fate],
    kept: &mut [bool],
    bounds: &[Bounds],
    corners: &mut [i128],
) -> Result<(), AllocError>
    requires rows_over { All (λ row. IsHalfOver (length bounds.now) row) rows.now }
    requires bounds_in_range { AreBounds bounds.now }
    requires is_box { IsBox bounds.now }
    requires few { length rows.now < 2 ^ 32 }
    requires small { length rows.now ≤ 64 }
    requires long { length corners.old ≡ length bounds.now }
    requires each { length kept.old ≡ length rows.now }
    requires state { IsState rows.now bounds.now fates.old kept.old }
    ensures state { OnOk result (IsState rows.now bounds.now fates.new kept.new) }
    ensures settled { OnOk result (IsSettled rows.now bounds.now fates.new) }
{
    while settle_one(alloc, simplex, rows, fates, kept, bounds, corners)? {}
    Ok(())
}

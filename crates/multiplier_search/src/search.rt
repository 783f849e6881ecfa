//! The search for multipliers, in order of what it promises.

ghost use Rattle.std.specs.Prelude.{◌≡◌, ℕ, ◌*◌, ◌^◌, ◌<◌, ◌≤◌, ℤ, true, List, length, IfOk, IfSome, IfNone, vec_len};
ghost use Rattle.std.specs.List.{All};
ghost use Rattle.fb_types.specs.Domain.{IsHalfOver, AreBounds, Follows};
ghost use Rattle.multiplier_search.specs.Found.{IsBox, none_of, one_of, pair_of, with_balance};
ghost use Rattle.multiplier_search.specs.Tries.{is_kept, IsProof, IsAlone, IsUnpaired};

use crate::proposals::{search, search_whole};
use crate::simplex::Simplex;
use crate::tries::{try_none, try_pairs, try_rows, with_none, with_one, with_two, zeros};
use fb_types::{Bounds, Half, Items, Multipliers};
use std::alloc::{AllocError, Global};

/// Multipliers with which the target follows from the rows, within the bounds.
///
/// None never comes where the target follows, for any multiplier of the balance, from the bounds alone or from one row
/// at 10^9, nor, over at most 64 rows, from two of them at tenths of it.
pub fn find(
    alloc: Global,
    target: &Half,
    rows: &Items<Half>,
    bounds: &Items<Bounds>,
) -> Result<Option<Multipliers>, AllocError>
    requires target_over { IsHalfOver (length bounds.now) target.now }
    requires rows_over { All (λ row. IsHalfOver (length bounds.now) row) rows.now }
    requires bounds_in_range { AreBounds bounds.now }
    requires is_box { IsBox bounds.now }
    requires few { length rows.now < 2 ^ 32 }
    ensures follows { IfOk result (λ o. IfSome o (λ by. Follows target.now rows.now by bounds.now)) }
    ensures none { IfOk result (λ o. IfNone o ((mu : ℤ) → ¬ Follows target.now rows.now (with_balance none_of mu) bounds.now)) }
    ensures one { IfOk result (λ o. IfNone o ((number : ℕ) (mu : ℤ) → ¬ Follows target.now rows.now (with_balance (one_of number) mu) bounds.now)) }
    ensures pairs { length rows.now ≤ 64 → IfOk result (λ o. IfNone o ((first second k : ℕ) (mu : ℤ) → 1 ≤ k → k < 10 → ¬ Follows target.now rows.now (with_balance (pair_of first second k) mu) bounds.now)) }
{
    find_in(alloc, target, rows.as_slice(), bounds.as_slice())
}

/// The search over all rows.
fn find_in(
    alloc: Global,
    target: &Half,
    rows: &[Half],
    bounds: &[Bounds],
) -> Result<Option<Multipliers>, AllocError>
    requires target_over { IsHalfOver (length bounds.now) target.now }
    requires rows_over { All (λ row. IsHalfOver (length bounds.now) row) rows.now }
    requires bounds_in_range { AreBounds bounds.now }
    requires is_box { IsBox bounds.now }
    requires few { length rows.now < 2 ^ 32 }
    ensures follows { IfOk result (λ o. IfSome o (λ by. Follows target.now rows.now by bounds.now)) }
    ensures none { IfOk result (λ o. IfNone o ((mu : ℤ) → ¬ Follows target.now rows.now (with_balance none_of mu) bounds.now)) }
    ensures one { IfOk result (λ o. IfNone o ((number : ℕ) (mu : ℤ) → ¬ Follows target.now rows.now (with_balance (one_of number) mu) bounds.now)) }
    ensures pairs { length rows.now ≤ 64 → IfOk result (λ o. IfNone o ((first second k : ℕ) (mu : ℤ) → 1 ≤ k → k < 10 → ¬ Follows target.now rows.now (with_balance (pair_of first second k) mu) bounds.now)) }
{
    let kept = all_true(alloc, rows.len())?;
    find_among(alloc, target, rows, kept.as_slice(), bounds)
}

/// As many flags, each set.
fn all_true(alloc: Global, n: usize) -> Result<Vec<bool>, AllocError>
    ensures long { IfOk result (λ v. vec_len v ≡ n) }
    ensures each { IfOk result (λ v. (k : ℕ) → k < n → is_kept v.items k ≡ true) }
{
    let mut v = Vec::new(alloc);
    for _ in 0..n {
        v.push(true)?;
    }
    Ok(v)
}

/// Multipliers with which the target follows from kept rows.
pub fn find_among(
    alloc: Global,
    target: &Half,
    rows: &[Half],
    kept: &[bool],
    bounds: &[Bounds],
) -> Result<Option<Multipliers>, AllocError>
    requires target_over { IsHalfOver (length bounds.now) target.now }
    requires rows_over { All (λ row. IsHalfOver (length bounds.now) row) rows.now }
    requires bounds_in_range { AreBounds bounds.now }
    requires is_box { IsBox bounds.now }
    requires few { length rows.now < 2 ^ 32 }
    requires each { length kept.now ≡ length rows.now }
    ensures proof { IfOk result (λ o. IfSome o (λ by. IsProof target.now rows.now kept.now bounds.now by)) }
    ensures alone { IfOk result (λ o. IfNone o (IsAlone target.now rows.now kept.now bounds.now)) }
    ensures unpaired { length rows.now ≤ 64 → IfOk result (λ o. IfNone o (IsUnpaired target.now rows.now kept.now bounds.now)) }
{
    let mut scratch = zeros(alloc, bounds.len())?;
    let corners = scratch.as_mut_slice();
    match find_few(alloc, target, rows, kept, bounds, corners)? {
        Some(by) => Ok(Some(by)),
        None => find_many(alloc, target, rows, kept, bounds, corners),
    }
}

/// Multipliers that one of the two simplexes proposes and that prove the target from kept rows.
fn find_many(
    alloc: Global,
    target: &Half,
    rows: &[Half],
    kept: &[bool],
    bounds: &[Bounds],
    corners: &mut [i128],
) -> Result<Option<Multipliers>, AllocError>
    requires target_over { IsHalfOver (length bounds.now) target.now }
    requires rows_over { All (λ row. IsHalfOver (length bounds.now) row) rows.now }
    requires bounds_in_range { AreBounds bounds.now }
    requires is_box { IsBox bounds.now }
    requires long { length corners.old ≡ length bounds.now }
    requires each { length kept.now ≡ length rows.now }
    ensures { IfOk result (λ o. IfSome o (λ by. IsProof target.now rows.now kept.now bounds.now by)) }
{
    match search_whole(alloc, target, rows, kept, bounds, corners)? {
        Some(by) => Ok(Some(by)),
        None => {
            let mut simplex = Simplex::new(alloc, bounds.len())?;
            search(&mut simplex, target, rows, kept, bounds, corners)
        }
    }
}

/// Multipliers with which the target follows from the bounds, from one kept row, or from two of at most 64 rows.
fn find_few(
    alloc: Global,
    target: &Half,
    rows: &[Half],
    kept: &[bool],
    bounds: &[Bounds],
    corners: &mut [i128],
) -> Result<Option<Multipliers>, AllocError>
    requires target_over { IsHalfOver (length bounds.now) target.now }
    requires rows_over { All (λ row. IsHalfOver (length bounds.now) row) rows.now }
    requires bounds_in_range { AreBounds bounds.now }
    requires is_box { IsBox bounds.now }
    requires long { length corners.old ≡ length bounds.now }
    requires few { length rows.now < 2 ^ 32 }
    requires each { length kept.now ≡ length rows.now }
    ensures proof { IfOk result (λ o. IfSome o (λ by. IsProof target.now rows.now kept.now bounds.now by)) }
    ensures alone { IfOk result (λ o. IfNone o (IsAlone target.now rows.now kept.now bounds.now)) }
    ensures unpaired { length rows.now ≤ 64 → IfOk result (λ o. IfNone o (IsUnpaired target.now rows.now kept.now bounds.now)) }
{
    if let Some(mu) = try_none(target, rows, bounds, corners) {
        return Ok(Some(with_none(alloc, mu)));
    }
    if let Some(one) = try_rows(target, rows, kept, bounds, corners) {
        return Ok(Some(with_one(alloc, one)?));
    }
    if rows.len() > 64 {
        return Ok(None);
    }
    if let Some(two) = try_pairs(target, rows, kept, bounds, corners) {
        return Ok(Some(with_two(alloc, two)?));
    }
    Ok(None)
}

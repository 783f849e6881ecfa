//! The tries: no row, one row, two rows, or rows with any multipliers, each with the best multiplier of the balance.

ghost use Rattle.std.specs.Prelude.{◌≡◌, ℕ, ◌+◌, ◌-◌, ◌*◌, ◌^◌, ◌<◌, ◌≤◌, ℤ, pos, ◌≤ℤ◌, true, List, [], ◌∷◌, length, MatchOption, IfOk, vec_len};
ghost use Rattle.std.specs.List.{All};
ghost use Rattle.whole_laws.specs.Sums.{IsWithin, at};
ghost use Rattle.fb_types.specs.Domain.{IsRow, IsHalfOver, AreBounds};
ghost use Rattle.multiplier_search.specs.Found.{IsBox, none_of, one_of, pair_of, with_balance};
ghost use Rattle.multiplier_search.specs.Corners.{corner, room, IsCovered};
ghost use Rattle.row_weighing.specs.Weights.{AreWeights};
ghost use Rattle.multiplier_search.specs.Tries.{is_kept, AreLight, IsUncovered};
ghost use Rattle.multiplier_search.specs.Pairs.{IsOne, IsShare, IsPair};

use crate::corners::best_balance;
use crate::weighing::{corner_at, room_at};
use fb_types::{Bounds, Half, Items, Mult, Multipliers};
use std::alloc::{AllocError, Global};

/// The multiplier of the target, in 10^-9.
const ONE: i128 = 1_000_000_000;

/// A tenth of it.
const TENTH: i128 = 100_000_000;

/// A multiplier of the balance with which the target follows from the rows with these multipliers.
pub fn try_mults(
    target: &Half,
    rows: &[Half],
    mults: &[Mult],
    bounds: &[Bounds],
    corners: &mut [i128],
) -> Option<i128>
    requires target_over { IsHalfOver (length bounds.now) target.now }
    requires rows_over { All (λ row. IsHalfOver (length bounds.now) row) rows.now }
    requires bounds_in_range { AreBounds bounds.now }
    requires is_box { IsBox bounds.now }
    requires long { length corners.old ≡ length bounds.now }
    requires weights { AreWeights rows.now mults.now }
    requires light { AreLight mults.now }
    ensures { MatchOption result (IsUncovered target.now rows.now mults.now bounds.now) (λ mu. IsWithin (10 ^ 24) mu × IsCovered target.now rows.now mults.now bounds.now mu) }
{
    fill(target, rows, mults, corners);
    best_balance(corners, bounds, room_at(target, rows, mults))
}

/// Writes each corner.
fn fill(target: &Half, rows: &[Half], mults: &[Mult], corners: &mut [i128])
    requires target_over { IsHalfOver (length corners.old) target.now }
    requires rows_over { All (λ row. IsHalfOver (length corners.old) row) rows.now }
    requires weights { AreWeights rows.now mults.now }
    requires light { AreLight mults.now }
    ensures exact { (z : ℕ) → z < length corners.new → at corners.new z ≡ corner target.now rows.now mults.now z }
    ensures small { (z : ℕ) → z < length corners.new → IsWithin (10 ^ 24) (at corners.new z) }
{
    let zones = corners.len();
    for z in 0..zones {
        corners[z] = corner_at(target, rows, mults, z, zones);
    }
}

/// A multiplier of the balance with which the target follows from the row with this number at 10^9.
pub fn try_one(
    target: &Half,
    rows: &[Half],
    number: u32,
    bounds: &[Bounds],
    corners: &mut [i128],
) -> Option<i128>
    requires target_over { IsHalfOver (length bounds.now) target.now }
    requires rows_over { All (λ row. IsHalfOver (length bounds.now) row) rows.now }
    requires bounds_in_range { AreBounds bounds.now }
    requires is_box { IsBox bounds.now }
    requires long { length corners.old ≡ length bounds.now }
    requires is_row { IsRow rows.now number }
    ensures { MatchOption result (IsUncovered target.now rows.now (one_of number) bounds.now) (λ mu. IsWithin (10 ^ 24) mu × IsCovered target.now rows.now (one_of number) bounds.now mu) }
{
    let mults = [Mult {
        row: number,
        value: ONE,
    }];
    try_mults(target, rows, &mults, bounds, corners)
}

/// A row by its number, and the multiplier of the balance.
#[derive(Clone, Copy, Debug)]
pub struct OneRow {
    pub row: u32,
    pub mu: i128,
}

/// The first kept row from which, alone and at 10^9, the target follows.
pub fn try_rows(
    target: &Half,
    rows: &[Half],
    kept: &[bool],
    bounds: &[Bounds],
    corners: &mut [i128],
) -> Option<OneRow>
    requires target_over { IsHalfOver (length bounds.now) target.now }
    requires rows_over { All (λ row. IsHalfOver (length bounds.now) row) rows.now }
    requires bounds_in_range { AreBounds bounds.now }
    requires is_box { IsBox bounds.now }
    requires long { length corners.old ≡ length bounds.now }
    requires few { length rows.now < 2 ^ 32 }
    requires each { length kept.now ≡ length rows.now }
    ensures { MatchOption result ((number : ℕ) → IsRow rows.now number → is_kept kept.now (number - 1) ≡ true → IsUncovered target.now rows.now (one_of number) bounds.now) (λ one. IsOne target.now rows.now kept.now bounds.now one) }
{
    for i in 0..rows.len() {
        if !kept[i] {
            continue;
        }
        let row = i as u32 + 1;
        if let Some(mu) = try_one(target, rows, row, bounds, corners) {
            return Some(OneRow { row, mu });
        }
    }
    None
}

/// The tenths of the first of two rows, and the multiplier of the balance.
#[derive(Clone, Copy, Debug)]
pub struct Share {
    pub tenths: u32,
    pub mu: i128,
}

/// TwoRows rows and their share.
#[derive(Clone, Copy, Debug)]
pub struct TwoRows {
    pub first: u32,
    pub second: u32,
    pub tenths: u32,
    pub mu: i128,
}

/// TwoRows rows at each share.
fn try_shares(
    target: &Half,
    rows: &[Half],
    first: u32,
    second: u32,
    bounds: &[Bounds],
    corners: &mut [i128],
) -> Option<Share>
    requires target_over { IsHalfOver (length bounds.now) target.now }
    requires rows_over { All (λ row. IsHalfOver (length bounds.now) row) rows.now }
    requires bounds_in_range { AreBounds bounds.now }
    requires is_box { IsBox bounds.now }
    requires long { length corners.old ≡ length bounds.now }
    requires first_is_row { IsRow rows.now first }
    requires second_is_row { IsRow rows.now second }
    ensures { MatchOption result ((k : ℕ) → 1 ≤ k → k < 10 → IsUncovered target.now rows.now (pair_of first second k) bounds.now) (λ share. IsShare target.now rows.now bounds.now first second share) }
{
    for tenths in 1..10 {
        if let Some(mu) = try_two(target, rows, first, second, tenths, bounds, corners) {
            return Some(Share { tenths, mu });
        }
    }
    None
}

/// A multiplier of the balance with which the target follows from two rows at this share.
fn try_two(
    target: &Half,
    rows: &[Half],
    first: u32,
    second: u32,
    tenths: u32,
    bounds: &[Bounds],
    corners: &mut [i128],
) -> Option<i128>
    requires target_over { IsHalfOver (length bounds.now) target.now }
    requires rows_over { All (λ row. IsHalfOver (length bounds.now) row) rows.now }
    requires bounds_in_range { AreBounds bounds.now }
    requires is_box { IsBox bounds.now }
    requires long { length corners.old ≡ length bounds.now }
    requires first_is_row { IsRow rows.now first }
    requires second_is_row { IsRow rows.now second }
    requires share { tenths < 10 }
    ensures { MatchOption result (IsUncovered target.now rows.now (pair_of first second tenths) bounds.now) (λ mu. IsWithin (10 ^ 24) mu × IsCovered target.now rows.now (pair_of first second tenths) bounds.now mu) }
{
    let mults = [
        Mult {
            row: first,
            value: i128::from(tenths) * TENTH,
        },
        Mult {
            row: second,
            value: i128::from(10 - tenths) * TENTH,
        },
    ];
    try_mults(target, rows, &mults, bounds, corners)
}

/// A kept row after the first with which, at some share, the target follows from both.
fn try_seconds(
    target: &Half,
    rows: &[Half],
    kept: &[bool],
    first: u32,
    bounds: &[Bounds],
    corners: &mut [i128],
) -> Option<TwoRows>
    requires target_over { IsHalfOver (length bounds.now) target.now }
    requires rows_over { All (λ row. IsHalfOver (length bounds.now) row) rows.now }
    requires bounds_in_range { AreBounds bounds.now }
    requires is_box { IsBox bounds.now }
    requires long { length corners.old ≡ length bounds.now }
    requires few { length rows.now < 2 ^ 32 }
    requires each { length kept.now ≡ length rows.now }
    requires first_is_row { IsRow rows.now first }
    requires first_is_kept { is_kept kept.now (first - 1) ≡ true }
    ensures { MatchOption result ((second k : ℕ) → IsRow rows.now second → is_kept kept.now (second - 1) ≡ true → first < second → 1 ≤ k → k < 10 → IsUncovered target.now rows.now (pair_of first second k) bounds.now) (λ two. IsPair target.now rows.now kept.now bounds.now two) }
{
    for i in first as usize..rows.len() {
        if !kept[i] {
            continue;
        }
        let second = i as u32 + 1;
        if let Some(Share { tenths, mu }) = try_shares(
            target, rows, first, second, bounds, corners,
        ) {
            return Some(TwoRows {
                first,
                second,
                tenths,
                mu,
            });
        }
    }
    None
}

/// Two kept rows from which, at some share, the target follows.
pub fn try_pairs(
    target: &Half,
    rows: &[Half],
    kept: &[bool],
    bounds: &[Bounds],
    corners: &mut [i128],
) -> Option<TwoRows>
    requires target_over { IsHalfOver (length bounds.now) target.now }
    requires rows_over { All (λ row. IsHalfOver (length bounds.now) row) rows.now }
    requires bounds_in_range { AreBounds bounds.now }
    requires is_box { IsBox bounds.now }
    requires long { length corners.old ≡ length bounds.now }
    requires few { length rows.now < 2 ^ 32 }
    requires each { length kept.now ≡ length rows.now }
    ensures { MatchOption result ((first second k : ℕ) → IsRow rows.now first → IsRow rows.now second → is_kept kept.now (first - 1) ≡ true → is_kept kept.now (second - 1) ≡ true → first < second → 1 ≤ k → k < 10 → IsUncovered target.now rows.now (pair_of first second k) bounds.now) (λ two. IsPair target.now rows.now kept.now bounds.now two) }
{
    for i in 0..rows.len() {
        if !kept[i] {
            continue;
        }
        let first = i as u32 + 1;
        if let Some(two) = try_seconds(target, rows, kept, first, bounds, corners) {
            return Some(two);
        }
    }
    None
}

/// A multiplier of the balance with which the target follows from the bounds alone.
pub fn try_none(
    target: &Half,
    rows: &[Half],
    bounds: &[Bounds],
    corners: &mut [i128],
) -> Option<i128>
    requires target_over { IsHalfOver (length bounds.now) target.now }
    requires rows_over { All (λ row. IsHalfOver (length bounds.now) row) rows.now }
    requires bounds_in_range { AreBounds bounds.now }
    requires is_box { IsBox bounds.now }
    requires long { length corners.old ≡ length bounds.now }
    ensures { MatchOption result (IsUncovered target.now rows.now none_of bounds.now) (λ mu. IsWithin (10 ^ 24) mu × IsCovered target.now rows.now none_of bounds.now mu) }
{
    try_mults(target, rows, &[], bounds, corners)
}

/// No row, with this multiplier of the balance.
pub fn with_none(alloc: Global, mu: i128) -> Multipliers
    ensures { result ≡ with_balance none_of mu }
{
    Multipliers {
        mu,
        mults: Items::new(alloc),
    }
}

/// Room for the corners of a target.
pub fn zeros(alloc: Global, n: usize) -> Result<Vec<i128>, AllocError>
    ensures { IfOk result (λ v. vec_len v ≡ n) }
{
    let mut v = Vec::new(alloc);
    for _ in 0..n {
        v.push(0)?;
    }
    Ok(v)
}

/// One row at 10^9.
pub fn with_one(alloc: Global, one: OneRow) -> Result<Multipliers, AllocError>
    ensures { IfOk result (λ by. by ≡ with_balance (one_of one.row) one.mu) }
{
    let mut mults = Items::new(alloc);
    mults.add(Mult {
        row: one.row,
        value: ONE,
    })?;
    Ok(Multipliers { mu: one.mu, mults })
}

/// Two rows at their share.
pub fn with_two(alloc: Global, two: TwoRows) -> Result<Multipliers, AllocError>
    requires { two.tenths < 10 }
    ensures { IfOk result (λ by. by ≡ with_balance (pair_of two.first two.second two.tenths) two.mu) }
{
    let mut mults = Items::new(alloc);
    mults.add(Mult {
        row: two.first,
        value: i128::from(two.tenths) * TENTH,
    })?;
    mults.add(Mult {
        row: two.second,
        value: i128::from(10 - two.tenths) * TENTH,
    })?;
    Ok(Multipliers { mu: two.mu, mults })
}

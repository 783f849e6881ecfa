//! Rows weighed with multipliers: the conditions on multipliers under which no sum leaves 128 bits, the weighed sums, and
//! whether they leave no more than a target allows. Nothing here takes memory.
#![tactic(auto)]

ghost use Rattle.std.specs.Prelude.{◌≡◌, ℕ, ◌+◌, ◌-◌, ◌*◌, ◌^◌, ◌<◌, ◌≤◌, ◌↔◌, ℤ, pos, ◌+ℤ◌, ◌-ℤ◌, ◌*ℤ◌, ◌≤ℤ◌, List, length, slice_get, IsTrue};
ghost use Rattle.std.specs.List.{All, AllAdjacentBelow};
ghost use Rattle.whole_laws.specs.Sums.{sum_over, IsWithin};
ghost use Rattle.fb_types.specs.Domain.{IsPoint, Meets, MeetsCited, Follows, IsRow, row_at, side_of, coefficient_of, IsHalfOver, AreBounds, combined_side, combined_coefficient, remainder, greatest, greatest_rest};
ghost use Rattle.row_weighing.specs.Weights.{AreWeights};

use fb_types::{Bounds, Half, Mult, Multipliers};

/// The greatest sum of the multipliers, in 10^-9.
const GREATEST_TOTAL: i128 = 1_000_000_000_000;

/// The greatest size of the multiplier of the balance.
const GREATEST_BALANCE: i128 = 1_000_000_000_000_000_000_000_000;

/// The multiplier of the target, in 10^-9.
const ONE: i128 = 1_000_000_000;

/// One watt at a coefficient of one, in 10^-12.
const WATT: i128 = 1_000_000_000_000;

/// Whether each row that is cited exists.
pub fn cites(rows: &[Half], mults: &[Mult]) -> bool
    ensures { IsTrue result ↔ All (λ m. IsRow rows.now m.row) mults.now }
{
    mults
        .iter()
        .all(|m| 1 <= m.row && m.row as usize <= rows.len())
}

/// Whether the numbers of the rows rise strictly.
pub fn rises(mults: &[Mult]) -> bool
    ensures { IsTrue result ↔ AllAdjacentBelow (λ m n. m.row < n.row) mults.now (length mults.now) }
{
    for k in 1..mults.len() {
        if mults[k].row <= mults[k - 1].row {
            return false;
        }
    }
    true
}

/// Whether no multiplier is negative.
pub fn none_negative(mults: &[Mult]) -> bool
    ensures { IsTrue result ↔ All (λ m. pos 0 ≤ℤ m.value) mults.now }
{
    mults.iter().all(|m| 0 <= m.value)
}

/// Whether the multipliers, none negative, add up to at most 10^12, which is 1000 times the target.
pub fn total_fits(mults: &[Mult]) -> bool
    requires { All (λ m. pos 0 ≤ℤ m.value) mults.now }
    ensures { IsTrue result ↔ (sum_over (λ m. m.value) mults.now ≤ℤ pos (10 ^ 12)) }
{
    let mut total: i128 = 0;
    for m in mults {
        if m.value > GREATEST_TOTAL - total {
            return false;
        }
        total += m.value;
    }
    true
}

/// Whether the multiplier of the balance is within its greatest size.
pub fn balance_fits(mu: i128) -> bool
    ensures { IsTrue result ↔ IsWithin (10 ^ 24) mu }
{
    -GREATEST_BALANCE <= mu && mu <= GREATEST_BALANCE
}

/// Whether the combined side of the cited rows, and the most that the bounds let the rest of the target's coefficients give,
/// are no more than the target allows.
pub fn covers(target: &Half, rows: &[Half], by: &Multipliers, bounds: &[Bounds]) -> bool
    requires target_over { IsHalfOver (length bounds.now) target.now }
    requires rows_over { All (λ row. IsHalfOver (length bounds.now) row) rows.now }
    requires bounds_in_range { AreBounds bounds.now }
    requires weights { AreWeights rows.now by.now.mults }
    requires balance { IsWithin (10 ^ 24) by.now.mu }
    ensures { IsTrue result ↔ ((combined_side rows.now by.now.mults *ℤ pos (10 ^ 12) +ℤ greatest_rest target.now rows.now by.now bounds.now (length bounds.now)) ≤ℤ (pos (10 ^ 9) *ℤ target.now.r *ℤ pos (10 ^ 12))) }
{
    let mut most = weighted_side(rows, by.mults.as_slice()) * WATT;
    for (zone, b) in bounds.iter().enumerate() {
        let rest = rest_at(target, rows, by, zone, bounds.len());
        most += greatest_at(b, rest);
    }
    most <= ONE * i128::from(target.r) * WATT
}

/// The sum of multiplier times right side over the rows that are cited.
pub fn weighted_side(rows: &[Half], mults: &[Mult]) -> i128
    requires sides { All (λ row. IsWithin (2 * 10 ^ 13) row.r) rows.now }
    requires weights { AreWeights rows.now mults.now }
    ensures exact { result ≡ combined_side rows.now mults.now }
    ensures small { IsWithin (2 * 10 ^ 25) result }
{
    let mut sum: i128 = 0;
    for m in mults {
        sum += m.value * i128::from(side_at(rows, m.row));
    }
    sum
}

/// The sum of multiplier times coefficient over the rows that are cited.
pub fn weighted_coefficient(rows: &[Half], mults: &[Mult], zone: usize, zones: usize) -> i128
    requires over { All (λ row. IsHalfOver zones row) rows.now }
    requires zone_in { zone < zones }
    requires weights { AreWeights rows.now mults.now }
    ensures exact { result ≡ combined_coefficient rows.now mults.now zone }
    ensures small { IsWithin (10 ^ 24) result }
{
    let mut sum: i128 = 0;
    for m in mults {
        sum += m.value * i128::from(coefficient_at(rows, m.row, zone));
    }
    sum
}

/// The right side of the row with this number.
fn side_at(rows: &[Half], number: u32) -> i64
    requires is_row { IsRow rows.now number }
    ensures { result ≡ side_of (row_at rows.now number) }
{
    rows[number as usize - 1].r
}

/// A coefficient of the row with this number.
fn coefficient_at(rows: &[Half], number: u32, zone: usize) -> i64
    requires is_row { IsRow rows.now number }
    requires zone_in { All (λ row. zone < length row.a) rows.now }
    ensures { result ≡ coefficient_of (row_at rows.now number) zone }
{
    rows[number as usize - 1].a.as_slice()[zone]
}

/// What the cited rows and the balance leave of the target's coefficient.
fn rest_at(target: &Half, rows: &[Half], by: &Multipliers, zone: usize, zones: usize) -> i128
    requires target_over { IsHalfOver zones target.now }
    requires over { All (λ row. IsHalfOver zones row) rows.now }
    requires zone_in { zone < zones }
    requires weights { AreWeights rows.now by.now.mults }
    requires balance { IsWithin (10 ^ 24) by.now.mu }
    ensures exact { result ≡ remainder target.now rows.now by.now zone }
    ensures small { IsWithin (3 * 10 ^ 24) result }
{
    let a = i128::from(target.a.as_slice()[zone]);
    ONE * a - weighted_coefficient(rows, by.mults.as_slice(), zone, zones) - by.mu
}

/// The most that a coefficient can give within the bounds.
pub fn greatest_at(b: &Bounds, rest: i128) -> i128
    requires low { IsWithin (10 ^ 11) b.now.low }
    requires high { IsWithin (10 ^ 11) b.now.high }
    requires rest_small { IsWithin (3 * 10 ^ 24) rest }
    ensures exact { result ≡ greatest (Some b.now) rest }
    ensures small { IsWithin (3 * 10 ^ 35) result }
{
    let at_low = rest * i128::from(b.low);
    let at_high = rest * i128::from(b.high);
    at_low.max(at_high)
}

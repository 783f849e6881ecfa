//! Multipliers from anywhere, tried.

ghost use Rattle.std.specs.Prelude.{◌≡◌, ℕ, ◌+◌, ◌-◌, ◌*◌, ◌^◌, ◌<◌, ◌≤◌, ◌↔◌, ℤ, pos, ◌≤ℤ◌, true, List, length, IsTrue, IfSome, IfOk};
ghost use Rattle.std.specs.List.{All, AllAdjacentBelow};
ghost use Rattle.whole_laws.specs.Sums.{sum_over, IsWithin};
ghost use Rattle.fb_types.specs.Domain.{IsRow, IsHalfOver, AreBounds, Follows};
ghost use Rattle.multiplier_search.specs.Found.{IsBox, with_balance};
ghost use Rattle.multiplier_search.specs.Tries.{is_kept, AreLight, CitesKept, IsProof};

use crate::simplex::Simplex;
use crate::tries::try_mults;
use crate::whole_simplex::WholeSimplex;
use fb_types::{Bounds, Half, Items, Mult, Multipliers};
use row_weighing::{cites, none_negative, rises};
use std::alloc::{AllocError, Global};

/// The greatest sum of the multipliers, in 10^-9, with which every corner is in range.
const GREATEST_TOTAL: i128 = 900_000_000_000;

/// Whether the multipliers, none negative, add up to at most their greatest total.
fn is_light(mults: &[Mult]) -> bool
    requires { All (λ m. pos 0 ≤ℤ m.value) mults.now }
    ensures { IsTrue result → AreLight mults.now }
{
    let mut total: i128 = 0;
    for m in mults {
        if m.value > GREATEST_TOTAL - total {
            return false;
        }
        total += m.value;
    }
    true
}

/// Whether each row that is cited is kept.
fn cites_kept(kept: &[bool], mults: &[Mult]) -> bool
    requires { All (λ m. 1 ≤ m.row × m.row ≤ length kept.now) mults.now }
    ensures { IsTrue result → CitesKept kept.now mults.now }
{
    mults.iter().all(|m| kept[m.row as usize - 1])
}

/// A multiplier of the balance with which these multipliers prove the target from kept rows, whatever they are.
pub fn try_any(
    target: &Half,
    rows: &[Half],
    kept: &[bool],
    mults: &[Mult],
    bounds: &[Bounds],
    corners: &mut [i128],
) -> Option<i128>
    requires target_over { IsHalfOver (length bounds.now) target.now }
    requires rows_over { All (λ row. IsHalfOver (length bounds.now) row) rows.now }
    requires bounds_in_range { AreBounds bounds.now }
    requires is_box { IsBox bounds.now }
    requires long { length corners.old ≡ length bounds.now }
    requires each { length kept.now ≡ length rows.now }
    ensures { IfSome result (λ mu. IsProof target.now rows.now kept.now bounds.now (with_balance mults.now mu)) }
{
    if !cites(rows, mults) {
        return None;
    }
    if !cites_kept(kept, mults) {
        return None;
    }
    if !rises(mults) {
        return None;
    }
    if !none_negative(mults) {
        return None;
    }
    if !is_light(mults) {
        return None;
    }
    try_mults(target, rows, mults, bounds, corners)
}

/// Multipliers that are proposed, where they prove the target from kept rows.
fn accept(
    target: &Half,
    rows: &[Half],
    kept: &[bool],
    proposed: Option<Items<Mult>>,
    bounds: &[Bounds],
    corners: &mut [i128],
) -> Option<Multipliers>
    requires target_over { IsHalfOver (length bounds.now) target.now }
    requires rows_over { All (λ row. IsHalfOver (length bounds.now) row) rows.now }
    requires bounds_in_range { AreBounds bounds.now }
    requires is_box { IsBox bounds.now }
    requires long { length corners.old ≡ length bounds.now }
    requires each { length kept.now ≡ length rows.now }
    ensures { IfSome result (λ by. IsProof target.now rows.now kept.now bounds.now by) }
{
    let Some(mults) = proposed else {
        return None;
    };
    match try_any(target, rows, kept, mults.as_slice(), bounds, corners) {
        Some(mu) => Some(Multipliers { mu, mults }),
        None => None,
    }
}

/// What the simplex over whole numbers proposes, where it proves the target from kept rows.
pub fn search_whole(
    alloc: Global,
    target: &Half,
    rows: &[Half],
    kept: &[bool],
    bounds: &[Bounds],
    corners: &mut [i128],
) -> Result<Option<Multipliers>, AllocError>
    requires target_over { IsHalfOver (length bounds.now) target.now }
    requires rows_over { All (λ row. IsHalfOver (length bounds.now) row) rows.now }
    requires bounds_in_range { AreBounds bounds.now }
    requires is_box { IsBox bounds.now }
    requires long { length corners.old ≡ length bounds.now }
    requires each { length kept.now ≡ length rows.now }
    ensures { IfOk result (λ o. IfSome o (λ by. IsProof target.now rows.now kept.now bounds.now by)) }
{
    let proposed = WholeSimplex::new(alloc, bounds.len())?.propose(target, rows, kept, bounds)?;
    Ok(accept(target, rows, kept, proposed, bounds, corners))
}

/// What the simplex in fixed point proposes, where it proves the target from kept rows.
pub fn search(
    simplex: &mut Simplex,
    target: &Half,
    rows: &[Half],
    kept: &[bool],
    bounds: &[Bounds],
    corners: &mut [i128],
) -> Result<Option<Multipliers>, AllocError>
    requires target_over { IsHalfOver (length bounds.now) target.now }
    requires rows_over { All (λ row. IsHalfOver (length bounds.now) row) rows.now }
    requires bounds_in_range { AreBounds bounds.now }
    requires is_box { IsBox bounds.now }
    requires long { length corners.old ≡ length bounds.now }
    requires each { length kept.now ≡ length rows.now }
    ensures { IfOk result (λ o. IfSome o (λ by. IsProof target.now rows.now kept.now bounds.now by)) }
{
    let proposed = simplex.propose(target, rows, kept, bounds)?;
    Ok(accept(target, rows, kept, proposed, bounds, corners))
}

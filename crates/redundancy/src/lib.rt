//! Which rows follow from others: a row that does can be left out of a list, and loses nothing.
#![tactic(auto)]

ghost use Rattle.std.specs.Prelude.{◌≡◌, ℕ, ◌^◌, ◌<◌, ◌≤◌, ℤ, ◌↔◌, List, length, IsTrue, IfOk, vec_len};
ghost use Rattle.std.specs.List.{All};
ghost use Rattle.fb_types.specs.Domain.{IsPoint, Meets, MeetsCited, Follows, IsHalfOver, AreBounds};
ghost use Rattle.multiplier_search.specs.Found.{IsBox};
ghost use Rattle.redundancy.specs.Thinned.{IsThinned, IsSettled};

pub mod points;
pub mod screens;
pub mod several;
pub mod single;
pub mod witness;

use fb_types::{Bounds, Fate, Half, Items, Multipliers};
use multiplier_search::simplex::Simplex;
use multiplier_search::tries::zeros;
use row_weighing::{balance_fits, cites, covers, none_negative, rises, total_fits};
use screens::columns;
use several::{settle, shrink};
use single::{backward, fates, forward};
use std::alloc::{AllocError, Global};

/// Whether the multipliers prove the target from the rows that they cite, within the bounds, one for each zone.
///
/// The multipliers may be any numbers: those of a target that does not follow are refused by their own tests, before
/// any product is taken, so that no number leaves 128 bits. The call takes no memory.
///
/// Where it is true, each balanced list of whole net positions within the bounds that meets the cited rows meets the
/// target.
pub fn follows(target: &Half, rows: &Items<Half>, by: &Multipliers, bounds: &Items<Bounds>) -> bool
    requires target_over { IsHalfOver (length bounds.now) target.now }
    requires rows_over { All (λ row. IsHalfOver (length bounds.now) row) rows.now }
    requires bounds_in_range { AreBounds bounds.now }
    ensures exact { IsTrue result ↔ Follows target.now rows.now by.now bounds.now }
    ensures implies { IsTrue result → (x : List ℤ) → IsPoint bounds.now x → MeetsCited rows.now by.now x → Meets target.now x }
{
    let rows = rows.as_slice();
    let mults = by.mults.as_slice();
    cites(rows, mults)
        && rises(mults)
        && none_negative(mults)
        && total_fits(mults)
        && balance_fits(by.mu)
        && covers(target, rows, by, bounds.as_slice())
}

/// What becomes of each row: it is kept, or multipliers prove it from kept rows.
///
/// No kept row follows from the bounds alone, nor from one other kept row at 10^9. In a list of at most 64 rows, no
/// kept row that no removed row cites follows from two other kept rows at tenths of it.
pub fn thin(
    alloc: Global,
    rows: &Items<Half>,
    bounds: &Items<Bounds>,
) -> Result<Items<Fate>, AllocError>
    requires rows_over { All (λ row. IsHalfOver (length bounds.now) row) rows.now }
    requires bounds_in_range { AreBounds bounds.now }
    requires is_box { IsBox bounds.now }
    requires few { length rows.now < 2 ^ 32 }
    ensures thinned { IfOk result (λ fates. IsThinned rows.now bounds.now fates) }
    ensures settled { length rows.now ≤ 64 → IfOk result (λ fates. IsSettled rows.now bounds.now fates) }
{
    let fates = thin_rows(alloc, rows.as_slice(), bounds.as_slice())?;
    Ok(Items::from_vec(fates))
}

/// The same over slices: first what follows from the bounds or from one row, then what follows from several.
fn thin_rows(alloc: Global, rows: &[Half], bounds: &[Bounds]) -> Result<Vec<Fate>, AllocError>
    requires rows_over { All (λ row. IsHalfOver (length bounds.now) row) rows.now }
    requires bounds_in_range { AreBounds bounds.now }
    requires is_box { IsBox bounds.now }
    requires few { length rows.now < 2 ^ 32 }
    ensures thinned { IfOk result (λ fates. IsThinned rows.now bounds.now fates.items) }
    ensures settled { length rows.now ≤ 64 → IfOk result (λ fates. IsSettled rows.now bounds.now fates.items) }
{
    let mut scratch = zeros(alloc, bounds.len())?;
    let corners = scratch.as_mut_slice();
    let mut flags = all_false(alloc, rows.len())?;
    let kept = flags.as_mut_slice();
    let mut simplex = Simplex::new(alloc, bounds.len())?;
    let points = columns(alloc, rows, bounds)?;
    let columns = points.as_slice();
    forward(rows, kept, columns, bounds, corners);
    backward(rows, kept, columns, bounds, corners);
    let mut fates = fates(alloc, &mut simplex, rows, kept, columns, bounds, corners)?;
    shrink(
        &mut simplex,
        rows,
        fates.as_mut_slice(),
        kept,
        bounds,
        corners,
    )?;
    if rows.len() > 64 {
        return Ok(fates);
    }
    settle(
        alloc,
        &mut simplex,
        rows,
        fates.as_mut_slice(),
        kept,
        bounds,
        corners,
    )?;
    Ok(fates)
}

/// As many flags, none set.
fn all_false(alloc: Global, n: usize) -> Result<Vec<bool>, AllocError>
    ensures { IfOk result (λ v. vec_len v ≡ n) }
{
    let mut v = Vec::new(alloc);
    for _ in 0..n {
        v.push(false)?;
    }
    Ok(v)
}

#[cfg(test)]
mod tests;

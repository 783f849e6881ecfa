//! Which rows are removed from the two lists of a domain, and the multipliers that prove them from rows that are kept.
#![tactic(auto)]

ghost use Rattle.std.specs.Prelude.{◌^◌, ◌<◌, length, All, IfOk};
ghost use Rattle.fb_types.specs.Domain.{IsHalfOver, AreBounds};
ghost use Rattle.multiplier_search.specs.Found.{IsBox};
ghost use Rattle.fb_certificate.specs.Lists.{AreCites};
ghost use Rattle.fb_certificate.specs.Thin.{IsThinList};
ghost use Rattle.row_removal.specs.Kinds.{kind_of};

mod cites;
mod domain_list;
mod lists;

use cites::cites_of;
use cnec_rows::RowProof;
pub use domain_list::DomainList;
use fb_certificate::Cite;
use fb_types::{Bounds, Items};
use lists::listed_rows;
use redundancy::thin;
use std::alloc::{AllocError, Global};

/// The rows that are removed from a list of a domain, by rising number: each with multipliers that prove it from rows
/// that are kept. The rows are those of the table, of all classes, with a coefficient for each of the bounds.
///
/// No kept row follows from the bounds alone, nor from one other kept row at 10^9. In a list of at most 64 rows, no kept
/// row that is not cited follows from two other kept rows at tenths of it. The one error is want of memory.
pub fn removed_rows(
    alloc: Global,
    rows: &Items<RowProof>,
    list: DomainList,
    bounds: &Items<Bounds>,
) -> Result<Items<Cite>, AllocError>
    requires rows_over { All (λ row. IsHalfOver (length bounds.now) ((kind_of list).half row)) rows.now }
    requires bounds_in_range { AreBounds bounds.now }
    requires is_box { IsBox bounds.now }
    requires few { length rows.now < 2 ^ 32 }
    ensures cites { IfOk result (λ cites. AreCites (kind_of list) bounds.now rows.now cites) }
    ensures thinned { IfOk result (λ cites. IsThinList (kind_of list) bounds.now rows.now cites) }
{
    let listed = listed_rows(alloc, rows.as_slice(), list)?;
    let fates = thin(alloc, &listed.halves, bounds)?;
    cites_of(alloc, fates.as_slice(), listed.numbers.as_slice())
}

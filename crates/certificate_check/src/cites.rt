//! Whether the cites of a domain's lists remove their rows rightly.

ghost use Rattle.std.specs.Prelude.{◌≡◌, ◌+◌, ◌≤◌, ◌^◌, ◌↔◌, IsTrue, List, length, All, IfOk};
ghost use Rattle.fb_types.specs.Domain.{IsHalfOver, AreBounds};
ghost use Rattle.fb_certificate.specs.Lists.{inner_half, outer_half};
ghost use Rattle.fb_certificate.specs.Thin.{IsProvedBy};
ghost use Rattle.fb_certificate.specs.declared.types.Cite.{Cite};
ghost use Rattle.row_removal.specs.Kinds.{kind_of};
ghost use Rattle.certificate_check.specs.CiteRulings.{HasCites, IsReady, CiteRuling, AreCitesJudged, AreListsJudged};
ghost use Rattle.certificate_check.specs.Judged.{number_of};
ghost use Rattle.certificate_check.specs.Records.{IsCited};

use crate::judgement::Judgement;
use crate::lists::{CitedList, halves_of, removed_by};
use crate::verdict::Reason;
use fb_certificate::{Cite, RowProof};
use fb_types::{Bounds, Items};
use redundancy::follows;
use row_removal::DomainList;
use std::alloc::{AllocError, Global};

/// Whether a cite removes a row of the list and cites rows that are kept in it.
fn is_cited(list: &CitedList, cite: &Cite) -> bool
    requires { length list.now.removed.items ≡ length list.now.rows.now }
    ensures { (cites : List Cite) → HasCites cites list.now → (IsTrue result ↔ IsCited (kind_of list.now.kind) list.now.rows.now cites cite.now) }
{
    if !list.is_listed(cite.row) {
        return false;
    }
    list.are_kept(cite.by.mults.as_slice())
}

/// Whether the row that a cite removes, if there is one, follows from the rows that it cites.
fn is_proved(list: &CitedList, cite: &Cite) -> bool
    requires { IsReady list.now }
    ensures { IsTrue result ↔ IsProvedBy (kind_of list.now.kind) list.now.bounds.now list.now.rows.now cite.now.row cite.now.by }
{
    let count = list.rows.len();
    let number = cite.row as usize;
    if number == 0 || count < number {
        return true;
    }
    let removed = &list.halves.as_slice()[number - 1];
    follows(removed, &list.halves, &cite.by, list.bounds)
}

/// The first reason for which a cite fails, if it does: `least` is the least row that it may remove.
fn cite_fault(list: &CitedList, least: u64, cite: &Cite) -> Option<Reason>
    requires { IsReady list.now }
    ensures { (cites : List Cite) → HasCites cites list.now → CiteRuling (kind_of list.now.kind) list.now.bounds.now list.now.rows.now cites least cite.now result }
{
    if u64::from(cite.row) < least {
        return Some(Reason::Order);
    }
    if !is_cited(list, cite) {
        return Some(Reason::Cited);
    }
    if !is_proved(list, cite) {
        return Some(Reason::Follows);
    }
    None
}

/// The number of the row after the one that a cite removes.
fn row_after(cite: &Cite) -> u64
    ensures value { result ≡ cite.now.row + 1 }
    ensures small { result ≤ 2 ^ 32 }
{
    u64::from(cite.row) + 1
}

/// Judges the cites of a list, which are those that remove its rows.
fn judge_cites(list: &CitedList, cites: &[Cite]) -> Judgement
    requires ready { IsReady list.now }
    requires cites { HasCites cites.now list.now }
    ensures judged { AreCitesJudged (kind_of list.now.kind) list.now.bounds.now list.now.rows.now cites.now result }
    ensures small { number_of result ≤ 2 ^ 33 }
{
    let mut least: u64 = 0;
    for i in 0..cites.len() {
        let cite = &cites[i];
        if let Some(reason) = cite_fault(list, least, cite) {
            return Judgement::Failed {
                record: i as u64 + 1,
                reason,
            };
        }
        least = row_after(cite);
    }
    Judgement::Passed {
        records: cites.len() as u64,
    }
}

/// Judges the cites of a list over the rows of the table, of all classes.
fn judge_list(
    alloc: Global,
    kind: DomainList,
    rows: &[RowProof],
    bounds: &Items<Bounds>,
    cites: &[Cite],
) -> Result<Judgement, AllocError>
    requires over { All (λ row. IsHalfOver (length bounds.now) ((kind_of kind).half row)) rows.now }
    requires bounds { AreBounds bounds.now }
    ensures judged { IfOk result (AreCitesJudged (kind_of kind) bounds.now rows.now cites.now) }
    ensures small { IfOk result (λ j. number_of j ≤ 2 ^ 33) }
{
    let list = CitedList {
        kind,
        rows,
        halves: halves_of(alloc, kind, rows)?,
        removed: removed_by(alloc, rows.len(), cites)?,
        bounds,
    };
    Ok(judge_cites(&list, cites))
}

/// Judges the cites of both lists over the rows of the table, of all classes.
pub(crate) fn judge_lists(
    alloc: Global,
    rows: &[RowProof],
    bounds: &Items<Bounds>,
    inner: &[Cite],
    outer: &[Cite],
) -> Result<Judgement, AllocError>
    requires over_inner { All (λ row. IsHalfOver (length bounds.now) (inner_half row)) rows.now }
    requires over_outer { All (λ row. IsHalfOver (length bounds.now) (outer_half row)) rows.now }
    requires bounds { AreBounds bounds.now }
    ensures judged { IfOk result (AreListsJudged bounds.now rows.now inner.now outer.now) }
    ensures small { IfOk result (λ j. number_of j ≤ 2 ^ 35) }
{
    let done = match judge_list(alloc, DomainList::Inner, rows, bounds, inner)? {
        Judgement::Passed { records } => records,
        Judgement::Failed { record, reason } => {
            return Ok(Judgement::Failed { record, reason });
        }
    };
    let judgement = judge_list(alloc, DomainList::Outer, rows, bounds, outer)?;
    Ok(judgement.behind(done))
}

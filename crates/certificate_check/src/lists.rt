//! A list of a domain, as its cites are judged: the rows that stand in it, and those that are kept.

ghost use Rattle.std.specs.Prelude.{◌≡◌, ℕ, ◌+◌, ◌<◌, ◌↔◌, ◌==◌, ◌||◌, true, false, IsTrue, List, length, map, All, IfOk, slice_index_or};
ghost use Rattle.fb_certificate.specs.Lists.{is_listed, is_kept};
ghost use Rattle.fb_certificate.specs.declared.types.Cite.{Cite};
ghost use Rattle.row_removal.specs.Kinds.{kind_of};
ghost use Rattle.certificate_check.specs.CiteRulings.{AreMarks, HasCites};

use fb_certificate::{Cite, RowProof};
use fb_types::{Bounds, Half, Items, Mult};
use row_removal::DomainList;
use std::alloc::{AllocError, Global};

/// A list of a domain, and which of its rows its cites remove.
#[derive(Drop)]
pub(crate) struct CitedList<'a> {
    pub(crate) kind: DomainList,
    /// The rows of the table, of all classes.
    pub(crate) rows: &'a [RowProof],
    /// Each row of the table with its right side in the list.
    pub(crate) halves: Items<Half>,
    /// For each row of the table, whether a cite removes it.
    pub(crate) removed: Vec<bool>,
    /// The bounds of the Core zones.
    pub(crate) bounds: &'a Items<Bounds>,
}

impl<'a> CitedList<'a> {
    /// Whether the row with this number stands in the list.
    pub(crate) fn is_listed(&self, number: u32) -> bool
        ensures { result ≡ is_listed (kind_of self.now.kind) self.now.rows.now number }
    {
        if number == 0 || self.rows.len() < number as usize {
            return false;
        }
        self.kind.holds(self.rows[number as usize - 1].class)
    }

    /// Whether the row with this number is kept in the list.
    fn is_kept(&self, number: u32) -> bool
        requires { length self.now.removed.items ≡ length self.now.rows.now }
        ensures { (cites : List Cite) → HasCites cites self.now → result ≡ is_kept (kind_of self.now.kind) self.now.rows.now cites number }
    {
        if number == 0 || self.rows.len() < number as usize {
            return false;
        }
        let place = number as usize - 1;
        self.kind.holds(self.rows[place].class) && !self.removed[place]
    }

    /// Whether the rows that are cited are kept in the list.
    pub(crate) fn are_kept(&self, mults: &[Mult]) -> bool
        requires { length self.now.removed.items ≡ length self.now.rows.now }
        ensures { (cites : List Cite) → HasCites cites self.now → (IsTrue result ↔ All (λ m. is_kept (kind_of self.now.kind) self.now.rows.now cites m.row ≡ true) mults.now) }
    {
        for m in mults {
            if !self.is_kept(m.row) {
                return false;
            }
        }
        true
    }
}

/// Marks the row with this number, if there is one.
fn mark(marks: &mut [bool], number: u32)
    ensures length { length marks.new ≡ length marks.old }
    ensures each { (k : ℕ) → k < length marks.old → slice_index_or marks.new k false ≡ (slice_index_or marks.old k false || (number == k + 1)) }
{
    if number == 0 || marks.len() < number as usize {
        return;
    }
    marks[number as usize - 1] = true;
}

/// For each of so many rows, whether a cite removes it.
pub(crate) fn removed_by(
    alloc: Global,
    count: usize,
    cites: &[Cite],
) -> Result<Vec<bool>, AllocError>
    ensures { IfOk result (λ marks. AreMarks cites.now count marks.items) }
{
    let mut marks = vec![in alloc; false; count]?;
    for cite in cites {
        mark(&mut marks, cite.row);
    }
    Ok(marks)
}

/// The rows of the table, each with its right side in a list.
pub(crate) fn halves_of(
    alloc: Global,
    list: DomainList,
    rows: &[RowProof],
) -> Result<Items<Half>, AllocError>
    ensures { IfOk result (λ halves. halves ≡ map (kind_of list).half rows.now) }
{
    let mut halves = Items::new(alloc);
    for row in rows {
        let half = list.half(alloc, row)?;
        halves.add(half)?;
    }
    Ok(halves)
}

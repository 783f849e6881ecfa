//! The two lists of a domain.

ghost use Rattle.std.specs.Prelude.{◌≡◌, IfOk};
ghost use Rattle.row_removal.specs.Kinds.{kind_of};

use cnec_rows::RowProof;
use cnec_selection::Class;
use fb_types::{Half, Items};
use std::alloc::{AllocError, Global};

/// A list of rows of a domain. The inner one has the rows that are certain or doubtful, and the outer one those that are
/// certain. A row has a right side of its own in each.
#[derive(Clone, Copy, Debug, PartialEq, Eq)]
pub enum DomainList {
    Inner,
    Outer,
}

impl DomainList {
    /// Whether the rows of a class stand in the list.
    pub fn holds(self, class: Class) -> bool
        ensures { result ≡ (kind_of self).holds class }
    {
        match self {
            DomainList::Inner => class != Class::Below,
            DomainList::Outer => class == Class::Certain,
        }
    }

    /// The right side that the row has in the list, in watts.
    pub fn side(self, row: &RowProof) -> i64
        ensures { result ≡ ((kind_of self).half row.now).r }
    {
        match self {
            DomainList::Inner => row.r_in,
            DomainList::Outer => row.r_out,
        }
    }

    /// The row as the list has it: its coefficients, and its right side in the list. The one error is want of memory.
    pub fn half(self, alloc: Global, row: &RowProof) -> Result<Half, AllocError>
        ensures { IfOk result (λ half. half ≡ (kind_of self).half row.now) }
    {
        let a = Vec::from_slice(alloc, row.a.as_slice())?;
        Ok(Half {
            a: Items::from_vec(a),
            r: self.side(row),
        })
    }
}

//! The rows that stand in a list of a domain.

ghost use Rattle.std.specs.Prelude.{◌≡◌, ◌^◌, ◌<◌, length, map, IfOk};
ghost use Rattle.row_removal.specs.Kinds.{kind_of};
ghost use Rattle.row_removal.specs.Renumbered.{listed_numbers, numbered_half};

use crate::domain_list::DomainList;
use cnec_rows::RowProof;
use fb_types::{Half, Items};
use std::alloc::{AllocError, Global};

/// The rows that stand in a list, and the number that each has in the table, from 1. The numbers rise.
#[derive(Drop)]
pub(crate) struct ListedRows {
    pub(crate) halves: Items<Half>,
    pub(crate) numbers: Items<u32>,
}

/// The rows of the table that stand in the list.
pub(crate) fn listed_rows(
    alloc: Global,
    rows: &[RowProof],
    list: DomainList,
) -> Result<ListedRows, AllocError>
    requires few { length rows.now < 2 ^ 32 }
    ensures numbers { IfOk result (λ listed. listed.numbers ≡ listed_numbers (kind_of list) rows.now (length rows.now)) }
    ensures halves { IfOk result (λ listed. listed.halves ≡ map (numbered_half (kind_of list) rows.now) listed.numbers) }
{
    let mut halves = Vec::new(alloc);
    let mut numbers = Vec::new(alloc);
    for (place, row) in rows.iter().enumerate() {
        if !list.holds(row.class) {
            continue;
        }
        let half = list.half(alloc, row)?;
        halves.push(half)?;
        numbers.push(place as u32 + 1)?;
    }
    Ok(ListedRows {
        halves: Items::from_vec(halves),
        numbers: Items::from_vec(numbers),
    })
}

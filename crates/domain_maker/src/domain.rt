//! A domain, made state by state.

ghost use Rattle.std.specs.Prelude.{◌≡◌, ◌≤◌, IfOk, map};
ghost use Rattle.fb_certificate.specs.Whole.{IsWhole};
ghost use Rattle.domain_maker.specs.Domains.{IsDomainOf};

use crate::removed::removed;
use crate::state_rows::made_rows;
use fan_out::Gate;
use fb_certificate::{Certificate, Inputs, MadeRow, RowProof, RowSpans};
use fb_types::Items;
use row_removal::DomainList;
use std::alloc::{AllocError, Global};
use std::thread::Threads;

/// A domain without the proofs of its grid states.
#[derive(Debug, Drop)]
pub struct Domain {
    /// Its certificate, with no proof of a state.
    pub certificate: Certificate,
    /// The spans of each row's numbers, in the order of the run.
    pub spans: Items<RowSpans>,
}

/// The domain of the inputs: the rows and the two lists of a certificate as `make_certificate` makes it, and the spans of
/// the rows.
///
/// Each grid state is proved, its rows are made, and its proof is let go: at any time there are at most as many proofs as
/// workers. The states are split among so many workers, from 1 to 64. The gate is told of each state by its number, the
/// base state's being 0, before the work on it begins. The one error is want of memory.
pub fn make_domain<R: Threads + Sync, G: Gate + Sync>(
    rt: &R,
    alloc: Global,
    inputs: &Inputs,
    gate: &G,
    workers: u32,
) -> Result<Domain, AllocError>
    requires whole { IsWhole inputs.now }
    requires workers { (1 ≤ workers) × (workers ≤ 64) }
    ensures { IfOk result (IsDomainOf inputs.now) }
{
    let made = made_rows(rt, alloc, inputs, gate, workers)?;
    let (spans, rows) = parts(alloc, made)?;
    let inner = removed(alloc, inputs, &rows, DomainList::Inner)?;
    let outer = removed(alloc, inputs, &rows, DomainList::Outer)?;
    Ok(Domain {
        certificate: Certificate {
            version: 1,
            states: Items::new(alloc),
            rows,
            inner,
            outer,
        },
        spans,
    })
}

/// The spans and the rows, each in a list of its own.
fn parts(
    alloc: Global,
    made: Items<MadeRow>,
) -> Result<(Items<RowSpans>, Items<RowProof>), AllocError>
    ensures spans { IfOk result (λ parts. parts.0 ≡ map (λ row. row.spans) made) }
    ensures rows { IfOk result (λ parts. parts.1 ≡ map (λ row. row.numbers) made) }
{
    let mut spans = Items::new(alloc);
    let mut rows = Items::new(alloc);
    for row in made.into_vec() {
        spans.add(row.spans)?;
        rows.add(row.numbers)?;
    }
    Ok((spans, rows))
}

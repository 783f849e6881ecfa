//! The certificate of a domain, made from what the domain is computed from.
#![tactic(auto)]

ghost use Rattle.std.specs.Prelude.{◌≤◌, IfOk};
ghost use Rattle.fb_certificate.specs.Thin.{IsThinDomain};
ghost use Rattle.fb_certificate.specs.Valid.{IsValid};
ghost use Rattle.fb_certificate.specs.Whole.{IsWhole};

mod domain;
mod removed;
mod state_rows;
mod states;

use crate::removed::removed;
use crate::states::prove_states;
pub use domain::{Domain, make_domain};
use fan_out::Gate;
use fb_certificate::{Certificate, Inputs, make_rows};
use row_removal::DomainList;
use std::alloc::{AllocError, Global};
use std::thread::Threads;
use valid_domains::row_ranges;

/// The certificate of the inputs, with the rows that follow from others removed from each of its two lists.
///
/// It is valid: each grid state is proved, the rows are those of the CRAC, in order, and each removed row follows from kept
/// ones by its multipliers. No kept row follows from the box alone or from one other kept row, nor, in a list of at most 64 rows,
/// from two where nothing cites it.
///
/// The proofs of the states are split among so many workers, from 1 to 64. The gate is told of each state by its number,
/// the base state's being 0, before the work on it begins. The one error is want of memory.
pub fn make_certificate<R: Threads + Sync, G: Gate + Sync>(
    rt: &R,
    alloc: Global,
    inputs: &Inputs,
    gate: &G,
    workers: u32,
) -> Result<Certificate, AllocError>
    requires whole { IsWhole inputs.now }
    requires workers { (1 ≤ workers) × (workers ≤ 64) }
    ensures valid { IfOk result (λ c. IsValid inputs.now c) }
    ensures thin { IfOk result (λ c. IsThinDomain inputs.now c) }
{
    let states = prove_states(rt, alloc, inputs, gate, workers)?;
    let rows = make_rows(alloc, inputs, &states)?;
    row_ranges(inputs, &states, &rows);
    let inner = removed(alloc, inputs, &rows, DomainList::Inner)?;
    let outer = removed(alloc, inputs, &rows, DomainList::Outer)?;
    Ok(Certificate {
        version: 1,
        states,
        rows,
        inner,
        outer,
    })
}

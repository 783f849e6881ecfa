//! The check of a certificate: whether it is valid, or the first of its records that fails, and why.
#![tactic(auto)]

ghost use Rattle.std.specs.Prelude.{◌≤◌, IfOk};
ghost use Rattle.fb_certificate.specs.Whole.{IsWhole};
ghost use Rattle.certificate_check.specs.Verdicts.{IsVerdict};

mod barriers;
mod blocks;
mod cites;
mod columns;
mod domain;
mod judgement;
pub mod laws;
mod lists;
mod rows;
mod states;
mod verdict;

use domain::judge_domain;
use fan_out::Gate;
use fb_certificate::{Certificate, Inputs};
use judgement::Judgement;
use states::judge_states;
use std::alloc::{AllocError, Global};
use std::thread::Threads;
pub use verdict::{Reason, Verdict};

/// Whether the certificate is valid for the inputs. If it is not: the first record that fails, counted from 1 at the
/// version, and the first reason there.
///
/// The certificate may be any value, whoever made it. The call is linear in its input, but that a cite takes a pass over
/// the zones for each row that it cites. The one error is want of memory.
///
/// The records of the states are judged by so many workers, from 1 to 64, whose number does not change the verdict. The
/// gate is told of each state that is judged by its number, the base state's being 0, before the work on it begins.
pub fn check<R: Threads + Sync, G: Gate + Sync>(
    rt: &R,
    alloc: Global,
    inputs: &Inputs,
    certificate: &Certificate,
    gate: &G,
    workers: u32,
) -> Result<Verdict, AllocError>
    requires whole { IsWhole inputs.now }
    requires workers { (1 ≤ workers) × (workers ≤ 64) }
    ensures { IfOk result (IsVerdict inputs.now certificate.now) }
{
    if certificate.version != 1 {
        return Ok(Verdict::No {
            row: 1,
            reason: Reason::Order,
        });
    }
    let proofs = certificate.states.as_slice();
    let states = match judge_states(rt, alloc, inputs, proofs, gate, workers)? {
        Judgement::Passed { records } => records,
        Judgement::Failed { record, reason } => {
            return Ok(Verdict::No {
                row: 1 + record,
                reason,
            });
        }
    };
    match judge_domain(alloc, inputs, certificate)? {
        Judgement::Passed { .. } => Ok(Verdict::Yes),
        Judgement::Failed { record, reason } => Ok(Verdict::No {
            row: 1 + states + record,
            reason,
        }),
    }
}

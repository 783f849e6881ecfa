//! The commands `domain`, `certify` and `report`: a domain, printed in one of its forms.

ghost use Rattle.std.specs.Prelude.{◌≤◌};
ghost use Rattle.fb_certificate.specs.Whole.{IsWhole};
ghost use Rattle.fbcc_core.specs.Commands.{computes, domain_work as domain_steps};
ghost use Rattle.fbcc_core.specs.NamedDocuments.{AreDomainNames};
ghost use Rattle.fbcc_core.specs.Seen.{shelf_seen};
ghost use Rattle.fbcc_core.specs.Words.{names_of};

use crate::answer::Fault;
use crate::documents::read_run_documents;
use crate::inputs::put_together;
use crate::paper::Paper;
use crate::work::Work;
use command_words::Request;
use fan_out::Gate;
use fb_base::Shelf;
use fb_certificate::Inputs;
use fb_types::Items;
use std::alloc::Global;
use std::thread::Threads;

/// Reads the documents that the request names, computes the domain, and writes what is printed of it.
pub fn domain_work<R: Threads + Sync, H: Shelf, G: Gate + Sync>(
    rt: &R,
    alloc: Global,
    request: &Request<'_>,
    paper: Paper,
    shelf: &mut H,
    gate: &G,
) -> Result<Work, Fault>
    requires names { AreDomainNames (names_of request.now) }
    requires workers { (1 ≤ request.now.workers) × (request.now.workers ≤ 64) }
    ensures { domain_steps paper (names_of request.now) (shelf_seen H.tells H.held H.faults H.last_failed shelf.old shelf.new) result }
{
    let documents = read_run_documents(alloc, request, shelf)?;
    let inputs = put_together(alloc, documents)?;
    compute(rt, alloc, paper, &inputs, gate, u32::from(request.workers))
}

/// What is printed of the domain of the inputs.
fn compute<R: Threads + Sync, G: Gate + Sync>(
    rt: &R,
    alloc: Global,
    paper: Paper,
    inputs: &Inputs,
    gate: &G,
    workers: u32,
) -> Result<Work, Fault>
    requires whole { IsWhole inputs.now }
    requires workers { (1 ≤ workers) × (workers ≤ 64) }
    ensures { computes paper inputs.now result }
{
    match paper.print(rt, alloc, inputs, gate, workers) {
        Ok(text) => Ok(Work {
            text: Items::from_vec(text),
            verdict: None,
        }),
        Err(e) => Err(Fault::Memory(e)),
    }
}

//! What is printed of a domain.

ghost use Rattle.std.specs.Prelude.{◌≤◌, IfOk};
ghost use Rattle.fb_certificate.specs.Whole.{IsWhole};
ghost use Rattle.fbcc_core.specs.Printing.{IsPrinted};
ghost use Rattle.fbcc_core.specs.declared.paper.Paper.TheVariants.{Table, Evidence, Report};

use certificate_files::reads_back;
use certificate_text::write_certificate;
use domain_maker::{make_certificate, make_domain};
use domain_report::write_domain;
use fan_out::Gate;
use fb_certificate::Inputs;
use run_report::write_report;
use std::alloc::{AllocError, Global};
use std::thread::Threads;
use valid_domains::sound;

/// What is printed of a domain.
#[derive(Clone, Copy, Debug, PartialEq, Eq)]
pub enum Paper {
    /// Its table: the rows with their two lists.
    Table,
    /// Its certificate: all that proves it.
    Evidence,
    /// Its report: spans, counts and notes.
    Report,
}

impl Paper {
    /// What is printed of the domain of the inputs, which is computed for it.
    ///
    /// A certificate has the proofs of all grid states, and they are held at once. Of the others each state's proof is let
    /// go once its rows are made.
    pub fn print<R: Threads + Sync, G: Gate + Sync>(
        self,
        rt: &R,
        alloc: Global,
        inputs: &Inputs,
        gate: &G,
        workers: u32,
    ) -> Result<Vec<u8>, AllocError>
        requires whole { IsWhole inputs.now }
        requires workers { (1 ≤ workers) × (workers ≤ 64) }
        ensures { IfOk result (λ text. IsPrinted self inputs.now text.items) }
    {
        match self {
            Paper::Table => print_table(rt, alloc, inputs, gate, workers),
            Paper::Evidence => print_evidence(rt, alloc, inputs, gate, workers),
            Paper::Report => print_report(rt, alloc, inputs, gate, workers),
        }
    }
}

/// The table of the domain.
fn print_table<R: Threads + Sync, G: Gate + Sync>(
    rt: &R,
    alloc: Global,
    inputs: &Inputs,
    gate: &G,
    workers: u32,
) -> Result<Vec<u8>, AllocError>
    requires whole { IsWhole inputs.now }
    requires workers { (1 ≤ workers) × (workers ≤ 64) }
    ensures { IfOk result (λ text. IsPrinted Table inputs.now text.items) }
{
    let domain = make_domain(rt, alloc, inputs, gate, workers)?;
    write_domain(alloc, inputs, &domain.certificate)
}

/// The text of the certificate of the domain, which reads back.
fn print_evidence<R: Threads + Sync, G: Gate + Sync>(
    rt: &R,
    alloc: Global,
    inputs: &Inputs,
    gate: &G,
    workers: u32,
) -> Result<Vec<u8>, AllocError>
    requires whole { IsWhole inputs.now }
    requires workers { (1 ≤ workers) × (workers ≤ 64) }
    ensures { IfOk result (λ text. IsPrinted Evidence inputs.now text.items) }
{
    let certificate = make_certificate(rt, alloc, inputs, gate, workers)?;
    sound(inputs, &certificate);
    reads_back(inputs, &certificate);
    write_certificate(alloc, inputs, &certificate)
}

/// The report of the domain.
fn print_report<R: Threads + Sync, G: Gate + Sync>(
    rt: &R,
    alloc: Global,
    inputs: &Inputs,
    gate: &G,
    workers: u32,
) -> Result<Vec<u8>, AllocError>
    requires whole { IsWhole inputs.now }
    requires workers { (1 ≤ workers) × (workers ≤ 64) }
    ensures { IfOk result (λ text. IsPrinted Report inputs.now text.items) }
{
    let domain = make_domain(rt, alloc, inputs, gate, workers)?;
    write_report(alloc, inputs, &domain.certificate, domain.spans.as_slice())
}

//! The command `check`: whether a certificate is valid for the documents of a domain.

ghost use Rattle.std.specs.Prelude.{◌≢◌, ◌≤◌, None};
ghost use Rattle.fb_certificate.specs.Whole.{IsWhole};
ghost use Rattle.fbcc_core.specs.Commands.{checks, check_work as check_steps};
ghost use Rattle.fbcc_core.specs.NamedDocuments.{AreDomainNames};
ghost use Rattle.fbcc_core.specs.Seen.{shelf_seen};
ghost use Rattle.fbcc_core.specs.Words.{names_of};

use crate::answer::{Document, Fault};
use crate::documents::{CertificateFile, read_certificate_document, read_run_documents};
use crate::inputs::put_together;
use crate::verdicts::{no, yes};
use crate::work::Work;
use certificate_check::Verdict;
use certificate_files::judge;
use command_words::Request;
use fan_out::Gate;
use fb_base::Shelf;
use fb_certificate::Inputs;
use std::alloc::Global;
use std::thread::Threads;
use valid_domains::sound;

/// Reads the documents that the request names, the certificate last, and judges the certificate.
pub fn check_work<R: Threads + Sync, H: Shelf, G: Gate + Sync>(
    rt: &R,
    alloc: Global,
    request: &Request<'_>,
    shelf: &mut H,
    gate: &G,
) -> Result<Work, Fault>
    requires names { AreDomainNames (names_of request.now) }
    requires certificate { names_of request.now Document.Certificate ≢ None }
    requires workers { (1 ≤ request.now.workers) × (request.now.workers ≤ 64) }
    ensures { check_steps (names_of request.now) (shelf_seen H.tells H.held H.faults H.last_failed shelf.old shelf.new) result }
{
    let documents = read_run_documents(alloc, request, shelf)?;
    let file = read_certificate_document(alloc, request, shelf)?;
    let inputs = put_together(alloc, documents)?;
    judge_file(rt, alloc, &inputs, &file, gate, u32::from(request.workers))
}

/// The verdict on the certificate.
fn judge_file<R: Threads + Sync, G: Gate + Sync>(
    rt: &R,
    alloc: Global,
    inputs: &Inputs,
    file: &CertificateFile,
    gate: &G,
    workers: u32,
) -> Result<Work, Fault>
    requires whole { IsWhole inputs.now }
    requires workers { (1 ≤ workers) × (workers ≤ 64) }
    ensures { checks inputs.now file.now result }
{
    let bytes = file.bytes.as_slice();
    match judge(rt, alloc, inputs, bytes, &file.certificate, gate, workers) {
        Ok(Verdict::Yes) => {
            sound(inputs, &file.certificate);
            yes(alloc)
        }
        Ok(Verdict::No { row, reason }) => no(alloc, row, reason),
        Err(e) => Err(Fault::Memory(e)),
    }
}

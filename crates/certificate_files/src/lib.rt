//! Files of certificates: the verdict on one, and that what is written of a valid certificate reads back with yes.
#![tactic(auto)]

ghost use Rattle.std.specs.Prelude.{◌≤◌, ℕ, List, All, IfOk};
ghost use Rattle.std.specs.Str.{IsUtf8};
ghost use Rattle.csv_rows.specs.Rows.{records_in};
ghost use Rattle.fb_certificate.specs.Valid.{IsValid};
ghost use Rattle.fb_certificate.specs.Whole.{IsWhole};
ghost use Rattle.fb_certificate.specs.declared.types.Certificate.{Certificate as CertificateValue};
ghost use Rattle.fb_certificate.specs.declared.types.Inputs.{Inputs as InputsValue};
ghost use Rattle.certificate_check.specs.Verdicts.{IsVerdict};
ghost use Rattle.certificate_check.specs.declared.verdict.Verdict.TheVariants.{Yes};
ghost use Rattle.certificate_files.specs.Files.{IsFileVerdict};
ghost use Rattle.certificate_labels.specs.Labels.{due_labels, IsWrongLabel};
ghost use Rattle.certificate_reader.specs.Reading.{IsReading};
ghost use Rattle.certificate_text.specs.CertificateTexts.{certificate_text};

pub mod laws;

use certificate_check::laws::yes_exactly_where_valid;
use certificate_check::{Reason, Verdict, check};
use certificate_labels::laws::{written_labels_are_due, written_records_are_lines};
use certificate_labels::wrong_label;
use certificate_reader::laws::texts_read_back;
use fan_out::Gate;
use fb_certificate::{Certificate, Inputs};
use fb_types::{Contingency, Items};
use std::alloc::{AllocError, Global};
use std::thread::Threads;
use valid_domains::ranges;

/// The verdict on the bytes of a file, which were read as this certificate: whether it is valid for the inputs and all
/// its labels are due, and otherwise the first record that fails, counted from 1, and the first reason there. A wrong
/// label is `Order`.
///
/// The states are judged by so many workers, from 1 to 64, as threads of the runtime; the verdict does not depend on
/// them. The one error is want of memory.
pub fn judge<R: Threads + Sync, G: Gate + Sync>(
    rt: &R,
    alloc: Global,
    inputs: &Inputs,
    bytes: &[u8],
    certificate: &Certificate,
    gate: &G,
    workers: u32,
) -> Result<Verdict, AllocError>
    requires whole { IsWhole inputs.now }
    requires workers { (1 ≤ workers) × (workers ≤ 64) }
    ensures { IfOk result (IsFileVerdict inputs.now bytes.now certificate.now) }
{
    let verdict = check(rt, alloc, inputs, certificate, gate, workers)?;
    let wrong = wrong_label(alloc, bytes, inputs)?;
    Ok(first_of(wrong, verdict))
}

/// The verdict that comes first: that on the record with a wrong label, if there is one, or that on the certificate.
fn first_of(wrong: Option<u64>, verdict: Verdict) -> Verdict
    ensures { (inputs : InputsValue) (bytes : List ℕ) (c : CertificateValue) → IsWrongLabel (due_labels inputs) (records_in bytes) wrong → IsVerdict inputs c verdict → IsFileVerdict inputs bytes c result }
{
    let Some(row) = wrong else {
        return verdict;
    };
    let mislabelled = Verdict::No {
        row,
        reason: Reason::Order,
    };
    match verdict {
        Verdict::No { row: failed, .. } if failed < row => verdict,
        _ => mislabelled,
    }
}

/// Law: the text of a valid certificate of whole inputs reads as that certificate, and the verdict on it is yes.
///
/// It looks once at the id of each contingency, which is a text, and computes nothing.
pub fn reads_back(inputs: &Inputs, certificate: &Certificate)
    requires whole { IsWhole inputs.now }
    requires valid { IsValid inputs.now certificate.now }
    ensures reading { IsReading (certificate_text inputs.now certificate.now) certificate.now }
    ensures verdict { IsFileVerdict inputs.now (certificate_text inputs.now certificate.now) certificate.now Yes }
{
    ids_are_texts(&inputs.crac.contingencies);
    ranges(inputs, certificate);
    texts_read_back();
    written_records_are_lines();
    written_labels_are_due();
    yes_exactly_where_valid();
}

/// The ids of contingencies are UTF-8: a contract sees their bytes alone, and not that they are texts.
fn ids_are_texts(contingencies: &Items<Contingency>)
    ensures { All (λ c. IsUtf8 c.id) contingencies.now }
{
    for contingency in contingencies.as_slice() {
        let _ = contingency.id.as_text();
    }
}

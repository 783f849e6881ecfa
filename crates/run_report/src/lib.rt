//! The report of a run, one line of JSON, and the summary of a generated case.
#![tactic(auto)]

ghost use Rattle.std.specs.Prelude.{◌≡◌, IfOk, length, string_bytes};
ghost use Rattle.run_settings.specs.Laws.{core_bounds};
ghost use Rattle.fb_certificate.specs.CracRows.{crac_rows};
ghost use Rattle.fb_certificate.specs.Lists.{AreCites, inner_list, outer_list};
ghost use Rattle.fb_certificate.specs.Whole.{IsWhole};
ghost use Rattle.run_report.specs.Lines.{classes_text, gap_text, head_text, inner_text, outer_text};
ghost use Rattle.run_report.specs.ReportTexts.{report_text};

mod case_summary;
mod json;
mod notes;
mod rows;
mod summary;

pub use case_summary::write_summary;
use fb_certificate::{Certificate, Inputs, RowSpans};
use json::array_text;
use notes::notes;
use rows::put_rows;
use std::alloc::{AllocError, Global};
use summary::{Summary, summary_of};

/// The report of a run, from the rows and the two lists of a certificate that is valid for its inputs, and the spans of
/// the rows: one line of compact JSON, an object whose members stand in the order of their names. No proof of a state is
/// read.
///
/// `rows` has an object for each row of the CRAC, element by element, DIRECT before OPPOSITE: its number from 1, the id
/// of its element, its direction, its class, its flows and its margin, each as the two ends of a span in whole watts,
/// the low one rounded down and the high one up, its spread as the two ends of a span in 10^-12, and the gap of its
/// right sides in watts. Beside the rows stand how many are BELOW and how many DOUBTFUL, how many of each list are kept
/// and how many removed, the greatest gap of all rows, and the ids of the branches whose reactance was raised.
pub fn write_report(
    alloc: Global,
    inputs: &Inputs,
    certificate: &Certificate,
    spans: &[RowSpans],
) -> Result<Vec<u8>, AllocError>
    requires whole { IsWhole inputs.now }
    requires rows { length certificate.now.rows ≡ length (crac_rows inputs.now.crac.elements) }
    requires spans { length spans.now ≡ length (crac_rows inputs.now.crac.elements) }
    requires inner { AreCites inner_list (core_bounds inputs.now.settings.zones) certificate.now.rows certificate.now.inner }
    requires outer { AreCites outer_list (core_bounds inputs.now.settings.zones) certificate.now.rows certificate.now.outer }
    ensures { IfOk result (λ text. text.items ≡ report_text inputs.now certificate.now spans.now) }
{
    let notes = notes(alloc, inputs.grid.branches.as_slice())?;
    let notes = array_text(alloc, notes.as_slice())?;
    let summary = summary_of(inputs, certificate);
    let mut line = line_head(alloc, &summary, notes.as_str())?;
    put_rows(alloc, &mut line, inputs, certificate, spans)?;
    line.push_str("]}\n")?;
    Ok(line.into_bytes())
}

/// The line up to its rows, from its counts and its notes.
fn line_head(alloc: Global, summary: &Summary, notes: &str) -> Result<String, AllocError>
    ensures { IfOk result (λ head. string_bytes head ≡ head_text summary.now notes.now) }
{
    let classes = classes(alloc, summary)?;
    let inner = inner(alloc, summary)?;
    let outer = outer(alloc, summary)?;
    format!(in alloc; "{classes}{inner}{notes}{outer}[")
}

/// The counts of rows by class, and the greatest gap.
fn classes(alloc: Global, summary: &Summary) -> Result<String, AllocError>
    ensures { IfOk result (λ text. string_bytes text ≡ classes_text summary.now) }
{
    let below = summary.below;
    let doubtful = summary.doubtful;
    let gap = greatest_gap(alloc, summary.greatest_gap)?;
    format!(in alloc; "{{\"below\":{below},\"doubtful\":{doubtful}{gap}")
}

/// The member of the greatest gap.
fn greatest_gap(alloc: Global, gap: i128) -> Result<String, AllocError>
    ensures { IfOk result (λ text. string_bytes text ≡ gap_text gap) }
{
    format!(in alloc; ",\"greatestGap\":{gap}")
}

/// The members from those of the inner list to the notes.
fn inner(alloc: Global, summary: &Summary) -> Result<String, AllocError>
    ensures { IfOk result (λ text. string_bytes text ≡ inner_text summary.now) }
{
    let kept = summary.inner_kept;
    let removed = summary.inner_removed;
    format!(in alloc; ",\"innerKept\":{kept},\"innerRemoved\":{removed},\"notes\":")
}

/// The members from those of the outer list to the rows.
fn outer(alloc: Global, summary: &Summary) -> Result<String, AllocError>
    ensures { IfOk result (λ text. string_bytes text ≡ outer_text summary.now) }
{
    let kept = summary.outer_kept;
    let removed = summary.outer_removed;
    format!(in alloc; ",\"outerKept\":{kept},\"outerRemoved\":{removed},\"rows\":")
}

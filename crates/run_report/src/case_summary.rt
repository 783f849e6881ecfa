//! The summary of a generated case: eight lines.

ghost use Rattle.std.specs.Prelude.{◌≡◌, IfOk, string_bytes};
ghost use Rattle.fb_certificate.specs.Valid.{IsValid};
ghost use Rattle.fb_certificate.specs.Whole.{IsWhole};
ghost use Rattle.run_report.specs.Lines.{class_lines, gap_line, list_line, list_lines, size_lines, summary_lines};
ghost use Rattle.run_report.specs.SummaryTexts.{summary_text};

use crate::summary::{Summary, summary_of};
use fb_certificate::{Certificate, Inputs};
use std::alloc::{AllocError, Global};

/// The summary of the generated case with this number and so many nodes, from a certificate that is valid for its
/// inputs: eight lines, each with a line feed at its end.
///
/// They say which case it is and how many nodes it has, how many rows, how many of them are BELOW, how many DOUBTFUL,
/// how many rows of the inner list are kept and how many removed, the same of the outer list, the greatest gap of all
/// rows, BELOW ones too, in watts, and that the check takes the certificate, as it takes every valid one. The only
/// error is that memory runs out.
pub fn write_summary(
    alloc: Global,
    case: u64,
    nodes: u32,
    inputs: &Inputs,
    certificate: &Certificate,
) -> Result<Vec<u8>, AllocError>
    requires whole { IsWhole inputs.now }
    requires valid { IsValid inputs.now certificate.now }
    ensures { IfOk result (λ text. text.items ≡ summary_text case nodes certificate.now) }
{
    let rows = certificate.rows.len();
    let summary = summary_of(inputs, certificate);
    let text = summary_lines(alloc, case, nodes, rows, &summary)?;
    Ok(text.into_bytes())
}

/// The lines, from the number of the case, how many nodes and rows it has, and its counts.
fn summary_lines(
    alloc: Global,
    case: u64,
    nodes: u32,
    rows: u64,
    summary: &Summary,
) -> Result<String, AllocError>
    ensures { IfOk result (λ text. string_bytes text ≡ summary_lines case nodes rows summary.now) }
{
    let size = size_lines(alloc, case, nodes, rows)?;
    let classes = class_lines(alloc, summary)?;
    let lists = list_lines(alloc, summary)?;
    let gap = gap_line(alloc, summary.greatest_gap)?;
    format!(in alloc; "{size}{classes}{lists}{gap}check yes\n")
}

/// The lines of the case and of its rows.
fn size_lines(alloc: Global, case: u64, nodes: u32, rows: u64) -> Result<String, AllocError>
    ensures { IfOk result (λ text. string_bytes text ≡ size_lines case nodes rows) }
{
    format!(in alloc; "case {case} nodes {nodes}\nrows {rows}\n")
}

/// The lines of the counts of rows by class.
fn class_lines(alloc: Global, summary: &Summary) -> Result<String, AllocError>
    ensures { IfOk result (λ text. string_bytes text ≡ class_lines summary.now) }
{
    let below = summary.below;
    let doubtful = summary.doubtful;
    format!(in alloc; "below {below}\ndoubtful {doubtful}\n")
}

/// The lines of the two lists.
fn list_lines(alloc: Global, summary: &Summary) -> Result<String, AllocError>
    ensures { IfOk result (λ text. string_bytes text ≡ list_lines summary.now) }
{
    let inner = list_line(alloc, "inner", summary.inner_kept, summary.inner_removed)?;
    let outer = list_line(alloc, "outer", summary.outer_kept, summary.outer_removed)?;
    format!(in alloc; "{inner}{outer}")
}

/// The line of a list: how many rows are kept in it, and how many removed from it.
fn list_line(alloc: Global, list: &str, kept: u64, removed: u64) -> Result<String, AllocError>
    ensures { IfOk result (λ text. string_bytes text ≡ list_line list.now kept removed) }
{
    format!(in alloc; "{list} kept {kept} removed {removed}\n")
}

/// The line of the greatest gap.
fn gap_line(alloc: Global, gap: i128) -> Result<String, AllocError>
    ensures { IfOk result (λ text. string_bytes text ≡ gap_line gap) }
{
    format!(in alloc; "greatest gap {gap}\n")
}

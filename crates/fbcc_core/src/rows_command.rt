//! The command `rows`: whether the multipliers of a rows document prove its target.

ghost use Rattle.std.specs.Prelude.{◌≢◌, ◌≤◌, All, None, IfErr, IfOk, length};
ghost use Rattle.fb_types.specs.Domain.{IsHalfOver, AreBounds};
ghost use Rattle.fbcc_core.specs.Commands.{IsYes, IsNo, Proves, HoldsTarget, judges, rows_work as rows_steps};
ghost use Rattle.fbcc_core.specs.Seen.{shelf_seen};
ghost use Rattle.fbcc_core.specs.Steps.{IsMemory};
ghost use Rattle.fbcc_core.specs.Words.{names_of};

use crate::answer::{Document, Fault};
use crate::fetching::fetch_document;
use crate::understanding::rows_in;
use crate::verdicts::{no, yes};
use crate::work::Work;
use certificate_check::Reason;
use command_words::Request;
use fb_base::Shelf;
use redundancy::follows;
use rows_document::RowsDocument;
use std::alloc::Global;

/// Reads the rows document that the request names, and judges it.
pub fn rows_work<H: Shelf>(
    alloc: Global,
    request: &Request<'_>,
    shelf: &mut H,
) -> Result<Work, Fault>
    requires { names_of request.now Document.Rows ≢ None }
    ensures { rows_steps (names_of request.now) (shelf_seen H.tells H.held H.faults H.last_failed shelf.old shelf.new) result }
{
    let bytes = fetch_document(alloc, request, Document::Rows, shelf)?;
    let document = rows_in(alloc, bytes.as_slice())?;
    judge(alloc, &document)
}

/// The verdict on the document.
fn judge(alloc: Global, document: &RowsDocument) -> Result<Work, Fault>
    requires target_over { IsHalfOver (length document.now.bounds) document.now.target }
    requires rows_over { All (λ row. IsHalfOver (length document.now.bounds) row) document.now.rows }
    requires bounds_in_range { AreBounds document.now.bounds }
    requires few_rows { length document.now.rows ≤ 40000 }
    ensures { judges document.now result }
{
    if follows(
        &document.target,
        &document.rows,
        &document.by,
        &document.bounds,
    ) {
        yes(alloc)
    } else {
        fails(alloc, document)
    }
}

/// The verdict no, at the line of the target.
fn fails(alloc: Global, document: &RowsDocument) -> Result<Work, Fault>
    requires fails { ¬ Proves document.now }
    requires few_zones { length document.now.bounds ≤ 64 }
    requires few_rows { length document.now.rows ≤ 40000 }
    ensures no { IfOk result (IsNo document.now) }
    ensures memory { IfErr result IsMemory }
{
    let line = document.bounds.len() + document.rows.len() + 1;
    no(alloc, line, Reason::Follows)
}

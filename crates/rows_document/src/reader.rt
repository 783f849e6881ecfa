//! The rows document as a whole.

ghost use Rattle.std.specs.Prelude.{◌≡◌, ◌≤◌, ℕ, IfOk, IfErr, length};
ghost use Rattle.std.specs.List.{All};
ghost use Rattle.fb_types.specs.Domain.{IsHalfOver, AreBounds};
ghost use Rattle.rows_document.specs.Table.{lines_of};
ghost use Rattle.rows_document.specs.Drafts.{IsDraftOf, IsBadLineOf};
ghost use Rattle.rows_document.specs.Reading.{IsReading, IsFirstBadLine, SaysOf, IsDocumentOrMemory, IsBadLineOrMemory};

use crate::draft::Draft;
use crate::lines::first_line;
use crate::record::read_record;
use fb_types::{Bounds, Half, Items, Multipliers};
use std::alloc::{AllocError, Global};

/// A box of net positions, rows over its zones, a target row, and the multipliers that are to prove it from the rows.
///
/// There are one to 64 zones and at most 40,000 rows. Bounds are within 10^11 W, right sides within 2·10^13 W and
/// coefficients within 10^12.
#[derive(Debug, Drop)]
pub struct RowsDocument {
    pub bounds: Items<Bounds>,
    pub rows: Items<Half>,
    pub target: Half,
    pub by: Multipliers,
}

/// Why a rows document was not read.
#[derive(Debug, Drop)]
pub enum RowsError {
    /// The first bad line, counted from 1, or the place after the last.
    Fault { line: u64 },
    Memory(AllocError),
}

/// Reads a rows document.
///
/// The answer is the one document that the bytes spell, or the first bad line where they spell none.
pub fn read_rows(alloc: Global, bytes: &[u8]) -> Result<RowsDocument, RowsError>
    // Each answer comes only where it is true, and wherever it is true, unless memory runs out.
    ensures says { SaysOf bytes.now result }
    ensures reads { (d : RowsDocument) → IsReading bytes.now d → IsDocumentOrMemory result d }
    ensures bad { (line : ℕ) → IsFirstBadLine (lines_of bytes.now) line → IsBadLineOrMemory result line }

    // What judging the rows needs.
    ensures target_over { IfOk result (λ d. IsHalfOver (length d.bounds) d.target) }
    ensures rows_over { IfOk result (λ d. All (λ row. IsHalfOver (length d.bounds) row) d.rows) }
    ensures bounds_in_range { IfOk result (λ d. AreBounds d.bounds) }
{
    let Drafted { draft, lines } = match read_lines(alloc, bytes) {
        Ok(drafted) => drafted,
        Err(e) => return Err(e),
    };
    match draft.finish() {
        Some(document) => Ok(document),
        None => Err(RowsError::Fault { line: lines + 1 }),
    }
}

/// The records of all lines, and how many lines there are.
struct Drafted {
    draft: Draft,
    lines: u64,
}

/// Reads the lines into a draft, up to the first bad one.
fn read_lines(alloc: Global, bytes: &[u8]) -> Result<Drafted, RowsError>
    ensures drafted { IfOk result (λ d. IsDraftOf (lines_of bytes.now) d.draft) }
    ensures counted { IfOk result (λ d. d.lines ≡ length (lines_of bytes.now)) }
    ensures small { IfOk result (λ d. d.lines ≤ length bytes.now) }
    ensures fault { IfErr result (IsBadLineOf (lines_of bytes.now)) }
{
    let mut draft = Draft::new(alloc);
    let mut number: u64 = 0;
    let mut rest = bytes;
    'lines: while !rest.is_empty() {
        let line = first_line(rest);
        let next = match read_record(alloc, line.text) {
            Ok(Some(next)) => next,
            Ok(None) => return Err(RowsError::Fault { line: number + 1 }),
            Err(e) => return Err(RowsError::Memory(e)),
        };
        if !draft.takes(&next) {
            return Err(RowsError::Fault { line: number + 1 });
        }
        if let Err(e) = draft.take(next) {
            return Err(RowsError::Memory(e));
        }
        number += 1;
        rest = line.rest;
    }
    Ok(Drafted {
        draft,
        lines: number,
    })
}

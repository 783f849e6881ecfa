//! The lines of a document, one by one, and the fields of a line.

ghost use Rattle.std.specs.Prelude.{◌≡◌, ◌<◌, ◌≤◌, ◌∷◌, ◌==◌, length, map, IfOk, IfNone, IfSome, count_by};
ghost use Rattle.rows_document.specs.Table.{lines_of, fields_of};

use std::alloc::{AllocError, Global};

/// The greatest count of fields of a line: a keyword, a right side and 64 coefficients.
pub const MOST_FIELDS: usize = 66;

/// A line, without its line feed, and what stands after it.
#[derive(Clone, Copy, Debug)]
pub struct Line<'a> {
    pub text: &'a [u8],
    pub rest: &'a [u8],
}

/// The first line of a text that is not empty.
pub fn first_line(bytes: &[u8]) -> Line<'_>
    requires { 0 < length bytes.now }
    ensures parted { lines_of bytes.now ≡ result.text.now ∷ lines_of result.rest.now }
    ensures shorter { length result.rest.now < length bytes.now }
{
    for at in 0..bytes.len() {
        if bytes[at] == b'\n' {
            return Line {
                text: &bytes[..at],
                rest: &bytes[at + 1..],
            };
        }
    }
    Line {
        text: bytes,
        rest: &bytes[bytes.len()..],
    }
}

/// The fields of a line, if there are at most as many as a line can have.
pub fn fields(alloc: Global, line: &[u8]) -> Result<Option<Vec<&[u8]>>, AllocError>
    ensures some { IfOk result (λ o. IfSome o (λ v. map (λ f. f.now) v.items ≡ fields_of line.now)) }
    ensures none { IfOk result (λ o. IfNone o (MOST_FIELDS < length (fields_of line.now))) }
{
    if commas(line) >= MOST_FIELDS {
        return Ok(None);
    }
    let fields = between_commas(alloc, line)?;
    Ok(Some(fields))
}

/// How many commas a line has.
fn commas(line: &[u8]) -> usize
    ensures { result ≡ count_by (λ b. b == 44) line.now }
{
    line.iter().filter(|b| **b == b',').count()
}

/// The parts of a line between commas.
fn between_commas(alloc: Global, line: &[u8]) -> Result<Vec<&[u8]>, AllocError>
    ensures { IfOk result (λ v. map (λ f. f.now) v.items ≡ fields_of line.now) }
{
    line.split(|b| *b == b',').collect(alloc)
}

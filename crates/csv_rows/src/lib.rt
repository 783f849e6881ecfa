//! Tables as CSV text (RFC 4180), as the crate `csv` writes and reads it. Written: fields between commas, each record ended by
//! a line feed, a field with a comma, a quotation mark, a line feed or a carriage return quoted. Read: a byte order mark at
//! the start is dropped, a line feed, a carriage return or both end a record, empty lines are no records, and records may
//! have any number of fields.
#![tactic(auto)]

ghost use Rattle.std.specs.Prelude.{◌≡◌, ◌∷◌, [], true, false, IfOk};
ghost use Rattle.csv.specs.Records.{fields_of};
ghost use Rattle.csv_rows.specs.Rows.{records_in, rows_left, IsAtRow, IsWantOfMemory};

mod fields;
mod table;
mod wholes;

use csv::{ByteRecord, Error, ErrorKind, Reader, ReaderBuilder};
pub use fields::Fields;
use std::alloc::{AllocError, Global};
pub use table::Table;
pub use wholes::put_whole;

/// A reader of the records of the text, at the first of them.
pub fn rows(alloc: Global, text: &[u8]) -> Reader<&[u8]>
    ensures at_row { IsAtRow result }
    ensures all { rows_left result ≡ records_in text.now }
{
    ReaderBuilder::new()
        .has_headers(false)
        .flexible(true)
        .from_reader(alloc, text)
}

/// The error of a reader that has no other error than want of memory.
fn want_of_memory(kind: &ErrorKind) -> AllocError
    requires { IsWantOfMemory kind.now }
{
    match kind {
        ErrorKind::OutOfMemory | ErrorKind::Io(_) => AllocError,
        _ => unreachable!(),
    }
}

/// Reads the next record into `row`, or says that none is left. A record may have any number of fields, so the one error is
/// want of memory; an error of input and output, which the contracts of `csv` do not rule out over a slice, is taken for it.
pub fn next_row(reader: &mut Reader<&[u8]>, row: &mut ByteRecord) -> Result<bool, AllocError>
    requires { IsAtRow reader.old }
    ensures some { IfOk result (λ found. found ≡ true → rows_left reader.old ≡ fields_of row.new ∷ rows_left reader.new) }
    ensures at_row { IfOk result (λ found. found ≡ true → IsAtRow reader.new) }
    ensures none { IfOk result (λ found. found ≡ false → rows_left reader.old ≡ []) }
{
    match reader.read_byte_record(row) {
        Ok(found) => Ok(found),
        Err(e) => Err(want_of_memory(e.kind())),
    }
}

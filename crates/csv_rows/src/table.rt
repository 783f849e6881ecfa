//! Tables that are written record by record, each by one writer.

ghost use Rattle.std.specs.Prelude.{◌≡◌, ◌++◌, [], map, true, false, Err, IfOk, OnOk, OnErr, alloc_error};
ghost use Rattle.csv.specs.Records.{fields_of};
ghost use Rattle.csv_rows.specs.Tables.{record_text};
ghost use Rattle.csv_rows.specs.TableStates.{IsAtRecord, written_text};

use crate::fields::Fields;
use csv::{ByteRecord, Error, Writer, WriterBuilder};
use std::alloc::{AllocError, Global};
use std::marker::Model;

/// A CSV table under way. A contract sees the text of its records, and whether one has failed: once there was no memory for
/// a record, each further call fails.
#[derive(Drop)]
pub struct Table {
    writer: Writer<Vec<u8>>,
    has_failed: bool,
}

impl Model for Table {
    ghost use Rattle.std.specs.Prelude.{◌≡◌, false};
    ghost use Rattle.csv_rows.specs.TableStates.{TableState, IsAtRecord, written_text};

    ghost Value = { TableState };

    ghost view = { λ t. record { text = written_text t.writer; has_failed = t.has_failed } };

    ghost invariant = { λ t. t.has_failed ≡ false → IsAtRecord t.writer };
}

/// A writer of records of any lengths.
fn record_writer(alloc: Global) -> Writer<Vec<u8>>
    ensures at_record { IsAtRecord result }
    ensures empty { written_text result ≡ [] }
{
    WriterBuilder::new()
        .flexible(true)
        .from_writer(Vec::new(alloc))
}

/// Writes a record of these fields.
fn write_slices(writer: &mut Writer<Vec<u8>>, fields: &[&[u8]]) -> Result<(), Error>
    requires { IsAtRecord writer.old }
    ensures at_record { OnOk result (IsAtRecord writer.new) }
    ensures text { OnOk result (written_text writer.new ≡ written_text writer.old ++ record_text (map (λ f. f.now) fields.now)) }
{
    writer.write_fields(fields)
}

/// Writes a record.
fn write_row(writer: &mut Writer<Vec<u8>>, row: &ByteRecord) -> Result<(), Error>
    requires { IsAtRecord writer.old }
    ensures at_record { OnOk result (IsAtRecord writer.new) }
    ensures text { OnOk result (written_text writer.new ≡ written_text writer.old ++ record_text (fields_of row.now)) }
{
    writer.write_byte_record(row)
}

impl Table {
    /// A table with no record.
    pub fn new(alloc: Global) -> Table
        ensures text { result.text ≡ [] }
        ensures has_failed { result.has_failed ≡ false }
    {
        Table {
            writer: record_writer(alloc),
            has_failed: false,
        }
    }

    /// Appends a record of these fields.
    pub fn put_slices(&mut self, fields: &[&[u8]]) -> Result<(), AllocError>
        ensures ok { OnOk result (self.new.text ≡ self.old.text ++ record_text (map (λ f. f.now) fields.now)) }
        ensures err { OnErr result (self.new.has_failed ≡ true) }
        ensures failed { self.old.has_failed ≡ true → result ≡ Err alloc_error }
    {
        if self.has_failed {
            return Err(AllocError);
        }
        match write_slices(&mut self.writer, fields) {
            Ok(()) => Ok(()),
            Err(_) => {
                self.has_failed = true;
                Err(AllocError)
            }
        }
    }

    /// Appends a record of these fields.
    pub fn put_fields(&mut self, fields: &Fields) -> Result<(), AllocError>
        ensures ok { OnOk result (self.new.text ≡ self.old.text ++ record_text fields.now) }
        ensures err { OnErr result (self.new.has_failed ≡ true) }
        ensures failed { self.old.has_failed ≡ true → result ≡ Err alloc_error }
    {
        if self.has_failed {
            return Err(AllocError);
        }
        match write_row(&mut self.writer, fields.as_row()) {
            Ok(()) => Ok(()),
            Err(_) => {
                self.has_failed = true;
                Err(AllocError)
            }
        }
    }

    /// The text of the table.
    pub fn into_text(self) -> Result<Vec<u8>, AllocError>
        ensures ok { IfOk result (λ text. text.items ≡ self.text) }
        ensures failed { self.has_failed ≡ true → result ≡ Err alloc_error }
    {
        let Table { writer, has_failed } = self;
        if has_failed {
            return Err(AllocError);
        }
        match writer.into_inner() {
            Ok(text) => Ok(text),
            Err(_) => Err(AllocError),
        }
    }
}

//! The fields of a record under way.

ghost use Rattle.std.specs.Prelude.{◌≡◌, ◌++◌, ◌∷◌, [], OnOk, OnErr};
ghost use Rattle.std.specs.Fmt.{signed_decimal};
ghost use Rattle.csv.specs.Records.{fields_of};

use csv::ByteRecord;
use itoa::Buffer;
use std::alloc::{AllocError, Global};
use std::marker::Model;

/// The fields of a record under way, whose memory serves one record after another. A contract sees the list of the fields.
#[derive(Drop)]
pub struct Fields {
    row: ByteRecord,
}

impl Model for Fields {
    ghost use Rattle.std.specs.Prelude.{◌≡◌, ℕ, List, []};
    ghost use Rattle.csv.specs.Records.{fields_of, partial_of};

    ghost Value = { List (List ℕ) };

    ghost view = { λ f. fields_of f.row };

    ghost invariant = { λ f. partial_of f.row ≡ [] };
}

impl Fields {
    /// A record with no field.
    pub fn new(alloc: Global) -> Fields
        ensures { result ≡ [] }
    {
        Fields {
            row: ByteRecord::new(alloc),
        }
    }

    /// Takes each field away.
    pub fn clear(&mut self)
        ensures { self.new ≡ [] }
    {
        self.row.clear();
    }

    /// Appends a text as a field. Where there is no memory no field is left.
    pub fn put_text(&mut self, text: &str) -> Result<(), AllocError>
        ensures ok { OnOk result (self.new ≡ self.old ++ text.now ∷ []) }
        ensures err { OnErr result (self.new ≡ []) }
    {
        match self.row.push_field(text.as_bytes()) {
            Ok(()) => Ok(()),
            Err(e) => {
                self.row.clear();
                Err(e)
            }
        }
    }

    /// Appends a whole number as a field. Where there is no memory no field is left.
    pub fn put_whole(&mut self, number: i128) -> Result<(), AllocError>
        ensures ok { OnOk result (self.new ≡ self.old ++ signed_decimal number ∷ []) }
        ensures err { OnErr result (self.new ≡ []) }
    {
        let mut digits = Buffer::new();
        self.put_text(digits.format(number))
    }

    /// The record.
    pub(crate) fn as_row(&self) -> &ByteRecord
        ensures { fields_of result.now ≡ self.now }
    {
        &self.row
    }
}

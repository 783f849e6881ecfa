//! The lines of the rows.

ghost use Rattle.std.specs.Prelude.{◌≡◌, ◌++◌, ◌∷◌, IfOk, OnOk, string_bytes};
ghost use Rattle.csv_rows.specs.Tables.{record_text};
ghost use Rattle.certificate_text.specs.CertificateTexts.{line_of_row, lines_of_rows, lines_text};
ghost use Rattle.certificate_text.specs.Lines.{fields_of, row_text};

use crate::line::put_line;
use crate::numbers::put_spaced;
use cnec_rows::RowProof;
use csv_rows::Table;
use domain_report::class_word;
use itoa::Buffer;
use std::alloc::{AllocError, Global};

/// Appends the line of each row, numbered from 1.
pub(crate) fn put_rows(
    alloc: Global,
    table: &mut Table,
    rows: &[RowProof],
) -> Result<(), AllocError>
    ensures { OnOk result (table.new.text ≡ table.old.text ++ lines_text (lines_of_rows rows.now)) }
{
    for (k, row) in rows.iter().enumerate() {
        put_numbered(alloc, table, k + 1, row)?;
    }
    Ok(())
}

/// Appends the line of the row with this number.
fn put_numbered(
    alloc: Global,
    table: &mut Table,
    number: usize,
    row: &RowProof,
) -> Result<(), AllocError>
    ensures { OnOk result (table.new.text ≡ table.old.text ++ record_text (fields_of (line_of_row (number, row.now)))) }
{
    let mut digits = Buffer::new();
    let value = row_text(alloc, row)?;
    put_line(table, "row", digits.format(number), value.as_str())
}

/// The class of a row, its right sides and its coefficients.
fn row_text(alloc: Global, row: &RowProof) -> Result<String, AllocError>
    ensures { IfOk result (λ text. string_bytes text ≡ row_text row.now) }
{
    let mut text = String::from_str(alloc, class_word(row.class))?;
    put_spaced(&mut text, &[row.r_in, row.r_out])?;
    put_spaced(&mut text, row.a.as_slice())?;
    Ok(text)
}

//! The lines of the rows that are removed.

ghost use Rattle.std.specs.Prelude.{◌≡◌, ◌++◌, map, OnOk};
ghost use Rattle.csv_rows.specs.Tables.{record_text, table_text};
ghost use Rattle.certificate_text.specs.Pieces.{cite_fields};

use crate::line::put_line;
use csv_rows::Table;
use domain_report::citation_text;
use fb_certificate::Cite;
use itoa::Buffer;
use std::alloc::{AllocError, Global};

/// Appends the line of each row that is removed from the list of a kind.
pub(crate) fn put_cites(
    alloc: Global,
    table: &mut Table,
    kind: &str,
    cites: &[Cite],
) -> Result<(), AllocError>
    ensures { OnOk result (table.new.text ≡ table.old.text ++ table_text (map (cite_fields kind.now) cites.now)) }
{
    for cite in cites {
        put_cite(alloc, table, kind, cite)?;
    }
    Ok(())
}

/// Appends the line of a row that is removed.
fn put_cite(alloc: Global, table: &mut Table, kind: &str, cite: &Cite) -> Result<(), AllocError>
    ensures { OnOk result (table.new.text ≡ table.old.text ++ record_text (cite_fields kind.now cite.now)) }
{
    let mut digits = Buffer::new();
    let value = citation_text(alloc, &cite.by)?;
    put_line(table, kind, digits.format(cite.row), value.as_str())
}

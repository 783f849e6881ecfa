//! The text of a domain.
#![tactic(auto)]

ghost use Rattle.std.specs.Prelude.{◌≡◌, ◌++◌, IfOk, OnOk};
ghost use Rattle.csv_rows.specs.Tables.{table_text};
ghost use Rattle.domain_report.specs.DomainTexts.{domain_text, records};
ghost use Rattle.domain_report.specs.Standings.{AreCitesOf};
ghost use Rattle.fb_certificate.specs.RunRows.{run_rows};
ghost use Rattle.fb_certificate.specs.Whole.{IsWhole};

mod cite_index;
mod columns;
mod fields;
mod rows;
mod standing;

use cite_index::Cites;
use columns::put_header;
use csv_rows::{Fields, Table};
use fb_certificate::{Certificate, Inputs, RunRow, run_rows};
pub use rows::{class_word, contingency_id, direction_word};
use rows::{put_labels, put_proof};
pub use standing::citation_text;
use std::alloc::{AllocError, Global};

/// The text of a domain: a CSV table with a header and a record for each row of the CRAC, element by element, DIRECT before
/// OPPOSITE, beside its numbers in the certificate. A row without numbers there has no record.
///
/// A record has the row's number from 1, the id of its element, its instant, the id of its contingency (empty in the base
/// state), its direction, its class, what becomes of it in the inner and in the outer list (`-` where it is not of the list),
/// its right sides and their gap, in watts, a coefficient for each Core zone, in 10^-12, and the citations of the lists that
/// it is removed from.
pub fn write_domain(
    alloc: Global,
    inputs: &Inputs,
    certificate: &Certificate,
) -> Result<Vec<u8>, AllocError>
    requires { IsWhole inputs.now }
    ensures { IfOk result (λ text. text.items ≡ domain_text inputs.now certificate.now) }
{
    let mut table = Table::new(alloc);
    let mut columns = Fields::new(alloc);
    put_header(alloc, &mut columns, inputs.settings.zones.as_slice())?;
    table.put_fields(&columns)?;
    let rows = run_rows(alloc, inputs)?;
    put_rows(alloc, &mut table, inputs, rows.as_slice(), certificate)?;
    table.into_text()
}

/// Appends the records of the rows of the run.
fn put_rows(
    alloc: Global,
    table: &mut Table,
    inputs: &Inputs,
    rows: &[RunRow],
    certificate: &Certificate,
) -> Result<(), AllocError>
    requires whole { IsWhole inputs.now }
    requires rows { rows.now ≡ run_rows inputs.now }
    ensures { OnOk result (table.new.text ≡ table.old.text ++ table_text (records inputs.now.crac certificate.now)) }
{
    let cites = Cites::new(alloc, rows.len() as u32 + 1, certificate)?;
    let contingencies = inputs.crac.contingencies.as_slice();
    let elements = inputs.crac.elements.as_slice();
    let mut fields = Fields::new(alloc);
    for (place, row) in rows.iter().enumerate() {
        let Some(numbers) = certificate.rows.get(place as u64) else {
            return Ok(())
        };
        let element = &elements[row.element as usize];
        let number = place as u32 + 1;
        fields.clear();
        put_labels(
            &mut fields,
            contingencies,
            number,
            element,
            row.direction.is_opposite(),
        )?;
        put_proof(alloc, &mut fields, &cites, number, numbers)?;
        table.put_fields(&fields)?;
    }
    Ok(())
}

//! The text of a certificate.
#![tactic(auto)]

ghost use Rattle.std.specs.Prelude.{◌≡◌, IfOk};
ghost use Rattle.certificate_text.specs.CertificateTexts.{certificate_text};

mod cites;
mod columns;
mod line;
mod numbers;
mod rows;
mod states;

use cites::put_cites;
pub use columns::block_places;
use csv_rows::Table;
use fb_certificate::{Certificate, Inputs};
use line::put_line;
use rows::put_rows;
use states::put_states;
pub use states::state_ids;
use std::alloc::{AllocError, Global};

/// The text of a certificate of version 1: a CSV table with a line for the version, the lines of each state, a line for
/// each row and for each row that is removed from the inner and from the outer list, and a last line.
///
/// A line has three fields: its kind, its key and its value. Numbers in a field are parted by single blanks. States are
/// numbered from 0, and zones, blocks and rows from 1. A state has a line with its id, one with its barrier, and a
/// column for the reference and for each block: kappa and the angles, in 10^-16 rad. A row has its class, its right
/// sides in the inner and in the outer list, in watts, and its coefficients, in 10^-12; a row that is removed has its
/// citation. A state or a block that is not due for the inputs has no line.
pub fn write_certificate(
    alloc: Global,
    inputs: &Inputs,
    certificate: &Certificate,
) -> Result<Vec<u8>, AllocError>
    ensures { IfOk result (λ text. text.items ≡ certificate_text inputs.now certificate.now) }
{
    let ids = state_ids(alloc, inputs)?;
    let places = block_places(alloc, inputs.keys.columns.as_slice())?;
    let mut table = Table::new(alloc);
    put_line(&mut table, "version", "", "1")?;
    put_states(
        alloc,
        &mut table,
        ids.as_slice(),
        places.as_slice(),
        certificate.states.as_slice(),
    )?;
    put_rows(alloc, &mut table, certificate.rows.as_slice())?;
    put_cites(alloc, &mut table, "inner", certificate.inner.as_slice())?;
    put_cites(alloc, &mut table, "outer", certificate.outer.as_slice())?;
    put_line(&mut table, "end", "", "")?;
    table.into_text()
}

//! The net position of each two-letter code of a grid as a table.
#![tactic(auto)]

ghost use Rattle.std.specs.Prelude.{◌≡◌, ◌++◌, [], ◌∷◌, IfOk, OnOk};
ghost use Rattle.csv_rows.specs.Tables.{table_text};
ghost use Rattle.net_table.specs.NetTexts.{net_text, rows_of, note_rows};
ghost use Rattle.net_table.specs.Totals.{totals_in};

mod totals;

use csv_rows::Table;
use fb_types::{Branch, Grid};
use itoa::Buffer;
use std::alloc::{AllocError, Global};
use totals::{Totals, totals};

/// The net text of a grid: the header `code,net`, the net position in whole watts of each two-letter code in the order of its
/// first node, and `note,ID` for each branch whose reactance was raised.
pub fn net_text(alloc: Global, grid: &Grid) -> Result<Vec<u8>, AllocError>
    ensures { IfOk result (λ text. text.items ≡ net_text grid.now.nodes grid.now.branches) }
{
    let totals = totals(alloc, grid)?;
    let mut table = Table::new(alloc);
    table.put_slices(&[b"code".as_slice(), b"net".as_slice()])?;
    put_totals(&mut table, &totals)?;
    put_notes(&mut table, grid.branches.as_slice())?;
    table.into_text()
}

/// Appends a record for each total.
fn put_totals(table: &mut Table, totals: &Totals) -> Result<(), AllocError>
    ensures { OnOk result (table.new.text ≡ table.old.text ++ table_text (rows_of (totals_in totals.now.entries))) }
{
    let mut digits = Buffer::new();
    for k in 0..totals.len() {
        let Some((code, net)) = totals.get_index(k) else {
            continue;
        };
        let net = digits.format(*net);
        table.put_slices(&[code.as_bytes(), net.as_bytes()])?;
    }
    Ok(())
}

/// Appends a record for each branch whose reactance was raised.
fn put_notes(table: &mut Table, branches: &[Branch]) -> Result<(), AllocError>
    ensures { OnOk result (table.new.text ≡ table.old.text ++ table_text (note_rows branches.now)) }
{
    for branch in branches {
        if !branch.floored {
            continue;
        }
        table.put_slices(&[b"note".as_slice(), branch.id.as_text().as_bytes()])?;
    }
    Ok(())
}

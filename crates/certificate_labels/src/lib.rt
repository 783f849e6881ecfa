//! The labels of a certificate's records: the keys of states, barriers, columns and rows, and the ids of states.
#![tactic(auto)]

ghost use Rattle.std.specs.Prelude.{IfOk};
ghost use Rattle.csv_rows.specs.Rows.{records_in};
ghost use Rattle.certificate_labels.specs.Labels.{due_labels, IsWrongLabel};

mod compare;
mod dues;
pub mod laws;
mod record;

use compare::is_mislabelled;
use csv::ByteRecord;
use csv_rows::{next_row, rows};
use dues::due_records;
use fb_certificate::Inputs;
use std::alloc::{AllocError, Global};

/// The first record, counted from 1, that is of the kind that is due for the inputs but has another label: another key,
/// or of a state another id. Records behind the last due row have no due label.
///
/// The call is linear in the inputs and the bytes. The one error is want of memory.
pub fn wrong_label(alloc: Global, bytes: &[u8], inputs: &Inputs) -> Result<Option<u64>, AllocError>
    ensures { IfOk result (IsWrongLabel (due_labels inputs.now) (records_in bytes.now)) }
{
    let dues = due_records(alloc, inputs)?;
    let mut reader = rows(alloc, bytes);
    let mut fields = ByteRecord::new(alloc);
    for (place, due) in dues.iter().enumerate() {
        let found = next_row(&mut reader, &mut fields)?;
        if !found {
            return Ok(None);
        }
        let is_wrong = is_mislabelled(alloc, due, &fields)?;
        if is_wrong {
            return Ok(Some(place as u64 + 1));
        }
    }
    Ok(None)
}

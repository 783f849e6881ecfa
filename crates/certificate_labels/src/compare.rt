//! A record of a certificate's text beside the one that is due.

ghost use Rattle.std.specs.Prelude.{◌≡◌, ◌↔◌, IfOk, IsTrue, Some, slice_get};
ghost use Rattle.csv.specs.Records.{fields_of};
ghost use Rattle.certificate_labels.specs.Kinds.{label_of};
ghost use Rattle.certificate_labels.specs.Labels.{IsMislabelled};

use crate::record::Due;
use csv::ByteRecord;
use std::alloc::{AllocError, Global};

/// Whether the record is of the kind that is due, and has another label.
pub(crate) fn is_mislabelled(
    alloc: Global,
    due: &Due<'_>,
    fields: &ByteRecord,
) -> Result<bool, AllocError>
    ensures { IfOk result (λ is. IsTrue is ↔ IsMislabelled (label_of due.now) (fields_of fields.now)) }
{
    if !has_field(fields, 0, due.kind()) {
        return Ok(false);
    }
    let key = due.key(alloc)?;
    if !has_field(fields, 1, key.as_str()) {
        return Ok(true);
    }
    match due.id() {
        None => Ok(false),
        Some(id) => Ok(!has_field(fields, 2, id)),
    }
}

/// Whether the field at this place, from 0, is the text.
fn has_field(fields: &ByteRecord, place: usize, text: &str) -> bool
    ensures { IsTrue result ↔ (slice_get (fields_of fields.now) place ≡ Some text.now) }
{
    match fields.get(place) {
        None => false,
        Some(field) => field == text.as_bytes(),
    }
}

//! One record of reductions.

ghost use Rattle.std.specs.Prelude.{◌≡◌, true, false, OnOk, MatchOption};
ghost use Rattle.std.specs.Str.{is_utf8};
ghost use Rattle.csv.specs.Records.{fields_of};
ghost use Rattle.fb_decimal.specs.Reading.{decimal_of};
ghost use Rattle.run_settings.specs.Records.{IsForm, Judges, with_row};
ghost use Rattle.run_settings.specs.Reductions.{field_in, direction_named, watts_read, is_formed, is_amount, is_header, record_fault, reduction_in};
ghost use Rattle.run_settings.specs.declared.record.RecordError.TheVariants.{Memory};

use crate::elements::ElementTable;
use crate::named::Named;
use crate::reduction::{Reduction, ReductionKind};
use csv::ByteRecord;
use fb_decimal::read_decimal;
use std::alloc::{AllocError, Global};

/// What a record of the right form says: the reductions in watts.
#[derive(Clone, Copy)]
pub struct Form<'a> {
    pub id: &'a str,
    pub opposite: bool,
    pub cva: i128,
    pub iva: i128,
}

/// Why a record is not taken.
#[derive(Debug, Drop)]
pub enum RecordError {
    Fault(ReductionKind),
    Memory(AllocError),
}

impl From<AllocError> for RecordError {
    ghost from_gives = { λ d e. e ≡ Memory d };

    fn from(e: AllocError) -> RecordError {
        RecordError::Memory(e)
    }
}

/// The field at a place, and an empty one past the last.
fn field(row: &ByteRecord, place: usize) -> &[u8]
    ensures { result.now ≡ field_in place (fields_of row.now) }
{
    match row.get(place) {
        Some(field) => field,
        None => b"".as_slice(),
    }
}

/// The field at a place, if it is UTF-8.
fn text(row: &ByteRecord, place: usize) -> Option<&str>
    ensures { MatchOption result (is_utf8 (field_in place (fields_of row.now)) ≡ false) (λ t. (is_utf8 (field_in place (fields_of row.now)) ≡ true) × (t.now ≡ field_in place (fields_of row.now))) }
{
    match str::from_utf8(field(row, place)) {
        Ok(text) => Some(text),
        Err(_) => None,
    }
}

/// Whether the row is the header.
#[tactic(auto, unfolding(crate::specs::Reductions::is_header))]
pub fn is_header(row: &ByteRecord) -> bool
    ensures { result ≡ is_header (fields_of row.now) }
{
    row.len() == 4
        && field(row, 0) == b"element".as_slice()
        && field(row, 1) == b"direction".as_slice()
        && field(row, 2) == b"cva".as_slice()
        && field(row, 3) == b"iva".as_slice()
}

/// Whether the direction is OPPOSITE, if the word is a direction.
fn direction(word: &str) -> Option<bool>
    ensures { result ≡ direction_named word.now }
{
    if word == "DIRECT" {
        Some(false)
    } else if word == "OPPOSITE" {
        Some(true)
    } else {
        None
    }
}

/// The watts of a number of megawatts.
fn watts(text: &str) -> Option<i128>
    ensures { result ≡ watts_read (decimal_of text.now) }
{
    match read_decimal(text) {
        Ok(megawatts) => Some(megawatts.millionths),
        Err(_) => None,
    }
}

/// What the record says, if it has the right form.
fn form_of(row: &ByteRecord) -> Option<Form<'_>>
    ensures { MatchOption result (is_formed (fields_of row.now) ≡ false) (λ form. IsForm (fields_of row.now) form) }
{
    let Some(id) = text(row, 0) else {
        return None;
    };
    let Some(word) = text(row, 1) else {
        return None;
    };
    let Some(cva) = text(row, 2) else {
        return None;
    };
    let Some(iva) = text(row, 3) else {
        return None;
    };
    let Some(opposite) = direction(word) else {
        return None;
    };
    let Some(cva) = watts(cva) else {
        return None;
    };
    let Some(iva) = watts(iva) else {
        return None;
    };
    Some(Form {
        id,
        opposite,
        cva,
        iva,
    })
}

fn is_amount(watts: i128) -> bool
    ensures { result ≡ is_amount watts }
{
    watts >= 0 && watts <= 100_000_000_000
}

/// The reduction of a record, or its fault; the record's element and direction are then named.
#[tactic(auto, unfolding(crate::specs::Reductions::record_fault, crate::specs::Reductions::reduction_in))]
pub fn take(
    alloc: Global,
    elements: &ElementTable<'_>,
    named: &mut Named,
    row: &ByteRecord,
) -> Result<Reduction, RecordError>
    ensures judged { Judges (record_fault elements.now named.old (fields_of row.now)) (reduction_in elements.now (fields_of row.now)) result }
    ensures named { OnOk result (named.new ≡ with_row named.old (fields_of row.now)) }
{
    if row.len() != 4 {
        return Err(RecordError::Fault(ReductionKind::Missing));
    }
    let Some(form) = form_of(row) else {
        return Err(RecordError::Fault(ReductionKind::WrongType));
    };
    let Some(element) = elements.find(form.id, form.opposite) else {
        return Err(RecordError::Fault(ReductionKind::UnknownElement));
    };
    if !is_amount(form.cva) || !is_amount(form.iva) {
        return Err(RecordError::Fault(ReductionKind::OutOfRange));
    }
    if !named.add(alloc, form.id, form.opposite)? {
        return Err(RecordError::Fault(ReductionKind::Twice));
    }
    Ok(Reduction {
        element,
        opposite: form.opposite,
        cva: form.cva as i64,
        iva: form.iva as i64,
    })
}

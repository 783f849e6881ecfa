//! The records of a certificate's text, one by one.

ghost use Rattle.std.specs.Prelude.{◌≡◌, ◌≢◌, ◌∷◌, ℕ, List, [], IfOk, IfSome, IfNone, IsTrue, ◌↔◌, codes};
ghost use Rattle.csv.specs.Records.{fields_of};
ghost use Rattle.whole_numbers.specs.Spelled.{Reads};
ghost use Rattle.certificate_text.specs.Lines.{IsGoodCite};
ghost use Rattle.certificate_reader.specs.Spellings.{IsGoodState, IsGoodBarrier, IsGoodColumn, IsGoodNumbered, state_texts, barrier_texts, column_texts, row_texts, cite_texts};
ghost use Rattle.certificate_reader.specs.Records.{IsGoodRecord, text_of};

use crate::citations::read_citation;
use crate::values::{Spot, read_angles, read_proof, read_spot};
use cnec_rows::RowProof;
use csv::ByteRecord;
use fb_certificate::Cite;
use fb_types::{Angles, Items, Text};
use number_lists::numbers;
use std::alloc::{AllocError, Global};
use whole_numbers::{natural_number, whole_number};

/// A grid state: its number from 0, and the id of its contingency.
#[derive(Debug, Drop)]
pub struct NamedState {
    pub number: i128,
    pub id: Text,
}

/// The barrier of the state with this number.
#[derive(Debug, Drop)]
pub struct Barrier {
    pub state: i128,
    pub heights: Items<i128>,
}

/// A column, with the place where it stands.
#[derive(Debug, Drop)]
pub struct PlacedColumn {
    pub spot: Spot,
    pub angles: Angles,
}

/// A row, with its number from 1.
#[derive(Debug, Drop)]
pub struct NumberedRow {
    pub number: i128,
    pub proof: RowProof,
}

/// A record of a certificate's text.
#[derive(Debug, Drop)]
pub enum Record {
    Version,
    State(NamedState),
    Barrier(Barrier),
    Column(PlacedColumn),
    Row(NumberedRow),
    Inner(Cite),
    Outer(Cite),
    End,
}

/// The three fields of a record.
#[derive(Clone, Copy, Debug)]
struct Fields<'a> {
    kind: &'a [u8],
    key: &'a [u8],
    value: &'a [u8],
}

/// The record that the fields spell.
pub fn read_record(alloc: Global, fields: &ByteRecord) -> Result<Option<Record>, AllocError>
    ensures spelled { IfOk result (λ o. Reads IsGoodRecord text_of (fields_of fields.now) o) }
{
    match three_fields(fields) {
        None => Ok(None),
        Some(Fields { kind, key, value }) => record_of(alloc, kind, key, value),
    }
}

/// The fields, if there are three.
fn three_fields(fields: &ByteRecord) -> Option<Fields<'_>>
    ensures some { IfSome result (λ f. fields_of fields.now ≡ f.kind.now ∷ f.key.now ∷ f.value.now ∷ []) }
    ensures none { IfNone result ((a b c : List ℕ) → fields_of fields.now ≢ a ∷ b ∷ c ∷ []) }
{
    if fields.len() != 3 {
        return None;
    }
    let Some(kind) = fields.get(0) else {
        return None;
    };
    let Some(key) = fields.get(1) else {
        return None;
    };
    let Some(value) = fields.get(2) else {
        return None;
    };
    Some(Fields { kind, key, value })
}

/// The record that a kind, a key and a value spell.
fn record_of(
    alloc: Global,
    kind: &[u8],
    key: &[u8],
    value: &[u8],
) -> Result<Option<Record>, AllocError>
    ensures spelled { IfOk result (λ o. Reads IsGoodRecord text_of (kind.now ∷ key.now ∷ value.now ∷ []) o) }
{
    if kind == b"version".as_slice() {
        if is_version(key, value) {
            return Ok(Some(Record::Version));
        }
        return Ok(None);
    }
    if kind == b"state".as_slice() {
        return Ok(read_state(alloc, key, value)?.map(Record::State));
    }
    if kind == b"barrier".as_slice() {
        return Ok(read_barrier(alloc, key, value)?.map(Record::Barrier));
    }
    if kind == b"column".as_slice() {
        return Ok(read_column(alloc, key, value)?.map(Record::Column));
    }
    if kind == b"row".as_slice() {
        return Ok(read_row(alloc, key, value)?.map(Record::Row));
    }
    if kind == b"inner".as_slice() {
        return Ok(read_cite(alloc, key, value)?.map(Record::Inner));
    }
    if kind == b"outer".as_slice() {
        return Ok(read_cite(alloc, key, value)?.map(Record::Outer));
    }
    if kind == b"end".as_slice() {
        if is_end(key, value) {
            return Ok(Some(Record::End));
        }
        return Ok(None);
    }
    Ok(None)
}

/// Whether these are the key and the value of the version.
fn is_version(key: &[u8], value: &[u8]) -> bool
    ensures { IsTrue result ↔ (key.now ≡ []) × (value.now ≡ codes "1") }
{
    if value == b"1".as_slice() {
        key.is_empty()
    } else {
        false
    }
}

/// Whether these are the key and the value of the end.
fn is_end(key: &[u8], value: &[u8]) -> bool
    ensures { IsTrue result ↔ (key.now ≡ []) × (value.now ≡ []) }
{
    key.is_empty() && value.is_empty()
}

/// The state that a key and a value spell.
fn read_state(alloc: Global, key: &[u8], value: &[u8]) -> Result<Option<NamedState>, AllocError>
    ensures spelled { IfOk result (λ o. Reads IsGoodState state_texts (key.now ∷ value.now ∷ []) o) }
{
    let Some(number) = whole_number(key) else {
        return Ok(None);
    };
    let Ok(text) = str::from_utf8(value) else {
        return Ok(None);
    };
    let id = Text::from_text(alloc, text)?;
    Ok(Some(NamedState { number, id }))
}

/// The barrier that a key and a value spell.
fn read_barrier(alloc: Global, key: &[u8], value: &[u8]) -> Result<Option<Barrier>, AllocError>
    ensures spelled { IfOk result (λ o. Reads IsGoodBarrier barrier_texts (key.now ∷ value.now ∷ []) o) }
{
    let Some(state) = whole_number(key) else {
        return Ok(None);
    };
    let Some(heights) = numbers(alloc, value)? else {
        return Ok(None);
    };
    Ok(Some(Barrier { state, heights }))
}

/// The column that a key and a value spell.
fn read_column(alloc: Global, key: &[u8], value: &[u8]) -> Result<Option<PlacedColumn>, AllocError>
    ensures spelled { IfOk result (λ o. Reads IsGoodColumn column_texts (key.now ∷ value.now ∷ []) o) }
{
    let Some(spot) = read_spot(alloc, key)? else {
        return Ok(None);
    };
    let Some(angles) = read_angles(alloc, value)? else {
        return Ok(None);
    };
    Ok(Some(PlacedColumn { spot, angles }))
}

/// The row that a key and a value spell.
fn read_row(alloc: Global, key: &[u8], value: &[u8]) -> Result<Option<NumberedRow>, AllocError>
    ensures spelled { IfOk result (λ o. Reads IsGoodNumbered row_texts (key.now ∷ value.now ∷ []) o) }
{
    let Some(number) = whole_number(key) else {
        return Ok(None);
    };
    let Some(proof) = read_proof(alloc, value)? else {
        return Ok(None);
    };
    Ok(Some(NumberedRow { number, proof }))
}

/// The removed row that a key and a value spell.
fn read_cite(alloc: Global, key: &[u8], value: &[u8]) -> Result<Option<Cite>, AllocError>
    ensures spelled { IfOk result (λ o. Reads IsGoodCite cite_texts (key.now ∷ value.now ∷ []) o) }
{
    let Some(row) = natural_number(key) else {
        return Ok(None);
    };
    let Some(by) = read_citation(alloc, value)? else {
        return Ok(None);
    };
    Ok(Some(Cite { row, by }))
}

//! The lines of a rows document, one by one.

ghost use Rattle.std.specs.Prelude.{◌≡◌, ◌^◌, ◌<◌, ◌≤◌, [], ◌∷◌, map, IfOk, FitsSigned};
ghost use Rattle.std.specs.Fmt.{signed_decimal};
ghost use Rattle.std.specs.Int.{w128};
ghost use Rattle.whole_numbers.specs.Spelled.{Reads};
ghost use Rattle.rows_document.specs.Table.{fields_of};
ghost use Rattle.rows_document.specs.Records.{IsGood, AreSmall, AreCoefficients, IsGoodZone, IsGoodHalf, IsGoodCite, line_of, numbers_of, bounds_of, citation_of};

use crate::lines::fields;
use fb_types::{Bounds, Half, Items, Mult};
use std::alloc::{AllocError, Global};
use whole_numbers::{natural_number, number_within, whole_number};

/// A line of a rows document.
#[derive(Debug, Drop)]
pub enum Record {
    /// `bounds,MIN,MAX`: the bounds of one more zone, in watts.
    Zone(Bounds),
    /// `row,R,A1,..,An`: a row, its right side first.
    Row(Half),
    /// `target,R,A1,..,An`: the row that is to be proved.
    Target(Half),
    /// `mult,ROW,VALUE`: a row that is cited, by its number from 1, and its multiplier.
    Cite(Mult),
    /// `mu,VALUE`: the multiplier of the balance.
    Balance(i128),
}

/// The greatest size of a bound, in watts.
const GREATEST_BOUND: u64 = 100_000_000_000;

/// The greatest size of a coefficient, in 10^-12.
const GREATEST_COEFFICIENT: u64 = 1_000_000_000_000;

/// The greatest size of a right side, in watts.
const GREATEST_SIDE: u64 = 20_000_000_000_000;

/// The greatest count of zones.
const MOST_ZONES: usize = 64;

/// The record that the line spells.
pub fn read_record(alloc: Global, line: &[u8]) -> Result<Option<Record>, AllocError>
    ensures spelled { IfOk result (λ o. Reads IsGood line_of (fields_of line.now) o) }
{
    match fields(alloc, line)? {
        None => Ok(None),
        Some(fields) => record_of(alloc, fields.as_slice()),
    }
}

/// The record that the fields spell.
fn record_of(alloc: Global, fields: &[&[u8]]) -> Result<Option<Record>, AllocError>
    ensures spelled { IfOk result (λ o. Reads IsGood line_of (map (λ f. f.now) fields.now) o) }
{
    let Some((keyword, rest)) = fields.split_first() else {
        return Ok(None);
    };
    let keyword: &[u8] = keyword;
    if keyword == b"bounds".as_slice() {
        return Ok(zone(rest).map(Record::Zone));
    }
    if keyword == b"row".as_slice() {
        return Ok(half(alloc, rest)?.map(Record::Row));
    }
    if keyword == b"target".as_slice() {
        return Ok(half(alloc, rest)?.map(Record::Target));
    }
    if keyword == b"mult".as_slice() {
        return Ok(citation(rest).map(Record::Cite));
    }
    if keyword == b"mu".as_slice() {
        return Ok(balance(rest).map(Record::Balance));
    }
    Ok(None)
}

/// The bounds that two fields spell.
fn zone(fields: &[&[u8]]) -> Option<Bounds>
    ensures spelled { Reads IsGoodZone bounds_of (map (λ f. f.now) fields.now) result }
{
    let Some(b) = bounds(fields) else {
        return None;
    };
    if b.high < b.low {
        return None;
    }
    Some(b)
}

/// The bounds that two fields spell, in order or not.
fn bounds(fields: &[&[u8]]) -> Option<Bounds>
    ensures spelled { Reads AreSmall bounds_of (map (λ f. f.now) fields.now) result }
{
    let [low, high] = fields else {
        return None;
    };
    let Some(low) = number_within(low, GREATEST_BOUND) else {
        return None;
    };
    let Some(high) = number_within(high, GREATEST_BOUND) else {
        return None;
    };
    Some(Bounds { low, high })
}

/// The right side and the coefficients that the fields spell.
fn half(alloc: Global, fields: &[&[u8]]) -> Result<Option<Half>, AllocError>
    ensures spelled { IfOk result (λ o. Reads IsGoodHalf numbers_of (map (λ f. f.now) fields.now) o) }
{
    let Some((side, rest)) = fields.split_first() else {
        return Ok(None);
    };
    let Some(r) = number_within(side, GREATEST_SIDE) else {
        return Ok(None);
    };
    let Some(a) = coefficients(alloc, rest)? else {
        return Ok(None);
    };
    Ok(Some(Half { a, r }))
}

/// The coefficients that the fields spell, one for each zone.
fn coefficients(alloc: Global, fields: &[&[u8]]) -> Result<Option<Items<i64>>, AllocError>
    ensures spelled { IfOk result (λ o. Reads AreCoefficients (map signed_decimal) (map (λ f. f.now) fields.now) o) }
{
    if fields.len() > MOST_ZONES {
        return Ok(None);
    }
    let mut a = Items::new(alloc);
    for field in fields {
        match number_within(field, GREATEST_COEFFICIENT) {
            Some(value) => a.add(value)?,
            None => return Ok(None),
        }
    }
    Ok(Some(a))
}

/// The citation that two fields spell.
fn citation(fields: &[&[u8]]) -> Option<Mult>
    ensures spelled { Reads IsGoodCite citation_of (map (λ f. f.now) fields.now) result }
{
    let [row, value] = fields else {
        return None;
    };
    let Some(row) = natural_number(row) else {
        return None;
    };
    let Some(value) = whole_number(value) else {
        return None;
    };
    Some(Mult { row, value })
}

/// The multiplier of the balance that one field spells.
fn balance(fields: &[&[u8]]) -> Option<i128>
    ensures spelled { Reads (FitsSigned w128) (λ mu. signed_decimal mu ∷ []) (map (λ f. f.now) fields.now) result }
{
    let [value] = fields else {
        return None;
    };
    whole_number(value)
}

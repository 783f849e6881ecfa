//! The keys and values of columns and rows: where a column stands, angles, classes with their numbers.

ghost use Rattle.std.specs.Prelude.{IfOk};
ghost use Rattle.std.specs.Fmt.{decimal};
ghost use Rattle.whole_numbers.specs.Spelled.{Reads};
ghost use Rattle.certificate_text.specs.Lines.{IsGoodRow, angles_text, row_text};
ghost use Rattle.domain_report.specs.DomainTexts.{class_word};
ghost use Rattle.certificate_reader.specs.Spellings.{IsAny, IsGoodSpot, IsGoodKappa, IsGoodAngles, IsGoodSide, AreGoodSides, spot_text, side_text, sides_text};

use cnec_rows::RowProof;
use cnec_selection::Class;
use fb_types::Angles;
use number_lists::{Head, first_word, numbers, numbers_within};
use std::alloc::{AllocError, Global};
use whole_numbers::{natural_number, number_within};

/// The byte between two words of a value.
pub const BLANK: u8 = b' ';

/// The greatest size of a coefficient, in 10^-12.
const GREATEST_COEFFICIENT: u64 = 1_000_000_000_000;

/// The greatest size of a right side, in watts.
const GREATEST_SIDE: u64 = 20_000_000_000_000;

/// Where a column stands: its state, and its zone and its block from 1, which are 0 and 0 for the reference.
#[derive(Clone, Copy, Debug)]
pub struct Spot {
    pub state: i128,
    pub zone: i128,
    pub block: i128,
}

/// The place of a column that the key spells.
pub fn read_spot(alloc: Global, key: &[u8]) -> Result<Option<Spot>, AllocError>
    ensures spelled { IfOk result (λ o. Reads IsGoodSpot spot_text key.now o) }
{
    let Some(read) = numbers(alloc, key)? else {
        return Ok(None);
    };
    let read = read.as_slice();
    if read.len() != 3 {
        return Ok(None);
    }
    Ok(Some(Spot {
        state: read[0],
        zone: read[1],
        block: read[2],
    }))
}

/// The kappa that the word spells: 0 or 1.
fn read_kappa(word: &[u8]) -> Option<u8>
    ensures spelled { Reads IsGoodKappa decimal word.now result }
{
    let Some(value) = natural_number(word) else {
        return None;
    };
    if value <= 1 { Some(value as u8) } else { None }
}

/// The kappa and the numbers of classes that the value spells.
pub fn read_angles(alloc: Global, value: &[u8]) -> Result<Option<Angles>, AllocError>
    ensures spelled { IfOk result (λ o. Reads IsGoodAngles angles_text value.now o) }
{
    let Some(Head { word, rest }) = first_word(value, BLANK) else {
        return Ok(None);
    };
    let Some(kappa) = read_kappa(word) else {
        return Ok(None);
    };
    let Some(w) = numbers(alloc, rest)? else {
        return Ok(None);
    };
    Ok(Some(Angles { kappa, w }))
}

/// The class that the word names.
fn read_class(word: &[u8]) -> Option<Class>
    ensures spelled { Reads IsAny class_word word.now result }
{
    if word == b"BELOW".as_slice() {
        return Some(Class::Below);
    }
    if word == b"DOUBTFUL".as_slice() {
        return Some(Class::Doubtful);
    }
    if word == b"CERTAIN".as_slice() {
        return Some(Class::Certain);
    }
    None
}

/// A right side, in watts, and what stands after its blank.
#[derive(Clone, Copy, Debug)]
struct Side<'a> {
    value: i64,
    rest: &'a [u8],
}

/// The right side with which the text begins.
fn read_side(text: &[u8]) -> Option<Side<'_>>
    ensures spelled { Reads IsGoodSide side_text text.now result }
{
    let Some(Head { word, rest }) = first_word(text, BLANK) else {
        return None;
    };
    let Some(value) = number_within(word, GREATEST_SIDE) else {
        return None;
    };
    Some(Side { value, rest })
}

/// The right sides in the inner and in the outer list, and what stands after them.
#[derive(Clone, Copy, Debug)]
struct Sides<'a> {
    r_in: i64,
    r_out: i64,
    rest: &'a [u8],
}

/// The right sides with which the text begins.
fn read_sides(text: &[u8]) -> Option<Sides<'_>>
    ensures spelled { Reads AreGoodSides sides_text text.now result }
{
    let Some(inner) = read_side(text) else {
        return None;
    };
    let Some(outer) = read_side(inner.rest) else {
        return None;
    };
    Some(Sides {
        r_in: inner.value,
        r_out: outer.value,
        rest: outer.rest,
    })
}

/// The class, the right sides and the coefficients that the value spells.
pub fn read_proof(alloc: Global, value: &[u8]) -> Result<Option<RowProof>, AllocError>
    ensures spelled { IfOk result (λ o. Reads IsGoodRow row_text value.now o) }
{
    let Some(Head { word, rest }) = first_word(value, BLANK) else {
        return Ok(None);
    };
    let Some(class) = read_class(word) else {
        return Ok(None);
    };
    let Some(sides) = read_sides(rest) else {
        return Ok(None);
    };
    let Some(a) = numbers_within(alloc, sides.rest, GREATEST_COEFFICIENT)? else {
        return Ok(None);
    };
    Ok(Some(RowProof {
        class,
        a,
        r_in: sides.r_in,
        r_out: sides.r_out,
    }))
}

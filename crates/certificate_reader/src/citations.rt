//! The values of removed rows: mu, and the rows that are cited with their multipliers.

ghost use Rattle.std.specs.Prelude.{IfOk, map};
ghost use Rattle.number_lists.specs.Words.{parts_left};
ghost use Rattle.whole_numbers.specs.Spelled.{Reads};
ghost use Rattle.domain_report.specs.DomainTexts.{citation_text};
ghost use Rattle.certificate_reader.specs.Spellings.{IsGoodMult, AreGoodMults, IsGoodBy, mult_word};

use crate::values::BLANK;
use fb_types::{Items, Mult, Multipliers};
use number_lists::{Head, cut, first_word};
use std::alloc::{AllocError, Global};
use whole_numbers::{natural_number, whole_number};

/// The byte between a cited row and its multiplier.
const COLON: u8 = b':';

/// The cited row and the multiplier that the word spells.
fn read_multiplier(word: &[u8]) -> Option<Mult>
    ensures spelled { Reads IsGoodMult mult_word word.now result }
{
    let Some(Head { word, rest }) = first_word(word, COLON) else {
        return None;
    };
    let Some(row) = natural_number(word) else {
        return None;
    };
    let Some(value) = whole_number(rest) else {
        return None;
    };
    Some(Mult { row, value })
}

/// The cited rows with their multipliers that the text spells, if there is a text.
fn read_multipliers(alloc: Global, text: Option<&[u8]>) -> Result<Option<Items<Mult>>, AllocError>
    ensures spelled { IfOk result (λ o. Reads AreGoodMults (map mult_word) (parts_left 32 text.entry) o) }
{
    let mut read = Items::new(alloc);
    let mut left = text;
    while let Some(rest) = left {
        let (word, after) = cut(rest, BLANK);
        let Some(next) = read_multiplier(word) else {
            return Ok(None);
        };
        read.add(next)?;
        left = after;
    }
    Ok(Some(read))
}

/// The multipliers of the balance and of the cited rows that the value spells.
pub fn read_citation(alloc: Global, value: &[u8]) -> Result<Option<Multipliers>, AllocError>
    ensures spelled { IfOk result (λ o. Reads IsGoodBy citation_text value.now o) }
{
    let (word, left) = cut(value, BLANK);
    let Some(mu) = whole_number(word) else {
        return Ok(None);
    };
    let Some(mults) = read_multipliers(alloc, left)? else {
        return Ok(None);
    };
    Ok(Some(Multipliers { mu, mults }))
}

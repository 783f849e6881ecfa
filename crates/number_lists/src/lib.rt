//! Words of a text, with a mark between two of them, and lists of whole numbers, each as the text that the crate
//! `whole_numbers` reads.
#![tactic(auto)]

ghost use Rattle.std.specs.Prelude.{◌≡◌, ◌^◌, ◌∷◌, ◌<◌, IfOk, IfSome, IfNone, length};
ghost use Rattle.number_lists.specs.Lists.{AreNumbers, AreWithin, numbers_text};
ghost use Rattle.number_lists.specs.Words.{IsHead, HasNoHead, parts_of, parts_left};
ghost use Rattle.whole_numbers.specs.Spelled.{Reads};

use fb_types::Items;
use std::alloc::{AllocError, Global};
use whole_numbers::{number_within, whole_number};

/// The byte between two numbers of a list.
const BLANK: u8 = b' ';

/// What stands before the first mark, and what stands after it if there is one.
pub fn cut(text: &[u8], mark: u8) -> (&[u8], Option<&[u8]>)
    ensures split { parts_of mark text.now ≡ result.0.now ∷ parts_left mark result.1 }
    ensures shorter { IfSome result.1 (λ rest. length rest.now < length text.now) }
{
    for at in 0..text.len() {
        if text[at] == mark {
            return (&text[..at], Some(&text[at + 1..]));
        }
    }
    (text, None)
}

/// The first word of a text, and what stands after its mark.
#[derive(Clone, Copy, Debug)]
pub struct Head<'a> {
    pub word: &'a [u8],
    pub rest: &'a [u8],
}

/// The first word of a text that has a mark.
pub fn first_word(text: &[u8], mark: u8) -> Option<Head<'_>>
    ensures some { IfSome result (λ h. IsHead mark text.now h.word.now h.rest.now) }
    ensures none { IfNone result (HasNoHead mark text.now) }
{
    let (word, left) = cut(text, mark);
    match left {
        Some(rest) => Some(Head { word, rest }),
        None => None,
    }
}

/// The whole numbers of 128 bits that the text spells, at least one, parted by single blanks.
pub fn numbers(alloc: Global, text: &[u8]) -> Result<Option<Items<i128>>, AllocError>
    ensures spelled { IfOk result (λ o. Reads AreNumbers numbers_text text.now o) }
{
    let mut read = Items::new(alloc);
    let mut left = Some(text);
    while let Some(rest) = left {
        let (part, after) = cut(rest, BLANK);
        let Some(value) = whole_number(part) else {
            return Ok(None);
        };
        read.add(value)?;
        left = after;
    }
    Ok(Some(read))
}

/// The whole numbers that the text spells, at least one, parted by single blanks, if the size of each is at most `most`.
pub fn numbers_within(
    alloc: Global,
    text: &[u8],
    most: u64,
) -> Result<Option<Items<i64>>, AllocError>
    requires { most < 2 ^ 63 }
    ensures spelled { IfOk result (λ o. Reads (AreWithin most) numbers_text text.now o) }
{
    let mut read = Items::new(alloc);
    let mut left = Some(text);
    while let Some(rest) = left {
        let (part, after) = cut(rest, BLANK);
        let Some(value) = number_within(part, most) else {
            return Ok(None);
        };
        read.add(value)?;
        left = after;
    }
    Ok(Some(read))
}

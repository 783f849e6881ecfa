//! Decimal numbers in texts, held exactly in whole millionths.
//!
//! A spelling is an optional `+` or `-`; then digits with an optional point and further digits, or a point and at least
//! one digit; then optionally `e` or `E`, an optional sign and digits.
#![tactic(auto)]

ghost use Rattle.std.specs.Prelude.{◌≡◌, ◌≢◌, ◌≤◌, ◌++◌, ℕ, [], OnOk, OnErr, nat_abs};
ghost use Rattle.fb_decimal.specs.Spelling.{IsSpelling, IsFirstBad};
ghost use Rattle.fb_decimal.specs.Meaning.{greatest};
ghost use Rattle.fb_decimal.specs.Reading.{ReadsAs, spelled_as, decimal_of, IsByGrammar};
ghost use Rattle.fb_decimal.specs.Printing.{decimal_text};

use std::alloc::AllocError;
use thiserror::Error;

mod print;
mod scan;
mod value;

use print::printed;
use scan::first_bad;
use value::{is_negative, magnitude};

/// A decimal number: a whole number of millionths.
#[derive(Clone, Copy, Debug, PartialEq, Eq)]
pub struct Decimal {
    pub millionths: i128,
}

/// Why a text is not read as a decimal number.
#[derive(Clone, Copy, Debug, PartialEq, Eq, Error)]
pub enum DecimalFault {
    #[error("the text is empty")]
    Empty,
    /// The least place, counted from 0, where no spelling begins with the text up to and with the character there, or the
    /// text's length where the text is the front of a spelling. A spelling is ASCII, so the place counts characters as
    /// well as bytes.
    #[error("no number goes on with the character at {at}")]
    BadCharacter { at: u64 },
    /// The value in millionths, rounded towards 0, has an absolute value above 10^30.
    #[error("the number is too large")]
    TooLarge,
}

#[tactic(auto, unfolding(crate::specs::Reading::decimal_of))]
fn read(bytes: &[u8]) -> Result<Decimal, DecimalFault>
    ensures { result ≡ decimal_of bytes.now }
{
    if bytes.is_empty() {
        return Err(DecimalFault::Empty);
    }
    if let Some(at) = first_bad(bytes) {
        return Err(DecimalFault::BadCharacter { at: at as u64 });
    }
    match magnitude(bytes) {
        None => Err(DecimalFault::TooLarge),
        Some(size) => {
            let size = size as i128;
            Ok(Decimal {
                millionths: if is_negative(bytes) { -size } else { size },
            })
        }
    }
}

/// The number that a text spells, in millionths, rounded towards 0. It takes time in the length of the text alone, however
/// large an exponent the text has, and no memory.
pub fn read_decimal(text: &str) -> Result<Decimal, DecimalFault>
    // What the answer says of the text, by the grammar.
    ensures reads { ReadsAs text.now result }

    // Each cause has its answer: a spelling its value or TooLarge, the empty text Empty, any other text BadCharacter.
    ensures spelled { (s : IsSpelling text.now) → result ≡ spelled_as s }
    ensures empty { text.now ≡ [] → result ≡ Err DecimalFault.Empty }
    ensures bad { (at : ℕ) → text.now ≢ [] → IsFirstBad text.now at → result ≡ Err (DecimalFault.BadCharacter at) }

    // The answer as a function of the text, which gives for every text what the grammar says.
    ensures function { result ≡ decimal_of text.now }
    ensures grammar { IsByGrammar decimal_of }
{
    read(text.as_bytes())
}

/// Appends the number's text: `-` if it is negative, the whole part, a point and six digits.
pub fn put_decimal(out: &mut Vec<u8>, d: Decimal) -> Result<(), AllocError>
    ensures ok { OnOk result (out.new.items ≡ out.old.items ++ decimal_text d.millionths) }
    ensures err { OnErr result (out.new.items ≡ out.old.items) }

    // The text reads back as the number.
    ensures reads_back { nat_abs d.millionths ≤ greatest → decimal_of (decimal_text d.millionths) ≡ Ok d }
{
    let text = printed(*out.allocator(), d.millionths)?;
    out.extend_from_slice(text.as_bytes())
}

#[cfg(test)]
mod tests;

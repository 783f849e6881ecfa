//! The fields of a line.

ghost use Rattle.std.specs.Prelude.{◌≡◌, ◌≤◌, ◌<◌, ◌++◌, ◌^◌, nat_abs, IfOk, IfSome, OnOk, string_bytes};
ghost use Rattle.std.specs.Str.{encode_utf8_all};
ghost use Rattle.ucte_lines.specs.Fields.{without_leading as without_leading_of, without_trailing as without_trailing_of, trimmed as trimmed_of, field_of, padded, within_range, number_of, number_or_zero as number_or_zero_of};

use crate::lines::is_blank;
use fb_decimal::read_decimal;
use std::alloc::{AllocError, Global};

/// 10^11 in millionths.
const GREATEST: u128 = 100_000_000_000_000_000;

fn without_leading(text: &[char]) -> &[char]
    ensures { result.now ≡ without_leading_of text.now }
{
    for (at, c) in text.iter().enumerate() {
        if !is_blank(*c) {
            return &text[at..];
        }
    }
    &text[text.len()..]
}

fn without_trailing(text: &[char]) -> &[char]
    ensures { result.now ≡ without_trailing_of text.now }
{
    let mut end = text.len();
    while end > 0 && is_blank(text[end - 1]) {
        end -= 1;
    }
    &text[..end]
}

#[tactic(auto, unfolding(crate::specs::Fields::trimmed))]
fn trimmed(text: &[char]) -> &[char]
    ensures { result.now ≡ trimmed_of text.now }
{
    without_trailing(without_leading(text))
}

/// What stands in the columns from the first to the last, counted from 1, without the blanks at both ends.
#[tactic(auto, unfolding(crate::specs::Fields::field_of))]
pub fn field(line: &[char], first: usize, last: usize) -> &[char]
    requires from_one { 1 ≤ first }
    requires order { first ≤ last }
    requires small { last < 1000 }
    ensures { result.now ≡ field_of line.now first last }
{
    let rest = &line[(first - 1).min(line.len())..];
    trimmed(&rest[..(last + 1 - first).min(rest.len())])
}

/// Appends the text, with blanks behind it up to a width.
pub fn put_padded(out: &mut Vec<char>, text: &[char], width: usize) -> Result<(), AllocError>
    ensures { OnOk result (out.new.items ≡ out.old.items ++ padded width text.now) }
{
    out.extend_from_slice(text)?;
    for _blank in 0..width.saturating_sub(text.len()) {
        out.push(' ')?;
    }
    Ok(())
}

/// A text of these characters.
pub fn text_of(alloc: Global, characters: &[char]) -> Result<String, AllocError>
    ensures { IfOk result (λ text. string_bytes text ≡ encode_utf8_all characters.now) }
{
    characters.iter().copied().collect(alloc)
}

fn checked(millionths: i128) -> Option<i64>
    ensures value { result ≡ within_range millionths }
    ensures small { IfSome result (λ z. nat_abs z ≤ 10 ^ 17) }
{
    if millionths.unsigned_abs() <= GREATEST {
        Some(millionths as i64)
    } else {
        None
    }
}

/// The number that a field spells, in millionths, if it is one within 10^11.
#[tactic(auto, unfolding(crate::specs::Fields::number_of))]
pub fn number(alloc: Global, text: &[char]) -> Result<Option<i64>, AllocError>
    ensures value { IfOk result (λ o. o ≡ number_of text.now) }
    ensures small { IfOk result (λ o. IfSome o (λ z. nat_abs z ≤ 10 ^ 17)) }
{
    let text = text_of(alloc, text)?;
    match read_decimal(text.as_str()) {
        Err(_) => Ok(None),
        Ok(decimal) => Ok(checked(decimal.millionths)),
    }
}

/// The same, where a blank field counts as 0.
#[tactic(auto, unfolding(crate::specs::Fields::number_or_zero))]
pub fn number_or_zero(alloc: Global, text: &[char]) -> Result<Option<i64>, AllocError>
    ensures value { IfOk result (λ o. o ≡ number_or_zero_of text.now) }
    ensures small { IfOk result (λ o. IfSome o (λ z. nat_abs z ≤ 10 ^ 17)) }
{
    if text.is_empty() {
        return Ok(Some(0));
    }
    number(alloc, text)
}

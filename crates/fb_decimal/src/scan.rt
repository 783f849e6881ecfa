//! Which part of a spelling a character belongs to, found in one pass over the text.

ghost use Rattle.std.specs.Prelude.{◌≡◌};
ghost use Rattle.fb_decimal.specs.Scan.{part_after, is_end, bad_from};

/// What stands before the next character.
#[derive(Clone, Copy, Debug, PartialEq, Eq)]
pub enum Part {
    Start,
    Signed,
    Whole,
    /// A point with no digit before it.
    Point,
    /// A point with a digit before or after it.
    Fraction,
    Mark,
    MarkSigned,
    Exponent,
}

fn after(part: Part, byte: u8) -> Option<Part>
    ensures { result ≡ part_after part byte }
{
    let is_digit = byte.is_ascii_digit();
    let is_point = byte == b'.';
    let is_sign = byte == b'+' || byte == b'-';
    let is_mark = byte == b'e' || byte == b'E';
    match part {
        Part::Start if is_digit => Some(Part::Whole),
        Part::Start if is_point => Some(Part::Point),
        Part::Start if is_sign => Some(Part::Signed),
        Part::Signed if is_digit => Some(Part::Whole),
        Part::Signed if is_point => Some(Part::Point),
        Part::Whole if is_digit => Some(Part::Whole),
        Part::Whole if is_point => Some(Part::Fraction),
        Part::Whole if is_mark => Some(Part::Mark),
        Part::Point if is_digit => Some(Part::Fraction),
        Part::Fraction if is_digit => Some(Part::Fraction),
        Part::Fraction if is_mark => Some(Part::Mark),
        Part::Mark if is_digit => Some(Part::Exponent),
        Part::Mark if is_sign => Some(Part::MarkSigned),
        Part::MarkSigned if is_digit => Some(Part::Exponent),
        Part::Exponent if is_digit => Some(Part::Exponent),
        _ => None,
    }
}

fn may_end(part: Part) -> bool
    ensures { result ≡ is_end part }
{
    match part {
        Part::Whole | Part::Fraction | Part::Exponent => true,
        _ => false,
    }
}

/// The first place at which the bytes are no spelling.
pub fn first_bad(bytes: &[u8]) -> Option<usize>
    ensures { result ≡ bad_from Part.Start 0 bytes.now }
{
    let mut part = Part::Start;
    for (at, byte) in bytes.iter().enumerate() {
        match after(part, *byte) {
            None => return Some(at),
            Some(next) => part = next,
        }
    }
    if may_end(part) {
        None
    } else {
        Some(bytes.len())
    }
}

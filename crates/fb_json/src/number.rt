//! Which runs of bytes are numbers of JSON.

ghost use Rattle.std.specs.Prelude.{◌≡◌, ◌↔◌, IsTrue};
ghost use Rattle.fb_json.specs.Number.{IsNumber};
ghost use Rattle.fb_json.specs.Scan.{part_after, is_end, is_number};

/// What stands before the next byte of a number.
#[derive(Clone, Copy, Debug, PartialEq, Eq)]
pub enum Part {
    Start,
    Minus,
    Zero,
    Whole,
    Point,
    Fraction,
    Mark,
    MarkSigned,
    Exponent,
}

fn after(part: Part, byte: u8) -> Option<Part>
    ensures { result ≡ part_after part byte }
{
    let is_digit = byte.is_ascii_digit();
    let is_zero = byte == b'0';
    let is_point = byte == b'.';
    let is_sign = byte == b'+' || byte == b'-';
    let is_mark = byte == b'e' || byte == b'E';
    match part {
        Part::Start if byte == b'-' => Some(Part::Minus),
        Part::Start if is_zero => Some(Part::Zero),
        Part::Start if is_digit => Some(Part::Whole),
        Part::Minus if is_zero => Some(Part::Zero),
        Part::Minus if is_digit => Some(Part::Whole),
        Part::Zero if is_point => Some(Part::Point),
        Part::Zero if is_mark => Some(Part::Mark),
        Part::Whole if is_digit => Some(Part::Whole),
        Part::Whole if is_point => Some(Part::Point),
        Part::Whole if is_mark => Some(Part::Mark),
        Part::Point if is_digit => Some(Part::Fraction),
        Part::Fraction if is_digit => Some(Part::Fraction),
        Part::Fraction if is_mark => Some(Part::Mark),
        Part::Mark if is_digit => Some(Part::Exponent),
        Part::Mark if is_sign => Some(Part::MarkSigned),
        Part::MarkSigned if is_digit => Some(Part::Exponent),
        Part::Exponent if is_digit => Some(Part::Exponent),
        _ => None,
    }
}

fn may_end(part: Part) -> bool
    ensures { result ≡ is_end part }
{
    match part {
        Part::Zero | Part::Whole | Part::Fraction | Part::Exponent => true,
        _ => false,
    }
}

fn is_gone_through(run: &[u8]) -> bool
    ensures { result ≡ is_number run.now }
{
    let mut part = Part::Start;
    for byte in run {
        match after(part, *byte) {
            None => return false,
            Some(next) => part = next,
        }
    }
    may_end(part)
}

/// Whether the bytes are a number of RFC 8259.
pub fn is_number(run: &[u8]) -> bool
    ensures exact { IsTrue result ↔ IsNumber run.now }
    ensures function { result ≡ is_number run.now }
{
    is_gone_through(run)
}

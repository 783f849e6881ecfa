//! The value of a spelling.

ghost use Rattle.std.specs.Prelude.{◌≡◌, ◌^◌, ◌*◌, ◌-◌, ◌≤◌, take, length, min};
ghost use Rattle.std.specs.List.{before_first, after_first};
ghost use Rattle.std.specs.Str.Parse.{digits_value};
ghost use Rattle.fb_decimal.specs.Spelling.{is_mark, is_point};
ghost use Rattle.fb_decimal.specs.Pieces.{digits, number, begins_with_minus, magnitude_in, IsCapped, from_front, kept_digits};

/// The greatest absolute value that is read, in millionths.
const LIMIT: u128 = 1_000_000_000_000_000_000_000_000_000_000;

pub fn is_negative(bytes: &[u8]) -> bool
    ensures { result ≡ begins_with_minus bytes.now }
{
    match bytes {
        [first, ..] => *first == b'-',
        [] => false,
    }
}

fn is_mark_byte(byte: u8) -> bool
    ensures { result ≡ is_mark byte }
{
    byte == b'e' || byte == b'E'
}

/// What stands before and after the first e or E.
fn split_at_mark(bytes: &[u8]) -> (&[u8], &[u8])
    ensures front { result.0.now ≡ before_first is_mark bytes.now }
    ensures back { result.1.now ≡ after_first is_mark bytes.now }
{
    for (at, byte) in bytes.iter().enumerate() {
        if is_mark_byte(*byte) {
            return (&bytes[..at], &bytes[at + 1..]);
        }
    }
    (bytes, &bytes[bytes.len()..])
}

/// What stands after the first point.
fn after_point(bytes: &[u8]) -> &[u8]
    ensures { result.now ≡ after_first is_point bytes.now }
{
    for (at, byte) in bytes.iter().enumerate() {
        if *byte == b'.' {
            return &bytes[at + 1..];
        }
    }
    &bytes[bytes.len()..]
}

fn count_digits(bytes: &[u8]) -> usize
    ensures { result ≡ length (digits bytes.now) }
{
    bytes.iter().filter(|byte| byte.is_ascii_digit()).count()
}

/// The digits as one number, or the greatest `u64` if that is less.
fn saturating_number(bytes: &[u8]) -> u64
    ensures { result ≡ min (number bytes.now) (2 ^ 64 - 1) }
{
    let mut total: u64 = 0;
    for byte in bytes {
        if byte.is_ascii_digit() {
            total = total
                .saturating_mul(10)
                .saturating_add(u64::from(*byte - b'0'));
        }
    }
    total
}

/// The first `kept` digits as one number, or nothing where it is past the limit.
fn leading(bytes: &[u8], kept: u128) -> Option<u128>
    ensures { IsCapped (10 ^ 30) (digits_value 10 (take kept (digits bytes.now))) result }
{
    let mut total: u128 = 0;
    let mut left = kept;
    for byte in bytes {
        if byte.is_ascii_digit() && left > 0 {
            left -= 1;
            total = total * 10 + u128::from(*byte - b'0');
            if total > LIMIT {
                return None;
            }
        }
    }
    Some(total)
}

/// The number with so many zeros behind it, or nothing where that is past the limit.
fn with_zeros(number: u128, zeros: u128) -> Option<u128>
    requires { number ≤ 10 ^ 30 }
    ensures { IsCapped (10 ^ 30) (number * 10 ^ zeros) result }
{
    if number == 0 {
        return Some(0);
    }
    if zeros > 30 {
        return None;
    }
    let mut total = number;
    for _ in 0..zeros {
        total *= 10;
        if total > LIMIT {
            return None;
        }
    }
    Some(total)
}

/// So many digits from the front, with zeros where there are no more.
fn front_number(bytes: &[u8], kept: u128) -> Option<u128>
    ensures { IsCapped (10 ^ 30) (from_front (digits bytes.now) kept) result }
{
    match leading(bytes, kept) {
        None => None,
        Some(number) => with_zeros(number, kept.saturating_sub(count_digits(bytes) as u128)),
    }
}

/// How many digits the value has before its point, in millionths.
fn kept(digits: usize, places: usize, is_negative: bool, power: u64) -> u128
    ensures { result ≡ kept_digits digits places is_negative power }
{
    let digits = digits as u128 + 6;
    let places = places as u128;
    let power = u128::from(power);
    if is_negative {
        digits.saturating_sub(places + power)
    } else {
        (digits + power).saturating_sub(places)
    }
}

/// The absolute value in millionths, or nothing where it is past the limit.
pub fn magnitude(bytes: &[u8]) -> Option<u128>
    ensures { IsCapped (10 ^ 30) (magnitude_in bytes.now) result }
{
    let (mantissa, exponent) = split_at_mark(bytes);
    let places = count_digits(after_point(mantissa));
    let power = saturating_number(exponent);
    let kept = kept(count_digits(mantissa), places, is_negative(exponent), power);
    front_number(mantissa, kept)
}

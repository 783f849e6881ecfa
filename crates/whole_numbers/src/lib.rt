//! Whole numbers of up to 128 bits in decimal, each with its one text: no sign but a minus, no leading zeros, no `-0`.
//! Nothing here takes memory.
#![tactic(auto)]

ghost use Rattle.std.specs.Prelude.{◌≡◌, ◌^◌, ◌<◌, FitsSigned};
ghost use Rattle.std.specs.Fmt.{decimal, signed_decimal};
ghost use Rattle.std.specs.Int.{w128};
ghost use Rattle.whole_laws.specs.Sums.{IsWithin};
ghost use Rattle.whole_numbers.specs.Plain.{is_plain};
ghost use Rattle.whole_numbers.specs.Spelled.{Reads};

/// Whether the field has no sign but one minus before a digit that is not 0, and no 0 before further bytes.
fn is_plain(field: &[u8]) -> bool
    ensures { result ≡ is_plain field.now }
{
    match field.split_first() {
        None => false,
        Some((first, rest)) => {
            if *first == b'-' {
                match rest.first() {
                    None => false,
                    Some(second) => *second != b'0',
                }
            } else if *first == b'+' {
                false
            } else if *first == b'0' {
                rest.is_empty()
            } else {
                true
            }
        }
    }
}

/// The whole number of 128 bits that the field spells.
pub fn whole_number(field: &[u8]) -> Option<i128>
    ensures spelled { Reads (FitsSigned w128) signed_decimal field.now result }
{
    if !is_plain(field) {
        return None;
    }
    let Ok(text) = str::from_utf8(field) else {
        return None;
    };
    let Ok(value) = text.parse::<i128>() else {
        return None;
    };
    Some(value)
}

/// The whole number that the field spells, if its size is at most `most`.
pub fn number_within(field: &[u8], most: u64) -> Option<i64>
    requires { most < 2 ^ 63 }
    ensures spelled { Reads (IsWithin most) signed_decimal field.now result }
{
    let Some(value) = whole_number(field) else {
        return None;
    };
    let most = i128::from(most);
    if -most <= value && value <= most {
        Some(value as i64)
    } else {
        None
    }
}

/// The whole number from 0 to 2^32 - 1 that the field spells.
pub fn natural_number(field: &[u8]) -> Option<u32>
    ensures spelled { Reads (λ n. n < 2 ^ 32) decimal field.now result }
{
    let Some(value) = whole_number(field) else {
        return None;
    };
    if 0 <= value && value <= i128::from(u32::MAX) {
        Some(value as u32)
    } else {
        None
    }
}

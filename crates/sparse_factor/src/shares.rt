//! Products and quotients in fixed point. Each rounds down, and wraps where it would leave its range.

ghost use Rattle.std.specs.Prelude.{◌^◌, ◌<◌, ◌≤◌};

/// So many parts make a whole.
const WHOLE: u128 = 18_446_744_073_709_551_616;

/// A share of a weight: `share` parts of 2^-64.
pub fn weight_of(share: u64, weight: u64) -> u64
    ensures { result ≤ weight }
{
    (u128::from(share) * u128::from(weight) / WHOLE) as u64
}

/// A share of a number: `share` parts of 2^-64.
pub fn number_of(share: u64, z: i128) -> i128 {
    let low = (z.cast_unsigned() % WHOLE) as u64;
    (z >> 64)
        .wrapping_mul(i128::from(share))
        .wrapping_add(i128::from(weight_of(share, low)))
}

/// A number times 2^places.
pub fn shifted(z: i128, places: i64) -> i128 {
    let by = places.unsigned_abs().min(127) as u32;
    if places < 0 {
        z.wrapping_shr(by)
    } else {
        z.wrapping_shl(by)
    }
}

/// How many binary digits a number has.
pub fn digits_of(z: u128) -> i64 {
    128i64.wrapping_sub(i64::from(z.leading_zeros()))
}

/// What divides numbers by a divisor: one more than this many parts of 2^-64, times 2^places, is 2^64 over the divisor.
#[derive(Clone, Copy, Debug)]
pub struct Inverse {
    parts: u64,
    places: i64,
}

impl Inverse {
    /// The inverse of a divisor; that of 1 for 0.
    pub fn new(divisor: u64) -> Inverse {
        let divisor = divisor.max(1);
        let places = divisor.leading_zeros();
        let greatest = u128::from(divisor.wrapping_shl(places)).max(1);
        let parts = (u128::MAX / greatest).saturating_sub(WHOLE);
        Inverse {
            parts: u64::try_from(parts).unwrap_or(u64::MAX),
            places: i64::from(places),
        }
    }

    /// The share that a part of the divisor has in it.
    pub fn share_of(&self, part: u64) -> u64 {
        let part = shifted(i128::from(part), self.places);
        u64::try_from(part.wrapping_add(number_of(self.parts, part))).unwrap_or(u64::MAX)
    }

    /// A number times 2^places over the divisor.
    pub fn quotient(&self, z: i128, places: i64) -> i128 {
        let places = places.wrapping_add(self.places).wrapping_sub(64);
        shifted(z.wrapping_add(number_of(self.parts, z)), places)
    }
}

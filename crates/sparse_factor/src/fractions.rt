//! Fractions between -1 and 1 with 128 binary places.

use crate::shares::{Inverse, number_of};

/// So many parts of 2^-128 make 2^-64.
const WHOLE: u128 = 18_446_744_073_709_551_616;

/// A number has 28 binary places less than a fraction.
const MORE_PLACES: u32 = 28;

/// 1 with 100 binary places.
const ONE: i128 = 1_267_650_600_228_229_401_496_703_205_376;

/// A divisor that is less than 2^-50 is taken for 0.
const LEAST: i128 = 1_125_899_906_842_624;

/// A fraction from 0 to 1: parts of 2^-64, and parts of 2^-128.
#[derive(Clone, Copy, Debug)]
struct Fraction {
    high: u64,
    low: u64,
}

/// A fraction from -1 to 1.
#[derive(Clone, Copy, Debug)]
pub struct Signed {
    is_negative: bool,
    size: Fraction,
}

/// A fraction from 0 to 1 that others are divided by.
#[derive(Debug, Drop)]
pub struct Divisor {
    is_none: bool,
    size: Fraction,
    places: i64,
    inverse: Inverse,
}

/// A number of 100 binary places in 128, or the greatest below 1.
fn stretched(z: i128) -> u128 {
    z.unsigned_abs()
        .min(ONE.unsigned_abs().saturating_sub(1))
        .wrapping_shl(MORE_PLACES)
}

impl Fraction {
    /// A fraction of so many parts of 2^-128.
    fn new(parts: u128) -> Fraction {
        Fraction {
            high: (parts / WHOLE) as u64,
            low: (parts % WHOLE) as u64,
        }
    }

    /// The fraction of a number.
    fn times(&self, z: i128) -> i128 {
        number_of(self.high, z).wrapping_add(number_of(self.low, z) >> 64)
    }
}

impl Signed {
    /// A fraction of 100 binary places.
    pub fn new(z: i128) -> Signed {
        Signed {
            is_negative: z < 0,
            size: Fraction::new(stretched(z)),
        }
    }

    /// The fraction of a number.
    pub fn times(&self, z: i128) -> i128 {
        let size = self.size.times(z);
        if self.is_negative {
            size.wrapping_neg()
        } else {
            size
        }
    }
}

impl Divisor {
    /// The divisor that a number of 100 binary places leaves of 1.
    pub fn new(less: i128) -> Divisor {
        let rest = ONE.wrapping_sub(less);
        let parts = stretched(rest);
        let places = parts.leading_zeros();
        let first = Fraction::new(parts.wrapping_shl(places)).high;
        Divisor {
            is_none: rest < LEAST,
            size: Fraction::new(parts),
            places: i64::from(places).wrapping_add(64),
            inverse: Inverse::new(first),
        }
    }

    /// A number divided by this; 0 where this is none.
    pub fn quotient(&self, z: i128) -> i128 {
        if self.is_none {
            return 0;
        }
        let mut quotient: i128 = 0;
        for _digits in 0..3 {
            let left = z.wrapping_sub(self.size.times(quotient));
            quotient = quotient.wrapping_add(self.inverse.quotient(left, self.places));
        }
        quotient
    }
}

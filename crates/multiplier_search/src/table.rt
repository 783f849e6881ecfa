//! What both simplexes are made of. Nothing is promised of it, since what they propose is tried.

use fb_types::{Bounds, Half, Items, Mult};
use std::alloc::{AllocError, Global};

/// What may stand in a basis: the balance, a bound of a zone, or a row by its place from 0.
#[derive(Clone, Copy, Debug)]
pub enum Basic {
    Balance,
    High(usize),
    Low(usize),
    Row(usize),
}

/// A table of numbers, each 0 at first. Beyond its ends a number is 0, and what is written there is dropped.
#[derive(Debug, Drop)]
pub struct Table {
    width: usize,
    numbers: Vec<i128>,
}

impl Table {
    /// A table of so many lines.
    pub fn new(alloc: Global, height: usize, width: usize) -> Result<Table, AllocError> {
        let mut numbers = Vec::new(alloc);
        for _ in 0..height.wrapping_mul(width) {
            numbers.push(0)?;
        }
        Ok(Table { width, numbers })
    }

    fn place(&self, line: usize, column: usize) -> usize {
        line.wrapping_mul(self.width).wrapping_add(column)
    }

    pub fn get(&self, line: usize, column: usize) -> i128 {
        read(self.numbers.as_slice(), self.place(line, column))
    }

    pub fn set(&mut self, line: usize, column: usize, number: i128) {
        let k = self.place(line, column);
        write(self.numbers.as_mut_slice(), k, number);
    }

    /// Makes each number 0.
    pub fn clear(&mut self) {
        for k in 0..self.numbers.len() {
            self.numbers[k] = 0;
        }
    }
}

/// A number of a list, 0 beyond its end.
pub fn read(numbers: &[i128], k: usize) -> i128 {
    match numbers.get(k) {
        Some(number) => *number,
        None => 0,
    }
}

/// Puts a number into a list, where it has the place.
pub fn write(numbers: &mut [i128], k: usize, number: i128) {
    if k < numbers.len() {
        numbers[k] = number;
    }
}

/// Whether a row may be cited.
pub fn may_cite(kept: &[bool], k: usize) -> bool {
    match kept.get(k) {
        Some(flag) => *flag,
        None => false,
    }
}

/// The coefficient of a zone.
pub fn coefficient(row: &Half, zone: usize) -> i128 {
    match row.a.as_slice().get(zone) {
        Some(a) => i128::from(*a),
        None => 0,
    }
}

/// How often a simplex takes another basis before it gives up.
pub fn most_pivots(zones: usize) -> usize {
    zones.wrapping_mul(16).wrapping_add(64)
}

/// The zone whose coefficient of the target is the best multiplier of the balance without any row.
pub fn turning_zone(target: &Half, bounds: &[Bounds]) -> usize {
    let mut best = 0;
    let mut least = i64::MAX;
    for (zone, a) in target.a.as_slice().iter().enumerate() {
        if *a < least && fall(target, bounds, *a) <= 0 {
            best = zone;
            least = *a;
        }
    }
    best
}

/// The sum of the bounds that the target is at where the multiplier of the balance is `t`.
fn fall(target: &Half, bounds: &[Bounds], t: i64) -> i128 {
    let mut sum: i128 = 0;
    for (b, a) in bounds.iter().zip(target.a.as_slice().iter()) {
        let bound = if *a <= t { b.low } else { b.high };
        sum = sum.wrapping_add(i128::from(bound));
    }
    sum
}

/// The multipliers of the rows in a basis, each value in 10^-9, by rising rows.
pub fn multipliers(
    alloc: Global,
    basis: &[Basic],
    values: &[i128],
    rows: usize,
) -> Result<Items<Mult>, AllocError> {
    let mut mults = Items::new(alloc);
    let mut before = None;
    for _ in basis {
        let Some(Share { k, value }) = next_share(basis, values, before) else {
            return Ok(mults);
        };
        before = Some(k);
        if value > 0 && k < rows && k < 0xffff_ffff {
            mults.add(Mult {
                row: k as u32 + 1,
                value,
            })?;
        }
    }
    Ok(mults)
}

/// A row by its place, and its multiplier.
#[derive(Clone, Copy, Debug)]
struct Share {
    k: usize,
    value: i128,
}

/// The row of the basis with the least place above another's.
fn next_share(basis: &[Basic], values: &[i128], before: Option<usize>) -> Option<Share> {
    let mut next: Option<Share> = None;
    for (basic, value) in basis.iter().zip(values.iter()) {
        let Basic::Row(k) = *basic else {
            continue;
        };
        if is_above(k, before) && is_below(k, next) {
            next = Some(Share { k, value: *value });
        }
    }
    next
}

fn is_above(k: usize, before: Option<usize>) -> bool {
    match before {
        Some(b) => b < k,
        None => true,
    }
}

fn is_below(k: usize, next: Option<Share>) -> bool {
    match next {
        Some(share) => k < share.k,
        None => true,
    }
}

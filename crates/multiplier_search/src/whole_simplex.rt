//! A simplex over whole numbers, without fractions, that proposes multipliers. Nothing is promised of them: what it
//! proposes is tried.
//!
//! It works on the multipliers' side, by Bland's rule: one line of the basis for each zone, and first the bounds at the
//! best balance. Each number of the table is a minor of the rows, so that each division by the last pivot is exact.
//! Coefficients count in 10^-3, and sides and bounds in megawatts, both rounded down, so that several pivots fit 128
//! bits; where a number does not, the search gives up.

use crate::table::{
    Basic, Table, coefficient, may_cite, most_pivots, multipliers, read, turning_zone, write,
};
use fb_types::{Bounds, Half, Items, Mult};
use std::alloc::{AllocError, Global};

/// A coefficient counts in this many 10^-12.
const COEFFICIENT: i128 = 1_000_000_000;

/// A side or bound counts in this many watts.
const SIDE: i128 = 1_000_000;

/// A coefficient of one.
const ONE: i128 = 1_000;

/// A multiplier of one, in 10^-9.
const BILLION: i128 = 1_000_000_000;

/// The table has a line for each zone and one for the point, and a column for each zone and one for the multipliers.
/// Each number of it counts in one over the divisor.
#[derive(Debug, Drop)]
pub struct WholeSimplex {
    alloc: Global,
    zones: usize,
    divisor: i128,
    table: Table,
    column: Vec<i128>,
    basis: Vec<Basic>,
}

/// What becomes of the search at a basis.
#[derive(Clone, Copy, Debug)]
enum Step {
    Enter(Basic),
    Best,
    GiveUp,
}

/// A coefficient of a row, as it counts here.
fn whole_coefficient(row: &Half, zone: usize) -> i128 {
    coefficient(row, zone).div_euclid(COEFFICIENT)
}

/// The side of a row, as its sum at a point counts.
fn whole_side(row: &Half) -> i128 {
    i128::from(row.r).div_euclid(SIDE).wrapping_mul(ONE)
}

/// A bound in megawatts.
fn whole_bound(bound: i64) -> i128 {
    i128::from(bound).div_euclid(SIDE)
}

/// `a·b − c·d`, where each number fits.
fn difference(a: i128, b: i128, c: i128, d: i128) -> Option<i128> {
    let first = a.checked_mul(b)?;
    let second = c.checked_mul(d)?;
    first.checked_sub(second)
}

impl WholeSimplex {
    pub fn new(alloc: Global, zones: usize) -> Result<WholeSimplex, AllocError> {
        let side = zones.wrapping_add(1);
        let mut simplex = WholeSimplex {
            alloc,
            zones,
            divisor: 1,
            table: Table::new(alloc, side, side)?,
            column: Vec::new(alloc),
            basis: Vec::new(alloc),
        };
        for _ in 0..side {
            simplex.column.push(0)?;
        }
        for _ in 0..zones {
            simplex.basis.push(Basic::Balance)?;
        }
        Ok(simplex)
    }

    /// Multipliers of kept rows that may prove the target.
    pub fn propose(
        &mut self,
        target: &Half,
        rows: &[Half],
        kept: &[bool],
        bounds: &[Bounds],
    ) -> Result<Option<Items<Mult>>, AllocError> {
        self.start(target, bounds);
        for _ in 0..most_pivots(self.zones) {
            match self.step(rows, kept, bounds) {
                Step::Enter(basic) => {
                    if self.pivot(rows, basic, bounds).is_none() {
                        return Ok(None);
                    }
                }
                Step::Best => return self.multipliers(rows.len()),
                Step::GiveUp => return Ok(None),
            }
        }
        Ok(None)
    }

    /// The basis of bounds alone.
    fn start(&mut self, target: &Half, bounds: &[Bounds]) {
        let turn = turning_zone(target, bounds);
        self.divisor = 1;
        self.table.clear();
        for (zone, b) in bounds.iter().enumerate() {
            self.start_zone(target, zone, turn, b);
        }
    }

    fn start_zone(&mut self, target: &Half, zone: usize, turn: usize, b: &Bounds) {
        let balance = whole_coefficient(target, turn);
        let more = whole_coefficient(target, zone).wrapping_sub(balance);
        if zone == turn {
            self.table.set(zone, zone, 1);
            self.table.set(zone, self.zones, balance);
            self.put_basis(zone, Basic::Balance);
            return;
        }
        let is_high = more >= 0;
        let sign = if is_high { 1 } else { -1 };
        let bound = whole_bound(if is_high { b.high } else { b.low });
        self.table.set(zone, zone, sign);
        self.table.set(zone, turn, sign.wrapping_neg());
        self.table.set(zone, self.zones, more.wrapping_mul(sign));
        self.put_basis(
            zone,
            if is_high {
                Basic::High(zone)
            } else {
                Basic::Low(zone)
            },
        );
        self.add_to_point(zone, bound);
        self.add_to_point(turn, bound.wrapping_neg());
        self.add_to_point(self.zones, bound.wrapping_mul(more));
    }

    fn add_to_point(&mut self, zone: usize, more: i128) {
        let x = self.table.get(self.zones, zone).wrapping_add(more);
        self.table.set(self.zones, zone, x);
    }

    fn put_basis(&mut self, line: usize, basic: Basic) {
        if line < self.basis.len() {
            self.basis[line] = basic;
        }
    }

    /// What comes into the basis: the first bound or row, by rising zones and then by rising rows, that the point
    /// breaks.
    fn step(&self, rows: &[Half], kept: &[bool], bounds: &[Bounds]) -> Step {
        match self.broken_bound(bounds) {
            Some(step) => step,
            None => self.broken_row(rows, kept),
        }
    }

    fn broken_bound(&self, bounds: &[Bounds]) -> Option<Step> {
        for (zone, b) in bounds.iter().enumerate() {
            let x = self.table.get(self.zones, zone);
            let Some(high) = whole_bound(b.high).checked_mul(self.divisor) else {
                return Some(Step::GiveUp);
            };
            let Some(low) = whole_bound(b.low).checked_mul(self.divisor) else {
                return Some(Step::GiveUp);
            };
            if x > high {
                return Some(Step::Enter(Basic::High(zone)));
            }
            if x < low {
                return Some(Step::Enter(Basic::Low(zone)));
            }
        }
        None
    }

    fn broken_row(&self, rows: &[Half], kept: &[bool]) -> Step {
        for (k, row) in rows.iter().enumerate() {
            if !may_cite(kept, k) {
                continue;
            }
            match self.excess(row) {
                Some(more) if more > 0 => return Step::Enter(Basic::Row(k)),
                Some(_) => continue,
                None => return Step::GiveUp,
            }
        }
        Step::Best
    }

    /// By how much the point breaks a row.
    fn excess(&self, row: &Half) -> Option<i128> {
        let sum = self.line_by_row(self.zones, row)?;
        let side = whole_side(row).checked_mul(self.divisor)?;
        sum.checked_sub(side)
    }

    /// The sum over the zones of a line of the table times a row.
    fn line_by_row(&self, line: usize, row: &Half) -> Option<i128> {
        let mut sum: i128 = 0;
        for zone in 0..self.zones {
            let term = self
                .table
                .get(line, zone)
                .checked_mul(whole_coefficient(row, zone))?;
            sum = sum.checked_add(term)?;
        }
        Some(sum)
    }

    /// One pivot, where there is one and each number fits.
    fn pivot(&mut self, rows: &[Half], basic: Basic, bounds: &[Bounds]) -> Option<()> {
        for line in 0..self.zones.wrapping_add(1) {
            let number = self.entry(rows, line, basic)?;
            write(self.column.as_mut_slice(), line, number);
        }
        let last = self.excess_of(rows, basic, bounds)?;
        write(self.column.as_mut_slice(), self.zones, last);
        let p = self.leaving()?;
        let pivot = read(self.column.as_slice(), p);
        for line in 0..self.zones.wrapping_add(1) {
            if line != p {
                self.eliminate(line, p, pivot)?;
            }
        }
        self.divisor = pivot;
        self.put_basis(p, basic);
        Some(())
    }

    /// A line of the table times what comes in.
    fn entry(&self, rows: &[Half], line: usize, basic: Basic) -> Option<i128> {
        match basic {
            Basic::High(zone) => Some(self.table.get(line, zone)),
            Basic::Low(zone) => self.table.get(line, zone).checked_neg(),
            Basic::Row(k) => self.line_by_row(line, rows.get(k)?),
            Basic::Balance => None,
        }
    }

    /// By how much the point breaks what comes in.
    fn excess_of(&self, rows: &[Half], basic: Basic, bounds: &[Bounds]) -> Option<i128> {
        match basic {
            Basic::High(zone) => {
                let high = whole_bound(bounds.get(zone)?.high).checked_mul(self.divisor)?;
                self.table.get(self.zones, zone).checked_sub(high)
            }
            Basic::Low(zone) => {
                let low = whole_bound(bounds.get(zone)?.low).checked_mul(self.divisor)?;
                low.checked_sub(self.table.get(self.zones, zone))
            }
            Basic::Row(k) => self.excess(rows.get(k)?),
            Basic::Balance => None,
        }
    }

    /// The line that leaves the basis: of those with the least quotient of multiplier and number in the column, the
    /// first by Bland's order.
    fn leaving(&self) -> Option<usize> {
        let mut best: Option<usize> = None;
        for (line, basic) in self.basis.iter().enumerate() {
            let here = read(self.column.as_slice(), line);
            if here > 0 && self.goes_before(line, *basic, best)? {
                best = Some(line);
            }
        }
        best
    }

    /// Whether a line leaves before another. The balance never leaves.
    fn goes_before(&self, line: usize, basic: Basic, other: Option<usize>) -> Option<bool> {
        if let Basic::Balance = basic {
            return Some(false);
        }
        let Some(best) = other else {
            return Some(true);
        };
        let left = self
            .table
            .get(line, self.zones)
            .checked_mul(read(self.column.as_slice(), best))?;
        let right = self
            .table
            .get(best, self.zones)
            .checked_mul(read(self.column.as_slice(), line))?;
        if left != right {
            return Some(left < right);
        }
        Some(self.rank(basic) < self.rank(*self.basis.get(best)?))
    }

    /// The place in Bland's order: bounds by zones, then rows.
    fn rank(&self, basic: Basic) -> usize {
        match basic {
            Basic::Balance => 0,
            Basic::High(zone) => zone.wrapping_mul(2),
            Basic::Low(zone) => zone.wrapping_mul(2).wrapping_add(1),
            Basic::Row(k) => self.zones.wrapping_mul(2).wrapping_add(k),
        }
    }

    /// Takes a multiple of the pivot's line from another.
    fn eliminate(&mut self, line: usize, p: usize, pivot: i128) -> Option<()> {
        let divisor = self.divisor;
        if divisor <= 0 {
            return None;
        }
        let times = read(self.column.as_slice(), line);
        for j in 0..self.zones.wrapping_add(1) {
            let number = difference(self.table.get(line, j), pivot, times, self.table.get(p, j))?;
            self.table.set(line, j, number / divisor);
        }
        Some(())
    }

    /// The multipliers of the rows in the basis, each rounded down.
    fn multipliers(&self, rows: usize) -> Result<Option<Items<Mult>>, AllocError> {
        let mut values = Vec::new(self.alloc);
        for line in 0..self.basis.len() {
            let Some(value) = self.value(line) else {
                return Ok(None);
            };
            values.push(value)?;
        }
        let mults = multipliers(self.alloc, self.basis.as_slice(), values.as_slice(), rows)?;
        Ok(Some(mults))
    }

    fn value(&self, line: usize) -> Option<i128> {
        if self.divisor <= 0 {
            return None;
        }
        let level = self.table.get(line, self.zones).checked_mul(BILLION)?;
        Some(level.div_euclid(self.divisor))
    }
}

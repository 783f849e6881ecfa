//! A simplex in fixed point that proposes multipliers. Nothing is promised of them: what it proposes is tried.
//!
//! It looks for the point of the bounds at which the target's sum is greatest among those that meet rows of a short
//! list, and has with it, at each step, multipliers that bound the sum. Where that point meets the short list and
//! breaks the target, the first row that is broken on the way to it from the list of zeros joins the short list; so the
//! short list is of rows that matter. A number that leaves 128 bits wraps, and then what is proposed serves nothing.

use crate::table::{
    Basic, Table, coefficient, may_cite, most_pivots, multipliers, read, turning_zone, write,
};
use fb_types::{Bounds, Half, Items, Mult};
use std::alloc::{AllocError, Global};

/// One, as a number of the table.
const ONE: i128 = 1 << 48;

/// The bits of a table's number behind the point.
const POINT: u32 = 48;

/// The bits of a coefficient behind the point: a coefficient counts in units of 2^-40.
const COEFFICIENT: u32 = 40;

/// A watt, as a number of the point.
const WATT: i128 = 1 << 16;

/// What counts as nothing: 16 watts.
const LITTLE: i128 = 1 << 20;

/// The least number that is divided by.
const LEAST_PIVOT: i128 = 1 << 32;

/// A multiplier of one, in 10^-9.
const BILLION: i128 = 1_000_000_000;

/// The bits behind the point of a share of the way from zero to the point.
const SHARE: u32 = 30;

/// The least length of a short list over which a search takes longer than a look at each row.
const LONG_LIST: usize = 1_000;

/// What may come into the basis, and by how much the point breaks it.
#[derive(Clone, Copy, Debug)]
struct Broken {
    by: i128,
    what: Basic,
}

/// What becomes of the search at a basis.
#[derive(Clone, Copy, Debug)]
enum Step {
    Enter(Broken),
    Enough,
    Needed,
}

/// The memory of the search: the short list, and for one target the inverse of the basis with the multipliers as last
/// column, the point, a ray, the column that comes in, and the basis.
#[derive(Debug, Drop)]
pub struct Simplex {
    alloc: Global,
    zones: usize,
    short_list: Vec<usize>,
    table: Table,
    point: Vec<i64>,
    ray: Vec<i64>,
    column: Vec<i128>,
    basis: Vec<Basic>,
}

/// The right side of a row, as its sum at a point is counted.
fn side(row: &Half) -> i128 {
    i128::from(row.r).wrapping_mul(1_000_000_000_000) >> (COEFFICIENT - 16)
}

/// The sum of a row at a point.
fn sum_at(row: &Half, point: &[i64]) -> i128 {
    let mut sum: i128 = 0;
    for (a, x) in row.a.as_slice().iter().zip(point.iter()) {
        sum = sum.wrapping_add(i128::from(*a).wrapping_mul(i128::from(*x)));
    }
    sum >> COEFFICIENT
}

/// The sum of a row in a direction, in units in which products with sides fit 128 bits.
fn sum_along(row: &Half, ray: &[i64]) -> i128 {
    let mut sum: i128 = 0;
    for (a, x) in row.a.as_slice().iter().zip(ray.iter()) {
        sum = sum.wrapping_add(i128::from(*a).wrapping_mul(i128::from(*x)));
    }
    sum >> 20
}

/// The share of the way from zero at which a row with this side is broken, where its sum at the end is `sum`.
fn share_of(side: i128, sum: i128) -> i128 {
    if side < 0 {
        return 0;
    }
    if sum <= 0 {
        return i128::MAX;
    }
    side.wrapping_mul(1 << SHARE) / sum
}

impl Simplex {
    pub fn new(alloc: Global, zones: usize) -> Result<Simplex, AllocError> {
        let mut simplex = Simplex {
            alloc,
            zones,
            short_list: Vec::new(alloc),
            table: Table::new(alloc, zones, zones.wrapping_add(1))?,
            point: Vec::new(alloc),
            ray: Vec::new(alloc),
            column: Vec::new(alloc),
            basis: Vec::new(alloc),
        };
        for _ in 0..zones {
            simplex.point.push(0)?;
            simplex.ray.push(0)?;
            simplex.column.push(0)?;
            simplex.basis.push(Basic::Balance)?;
        }
        Ok(simplex)
    }

    /// Puts a row on the short list.
    pub fn learn(&mut self, k: usize) -> Result<(), AllocError> {
        if !self.short_list.iter().any(|known| *known == k) {
            self.short_list.push(k)?;
        }
        Ok(())
    }

    /// Whether the row at `k` is the first kept row that is broken on the way from zero in its own direction, if the
    /// short list is so long that a search takes longer. Such a row is needed.
    pub fn leads(&mut self, rows: &[Half], k: usize, kept: &[bool]) -> bool {
        let Some(row) = rows.get(k) else {
            return false;
        };
        if self.short_list.len() < LONG_LIST || row.r < 0 {
            return false;
        }
        self.aim(row);
        let sum = sum_along(row, self.ray.as_slice());
        for (j, other) in rows.iter().enumerate() {
            if j == k || !may_cite(kept, j) {
                continue;
            }
            let here = sum_along(other, self.ray.as_slice());
            if i128::from(other.r).wrapping_mul(sum) <= i128::from(row.r).wrapping_mul(here) {
                return false;
            }
        }
        true
    }

    /// Lets the ray go in the direction of a row among balanced positions.
    fn aim(&mut self, row: &Half) {
        let mut sum: i64 = 0;
        for a in row.a.as_slice() {
            sum = sum.wrapping_add(*a);
        }
        let zones = row.a.as_slice().len().max(1).min(64) as i64;
        let mean = sum / zones;
        for (x, a) in self.ray.iter_mut().zip(row.a.as_slice().iter()) {
            *x = a.wrapping_sub(mean);
        }
    }

    /// Multipliers of kept rows that may prove the target.
    pub fn propose(
        &mut self,
        target: &Half,
        rows: &[Half],
        kept: &[bool],
        bounds: &[Bounds],
    ) -> Result<Option<Items<Mult>>, AllocError> {
        self.start(target, bounds);
        for _ in 0..most_pivots(self.zones) {
            match self.step(target, rows, kept, bounds) {
                Step::Enter(broken) => {
                    if let Basic::Row(k) = broken.what {
                        self.learn(k)?;
                    }
                    if !self.pivot(rows, broken) {
                        return Ok(None);
                    }
                }
                Step::Enough => break,
                Step::Needed => return Ok(None),
            }
        }
        Ok(Some(self.multipliers(rows.len())?))
    }

    /// The basis of bounds alone.
    fn start(&mut self, target: &Half, bounds: &[Bounds]) {
        let turn = turning_zone(target, bounds);
        self.table.clear();
        self.put_position(turn, 0);
        for (zone, b) in bounds.iter().enumerate() {
            self.start_zone(target, zone, turn, b);
        }
    }

    fn start_zone(&mut self, target: &Half, zone: usize, turn: usize, b: &Bounds) {
        let balance = coefficient(target, turn) << (POINT - COEFFICIENT);
        let more = (coefficient(target, zone) << (POINT - COEFFICIENT)).wrapping_sub(balance);
        if zone == turn {
            self.table.set(zone, zone, ONE);
            self.table.set(zone, self.zones, balance);
            self.put_basis(zone, Basic::Balance);
            return;
        }
        let is_high = more >= 0;
        let sign = if is_high { ONE } else { -ONE };
        let bound = i128::from(if is_high { b.high } else { b.low }).wrapping_mul(WATT);
        self.table.set(zone, zone, sign);
        self.table.set(zone, turn, sign.wrapping_neg());
        self.table.set(
            zone,
            self.zones,
            if is_high { more } else { more.wrapping_neg() },
        );
        self.put_basis(
            zone,
            if is_high {
                Basic::High(zone)
            } else {
                Basic::Low(zone)
            },
        );
        let rest = self.position(turn).wrapping_sub(bound);
        self.put_position(turn, rest);
        self.put_position(zone, bound);
    }

    /// The position of the point in a zone.
    fn position(&self, zone: usize) -> i128 {
        match self.point.get(zone) {
            Some(x) => i128::from(*x),
            None => 0,
        }
    }

    /// Puts a position, or 0 where it is too far away to count.
    fn put_position(&mut self, zone: usize, x: i128) {
        if zone < self.point.len() {
            self.point[zone] = i64::try_from(x).unwrap_or(0);
        }
    }

    fn put_basis(&mut self, line: usize, basic: Basic) {
        if line < self.basis.len() {
            self.basis[line] = basic;
        }
    }

    /// Whether the multipliers are enough, or else what comes into the basis, if there is anything.
    fn step(&self, target: &Half, rows: &[Half], kept: &[bool], bounds: &[Bounds]) -> Step {
        let over = sum_at(target, self.point.as_slice()).wrapping_sub(side(target));
        if over <= -LITTLE {
            return Step::Enough;
        }
        if let Some(broken) = self.most_broken(rows, kept, bounds) {
            return Step::Enter(broken);
        }
        if over <= LITTLE {
            return Step::Enough;
        }
        match self.first_broken(target, rows, kept) {
            Some(broken) => Step::Enter(broken),
            None => Step::Needed,
        }
    }

    /// The bound, or the kept row of the short list, that the point breaks most.
    fn most_broken(&self, rows: &[Half], kept: &[bool], bounds: &[Bounds]) -> Option<Broken> {
        let bound = self.broken_bound(bounds);
        let least = match bound {
            Some(broken) => broken.by,
            None => LITTLE,
        };
        match self.broken_row(rows, kept, least) {
            Some(row) => Some(row),
            None => bound,
        }
    }

    /// The bound that the point breaks most.
    fn broken_bound(&self, bounds: &[Bounds]) -> Option<Broken> {
        let mut worst = None;
        let mut most = LITTLE;
        for (zone, b) in bounds.iter().enumerate() {
            let x = self.position(zone);
            let above = x.wrapping_sub(i128::from(b.high).wrapping_mul(WATT));
            let below = i128::from(b.low).wrapping_mul(WATT).wrapping_sub(x);
            let by = above.max(below);
            if by > most {
                most = by;
                let what = if above > below {
                    Basic::High(zone)
                } else {
                    Basic::Low(zone)
                };
                worst = Some(Broken { by, what });
            }
        }
        worst
    }

    /// The kept row of the short list that the point breaks most, if by more than `least`.
    fn broken_row(&self, rows: &[Half], kept: &[bool], least: i128) -> Option<Broken> {
        let mut worst = None;
        let mut most = least;
        for k in self.short_list.iter() {
            if !may_cite(kept, *k) {
                continue;
            }
            let Some(row) = rows.get(*k) else {
                continue;
            };
            let by = sum_at(row, self.point.as_slice()).wrapping_sub(side(row));
            if by > most {
                most = by;
                worst = Some(Broken {
                    by,
                    what: Basic::Row(*k),
                });
            }
        }
        worst
    }

    /// The first kept row that is broken on the way from zero to the point, if it is broken before the target. Where
    /// zero breaks the target any broken row counts as broken before it.
    fn first_broken(&self, target: &Half, rows: &[Half], kept: &[bool]) -> Option<Broken> {
        let mut first = None;
        let mut least = i128::MAX;
        if target.r >= 0 {
            least = share_of(side(target), sum_at(target, self.point.as_slice()));
        }
        for (k, row) in rows.iter().enumerate() {
            if !may_cite(kept, k) {
                continue;
            }
            let sum = sum_at(row, self.point.as_slice());
            let by = sum.wrapping_sub(side(row));
            if by <= LITTLE {
                continue;
            }
            let share = share_of(side(row), sum);
            if share < least {
                least = share;
                first = Some(Broken {
                    by,
                    what: Basic::Row(k),
                });
            }
        }
        first
    }

    /// A point near which the target is broken and no kept row is, if the last search ended with one: on the way from
    /// zero to the point of the search, between the place where the target is broken and that of the first kept row.
    /// Its sum is near 0.
    pub fn breaking_point(
        &self,
        target: &Half,
        rows: &[Half],
        kept: &[bool],
    ) -> Result<Vec<i64>, AllocError> {
        let low = share_of(side(target), sum_at(target, self.point.as_slice())).max(0);
        let mut high: i128 = 1 << SHARE;
        for (k, row) in rows.iter().enumerate() {
            if may_cite(kept, k) {
                high = high.min(share_of(side(row), sum_at(row, self.point.as_slice())));
            }
        }
        let share = low.wrapping_add(high) >> 1;
        let mut x = Vec::new(self.alloc);
        for along in self.point.iter() {
            let watts = i128::from(*along).wrapping_mul(share) >> (SHARE + 16);
            x.push(i64::try_from(watts).unwrap_or(0))?;
        }
        Ok(x)
    }

    /// One pivot. It is false where there is none.
    fn pivot(&mut self, rows: &[Half], entering: Broken) -> bool {
        self.fill_column(rows, entering.what);
        let Some(p) = self.leaving() else {
            return false;
        };
        self.divide(p);
        for line in 0..self.zones {
            if line != p {
                self.subtract(line, p);
            }
        }
        self.move_point(p, entering.by);
        self.put_basis(p, entering.what);
        true
    }

    /// The column of what comes in, over the basis.
    fn fill_column(&mut self, rows: &[Half], what: Basic) {
        for line in 0..self.zones {
            let number = match what {
                Basic::High(zone) => self.table.get(line, zone),
                Basic::Low(zone) => self.table.get(line, zone).wrapping_neg(),
                Basic::Row(k) => self.line_by_row(line, rows.get(k)),
                Basic::Balance => 0,
            };
            write(self.column.as_mut_slice(), line, number);
        }
    }

    /// The sum over the zones of a line of the table times a row.
    fn line_by_row(&self, line: usize, row: Option<&Half>) -> i128 {
        let Some(row) = row else {
            return 0;
        };
        let mut sum: i128 = 0;
        for (zone, a) in row.a.as_slice().iter().enumerate() {
            sum = sum.wrapping_add(i128::from(*a).wrapping_mul(self.table.get(line, zone)));
        }
        sum >> COEFFICIENT
    }

    /// The line that leaves the basis: of those with the least quotient of multiplier and number in the column, the one
    /// with the greatest number. The balance never leaves.
    fn leaving(&self) -> Option<usize> {
        let mut best = None;
        let mut value: i128 = 0;
        let mut pivot: i128 = 0;
        for line in 0..self.zones {
            let here = read(self.column.as_slice(), line);
            if self.is_balance(line) || here < LEAST_PIVOT {
                continue;
            }
            let level = self.table.get(line, self.zones);
            let left = (level >> 8).wrapping_mul(pivot >> 8);
            let right = (value >> 8).wrapping_mul(here >> 8);
            if pivot == 0 || left < right || (left == right && here > pivot) {
                best = Some(line);
                value = level;
                pivot = here;
            }
        }
        best
    }

    fn is_balance(&self, line: usize) -> bool {
        match self.basis.get(line) {
            Some(Basic::Balance) => true,
            _ => false,
        }
    }

    /// Divides a line of the table by its number in the column.
    fn divide(&mut self, p: usize) {
        let pivot = read(self.column.as_slice(), p);
        if pivot <= 0 {
            return;
        }
        for j in 0..self.zones.wrapping_add(1) {
            let number = self.table.get(p, j).wrapping_mul(ONE) / pivot;
            self.table.set(p, j, number);
        }
    }

    /// Takes a multiple of one line of the table from another.
    fn subtract(&mut self, line: usize, p: usize) {
        let times = read(self.column.as_slice(), line);
        if times == 0 {
            return;
        }
        for j in 0..self.zones.wrapping_add(1) {
            let less = times.wrapping_mul(self.table.get(p, j)) >> POINT;
            let number = self.table.get(line, j).wrapping_sub(less);
            self.table.set(line, j, number);
        }
    }

    /// Moves the point so that what comes in holds exactly.
    fn move_point(&mut self, p: usize, by: i128) {
        for zone in 0..self.zones {
            let less = by.wrapping_mul(self.table.get(p, zone)) >> POINT;
            let x = self.position(zone).wrapping_sub(less);
            self.put_position(zone, x);
        }
    }

    /// The multipliers of the rows in the basis, rounded to the nearest.
    fn multipliers(&self, rows: usize) -> Result<Items<Mult>, AllocError> {
        let mut values = Vec::new(self.alloc);
        for line in 0..self.basis.len() {
            let level = self.table.get(line, self.zones);
            let value = level.wrapping_mul(BILLION).wrapping_add(ONE / 2) >> POINT;
            values.push(value)?;
        }
        multipliers(self.alloc, self.basis.as_slice(), values.as_slice(), rows)
    }
}

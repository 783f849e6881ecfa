//! Rows over net positions, the multipliers that prove one row from others, and enclosed angles.

use crate::items::Items;

/// The least and the greatest net position of a zone, in watts.
#[derive(Clone, Copy, Debug)]
pub struct Bounds {
    pub low: i64,
    pub high: i64,
}

/// A row `a·x ≤ r`: a coefficient for each zone, in 10^-12, and the right side, in watts.
#[derive(Debug, Drop)]
pub struct Half {
    pub a: Items<i64>,
    pub r: i64,
}

/// A row that is cited, by its number from 1, and its multiplier, in 10^-9.
#[derive(Clone, Copy, Debug)]
pub struct Mult {
    pub row: u32,
    pub value: i128,
}

/// The multiplier of the balance of net positions, in 10^-21, and those of the rows that are cited.
#[derive(Debug, Drop)]
pub struct Multipliers {
    pub mu: i128,
    pub mults: Items<Mult>,
}

/// What becomes of a row of a list: it is kept, or the multipliers prove it from kept rows.
#[derive(Debug, Drop)]
pub enum Fate {
    Kept,
    Removed(Multipliers),
}

/// Angles of the classes of a grid state, in 10^-16 rad: the exact angle of each class is within `kappa` (0 or 1) times a
/// barrier of `w`.
#[derive(Debug, Drop)]
pub struct Angles {
    pub kappa: u8,
    pub w: Items<i128>,
}

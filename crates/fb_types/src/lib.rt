//! Plain data that the crates share: text and lists, the grid, contingencies and elements, shift keys, rows over net
//! positions and the multipliers that prove one row from others.
#![tactic(auto)]

pub mod crac;
pub mod grid;
pub mod items;
pub mod keys;
pub mod rows;
pub mod text;

pub use crac::{Contingency, Crac, Element};
pub use grid::{Branch, BranchKind, Grid, Node};
pub use items::Items;
pub use keys::{Block, Column, Weight};
pub use rows::{Angles, Bounds, Fate, Half, Mult, Multipliers};
pub use text::Text;

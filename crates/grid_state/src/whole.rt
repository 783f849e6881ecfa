//! A state that stands for itself alone.

ghost use Rattle.std.specs.Prelude.{◌≡◌, ◌<◌, length, pos, IsTrue};
ghost use Rattle.grid_state.specs.Changes.{HasClassesOf};
ghost use Rattle.grid_state.specs.GridState.{IsSound, classes_of, class_at, is_live, susceptance_of, row_of, carries_at};

use crate::flat_rows::FlatRows;
use crate::types::Edge;
use fb_types::Items;
use std::marker::Model;

/// All parts of a state.
#[derive(Debug, Drop)]
pub struct Whole {
    class_of: Items<u32>,
    slack: u32,
    live: Items<bool>,
    rows: FlatRows,
    sums: Items<i128>,
    carries: Items<bool>,
}

impl Model for Whole {
    ghost use Rattle.grid_state.specs.GridState.{GridState, IsKept};

    ghost Value = { GridState };

    ghost view = { λ s. record { class_of = s.class_of; slack = s.slack; live = s.live; rows = s.rows; carries = s.carries } };

    ghost invariant = { λ s. IsKept (record { class_of = s.class_of; slack = s.slack; live = s.live; rows = s.rows; carries = s.carries }) s.sums };
}

/// Whether two lists of numbers are the same.
fn are_same_numbers(one: &[u32], other: &[u32]) -> bool
    ensures { IsTrue result → one.now ≡ other.now }
{
    one == other
}

/// Whether two lists of marks are the same.
fn are_same_marks(one: &[bool], other: &[bool]) -> bool
    ensures { IsTrue result → one.now ≡ other.now }
{
    one == other
}

impl Whole {
    ghost use Rattle.grid_state.specs.GridState.{IsKept};

    /// A state of these parts.
    pub fn new(
        class_of: Vec<u32>,
        slack: u32,
        live: Vec<bool>,
        rows: FlatRows,
        carries: Vec<bool>,
        sums: Vec<i128>,
    ) -> Whole
        requires { IsKept (record { class_of = class_of.items; slack = slack; live = live.items; rows = rows; carries = carries.items }) sums.items }
        ensures { result ≡ record { class_of = class_of.items; slack = slack; live = live.items; rows = rows; carries = carries.items } }
    {
        Whole {
            class_of: Items::from_vec(class_of),
            slack,
            live: Items::from_vec(live),
            rows,
            sums: Items::from_vec(sums),
            carries: Items::from_vec(carries),
        }
    }

    /// How many classes there are.
    pub fn classes(&self) -> u32
        ensures { result ≡ classes_of self.now }
    {
        self.live.as_slice().len() as u32
    }

    /// The class of a node.
    pub fn class_of(&self, node: u32) -> u32
        requires { node < length self.now.class_of }
        ensures { result ≡ class_at self.now node }
    {
        self.class_of.as_slice()[node as usize]
    }

    /// The class of the slack node.
    pub fn slack(&self) -> u32
        ensures { result ≡ self.now.slack }
    {
        self.slack
    }

    /// Whether a class is live.
    pub fn live(&self, class: u32) -> bool
        requires { class < classes_of self.now }
        ensures { result ≡ is_live self.now class }
    {
        self.live.as_slice()[class as usize]
    }

    /// The sum of the susceptances of the carrying branches of a class to other classes, in kW/rad.
    pub fn susceptance_at(&self, class: u32) -> i128
        requires { class < classes_of self.now }
        ensures { result ≡ pos (susceptance_of self.now class) }
    {
        self.sums.as_slice()[class as usize]
    }

    /// The carrying branches of a class to other classes, in the order of the branches; parallel branches stand there each.
    pub fn row(&self, class: u32) -> &[Edge]
        requires { class < classes_of self.now }
        ensures { result.now ≡ row_of self.now class }
    {
        self.rows.row(class)
    }

    /// Whether a branch carries: it is a line or a transformer in operation outside the outage, and its ends are live.
    pub fn carries(&self, branch: u32) -> bool
        requires { branch < length self.now.carries }
        ensures { result ≡ carries_at self.now branch }
    {
        self.carries.as_slice()[branch as usize]
    }

    /// Whether another state has the same classes of nodes, the same slack's class and the same live classes.
    pub fn has_classes_of(&self, other: &Whole) -> bool
        ensures { IsTrue result → HasClassesOf self.now other.now }
    {
        self.slack == other.slack
            && are_same_numbers(self.class_of.as_slice(), other.class_of.as_slice())
            && are_same_marks(self.live.as_slice(), other.live.as_slice())
    }

    /// How many branches there are.
    pub fn branches(&self) -> u32
        ensures { result ≡ length self.now.carries }
    {
        self.carries.as_slice().len() as u32
    }

    /// What holds of every state, for its callers' proofs.
    pub fn sound(&self)
        ensures { IsSound self.now }
    {
        let _slack = &self.slack;
    }
}

//! A state as what it changes of another: the rows of a few classes, and a few branches that carry no more.

ghost use Rattle.std.specs.Prelude.{◌≡◌, ◌<◌, [], length, pos, IfSome};
ghost use Rattle.grid_state.specs.GridState.{IsSound, classes_of, row_of, susceptance_of, carries_at};
ghost use Rattle.grid_state.specs.Changes.{changed_at, with_changes};

use crate::rows::row_sum;
use crate::types::Edge;
use crate::whole::Whole;
use fb_types::Items;
use std::alloc::Global;

/// The row of a class in place of another.
#[derive(Debug, Drop)]
pub struct ChangedRow {
    pub class: u32,
    pub row: Items<Edge>,
}

/// The rows that are changed, and the branches that carry no more.
#[derive(Debug, Drop)]
pub struct Changes {
    pub rows: Items<ChangedRow>,
    pub out: Items<u32>,
}

/// Where the row of a class stands among those that are changed.
fn changed_at(rows: &[ChangedRow], class: u32) -> Option<usize>
    ensures first { result ≡ changed_at rows.now class }
    ensures within { IfSome result (λ k. k < length rows.now) }
{
    rows.iter().position(|row| row.class == class)
}

impl Changes {
    /// No changes.
    pub fn none(alloc: Global) -> Changes
        ensures { result ≡ record { rows = []; out = [] } }
    {
        Changes {
            rows: Items::new(alloc),
            out: Items::new(alloc),
        }
    }

    /// The row of a class.
    pub fn row<'a>(&'a self, whole: &'a Whole, class: u32) -> &'a [Edge]
        requires { class < classes_of whole.now }
        ensures { result.now ≡ row_of (with_changes self.now whole.now) class }
    {
        whole.sound();
        match changed_at(self.rows.as_slice(), class) {
            Some(at) => self.rows.as_slice()[at].row.as_slice(),
            None => whole.row(class),
        }
    }

    /// The sum of the susceptances of a class, in kW/rad.
    pub fn susceptance_at(&self, whole: &Whole, class: u32) -> i128
        requires class { class < classes_of whole.now }
        requires sound { IsSound (with_changes self.now whole.now) }
        ensures { result ≡ pos (susceptance_of (with_changes self.now whole.now) class) }
    {
        if changed_at(self.rows.as_slice(), class).is_some() {
            return row_sum(self.row(whole, class));
        }
        whole.susceptance_at(class)
    }

    /// Whether a branch carries.
    pub fn carries(&self, whole: &Whole, branch: u32) -> bool
        requires { branch < length whole.now.carries }
        ensures { result ≡ carries_at (with_changes self.now whole.now) branch }
    {
        whole.carries(branch) && !self.out.as_slice().contains(&branch)
    }
}

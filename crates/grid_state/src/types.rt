//! What a state holds, and how it is read.

ghost use Rattle.std.specs.Prelude.{◌≡◌, ◌<◌, length, pos, IfOk};
ghost use Rattle.grid_state.specs.GridState.{IsSound, classes_of, class_at, is_live, susceptance_of, row_of, edge_of, carries_at};

use crate::changes::Changes;
use crate::sharing::changes_of;
use crate::whole::Whole;
use std::alloc::{AllocError, Global};
use std::marker::Model;
use std::sync::Arc;

/// A carrying branch as a class sees it: the class at its other end, and its susceptance in kW/rad.
#[derive(Clone, Copy, Debug, PartialEq, Eq)]
pub struct Edge {
    pub to: u32,
    pub b: u64,
}

/// The state of a grid: the grid with an outage, seen from a slack node. Nodes and branches go by their places in the grid,
/// from 0, and classes by their numbers.
///
/// Its parts may be those of another state, beside which it keeps what it changes of them.
#[derive(Debug, Drop)]
pub struct State {
    whole: Arc<Whole, Global>,
    changes: Changes,
}

impl Model for State {
    ghost use Rattle.grid_state.specs.GridState.{GridState, IsSound};

    ghost Value = { GridState };

    ghost use Rattle.std.specs.Arc.{arc_value};
    ghost use Rattle.grid_state.specs.Changes.{with_changes};

    ghost view = { λ s. with_changes s.changes (arc_value s.whole) };

    ghost invariant = { λ s. IsSound (with_changes s.changes (arc_value s.whole)) };
}

impl State {
    /// The state that has these parts.
    pub(crate) fn new(alloc: Global, whole: Whole) -> Result<State, AllocError>
        ensures { IfOk result (λ s. s ≡ whole) }
    {
        whole.sound();
        let whole = Arc::new(alloc, whole)?;
        let changes = Changes::none(alloc);
        Ok(State { whole, changes })
    }

    /// The same state, which shares its parts with another one of the grid where it changes little of them. So it takes less
    /// memory.
    pub fn shared_with(self, alloc: Global, other: &State) -> Result<State, AllocError>
        ensures { IfOk result (λ s. s ≡ self) }
    {
        self.sound();
        match changes_of(alloc, &other.whole, &self)? {
            Some(changes) => Ok(State {
                whole: Arc::try_clone(&other.whole)?,
                changes,
            }),
            None => Ok(self),
        }
    }

    /// The parts that it changes.
    pub(crate) fn whole(&self) -> &Whole
        ensures class_of { result.now.class_of ≡ self.now.class_of }
        ensures slack { result.now.slack ≡ self.now.slack }
        ensures live { result.now.live ≡ self.now.live }
        ensures branches { length result.now.carries ≡ length self.now.carries }
    {
        &self.whole
    }

    /// How many classes there are.
    pub fn classes(&self) -> u32
        ensures { result ≡ classes_of self.now }
    {
        self.whole.classes()
    }

    /// The class of a node.
    pub fn class_of(&self, node: u32) -> u32
        requires { node < length self.now.class_of }
        ensures { result ≡ class_at self.now node }
    {
        self.whole.class_of(node)
    }

    /// The class of the slack node.
    pub fn slack(&self) -> u32
        ensures { result ≡ self.now.slack }
    {
        self.whole.slack()
    }

    /// Whether a class is live.
    pub fn live(&self, class: u32) -> bool
        requires { class < classes_of self.now }
        ensures { result ≡ is_live self.now class }
    {
        self.whole.live(class)
    }

    /// The sum of the susceptances of the carrying branches of a class to other classes, in kW/rad.
    pub fn susceptance_at(&self, class: u32) -> i128
        requires { class < classes_of self.now }
        ensures { result ≡ pos (susceptance_of self.now class) }
    {
        self.changes.susceptance_at(&self.whole, class)
    }

    /// The carrying branches of a class to other classes, in the order of the branches; parallel branches stand there each.
    pub fn row(&self, class: u32) -> &[Edge]
        requires { class < classes_of self.now }
        ensures { result.now ≡ row_of self.now class }
    {
        self.changes.row(&self.whole, class)
    }

    /// How many carrying branches a class has to other classes. A class that is not live has none.
    pub fn degree(&self, class: u32) -> u32
        requires { class < classes_of self.now }
        ensures { result ≡ length (row_of self.now class) }
    {
        self.sound();
        self.row(class).len() as u32
    }

    /// The class at the other end of the carrying branch at a place of a class's row, and its susceptance in kW/rad.
    pub fn neighbour(&self, class: u32, at: u32) -> (u32, i128)
        requires class { class < classes_of self.now }
        requires place { at < length (row_of self.now class) }
        ensures class { result.0 ≡ (edge_of self.now class at).to }
        ensures susceptance { result.1 ≡ pos (edge_of self.now class at).b }
    {
        let edge = self.row(class)[at as usize];
        (edge.to, i128::from(edge.b))
    }

    /// Whether a branch carries: it is a line or a transformer in operation outside the outage, and its ends are live.
    pub fn carries(&self, branch: u32) -> bool
        requires { branch < length self.now.carries }
        ensures { result ≡ carries_at self.now branch }
    {
        self.changes.carries(&self.whole, branch)
    }

    /// What holds of every state, for its callers' proofs.
    pub fn sound(&self)
        ensures { IsSound self.now }
    {
        let _changes = &self.changes;
    }
}

//! The rows of the classes in one list.

ghost use Rattle.std.specs.Prelude.{◌≡◌, ◌<◌, [], ◌∷◌, length, slice_index, slice_index_or};
ghost use Rattle.grid_state.specs.RowCuts.{AreEnds, cut_rows};

use crate::types::Edge;
use std::marker::Model;

/// The rows of the classes, one behind another in one list. A contract sees the list of the rows.
#[derive(Debug, Drop)]
pub struct FlatRows {
    edges: Vec<Edge>,
    ends: Vec<u32>,
}

impl Model for FlatRows {
    ghost use Rattle.std.specs.Prelude.{List};
    ghost use Rattle.grid_state.specs.declared.types.Edge.{Edge};

    ghost Value = { List (List Edge) };

    ghost use Rattle.grid_state.specs.RowCuts.{AreEnds, cut_rows};

    ghost view = { λ rows. cut_rows 0 rows.ends.items rows.edges.items };

    ghost invariant = { λ rows. AreEnds rows.ends.items rows.edges.items };
}

impl FlatRows {
    /// The rows of these edges, each of which ends before the given place.
    pub fn new(edges: Vec<Edge>, ends: Vec<u32>) -> FlatRows
        requires { AreEnds ends.items edges.items }
        ensures { result ≡ cut_rows 0 ends.items edges.items }
    {
        FlatRows { edges, ends }
    }

    /// How many rows there are.
    pub fn len(&self) -> usize
        ensures { result ≡ length self.now }
    {
        self.ends.as_slice().len()
    }

    /// The row of a class.
    pub fn row(&self, class: u32) -> &[Edge]
        requires { class < length self.now }
        ensures { result.now ≡ slice_index_or self.now class [] }
    {
        row_in(&self.edges, &self.ends, class as usize)
    }
}

/// Where the row of a class starts.
fn start_in(ends: &[u32], class: usize) -> u32
    requires { class < length ends.now }
    ensures { result ≡ slice_index (0 ∷ ends.now) class }
{
    match class {
        0 => 0,
        _ => ends[class - 1],
    }
}

/// The row of a class.
fn row_in<'a>(edges: &'a [Edge], ends: &[u32], class: usize) -> &'a [Edge]
    requires class { class < length ends.now }
    requires ends { AreEnds ends.now edges.now }
    ensures { result.now ≡ slice_index_or (cut_rows 0 ends.now edges.now) class [] }
{
    let start = start_in(ends, class) as usize;
    let end = ends[class] as usize;
    &edges[start..end]
}

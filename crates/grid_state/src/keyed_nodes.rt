//! The nodes at which key weights stand.

ghost use Rattle.std.specs.Prelude.{◌≡◌, ◌<◌, length, All, IfOk};
ghost use Rattle.grid_state.specs.Marks.{MarksMore};
ghost use Rattle.grid_state.specs.Split.{is_nonzero, is_weighted, is_keyed_in, is_keyed, AreKeysOf, AreKeyMarks};

use fb_types::{Block, Column, Items, Weight};
use std::alloc::{AllocError, Global};
use std::marker::Model;

/// Which nodes of a grid have a key weight. They are the same in each of its states. A contract sees a mark for each node.
#[derive(Debug, Drop)]
pub struct KeyedNodes {
    marks: Vec<bool>,
}

impl Model for KeyedNodes {
    ghost use Rattle.std.specs.Prelude.{List, Bool};

    ghost Value = { List Bool };

    ghost view = { λ keyed. keyed.marks.items };
}

impl KeyedNodes {
    /// Marks, of so many nodes, each that has a key weight in some block of some column.
    pub fn of(
        alloc: Global,
        nodes: usize,
        columns: &Items<Column>,
    ) -> Result<KeyedNodes, AllocError>
        requires { AreKeysOf nodes columns.now }
        ensures { IfOk result (AreKeyMarks nodes columns.now) }
    {
        let mut marks = vec![in alloc; false; nodes]?;
        mark_columns(&mut marks, columns.as_slice());
        Ok(KeyedNodes { marks })
    }

    /// A mark for each node.
    pub(crate) fn marks(&self) -> &[bool]
        ensures { result.now ≡ self.now }
    {
        self.marks.as_slice()
    }
}

/// Whether a weight is other than 0.
fn is_nonzero(weight: i64) -> bool
    ensures { result ≡ is_nonzero weight }
{
    weight != 0
}

/// Marks each node at which a weight other than 0 stands.
fn mark_weights(marks: &mut [bool], weights: &[Weight])
    requires { All (λ w. w.node < length marks.old) weights.now }
    ensures { MarksMore marks.old marks.new (is_weighted weights.now) }
{
    for weight in weights {
        if is_nonzero(weight.weight) {
            marks[weight.node as usize] = true;
        }
    }
}

/// The same for each block.
fn mark_blocks(marks: &mut [bool], blocks: &[Block])
    requires { All (λ block. All (λ w. w.node < length marks.old) block.weights) blocks.now }
    ensures { MarksMore marks.old marks.new (is_keyed_in blocks.now) }
{
    for block in blocks {
        mark_weights(marks, block.weights.as_slice());
    }
}

/// The same for each column.
fn mark_columns(marks: &mut [bool], columns: &[Column])
    requires { AreKeysOf (length marks.old) columns.now }
    ensures { MarksMore marks.old marks.new (is_keyed columns.now) }
{
    for column in columns {
        mark_blocks(marks, column.blocks.as_slice());
    }
}

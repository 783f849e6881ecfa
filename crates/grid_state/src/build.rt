//! Makes the state of a grid.

ghost use Rattle.std.specs.Prelude.{◌≡◌, ℕ, ◌<◌, true, false, List, length, map, None, All, IfOk, IfErr};
ghost use Rattle.fb_types.specs.declared.keys.Column.{Column};
ghost use Rattle.grid_state.specs.Links.{AreClasses, AreReached, between};
ghost use Rattle.grid_state.specs.Split.{AreKeysOf, AreKeyMarks, first_stranded_node, IsSplit, IsCaused};
ghost use Rattle.grid_state.specs.States.{IsStateOf};
ghost use Rattle.grid_state.specs.Parts.{AreParts};
ghost use Rattle.grid_state.specs.Unions.{AreLinksBelow, links_marked};

use crate::components::{Numbering, number_classes};
use crate::keyed_nodes::KeyedNodes;
use crate::links::{self, Link};
use crate::rows;
use crate::split::first_stranded;
use crate::state_fault::StateFault;
use crate::types::State;
use crate::whole::Whole;
use fb_types::{Column, Grid, Items};
use std::alloc::{AllocError, Global};

/// The classes of nodes that the closed couplers make, where the branches of the outage are marked.
fn node_classes(alloc: Global, grid: &Grid, out: &[bool]) -> Result<Numbering, AllocError>
    requires { length out.now ≡ length grid.now.branches }
    ensures { let couplers = links_marked true out.now grid.now.branches in
        IfOk result (λ c. AreClasses (length grid.now.nodes) couplers c.count c.class_of.items) }
{
    let couplers = links::links(alloc, grid.branches.as_slice(), out, true)?;
    number_classes(alloc, grid.nodes.len() as u32, &couplers)
}

/// The lines and transformers in operation as links of classes, where the branches of the outage are marked.
fn class_lines(
    alloc: Global,
    grid: &Grid,
    out: &[bool],
    class_of: &[u32],
) -> Result<Vec<Link>, AllocError>
    requires out { length out.now ≡ length grid.now.branches }
    requires each_node { length class_of.now ≡ length grid.now.nodes }
    ensures { let lines = links_marked false out.now grid.now.branches in
        IfOk result (λ made. made.items ≡ map (between class_of.now) lines) }
{
    let lines = links::links(alloc, grid.branches.as_slice(), out, false)?;
    links::class_links(alloc, &lines, class_of)
}

/// The classes that a chain of lines joins to the slack's.
fn live_classes(
    alloc: Global,
    classes: u32,
    slack: u32,
    lines: &[Link],
) -> Result<Vec<bool>, AllocError>
    requires slack { slack < classes }
    requires lines { AreLinksBelow classes lines.now }
    ensures { IfOk result (λ live. AreReached classes lines.now slack live.items) }
{
    let joined = number_classes(alloc, classes, lines)?;
    let label = joined.class_of[slack as usize];
    rows::same_label(alloc, &joined.class_of, label)
}

/// The parts of the state of a grid, once its classes of nodes are numbered and its lines joined to them.
fn with_classes(
    alloc: Global,
    grid: &Grid,
    slack: u32,
    outage: &[u32],
    out: &[bool],
    nodes: Numbering,
    lines: &[Link],
) -> Result<Whole, AllocError>
    requires { AreParts grid.now slack outage.now out.now nodes.count nodes.class_of.items lines.now }
    ensures { IfOk result (λ s. IsStateOf grid.now slack outage.now s) }
{
    let Numbering { count, class_of } = nodes;
    let slack = class_of[slack as usize];
    let live = live_classes(alloc, count, slack, lines)?;
    let rows = rows::rows(alloc, &live, lines)?;
    let sums = rows::row_sums(alloc, &rows)?;
    let carries = rows::carrying(alloc, grid.branches.as_slice(), out, &class_of, &live)?;
    Ok(Whole::new(class_of, slack, live, rows, carries, sums))
}

/// The state of a grid, whether it is split or not.
pub fn whole_state(
    alloc: Global,
    grid: &Grid,
    slack: u32,
    outage: &[u32],
) -> Result<State, AllocError>
    requires slack { slack < length grid.now.nodes }
    requires outage { All (λ k. k < length grid.now.branches) outage.now }
    ensures { IfOk result (λ s. IsStateOf grid.now slack outage.now s) }
{
    let out = links::outage_marks(alloc, grid.branches.as_slice().len(), outage)?;
    let nodes = node_classes(alloc, grid, &out)?;
    let lines = class_lines(alloc, grid, &out, &nodes.class_of)?;
    let whole = with_classes(alloc, grid, slack, outage, &out, nodes, &lines)?;
    State::new(alloc, whole)
}

/// The state of a grid with an outage, seen from the slack node, where the nodes with a key weight are marked. It is refused
/// as split exactly where a node of a class that is not live feeds something in or has a key weight.
///
/// The slack node and the branches of the outage go by their places in the grid.
pub fn state_from(
    alloc: Global,
    grid: &Grid,
    slack: u32,
    outage: &[u32],
    keyed: &KeyedNodes,
) -> Result<State, StateFault>
    requires slack { slack < length grid.now.nodes }
    requires outage { All (λ k. k < length grid.now.branches) outage.now }
    requires keyed { length keyed.now ≡ length grid.now.nodes }
    ensures state { IfOk result (λ s. IsStateOf grid.now slack outage.now s) }

    // The state is given exactly where it is not split, whatever the columns whose key weights are marked.
    ensures none_stranded { (columns : List Column) → AreKeyMarks (length grid.now.nodes) columns keyed.now → IfOk result (λ s. first_stranded_node s columns grid.now.nodes ≡ None) }
    ensures not_split { (columns : List Column) → AreKeyMarks (length grid.now.nodes) columns keyed.now → IfOk result (λ _. (node : ℕ) → ¬ IsSplit grid.now slack outage.now columns node) }
    ensures cause { (columns : List Column) → AreKeyMarks (length grid.now.nodes) columns keyed.now → IfErr result (IsCaused grid.now slack outage.now columns) }
{
    let nodes = grid.nodes.as_slice();
    let Ok(state) = whole_state(alloc, grid, slack, outage) else {
        return Err(StateFault::Memory(AllocError));
    };
    match first_stranded(&state, nodes, keyed.marks()) {
        Some(node) => Err(StateFault::SplitGrid { node }),
        None => Ok(state),
    }
}

/// The state of a grid with an outage, seen from the slack node. It is refused as split exactly where a node of a class that
/// is not live feeds something in or has a key weight in some block of some column.
///
/// The slack node, the branches of the outage and the nodes of the weights go by their places in the grid.
pub fn state(
    alloc: Global,
    grid: &Grid,
    slack: u32,
    outage: &Items<u32>,
    columns: &Items<Column>,
) -> Result<State, StateFault>
    requires slack { slack < length grid.now.nodes }
    requires outage { All (λ k. k < length grid.now.branches) outage.now }
    requires keys { AreKeysOf (length grid.now.nodes) columns.now }
    ensures state { IfOk result (λ s. IsStateOf grid.now slack outage.now s) }

    // The state is given exactly where it is not split.
    ensures none_stranded { IfOk result (λ s. first_stranded_node s columns.now grid.now.nodes ≡ None) }
    ensures not_split { IfOk result (λ _. (node : ℕ) → ¬ IsSplit grid.now slack outage.now columns.now node) }
    ensures cause { IfErr result (IsCaused grid.now slack outage.now columns.now) }
{
    let Ok(keyed) = KeyedNodes::of(alloc, grid.nodes.as_slice().len(), columns) else {
        return Err(StateFault::Memory(AllocError));
    };
    state_from(alloc, grid, slack, outage.as_slice(), &keyed)
}

//! The live classes, and the carrying branches of each.

ghost use Rattle.std.specs.Prelude.{◌≡◌, ◌+◌, ◌-◌, ◌^◌, ◌<◌, ◌≤◌, ◌==◌, [], pos, length, map, slice_index, slice_set, All, IfOk};
ghost use Rattle.fb_types.specs.GridRanges.{IsBranch};
ghost use Rattle.grid_state.specs.GridState.{AreSums, susceptance_over};
ghost use Rattle.grid_state.specs.RowCuts.{before, row_seen, width_seen, AreWidths, AreStarts, AreRowStarts, AreFilled};
ghost use Rattle.grid_state.specs.Rows.{is_crossing, AreRows, carries_in};
ghost use Rattle.grid_state.specs.Unions.{AreLinksBelow, carries_marked};

use crate::flat_rows::FlatRows;
use crate::links::{self, Link};
use crate::types::Edge;
use fb_types::Branch;
use std::alloc::{AllocError, Global};

/// Marks each place with the label of the given one.
pub fn same_label(alloc: Global, labels: &[u32], label: u32) -> Result<Vec<bool>, AllocError>
    ensures { IfOk result (λ marks. marks.items ≡ map (λ l. l == label) labels.now) }
{
    let mut marks = Vec::new(alloc);
    for other in labels {
        marks.push(*other == label)?;
    }
    Ok(marks)
}

/// Whether a link joins a live class to another.
fn is_crossing(link: &Link, live: &[bool]) -> bool
    requires one { link.now.one < length live.now }
    requires other { link.now.other < length live.now }
    ensures { result ≡ is_crossing live.now link.now }
{
    link.one != link.other && live[link.one as usize] && live[link.other as usize]
}

/// Adds one to the count of a class.
fn count_one(counts: &mut [u32], class: u32)
    requires class { class < length counts.old }
    requires small { slice_index counts.old class < 2 ^ 32 - 1 }
    ensures { counts.new ≡ slice_set counts.old class (slice_index counts.old class + 1) }
{
    counts[class as usize] += 1;
}

/// Counts, from 0, the edges of each class: each link that crosses is one for both its classes.
fn count_edges(counts: &mut [u32], live: &[bool], links: &[Link])
    requires links { AreLinksBelow (length live.now) links.now }
    requires few { length links.now ≤ 16384 }
    requires none { AreWidths live.now [] counts.old }
    ensures { AreWidths live.now links.now counts.new }
{
    for link in links {
        if is_crossing(link, live) {
            count_one(counts, link.one);
            count_one(counts, link.other);
        }
    }
}

/// Puts in place of each count the sum of those before it, and answers the sum of all.
fn starts_of(counts: &mut [u32]) -> u32
    requires { before (slice_index counts.old) (length counts.old) < 2 ^ 32 }
    ensures { AreStarts counts.old counts.new result }
{
    let mut start = 0;
    for place in counts.iter_mut() {
        let count = *place;
        *place = start;
        start += count;
    }
    start
}

/// Puts an edge where the cursor of a class stands, and moves the cursor on.
fn put_edge(cursors: &mut [u32], edges: &mut [Edge], class: u32, edge: Edge)
    requires class { class < length cursors.old }
    requires place { slice_index cursors.old class < length edges.old }
    requires few { length edges.old < 2 ^ 32 }
    ensures cursors { cursors.new ≡ slice_set cursors.old class (slice_index cursors.old class + 1) }
    ensures edges { edges.new ≡ slice_set edges.old (slice_index cursors.old class) edge }
{
    let place = cursors[class as usize];
    edges[place as usize] = edge;
    cursors[class as usize] = place + 1;
}

/// Puts each link that crosses into the rows of both its classes.
fn fill_rows(cursors: &mut [u32], edges: &mut [Edge], live: &[bool], links: &[Link])
    requires links { AreLinksBelow (length live.now) links.now }
    requires few { length edges.old < 2 ^ 32 }
    requires none { AreFilled (length live.now) (width_seen live.now links.now) (row_seen live.now []) cursors.old edges.old }
    ensures { AreFilled (length live.now) (width_seen live.now links.now) (row_seen live.now links.now) cursors.new edges.new }
{
    for link in links {
        if is_crossing(link, live) {
            let Link { one, other, b } = *link;
            put_edge(cursors, edges, one, Edge { to: other, b });
            put_edge(cursors, edges, other, Edge { to: one, b });
        }
    }
}

/// How many edges each class has.
fn edge_counts(alloc: Global, live: &[bool], links: &[Link]) -> Result<Vec<u32>, AllocError>
    requires links { AreLinksBelow (length live.now) links.now }
    requires few { length links.now ≤ 16384 }
    ensures { IfOk result (λ counts. AreWidths live.now links.now counts.items) }
{
    let mut counts = vec![in alloc; 0; live.len()]?;
    count_edges(&mut counts, live, links);
    Ok(counts)
}

/// The rows of the classes, where it is told at which places they start and how many edges there are.
fn filled_rows(
    alloc: Global,
    live: &[bool],
    links: &[Link],
    starts: Vec<u32>,
    total: u32,
) -> Result<FlatRows, AllocError>
    requires links { AreLinksBelow (length live.now) links.now }
    requires starts { AreRowStarts live.now links.now starts.items total }
    ensures { IfOk result (λ rows. AreRows live.now links.now rows) }
{
    let mut ends = starts;
    let mut edges = vec![in alloc; Edge { to: 0, b: 0 }; total as usize]?;
    fill_rows(&mut ends, &mut edges, live, links);
    Ok(FlatRows::new(edges, ends))
}

/// The rows of the classes: their edges are counted, and then each is put into its row.
pub fn rows(alloc: Global, live: &[bool], links: &[Link]) -> Result<FlatRows, AllocError>
    requires links { AreLinksBelow (length live.now) links.now }
    requires few_classes { length live.now ≤ 4096 }
    requires few_links { length links.now ≤ 16384 }
    ensures { IfOk result (λ rows. AreRows live.now links.now rows) }
{
    let mut starts = edge_counts(alloc, live, links)?;
    let total = starts_of(&mut starts);
    filled_rows(alloc, live, links, starts, total)
}

/// The sum of the susceptances of a row.
pub fn row_sum(row: &[Edge]) -> i128
    requires { length row.now ≤ 16384 }
    ensures { result ≡ pos (susceptance_over row.now) }
{
    let mut sum = 0;
    for edge in row {
        sum += i128::from(edge.b);
    }
    sum
}

/// The sums of the susceptances of the rows.
pub fn row_sums(alloc: Global, rows: &FlatRows) -> Result<Vec<i128>, AllocError>
    requires short { All (λ row. length row ≤ 16384) rows.now }
    requires few { length rows.now ≤ 4096 }
    ensures { IfOk result (λ sums. AreSums rows.now sums.items) }
{
    let mut sums = Vec::new(alloc);
    for class in 0..rows.len() as u32 {
        sums.push(row_sum(rows.row(class)))?;
    }
    Ok(sums)
}

/// Whether a branch carries, where it is told whether it is out.
fn carries(branch: &Branch, out: bool, class_of: &[u32], live: &[bool]) -> bool
    requires from { branch.now.from < length class_of.now }
    requires to { branch.now.to < length class_of.now }
    requires classes { All (λ c. c < length live.now) class_of.now }
    ensures { result ≡ carries_in (λ _. out) class_of.now live.now (0, branch.now) }
{
    let from = class_of[branch.from as usize];
    let to = class_of[branch.to as usize];
    links::is_chosen(branch, out, false) && live[from as usize] && live[to as usize]
}

/// Whether each branch carries.
pub fn carrying(
    alloc: Global,
    branches: &[Branch],
    out: &[bool],
    class_of: &[u32],
    live: &[bool],
) -> Result<Vec<bool>, AllocError>
    requires out { length out.now ≡ length branches.now }
    requires ends { All (IsBranch (length class_of.now)) branches.now }
    requires classes { All (λ c. c < length live.now) class_of.now }
    ensures { IfOk result (λ carries. carries.items ≡ carries_marked out.now class_of.now live.now branches.now) }
{
    let mut made = Vec::new(alloc);
    for (number, branch) in branches.iter().enumerate() {
        made.push(carries(branch, out[number], class_of, live))?;
    }
    Ok(made)
}

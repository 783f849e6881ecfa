//! Grids in the UCTE data exchange format.
#![tactic(auto)]

ghost use Rattle.std.specs.Prelude.{◌≡◌, ◌<◌, ℕ, length};
ghost use Rattle.fb_types.specs.GridRanges.{AreBranches};
ghost use Rattle.first_fault.specs.FirstFault.{HasNoFault};
ghost use Rattle.ucte_reader.specs.Facts.{nodes_of};
ghost use Rattle.ucte_reader.specs.File.{file_of, fault_among, IsGridFault, Reads, IsFault, IsGrid};
ghost use Rattle.ucte_reader.specs.Passes.{IsDraft};

mod block;
mod branches;
mod codes;
mod electrical;
mod kind;
mod known;
mod nodes;
mod passes;
mod regulations;
mod status;
mod survey;

use fb_types::{Grid, Items};
pub use kind::{GridError, GridKind};
use passes::{Draft, judge};
use std::alloc::Global;
use survey::survey;
use ucte_lines::lines::characters;

/// The grid of a draft.
fn finish(draft: Draft) -> Grid
    requires kept { IsDraft draft }
    requires ranges { AreBranches (length draft.nodes.nodes.items) draft.branches.branches.items }
    ensures nodes { result.nodes ≡ draft.nodes.nodes.items }
    ensures branches { result.branches ≡ draft.branches.branches.items }
{
    let Draft {
        nodes,
        branches,
        regulated: _,
    } = draft;
    Grid {
        nodes: Items::from_vec(nodes.nodes),
        branches: Items::from_vec(branches.branches),
    }
}

fn read(alloc: Global, bytes: &[u8]) -> Result<Grid, GridError>
    ensures { Reads bytes.now result }
{
    let text = characters(alloc, bytes)?;
    let known = survey(alloc, &text)?;
    match judge(alloc, &known, &text) {
        Err(e) => Err(e),
        Ok(draft) => {
            if draft.nodes.nodes.is_empty() {
                return Err(GridError::Fault {
                    line: 0,
                    kind: GridKind::NoNodes,
                });
            }
            Ok(finish(draft))
        }
    }
}

/// The grid of a file, or its first fault.
pub fn read_grid(alloc: Global, bytes: &[u8]) -> Result<Grid, GridError>
    // A grid has exactly the nodes and the branches of a file without a fault; a fault is the first of the file.
    ensures reads { Reads bytes.now result }

    // Where the file has a first fault, the answer is that one.
    ensures fault { (line : ℕ) (kind : GridKind) → IsGridFault bytes.now line kind → IsFault line kind result }

    // Where it has none, the answer is its grid.
    ensures grid { HasNoFault (fault_among (file_of bytes.now)) (file_of bytes.now) → 0 < length (nodes_of (file_of bytes.now)) → IsGrid result }
{
    read(alloc, bytes)
}

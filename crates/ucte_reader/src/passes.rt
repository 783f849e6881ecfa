//! The second pass over a file: its nodes and branches, or its first fault.

ghost use Rattle.std.specs.Prelude.{◌≡◌, ◌++◌, map, IfOk, OnOk, IsTrue};
ghost use Rattle.std.specs.Option.{option_to_list};
ghost use Rattle.ucte_lines.specs.Lines.{is_heading as begins_with_marks};
ghost use Rattle.ucte_reader.specs.Blocks.{placed, block_after, is_entry};
ghost use Rattle.ucte_reader.specs.Facts.{node_in, branch_in, regulation_in};
ghost use Rattle.ucte_reader.specs.File.{entry_fault, line_fault};
ghost use Rattle.ucte_reader.specs.Steps.{Judges, names_in, place_in, shift_in};
ghost use Rattle.ucte_reader.specs.Passes.{IsDraft, earlier_in, error_at, Finds};

use crate::block::{Block, opened};
use crate::branches::Branches;
use crate::kind::{GridError, GridKind, LineError};
use crate::known::Known;
use crate::nodes::Nodes;
use crate::regulations::judge_regulation;
use name_tables::NameTable;
use std::alloc::Global;
use ucte_lines::lines::{is_blank_line, is_heading, key, split_line, without_return};

/// What stood on the lines so far: the nodes, the branches, and the ids of the regulations.
#[derive(Drop)]
pub struct Draft {
    pub nodes: Nodes,
    pub branches: Branches,
    pub regulated: NameTable,
}

/// Takes a line that says something in its block.
#[tactic(auto, unfolding(crate::specs::Regulations::regulation_fault))]
fn judge_entry(
    alloc: Global,
    known: &Known,
    draft: &mut Draft,
    block: Block,
    line: &[char],
) -> Result<(), LineError>
    requires draft { IsDraft draft.old }
    requires entry { IsTrue (is_entry line.now) }
    ensures kept { OnOk result (IsDraft draft.new) }
    ensures nodes { OnOk result (draft.new.nodes.nodes.items ≡ draft.old.nodes.nodes.items ++ option_to_list (node_in block line.now)) }
    ensures branches { OnOk result (draft.new.branches.branches.items ≡ draft.old.branches.branches.items ++ option_to_list (branch_in (place_in known.now) (shift_in known.now) block line.now)) }
    ensures regulated { OnOk result (draft.new.regulated ≡ draft.old.regulated ++ map (λ r. r.0) (option_to_list (regulation_in block line.now))) }
    ensures fault { Judges result (entry_fault (names_in known.now) (earlier_in draft.old) block line.now) }
{
    match block {
        Block::Outside | Block::Nodes => Err(LineError::Fault(GridKind::UnknownBlock)),
        Block::Skipped => Ok(()),
        Block::Zone(zone) => draft.nodes.add(alloc, zone, line),
        Block::Branches(form) => draft.branches.add(alloc, known, form, line),
        Block::Regulations => judge_regulation(alloc, known, &mut draft.regulated, line),
    }
}

/// Takes a line in its block, and says which block is open after it.
fn judge_line(
    alloc: Global,
    known: &Known,
    draft: &mut Draft,
    block: Block,
    line: &[char],
) -> Result<Block, LineError>
    requires { IsDraft draft.old }
    ensures kept { OnOk result (IsDraft draft.new) }
    ensures block { IfOk result (λ next. next ≡ block_after block line.now) }
    ensures nodes { OnOk result (draft.new.nodes.nodes.items ≡ draft.old.nodes.nodes.items ++ option_to_list (node_in block line.now)) }
    ensures branches { OnOk result (draft.new.branches.branches.items ≡ draft.old.branches.branches.items ++ option_to_list (branch_in (place_in known.now) (shift_in known.now) block line.now)) }
    ensures regulated { OnOk result (draft.new.regulated ≡ draft.old.regulated ++ map (λ r. r.0) (option_to_list (regulation_in block line.now))) }
    ensures fault { Judges result (line_fault (names_in known.now) (earlier_in draft.old) block line.now) }
{
    if is_heading(line) {
        return match opened(block, key(line)) {
            Some(next) => Ok(next),
            None => Err(LineError::Fault(GridKind::UnknownBlock)),
        };
    }
    if is_blank_line(line) {
        return Ok(block);
    }
    judge_entry(alloc, known, draft, block, line)?;
    Ok(block)
}

/// A line's error, with the line's number.
fn at_line(line: u64, e: LineError) -> GridError
    ensures { result ≡ error_at line e }
{
    match e {
        LineError::Fault(kind) => GridError::Fault { line, kind },
        LineError::Memory(e) => GridError::Memory(e),
    }
}

/// The nodes and the branches of a text, or the first line that has a fault.
#[tactic(auto, unfolding(crate::specs::Blocks::placed))]
pub fn judge(alloc: Global, known: &Known, text: &[char]) -> Result<Draft, GridError>
    ensures { Finds known.now (placed text.now) result }
{
    let mut draft = Draft {
        nodes: Nodes::new(alloc),
        branches: Branches::new(alloc),
        regulated: NameTable::new(alloc),
    };
    let mut block = Block::Outside;
    let mut rest = text;
    let mut number: u64 = 0;
    'lines: while !rest.is_empty() {
        let (line, after) = split_line(rest);
        number += 1;
        match judge_line(alloc, known, &mut draft, block, without_return(line)) {
            Ok(next) => block = next,
            Err(e) => return Err(at_line(number, e)),
        }
        rest = after;
    }
    Ok(draft)
}

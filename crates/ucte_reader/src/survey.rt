//! The first pass over a file: what its lines are judged by.

ghost use Rattle.std.specs.Prelude.{◌≡◌, ◌+◌, ◌-◌, ◌<◌, ◌^◌, [], ◌∷◌, length, IfOk, OnOk, IsTrue, string_bytes};
ghost use Rattle.name_tables.specs.Names.{numbered_from};
ghost use Rattle.name_tables.specs.Tables.{with_entry, with_names, with_entries};
ghost use Rattle.ucte_lines.specs.Lines.{is_heading as begins_with_marks};
ghost use Rattle.std.specs.Option.{option_to_list};
ghost use Rattle.ucte_reader.specs.Blocks.{placed, block_after};
ghost use Rattle.ucte_reader.specs.Nodes.{node_codes};
ghost use Rattle.ucte_reader.specs.Facts.{node_in, transformer_in, regulation_in};
ghost use Rattle.ucte_reader.specs.Passes.{IsKnown};

use crate::block::{Block, Form, opened};
use crate::codes::{code_text, id_text};
use crate::known::Known;
use crate::regulations::shift_or_zero;
use name_tables::{NameTable, ValueTable};
use std::alloc::{AllocError, Global};
use ucte_lines::fields::field;
use ucte_lines::lines::{is_blank_line, is_heading, key, split_line, without_return};

/// The block that is open after a heading.
fn after_heading(block: Block, line: &[char]) -> Block
    requires { IsTrue (begins_with_marks line.now) }
    ensures { result ≡ block_after block line.now }
{
    match opened(block, key(line)) {
        Some(next) => next,
        None => Block::Outside,
    }
}

/// Notes the code of one more node line.
fn note_node(known: &mut Known, code: String) -> Result<(), AllocError>
    requires { known.old.count < 2 ^ 64 - 1 }
    ensures places { OnOk result (known.new.places ≡ with_entry known.old.places (string_bytes code) known.old.count) }
    ensures count { OnOk result (known.new.count ≡ known.old.count + 1) }
    ensures transformers { known.new.transformers ≡ known.old.transformers }
    ensures shifts { known.new.shifts ≡ known.old.shifts }
{
    known.places.note(code, known.count)?;
    known.count += 1;
    Ok(())
}

/// Notes what a line says, and says which block is open after it.
#[tactic(auto, unfolding(crate::specs::Nodes::node_of))]
fn note_line(
    alloc: Global,
    known: &mut Known,
    block: Block,
    line: &[char],
) -> Result<Block, AllocError>
    requires { known.old.count < 2 ^ 64 - 1 }
    ensures block { IfOk result (λ next. next ≡ block_after block line.now) }
    ensures places { OnOk result (known.new.places ≡ with_entries known.old.places (numbered_from known.old.count (node_codes (option_to_list (node_in block line.now))))) }
    ensures count { OnOk result (known.new.count ≡ known.old.count + length (option_to_list (node_in block line.now))) }
    ensures transformers { OnOk result (known.new.transformers ≡ with_names known.old.transformers (option_to_list (transformer_in block line.now))) }
    ensures shifts { OnOk result (known.new.shifts ≡ with_entries known.old.shifts (option_to_list (regulation_in block line.now))) }
{
    if is_heading(line) {
        return Ok(after_heading(block, line));
    }
    if is_blank_line(line) {
        return Ok(block);
    }
    match block {
        Block::Zone(_) => {
            let code = code_text(alloc, field(line, 1, 8))?;
            note_node(known, code)?;
            Ok(block)
        }
        Block::Branches(Form::Transformer) => {
            let id = id_text(alloc, line)?;
            known.transformers.add(id)?;
            Ok(block)
        }
        Block::Regulations => {
            let id = id_text(alloc, line)?;
            let shift = shift_or_zero(alloc, line)?;
            known.shifts.note(id, shift)?;
            Ok(block)
        }
        Block::Branches(Form::Line) => Ok(block),
        Block::Outside | Block::Skipped | Block::Nodes => Ok(block),
    }
}

/// The nodes, the transformers and the regulations of a whole text.
#[tactic(auto, unfolding(crate::specs::Blocks::placed))]
pub fn survey(alloc: Global, text: &[char]) -> Result<Known, AllocError>
    ensures { IfOk result (λ known. IsKnown known (placed text.now)) }
{
    let mut known = Known {
        places: ValueTable::new(alloc),
        transformers: NameTable::new(alloc),
        shifts: ValueTable::new(alloc),
        count: 0,
    };
    let mut block = Block::Outside;
    let mut rest = text;
    'lines: while !rest.is_empty() {
        let (line, after) = split_line(rest);
        block = note_line(alloc, &mut known, block, without_return(line))?;
        rest = after;
    }
    Ok(known)
}

//! Node lines.

ghost use Rattle.std.specs.Prelude.{◌≡◌, ◌≤◌, ◌^◌, nat_abs, IfOk, IsTrue, string_bytes};
ghost use Rattle.ucte_reader.specs.Codes.{first_code, is_code as is_code_text, code_text as text_of_code};
ghost use Rattle.ucte_reader.specs.Nodes.{node_kind, zone_text as text_of_zone};
ghost use Rattle.ucte_reader.specs.Steps.{Makes, power_fault, node_field_fault, ArePowers, IsNodeOf};

use crate::block::ZoneCode;
use crate::codes::{code_text, is_code, level_of};
use crate::kind::{GridKind, LineError};
use fb_types::{Node, Text};
use name_tables::NameTable;
use std::alloc::{AllocError, Global};
use ucte_lines::fields::{field, number_or_zero, text_of};

/// 10^12 W.
const GREATEST_TOTAL: u64 = 1_000_000_000_000;

const MOST_NODES: usize = 4096;

fn kind_of(text: &[char]) -> Option<u8>
    ensures { result ≡ node_kind text.now }
{
    match text {
        [] => Some(0),
        [digit] => {
            let code = *digit as u32;
            if 48 <= code && code <= 51 {
                Some((code - 48) as u8)
            } else {
                None
            }
        }
        _ => None,
    }
}

fn zone_text(alloc: Global, zone: ZoneCode) -> Result<Text, AllocError>
    ensures { IfOk result (λ text. text ≡ text_of_zone zone) }
{
    let ZoneCode { first, second } = zone;
    let text = text_of(alloc, &[first, second])?;
    Ok(Text::from_string(text))
}

/// The load and the generation of a line, in watts.
fn powers(alloc: Global, line: &[char]) -> Result<(i64, i64), LineError>
    ensures { Makes result (power_fault line.now) (λ p. ArePowers line.now p.0 p.1) }
{
    let load = number_or_zero(alloc, field(line, 34, 40))?;
    let generation = number_or_zero(alloc, field(line, 50, 56))?;
    match (load, generation) {
        (Some(load), Some(generation)) => Ok((load, generation)),
        _ => Err(LineError::Fault(GridKind::BadNumber)),
    }
}

/// The node of a line whose code is good.
fn read_node(alloc: Global, zone: ZoneCode, line: &[char], code: String) -> Result<Node, LineError>
    requires good { IsTrue (is_code_text (first_code line.now)) }
    requires code { string_bytes code ≡ text_of_code (first_code line.now) }
    ensures { Makes result (node_field_fault line.now) (IsNodeOf zone line.now) }
{
    let Some(kind) = kind_of(field(line, 25, 25)) else {
        return Err(LineError::Fault(GridKind::BadStatus));
    };
    let (load, generation) = powers(alloc, line)?;
    let level = level_of(field(line, 1, 8));
    let zone = zone_text(alloc, zone)?;
    Ok(Node {
        code: Text::from_string(code),
        zone,
        level,
        kind,
        load,
        generation,
    })
}

/// The nodes so far, with their codes and the sum of the sizes of their loads and generations.
#[derive(Drop)]
pub struct Nodes {
    pub nodes: Vec<Node>,
    pub codes: NameTable,
    pub total: u64,
}

impl Nodes {
    ghost use Rattle.std.specs.Prelude.{◌≡◌, ◌≤◌, ◌^◌, ◌++◌, ◌∷◌, [], nat_abs, OnOk, string_bytes};
    ghost use Rattle.ucte_reader.specs.Nodes.{node_of, node_fault};
    ghost use Rattle.ucte_reader.specs.Steps.{Judges, KeepsNodes, IsNamed, node_limit_fault};

    pub fn new(alloc: Global) -> Self
        ensures kept { KeepsNodes result }
        ensures none { result.nodes.items ≡ [] }
    {
        Nodes {
            nodes: Vec::new(alloc),
            codes: NameTable::new(alloc),
            total: 0,
        }
    }

    /// Adds a node whose code is noted already.
    fn push(&mut self, node: Node) -> Result<(), LineError>
        requires named { IsNamed self.old node.code }
        requires load { nat_abs node.load ≤ 10 ^ 17 }
        requires generation { nat_abs node.generation ≤ 10 ^ 17 }
        ensures kept { OnOk result (KeepsNodes self.new) }
        ensures node { OnOk result (self.new.nodes.items ≡ self.old.nodes.items ++ node ∷ []) }
        ensures fault { Judges result (node_limit_fault self.old.nodes.items node) }
    {
        self.total += node.load.unsigned_abs() + node.generation.unsigned_abs();
        if self.total > GREATEST_TOTAL {
            return Err(LineError::Fault(GridKind::InjectionOutOfRange));
        }
        if self.nodes.len() >= MOST_NODES {
            return Err(LineError::Fault(GridKind::TooMany));
        }
        self.nodes.push(node)?;
        Ok(())
    }

    /// Adds the node of a line in the block of a zone.
    #[tactic(auto, unfolding(crate::specs::Nodes::node_fault))]
    pub fn add(&mut self, alloc: Global, zone: ZoneCode, line: &[char]) -> Result<(), LineError>
        requires { KeepsNodes self.old }
        ensures kept { OnOk result (KeepsNodes self.new) }
        ensures node { OnOk result (self.new.nodes.items ≡ self.old.nodes.items ++ node_of zone line.now ∷ []) }
        ensures fault { Judges result (node_fault self.old.nodes.items zone line.now) }
    {
        let code = field(line, 1, 8);
        if !is_code(code) {
            return Err(LineError::Fault(GridKind::BadCode));
        }
        let code = code_text(alloc, code)?;
        if !self.codes.add(code.clone()?)? {
            return Err(LineError::Fault(GridKind::DuplicateNode));
        }
        let node = read_node(alloc, zone, line, code)?;
        self.push(node)
    }
}

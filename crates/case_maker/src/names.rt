//! Codes of nodes and zones, and ids of branches.

ghost use Rattle.std.specs.Prelude.{◌≡◌, ℕ, ◌+◌, ◌<◌, ◌≤◌, IfOk, string_bytes};
ghost use Rattle.case_maker.specs.Layout.{letter_of};
ghost use Rattle.case_maker.specs.Naming.{zone_code, node_code, branch_id};

use crate::counts::zone;
use std::alloc::{AllocError, Global};

/// The letter of a zone, from `A` to `P`.
fn letter(zone: u32) -> char
    requires { zone < 16 }
    ensures { result ≡ letter_of zone }
{
    char::from(b'A' + zone as u8)
}

/// The code of a zone: its letter twice.
pub(crate) fn zone_code(alloc: Global, zone: u32) -> Result<String, AllocError>
    requires { zone < 16 }
    ensures { IfOk result (λ code. string_bytes code ≡ zone_code zone) }
{
    let letter = letter(zone);
    format!(in alloc; "{letter}{letter}")
}

/// The code of a node: 8 characters.
pub(crate) fn node_code(alloc: Global, nodes: u32, node: u32) -> Result<String, AllocError>
    requires few { nodes ≤ 4096 }
    requires there { node < nodes }
    ensures { IfOk result (λ code. string_bytes code ≡ node_code nodes node) }
{
    let letter = letter(zone(nodes, node));
    format!(in alloc; "{letter}N{node:04}1 ")
}

/// The id of the branch from a node to the one that stands so many places after it in the ring: 19 characters.
pub(crate) fn branch_id(
    alloc: Global,
    nodes: u32,
    node: u32,
    step: u32,
) -> Result<String, AllocError>
    requires few { nodes ≤ 4096 }
    requires there { node < nodes }
    requires near { step < nodes }
    ensures { IfOk result (λ id. string_bytes id ≡ branch_id nodes node step) }
{
    let from = node_code(alloc, nodes, node)?;
    let to = node_code(alloc, nodes, (node + step) % nodes)?;
    format!(in alloc; "{from} {to} 1")
}

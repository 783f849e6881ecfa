//! The grid of a case, in the UCTE data exchange format.

ghost use Rattle.std.specs.Prelude.{◌≡◌, ℕ, ◌+◌, ◌*◌, ◌++◌, ◌<◌, ◌≤◌, IfOk, OnOk, negsuc, string_bytes};
ghost use Rattle.case_maker.specs.Drawing.{next_state, state_after};
ghost use Rattle.case_maker.specs.Layout.{starts_zone};
ghost use Rattle.case_maker.specs.GridTexts.{grid_text, kind_of, nodes_text, node_line, zone_line, branch_line, branches_text};

use crate::counts::zone;
use crate::draws::Draws;
use crate::names::{branch_id, node_code, zone_code};
use std::alloc::{AllocError, Global};

/// How far a chord reaches round the ring.
pub(crate) const CHORD: u32 = 7;

/// The grid: the nodes with their loads and generations, and a ring of lines with a chord from each node.
pub(crate) fn grid_text(alloc: Global, draws: &mut Draws, nodes: u32) -> Result<String, AllocError>
    requires enough { 48 ≤ nodes }
    requires few { nodes ≤ 4096 }
    ensures text { IfOk result (λ text. string_bytes text ≡ grid_text draws.old.state nodes) }
    ensures moved { OnOk result (draws.new.state ≡ state_after draws.old.state (4 * nodes)) }
{
    let mut text = String::from_str(alloc, "##N\n")?;
    put_nodes(alloc, &mut text, draws, nodes)?;
    text.push_str("##L\n")?;
    put_branches(alloc, &mut text, draws, nodes)?;
    Ok(text)
}

/// Appends the lines of the nodes.
fn put_nodes(
    alloc: Global,
    text: &mut String,
    draws: &mut Draws,
    nodes: u32,
) -> Result<(), AllocError>
    requires { nodes ≤ 4096 }
    ensures text { OnOk result (string_bytes text.new ≡ string_bytes text.old ++ nodes_text draws.old.state nodes) }
    ensures moved { OnOk result (draws.new.state ≡ state_after draws.old.state (2 * nodes)) }
{
    for node in 0..nodes {
        put_zone_start(alloc, text, nodes, node)?;
        put_node(alloc, text, draws, nodes, node)?;
    }
    Ok(())
}

/// Whether a node is the first of its zone.
fn starts_zone(nodes: u32, node: u32) -> bool
    requires few { nodes ≤ 4096 }
    requires there { node < nodes }
    ensures { result ≡ starts_zone nodes node }
{
    node == 0 || zone(nodes, node - 1) != zone(nodes, node)
}

/// Appends the line of a zone, before its first node.
fn put_zone_start(alloc: Global, text: &mut String, nodes: u32, node: u32) -> Result<(), AllocError>
    requires few { nodes ≤ 4096 }
    requires there { node < nodes }
    ensures { OnOk result (string_bytes text.new ≡ string_bytes text.old ++ zone_line nodes node) }
{
    if starts_zone(nodes, node) {
        let code = zone_code(alloc, zone(nodes, node))?;
        return writeln!(text, "##Z{code}");
    }
    Ok(())
}

/// The type of a node: the first one is the slack.
fn kind(node: u32) -> u32
    ensures { result ≡ kind_of node }
{
    if node == 0 { 3 } else { 0 }
}

/// The generation of a node for the number that is drawn, in MW. Produced power is negative.
fn generation(drawn: u32) -> i64
    ensures { result ≡ negsuc drawn }
{
    -1 - i64::from(drawn)
}

/// Appends the line of a node, for which it draws a load and a generation, in MW.
fn put_node(
    alloc: Global,
    text: &mut String,
    draws: &mut Draws,
    nodes: u32,
    node: u32,
) -> Result<(), AllocError>
    requires few { nodes ≤ 4096 }
    requires there { node < nodes }
    ensures text { OnOk result (string_bytes text.new ≡ string_bytes text.old ++ node_line draws.old.state nodes node) }
    ensures moved { draws.new.state ≡ next_state (next_state draws.old.state) }
{
    let load = 1 + draws.draw(100);
    let generation = generation(draws.draw(120));
    let kind = kind(node);
    let code = node_code(alloc, nodes, node)?;
    writeln!(
        text,
        "{code}              0 {kind}{load:>15}{generation:>16}"
    )
}

/// Appends the lines of the branches: of each node the one round the ring, and the chord.
fn put_branches(
    alloc: Global,
    text: &mut String,
    draws: &mut Draws,
    nodes: u32,
) -> Result<(), AllocError>
    requires enough { 48 ≤ nodes }
    requires few { nodes ≤ 4096 }
    ensures text { OnOk result (string_bytes text.new ≡ string_bytes text.old ++ branches_text draws.old.state nodes) }
    ensures moved { OnOk result (draws.new.state ≡ state_after draws.old.state (2 * nodes)) }
{
    for node in 0..nodes {
        put_branch(alloc, text, draws, nodes, node, 1)?;
        put_branch(alloc, text, draws, nodes, node, CHORD)?;
    }
    Ok(())
}

/// Appends the line of the branch from a node to the one so many places after it.
fn put_branch(
    alloc: Global,
    text: &mut String,
    draws: &mut Draws,
    nodes: u32,
    node: u32,
    step: u32,
) -> Result<(), AllocError>
    requires few { nodes ≤ 4096 }
    requires there { node < nodes }
    requires near { step < nodes }
    ensures text { OnOk result (string_bytes text.new ≡ string_bytes text.old ++ branch_line draws.old.state nodes node step) }
    ensures moved { OnOk result (draws.new.state ≡ next_state draws.old.state) }
{
    let hundredths = 100 + draws.draw(4000);
    let ohms = hundredths / 100;
    let rest = hundredths % 100;
    let id = branch_id(alloc, nodes, node, step)?;
    writeln!(text, "{id} 0{ohms:>11}.{rest:02}")
}

//! The slack node, and the nodes that a state leaves stranded.

ghost use Rattle.std.specs.Prelude.{◌≡◌, ◌<◌, ◌≤◌, ◌==◌, ◌&&◌, ◌||◌, not, length, position, None, IfSome};
ghost use Rattle.grid_state.specs.GridState.{class_at, is_live};
ghost use Rattle.grid_state.specs.Marks.{first_marked};
ghost use Rattle.grid_state.specs.Split.{slack_node_of, is_nonzero, injection_of};

use crate::types::State;
use fb_types::{Grid, Node};

/// The first node of type 3, U and angle.
fn angle_node(nodes: &[Node]) -> Option<usize>
    ensures first { result ≡ position (λ node. node.kind == 3) nodes.now }
    ensures within { IfSome result (λ place. place < length nodes.now) }
{
    nodes.iter().position(|node| node.kind == 3)
}

/// The slack node: the one that is named, or else the first node of type 3. There is none exactly where none is named and no
/// node is of type 3.
pub fn slack_of(grid: &Grid, named: Option<u32>) -> Option<u32>
    ensures node { result ≡ slack_node_of grid.now.nodes named }
    ensures found_in_grid { named ≡ None → IfSome result (λ node. node < length grid.now.nodes) }
{
    match named {
        Some(node) => Some(node),
        None => match angle_node(grid.nodes.as_slice()) {
            Some(place) => Some(place as u32),
            None => None,
        },
    }
}

/// Whether a node feeds something in.
fn is_injecting(node: &Node) -> bool
    ensures { result ≡ is_nonzero (injection_of node.now) }
{
    i128::from(node.load) + i128::from(node.generation) != 0
}

/// Whether a node is loaded, and of a class that is not live, where it is told whether the node has a key weight.
fn is_stranded(state: &State, place: u32, node: &Node, is_keyed: bool) -> bool
    requires { place < length state.now.class_of }
    ensures { result ≡ (is_nonzero (injection_of node.now) || is_keyed) && not (is_live state.now (class_at state.now place)) }
{
    state.sound();
    (is_injecting(node) || is_keyed) && !state.live(state.class_of(place))
}

/// The first node that is loaded, and of a class that is not live, where the nodes with a key weight are marked.
pub fn first_stranded(state: &State, nodes: &[Node], keyed: &[bool]) -> Option<u32>
    requires keyed { length keyed.now ≡ length nodes.now }
    requires classes { length state.now.class_of ≡ length nodes.now }
    requires few { length nodes.now ≤ 4096 }
    ensures { result ≡ first_marked state.now keyed.now nodes.now }
{
    for (place, node) in nodes.iter().enumerate() {
        if is_stranded(state, place as u32, node, keyed[place]) {
            return Some(place as u32);
        }
    }
    None
}

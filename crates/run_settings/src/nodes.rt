//! Nodes by their codes.

ghost use Rattle.std.specs.Prelude.{◌≡◌, ◌<◌, ◌^◌, length, IfOk};
ghost use Rattle.run_settings.specs.Nodes.{node_codes, node_named};
ghost use Rattle.run_settings.specs.Places.{ArePlaces};

use fb_types::{Grid, Node};
use name_tables::{ValueTable, padded};
use std::alloc::{AllocError, Global};
use std::marker::Model;

/// The nodes of a grid, looked up by their codes. A contract sees the list of nodes.
#[derive(Drop)]
pub struct NodeTable<'a> {
    nodes: &'a [Node],
    places: ValueTable<u32>,
}

impl<'a> Model for NodeTable<'a> {
    ghost use Rattle.std.specs.Prelude.{List};
    ghost use Rattle.fb_types.specs.declared.grid.Node.{Node};
    ghost use Rattle.run_settings.specs.Nodes.{node_codes};
    ghost use Rattle.run_settings.specs.Places.{ArePlaces};

    ghost Value = { List Node };

    ghost view = { λ t. t.nodes.now };

    ghost invariant = { λ t. ArePlaces t.places (node_codes t.nodes.now) };
}

impl<'a> NodeTable<'a> {
    /// A table of the nodes of the grid.
    pub fn new(alloc: Global, grid: &'a Grid) -> Result<NodeTable<'a>, AllocError>
        ensures { IfOk result (λ table. table ≡ grid.now.nodes) }
    {
        let nodes = grid.nodes.as_slice();
        let places = places_of(alloc, nodes)?;
        Ok(NodeTable { nodes, places })
    }

    /// The place of the first node whose code is the name, padded with blanks to 8 characters.
    pub fn find(&self, alloc: Global, name: &str) -> Result<Option<u32>, AllocError>
        ensures { IfOk result (λ place. place ≡ node_named self.now name.now) }
    {
        let code = padded(alloc, name, 8)?;
        Ok(self.places.get(code.as_str()))
    }
}

/// The places of nodes by their codes.
fn places_of(alloc: Global, nodes: &[Node]) -> Result<ValueTable<u32>, AllocError>
    requires { length nodes.now < 2 ^ 32 }
    ensures { IfOk result (λ places. ArePlaces places (node_codes nodes.now)) }
{
    let mut places = ValueTable::new(alloc);
    for (place, node) in nodes.iter().enumerate() {
        let code = String::from_str(alloc, node.code.as_text())?;
        places.note(code, place as u32)?;
    }
    Ok(places)
}

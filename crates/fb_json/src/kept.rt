//! Documents as they are kept: two tables, one of texts and one of nodes.

ghost use Rattle.std.specs.Prelude.{◌≡◌, ◌+◌, ◌≤◌, length};
ghost use Rattle.fb_json.specs.Node.{part_of};
ghost use Rattle.fb_json.specs.Kept.{cut, name_of, tree_of, Lies, IsSound};

use crate::node::{Node, Part, Span};
use std::str;

/// A document: the tree that `serde_json` reads from the marked bytes. The items of an array stand side by side before it,
/// so that a node takes eight bytes, a member of an object two nodes, and a text its bytes.
#[derive(Drop)]
pub struct Doc {
    pub(crate) texts: Vec<u8>,
    pub(crate) nodes: Vec<Node>,
    pub(crate) root: Node,
    ghost sound: { IsSound texts.items nodes.items },
    ghost root_lies: { Lies texts.items (length nodes.items) (part_of root) },
}

/// A place in a document: its root, a member of an object, or an item of an array.
#[derive(Clone, Copy)]
pub struct Spot<'a> {
    pub(crate) doc: &'a Doc,
    pub(crate) node: Node,
    ghost lies: { Lies doc.now.texts.items (length doc.now.nodes.items) (part_of node) },
}

impl Doc {
    pub(crate) fn bytes_at(&self, span: Span) -> &[u8]
        requires { span.start + span.len ≤ length self.now.texts.items }
        ensures { result.now ≡ cut span self.now.texts.items }
    {
        &self.texts[span.start..span.start + span.len]
    }

    pub(crate) fn nodes_at(&self, span: Span) -> &[Node]
        requires { span.start + span.len ≤ length self.now.nodes.items }
        ensures { result.now ≡ cut span self.now.nodes.items }
    {
        &self.nodes[span.start..span.start + span.len]
    }

    pub(crate) fn text_at(&self, span: Span) -> &str
        requires { Lies self.now.texts.items (length self.now.nodes.items) (Part.Text span) }
        ensures { result.now ≡ cut span self.now.texts.items }
    {
        match str::from_utf8(self.bytes_at(span)) {
            Ok(text) => text,
            Err(_) => unreachable!(),
        }
    }

    /// The bytes of a node that is a text, and none of any other.
    pub(crate) fn name_of(&self, node: Node) -> &[u8]
        requires { Lies self.now.texts.items (length self.now.nodes.items) (part_of node) }
        ensures { result.now ≡ name_of (tree_of self.now.texts.items self.now.nodes.items node) }
    {
        match node.part() {
            Part::Text(span) => self.bytes_at(span),
            _ => &[],
        }
    }
}

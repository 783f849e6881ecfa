//! The tree of a document, and its spots.

ghost use Rattle.std.specs.Prelude.{◌≡◌, List, Some, ◌==◌, ℕ, ◌∷◌, ◌<◌, ◌≤◌, length, IfSome, IfOk, IfErr, IsErr, IsTrue, MatchResult, alloc_error};
ghost use Rattle.std.specs.Str.{bytes_eq};
ghost use Rattle.std.specs.Option.{option_map};
ghost use Rattle.serde_json.specs.Data.{Data, no_members};
ghost use Rattle.serde_json.specs.Find.{get_member, as_str};
ghost use Rattle.fb_json.specs.Node.{part_of};
ghost use Rattle.fb_json.specs.Kept.{cut, pairs_span, end_of, put_all, trees_of, tree_of, Lies};
ghost use Rattle.fb_json.specs.Marking.{text_mark, number_mark};
ghost use Rattle.fb_json.specs.Number.{IsNumber};
ghost use Rattle.fb_decimal.specs.Spelling.{IsSpelling};
ghost use Rattle.fb_decimal.specs.Reading.{spelled_as};
ghost use Rattle.fb_json.specs.Tree.{HasTree, got_map, present, behind, number_in, member_of, length_of, item_of, text_of, decimal_of, truth_of};
ghost use Rattle.fb_json.specs.Spots.{doc_tree, spot_tree};
ghost use Rattle.fb_json.specs.declared.document.JsonFault.TheVariants.{NotJson, Memory};

use crate::builder::{Refusal, build};
use crate::kept::{Doc, Spot};
use crate::marking::mark;
use crate::node::{Node, Part, Span};
use fb_decimal::{Decimal, read_decimal};
use std::alloc::{AllocError, Global};
use std::str;
use thiserror::Error;

/// Why bytes are not read as a document.
#[derive(Debug, Drop, Error)]
pub enum JsonFault {
    #[error("the bytes are no JSON document")]
    NotJson,
    #[error("out of memory")]
    Memory(AllocError),
}

/// What stands at a spot: nothing, something of another form, or a value.
#[derive(Clone, Copy, Debug, PartialEq, Eq)]
pub enum Got<T> {
    Absent,
    Wrong,
    Value(T),
}

/// The document of the bytes: the tree that `serde_json` reads from the marked bytes, with arrays and objects in at most
/// 127 levels (RFC 8259); of equal members of an object the last. `NotJson` where there is none. It takes time
/// in the length of the bytes alone, but for the order of an object's members by name.
pub fn tree(alloc: Global, bytes: &[u8]) -> Result<Doc, JsonFault>
    ensures tree { IfOk result (λ d. HasTree bytes.now (doc_tree d)) }
    ensures not_json { IfErr result (λ e. e ≡ NotJson → (d : Data) → HasTree bytes.now d → ⊥) }

    // Each document has its answer, memory permitting: one with a tree that tree, any other NotJson.
    ensures reads { (d : Data) → HasTree bytes.now d
        → MatchResult result (λ found. doc_tree found ≡ d) (λ e. e ≡ Memory alloc_error) }
    ensures refuses { ((d : Data) → HasTree bytes.now d → ⊥) → IsErr result }
{
    let marked = mark(alloc, bytes).map_err(JsonFault::Memory)?;
    let Ok(text) = str::from_utf8(&marked) else {
        return Err(JsonFault::NotJson);
    };
    match build(alloc, text) {
        Ok(doc) => Ok(doc),
        Err(Refusal::Memory) => Err(JsonFault::Memory(AllocError)),
        Err(Refusal::NotJson) => Err(JsonFault::NotJson),
    }
}

impl Doc {
    /// The place of the whole document.
    pub fn root(&self) -> Spot<'_>
        ensures { spot_tree result ≡ doc_tree self.now }
    {
        Spot {
            doc: self,
            node: self.root,
        }
    }
}

/// Whether the key is the mark of a text and the name behind it.
fn names(key: &[u8], name: &[u8]) -> bool
    ensures { result ≡ bytes_eq (text_mark ∷ name.now) key.now }
{
    match key.split_first() {
        Some((mark, rest)) => *mark == b's' && rest == name,
        None => false,
    }
}

/// The member of that name among so many members that lie in the nodes at the span. Of equal names the last counts.
fn find_member(doc: &Doc, span: Span, name: &str) -> Option<Node>
    requires { end_of (pairs_span span) ≤ length doc.now.nodes.items }
    ensures tree { option_map (tree_of doc.now.texts.items doc.now.nodes.items) result
        ≡ get_member (text_mark ∷ name.now)
        (put_all (cut (pairs_span span) (trees_of doc.now.texts.items doc.now.nodes.items)) no_members) }
    ensures lies { IfSome result
        (λ n. Lies doc.now.texts.items (length doc.now.nodes.items) (part_of n)) }
{
    let members = doc.nodes_at(Span {
        start: span.start,
        len: span.len * 2,
    });
    let mut count = span.len;
    while count > 0 {
        count -= 1;
        if names(doc.name_of(members[count * 2]), name.as_bytes()) {
            return Some(members[count * 2 + 1]);
        }
    }
    None
}

/// What stands behind the mark, where the text begins with it.
fn behind(text: &str, mark: char) -> Got<&str>
    requires { mark < 128 }
    ensures { got_map (λ t. t.now) result ≡ behind mark text.now }
{
    match text.strip_prefix(mark) {
        Some(rest) => Got::Value(rest),
        None => Got::Wrong,
    }
}

impl<'a> Spot<'a> {
    /// The spot itself, if null does not stand there.
    fn present(&self) -> Got<Spot<'a>>
        ensures { got_map spot_tree result ≡ present (Some (spot_tree self.now)) }
    {
        match self.node.part() {
            Part::Null => Got::Absent,
            _ => Got::Value(*self),
        }
    }

    /// The text with its mark, where one stands there.
    fn marked_text(&self) -> Option<&'a str>
        ensures { option_map (λ t. t.now) result ≡ as_str (spot_tree self.now) }
    {
        match self.node.part() {
            Part::Text(span) => Some(self.doc.text_at(span)),
            _ => None,
        }
    }

    /// The member of that name: `Wrong` where the spot is no object, `Absent` where the object has no such member or it is
    /// null. It goes over the members and takes no memory.
    #[tactic(auto, unfolding(crate::specs::Tree::member_of))]
    pub fn member(&self, name: &str) -> Got<Spot<'a>>
        ensures { got_map spot_tree result ≡ member_of name.now (spot_tree self.now) }
    {
        let Part::Object(span) = self.node.part() else {
            return Got::Wrong;
        };
        match find_member(self.doc, span, name) {
            None => Got::Absent,
            Some(node) => Spot {
                doc: self.doc,
                node,
            }
            .present(),
        }
    }

    /// How many items the array has: `Wrong` where the spot is no array.
    #[tactic(auto, unfolding(crate::specs::Tree::length_of))]
    pub fn length(&self) -> Got<u64>
        ensures { result ≡ length_of (spot_tree self.now) }
    {
        match self.node.part() {
            Part::Array(span) => Got::Value(span.len as u64),
            _ => Got::Wrong,
        }
    }

    /// The item at a place, counted from 0: `Wrong` where the spot is no array, `Absent` past its end.
    #[tactic(auto, unfolding(crate::specs::Tree::item_of))]
    pub fn item(&self, at: u64) -> Got<Spot<'a>>
        ensures { got_map spot_tree result ≡ item_of at (spot_tree self.now) }
    {
        let Part::Array(span) = self.node.part() else {
            return Got::Wrong;
        };
        match self.doc.nodes_at(span).get(at as usize) {
            None => Got::Absent,
            Some(node) => Got::Value(Spot {
                doc: self.doc,
                node: *node,
            }),
        }
    }

    /// The text: `Wrong` where the spot is something else, as a number.
    #[tactic(auto, unfolding(crate::specs::Tree::text_of))]
    pub fn text(&self) -> Got<&'a str>
        ensures { got_map (λ t. t.now) result ≡ text_of (spot_tree self.now) }
    {
        match self.marked_text() {
            None => Got::Wrong,
            Some(text) => behind(text, 's'),
        }
    }

    /// The number, in whole millionths, rounded towards 0: `Wrong` where the spot is something else, and where the
    /// absolute value is above 10^24.
    pub fn decimal(&self) -> Got<Decimal>
        ensures is { result ≡ decimal_of (spot_tree self.now) }

        // A number of the document is spelled as decimals are, so it is Wrong only where it is past their range.
        ensures number { (run : List ℕ) → IsNumber run → as_str (spot_tree self.now) ≡ Some (number_mark ∷ run)
            → (s : IsSpelling run) × (result ≡ number_in (spelled_as s)) }
    {
        number_of(self)
    }

    /// Whether true stands there: `Wrong` where the spot is neither `true` nor `false`, nor one of them as a text.
    #[tactic(auto, unfolding(crate::specs::Tree::truth_of, crate::specs::Tree::text_of))]
    pub fn truth(&self) -> Got<bool>
        ensures { result ≡ truth_of (spot_tree self.now) }
    {
        if let Part::Truth(truth) = self.node.part() {
            return Got::Value(truth);
        }
        match self.text() {
            Got::Value("true") => Got::Value(true),
            Got::Value("false") => Got::Value(false),
            _ => Got::Wrong,
        }
    }
}

#[tactic(auto, unfolding(crate::specs::Tree::decimal_of))]
fn number_of(spot: &Spot<'_>) -> Got<Decimal>
    ensures { result ≡ decimal_of (spot_tree spot.now) }
{
    match spot.marked_text() {
        None => Got::Wrong,
        Some(text) => match behind(text, 'n') {
            Got::Value(number) => match read_decimal(number) {
                Ok(number) => Got::Value(number),
                Err(_) => Got::Wrong,
            },
            _ => Got::Wrong,
        },
    }
}

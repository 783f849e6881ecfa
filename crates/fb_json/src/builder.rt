//! Building the tables of a document, in one pass over the tokens of a text.

ghost use Rattle.std.specs.Prelude.{◌≡◌, ◌≢◌, ◌<◌, ◌≤◌, ◌+◌, ◌*◌, ◌++◌, ◌∷◌, [], length, take, drop, Some, None, Err, IfOk, OnOk};
ghost use Rattle.json.specs.Json.{value, items, members};
ghost use Rattle.json.specs.Print.{IsNumber};
ghost use Rattle.serde_json.specs.Data.{Num, no_members};
ghost use Rattle.serde_json.specs.Read.{of_json, of_items, of_members, converted, number_of, read as read_text};
ghost use Rattle.fb_json.specs.Node.{part_of};
ghost use Rattle.fb_json.specs.Kept.{pairs_span, end_of, Lies, IsSound};
ghost use Rattle.fb_json.specs.Spots.{doc_tree};
ghost use Rattle.fb_json.specs.Building.{Grows, IsPut, IsWaiting, IsGathered, part_tree, items_at, members_at};

use crate::kept::Doc;
use crate::node::{Node, Part, Span};
use json::{Invalid, Reader, Scratch, Token};
use serde_json::Value;
use std::alloc::{AllocError, AllocFailed, Global};

/// How deep arrays and objects may nest.
const MAX_DEPTH: usize = 127;

/// Why a text is not read.
#[derive(Clone, Copy, Debug, Drop, PartialEq, Eq)]
pub(crate) enum Refusal {
    NotJson,
    Memory,
}

impl From<Invalid> for Refusal {
    ghost use Rattle.fb_json.specs.declared.builder.Refusal.TheVariants.{NotJson};
    ghost use Rattle.std.specs.Prelude.{◌≡◌};

    ghost from_gives = { λ _ e. e ≡ NotJson };

    fn from(_invalid: Invalid) -> Refusal {
        Refusal::NotJson
    }
}

impl From<AllocError> for Refusal {
    ghost use Rattle.fb_json.specs.declared.builder.Refusal.TheVariants.{Memory};
    ghost use Rattle.std.specs.Prelude.{◌≡◌};

    ghost from_gives = { λ _ e. e ≡ Memory };

    fn from(_refused: AllocError) -> Refusal {
        Refusal::Memory
    }
}

impl<T: Drop> From<AllocFailed<T>> for Refusal {
    ghost use Rattle.fb_json.specs.declared.builder.Refusal.TheVariants.{Memory};
    ghost use Rattle.std.specs.Prelude.{◌≡◌};

    ghost from_gives = { λ _ e. e ≡ Memory };

    fn from(_refused: AllocFailed<T>) -> Refusal {
        Refusal::Memory
    }
}

/// The tables so far, and the nodes of arrays and objects that do not end yet, which wait.
#[derive(Drop)]
pub(crate) struct Builder {
    pub(crate) texts: Vec<u8>,
    pub(crate) nodes: Vec<Node>,
    waiting: Vec<Node>,
}

/// How much the tables take.
#[derive(Clone, Copy)]
struct Room {
    texts: usize,
    nodes: usize,
}

impl Room {
    fn with(self, texts: usize) -> Room {
        Room {
            texts: self.texts.saturating_add(texts),
            nodes: self.nodes.saturating_add(1),
        }
    }
}

/// The room for the tokens of a text, so that each table is made once.
fn room_of(text: &str, scratch: &mut Scratch) -> Result<Room, AllocError> {
    let mut reader = Reader::new(text, scratch)?;
    let mut room = Room { texts: 0, nodes: 0 };
    while let Some(token) = reader.next() {
        room = match token {
            Token::Key(text) | Token::String(text) | Token::Number(text) => room.with(text.len()),
            Token::EndObject | Token::EndArray | Token::Bad => room,
            Token::BeginObject | Token::BeginArray | Token::Bool(_) | Token::Null => room.with(0),
        };
    }
    Ok(room)
}

fn node_of(part: Part) -> Result<Node, Refusal>
    ensures node { IfOk result (λ n. part_of n ≡ part) }
    ensures memory { result ≢ Err Refusal.NotJson }
{
    Node::new(part).ok_or(Refusal::Memory)
}

impl Builder {
    fn with_room(alloc: Global, room: Room) -> Result<Builder, AllocError>
        ensures { IfOk result (λ b. (b.texts.items ≡ []) × (b.nodes.items ≡ []) × (b.waiting.items ≡ [])) }
    {
        Ok(Builder {
            texts: Vec::with_capacity(alloc, room.texts)?,
            nodes: Vec::with_capacity(alloc, room.nodes)?,
            waiting: Vec::with_capacity(alloc, room.nodes)?,
        })
    }

    /// Puts a text at the end of the texts.
    fn put_text(&mut self, text: &str) -> Result<Span, Refusal>
        ensures put { IfOk result (λ span. IsPut self.old self.new text.now span) }
        ensures memory { result ≢ Err Refusal.NotJson }
    {
        let span = Span {
            start: self.texts.len(),
            len: text.len(),
        };
        self.texts.extend_from_slice(text.as_bytes())?;
        Ok(span)
    }

    fn put_waiting(&mut self, part: Part) -> Result<(), Refusal>
        ensures waits { OnOk result (IsWaiting self.old self.new part) }
        ensures memory { result ≢ Err Refusal.NotJson }
    {
        let node = node_of(part)?;
        self.waiting.push(node)?;
        Ok(())
    }

    /// Puts the waiting nodes from a place on at the end of the nodes.
    fn gather(&mut self, from: usize) -> Result<Span, Refusal>
        requires { from ≤ length self.old.waiting.items }
        ensures gathered { IfOk result (λ span. IsGathered self.old self.new from span) }
        ensures memory { result ≢ Err Refusal.NotJson }
    {
        let span = Span {
            start: self.nodes.len(),
            len: self.waiting.len() - from,
        };
        self.nodes.extend_from_slice(&self.waiting[from..])?;
        self.waiting.truncate(from);
        Ok(span)
    }
}

/// Refuses a number that `serde_json` refuses, as one that is too large.
fn check_number(alloc: Global, text: &str) -> Result<(), Refusal>
    requires { IsNumber text.now }
    ensures number { OnOk result ((n : Num) × (number_of text.now ≡ Some n)) }
    ensures refuses { result ≡ Err Refusal.NotJson → number_of text.now ≡ None }
{
    match Value::from_str(alloc, text) {
        Ok(_) => Ok(()),
        Err(e) if e.is_memory() => Err(Refusal::Memory),
        Err(_) => Err(Refusal::NotJson),
    }
}

#[cycle(read)]
fn read(
    alloc: Global,
    reader: &mut Reader<'_>,
    builder: &mut Builder,
    depth: usize,
) -> Result<Part, Refusal>
    requires { IsSound builder.old.texts.items builder.old.nodes.items }
    ensures grows { OnOk result (Grows builder.old builder.new) }
    ensures waiting { OnOk result (builder.new.waiting.items ≡ builder.old.waiting.items) }
    ensures lies { IfOk result (λ p. Lies builder.new.texts.items (length builder.new.nodes.items) p) }
    ensures ok { IfOk result (λ p. converted of_json (value depth reader.old)
        ≡ Some (part_tree builder.new p, reader.new)) }
    ensures shorter { OnOk result (length reader.new < length reader.old) }
    ensures err { result ≡ Err Refusal.NotJson → converted of_json (value depth reader.old) ≡ None }
{
    let token = reader.next().ok_or(Refusal::NotJson)?;
    match token {
        Token::String(text) => Ok(Part::Text(builder.put_text(text)?)),
        Token::Number(text) => {
            check_number(alloc, text)?;
            Ok(Part::Number(builder.put_text(text)?))
        }
        Token::Bool(truth) => Ok(Part::Truth(truth)),
        Token::Null => Ok(Part::Null),
        Token::EndObject | Token::EndArray | Token::Key(_) | Token::Bad => Err(Refusal::NotJson),
        Token::BeginArray => {
            if depth == 0 {
                return Err(Refusal::NotJson);
            }
            Ok(Part::Array(read_items(alloc, reader, builder, depth - 1)?))
        }
        Token::BeginObject => {
            if depth == 0 {
                return Err(Refusal::NotJson);
            }
            Ok(Part::Object(read_members(alloc, reader, builder, depth - 1)?))
        }
    }
}

#[cycle(read)]
fn read_items(
    alloc: Global,
    reader: &mut Reader<'_>,
    builder: &mut Builder,
    depth: usize,
) -> Result<Span, Refusal>
    requires { IsSound builder.old.texts.items builder.old.nodes.items }
    ensures grows { OnOk result (Grows builder.old builder.new) }
    ensures waiting { OnOk result (builder.new.waiting.items ≡ builder.old.waiting.items) }
    ensures lies { IfOk result (λ span. end_of span ≤ length builder.new.nodes.items) }
    ensures ok { IfOk result (λ span. converted of_items (items (value depth) (length reader.old) reader.old)
        ≡ Some (items_at builder.new span, reader.new)) }
    ensures shorter { OnOk result (length reader.new < length reader.old) }
    ensures err { result ≡ Err Refusal.NotJson
        → converted of_items (items (value depth) (length reader.old) reader.old) ≡ None }
{
    let from = builder.waiting.len();
    'items: while !reader.take_end_array() {
        let item = read(alloc, reader, builder, depth)?;
        builder.put_waiting(item)?;
    }
    builder.gather(from)
}

#[cycle(read)]
fn read_members(
    alloc: Global,
    reader: &mut Reader<'_>,
    builder: &mut Builder,
    depth: usize,
) -> Result<Span, Refusal>
    requires { IsSound builder.old.texts.items builder.old.nodes.items }
    ensures grows { OnOk result (Grows builder.old builder.new) }
    ensures waiting { OnOk result (builder.new.waiting.items ≡ builder.old.waiting.items) }
    ensures lies { IfOk result (λ span. end_of (pairs_span span) ≤ length builder.new.nodes.items) }
    ensures ok { IfOk result (λ span. converted (λ ms. of_members ms no_members)
        (members (value depth) (length reader.old) reader.old)
        ≡ Some (members_at builder.new span, reader.new)) }
    ensures shorter { OnOk result (length reader.new < length reader.old) }
    ensures err { result ≡ Err Refusal.NotJson → converted (λ ms. of_members ms no_members)
        (members (value depth) (length reader.old) reader.old) ≡ None }
{
    let from = builder.waiting.len();
    'members: while let Some(name) = reader.next_key()? {
        let name = builder.put_text(name)?;
        builder.put_waiting(Part::Text(name))?;
        let member = read(alloc, reader, builder, depth)?;
        builder.put_waiting(member)?;
    }
    let span = builder.gather(from)?;
    Ok(Span {
        start: span.start,
        len: span.len / 2,
    })
}

/// The document that a text is.
pub(crate) fn build(alloc: Global, text: &str) -> Result<Doc, Refusal>
    ensures ok { IfOk result (λ d. read_text text.now ≡ Some (doc_tree d)) }
    ensures err { result ≡ Err Refusal.NotJson → read_text text.now ≡ None }
{
    let mut scratch = Scratch::new(alloc);
    let mut builder = Builder::with_room(alloc, room_of(text, &mut scratch)?)?;
    let mut reader = Reader::new(text, &mut scratch)?;
    let root = read(alloc, &mut reader, &mut builder, MAX_DEPTH)?;
    if reader.next().is_some() {
        return Err(Refusal::NotJson);
    }
    Ok(Doc {
        texts: builder.texts,
        nodes: builder.nodes,
        root: node_of(root)?,
    })
}

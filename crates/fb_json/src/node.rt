//! The nodes of a kept tree, of eight bytes each.

ghost use Rattle.std.specs.Prelude.{◌≡◌, ◌<◌, ◌/◌, ◌%◌, MatchOption};
ghost use Rattle.fb_json.specs.Node.{part_of, Fits, FitsSpan};

/// A part of a table: where it begins, and how long it is.
#[derive(Clone, Copy, Debug, PartialEq, Eq)]
pub(crate) struct Span {
    pub(crate) start: usize,
    pub(crate) len: usize,
}

/// What a node stands for. A number and a text lie in the bytes of the texts. The items of an array lie in the nodes, and
/// the members of an object too, a name before each value; an object's length counts its members.
#[derive(Clone, Copy, Debug, PartialEq, Eq)]
pub(crate) enum Part {
    Null,
    Truth(bool),
    Number(Span),
    Text(Span),
    Array(Span),
    Object(Span),
}

/// A part in eight bytes: the lowest three bits of `head` tell its kind, the others where its span begins.
#[derive(Clone, Copy, Debug)]
pub(crate) struct Node {
    head: u32,
    len: u32,
}

fn packed(kind: u32, span: Span) -> Option<Node>
    requires { kind < 8 }
    ensures { MatchOption result (FitsSpan span → ⊥)
        (λ n. (n.head % 8 ≡ kind) × (n.head / 8 ≡ span.start) × (n.len ≡ span.len)) }
{
    if span.start >= 1 << 29 || span.len >= 1 << 32 {
        return None;
    }
    Some(Node {
        head: span.start as u32 * 8 + kind,
        len: span.len as u32,
    })
}

impl Node {
    /// The node of a part. There is none where the part is out of the reach of eight bytes.
    pub(crate) fn new(part: Part) -> Option<Node>
        ensures { MatchOption result (Fits part → ⊥) (λ n. part_of n ≡ part) }
    {
        match part {
            Part::Null => Some(Node { head: 0, len: 0 }),
            Part::Truth(false) => Some(Node { head: 1, len: 0 }),
            Part::Truth(true) => Some(Node { head: 2, len: 0 }),
            Part::Number(span) => packed(3, span),
            Part::Text(span) => packed(4, span),
            Part::Array(span) => packed(5, span),
            Part::Object(span) => packed(6, span),
        }
    }

    pub(crate) fn part(self) -> Part
        ensures { result ≡ part_of self }
    {
        let span = Span {
            start: (self.head / 8) as usize,
            len: self.len as usize,
        };
        match self.head % 8 {
            0 => Part::Null,
            1 => Part::Truth(false),
            2 => Part::Truth(true),
            3 => Part::Number(span),
            4 => Part::Text(span),
            5 => Part::Array(span),
            _ => Part::Object(span),
        }
    }
}

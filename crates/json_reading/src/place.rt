//! Places of a document, and how they are written.

ghost use Rattle.std.specs.Prelude.{◌≡◌, IfOk};
ghost use Rattle.json_reading.specs.Place.{in_member, in_item};
ghost use Rattle.json_reading.specs.Here.{place_text};

use fb_types::Text;
use std::alloc::{AllocError, Global};

/// A place of a document, by the places that it is in: its text is made only where a fault is told.
#[derive(Clone, Copy)]
pub enum Place<'a> {
    /// The whole document.
    Root,
    /// A member of an object.
    Member { outer: &'a Place<'a>, name: &'a str },
    /// An item of an array, counted from 0.
    Item { outer: &'a Place<'a>, number: u64 },
}

fn in_member(alloc: Global, place: &str, name: &str) -> Result<Text, AllocError>
    ensures { IfOk result (λ t. t ≡ in_member place.now name.now) }
{
    if place.is_empty() {
        return Text::from_text(alloc, name);
    }
    let text = format!(in alloc; "{place}.{name}")?;
    Ok(Text::from_string(text))
}

fn in_item(alloc: Global, place: &str, number: u64) -> Result<Text, AllocError>
    ensures { IfOk result (λ t. t ≡ in_item place.now number) }
{
    let text = format!(in alloc; "{place}[{number}]")?;
    Ok(Text::from_string(text))
}

impl<'a> Place<'a> {
    /// The text of the place, as `flowCnecs[3].thresholds[0].max`: the root's is empty.
    pub fn text(&self, alloc: Global) -> Result<Text, AllocError>
        ensures { IfOk result (λ t. t ≡ place_text self.now) }
    {
        match self {
            Place::Root => Text::from_text(alloc, ""),
            Place::Member { outer, name } => {
                let outer = outer.text(alloc)?;
                in_member(alloc, outer.as_text(), name)
            }
            Place::Item { outer, number } => {
                let outer = outer.text(alloc)?;
                in_item(alloc, outer.as_text(), *number)
            }
        }
    }
}

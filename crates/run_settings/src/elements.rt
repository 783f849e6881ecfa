//! Monitored elements by their ids.

ghost use Rattle.std.specs.Prelude.{◌≡◌, IfOk};
ghost use Rattle.run_settings.specs.Places.{ArePlaces};
ghost use Rattle.std.specs.Option.{option_copied};
ghost use Rattle.run_settings.specs.Reductions.{element_ids, element_named, is_limited};

use fb_types::{Crac, Element};
use name_tables::ValueTable;
use std::alloc::{AllocError, Global};
use std::marker::Model;

/// The elements of a CRAC, looked up by their ids. A contract sees the list of elements.
#[derive(Drop)]
pub struct ElementTable<'a> {
    elements: &'a [Element],
    places: ValueTable<u32>,
}

impl<'a> Model for ElementTable<'a> {
    ghost use Rattle.std.specs.Prelude.{List};
    ghost use Rattle.fb_types.specs.declared.crac.Element.{Element};
    ghost use Rattle.run_settings.specs.Places.{ArePlaces};
    ghost use Rattle.run_settings.specs.Reductions.{element_ids};

    ghost Value = { List Element };

    ghost view = { λ t. t.elements.now };

    ghost invariant = { λ t. ArePlaces t.places (element_ids t.elements.now) };
}

impl<'a> ElementTable<'a> {
    /// A table of the elements of the CRAC.
    pub fn new(alloc: Global, crac: &'a Crac) -> Result<ElementTable<'a>, AllocError>
        ensures { IfOk result (λ table. table ≡ crac.now.elements) }
    {
        let elements = crac.elements.as_slice();
        let places = places_of(alloc, elements)?;
        Ok(ElementTable { elements, places })
    }

    /// The place of the first element of the id, if it has a limit in the direction.
    #[tactic(auto, unfolding(crate::specs::Reductions::element_named))]
    pub fn find(&self, id: &str, opposite: bool) -> Option<u32>
        ensures { result ≡ element_named self.now id.now opposite }
    {
        let Some(place) = self.places.get(id) else {
            return None;
        };
        if is_limited(self.elements.get(place as usize), opposite) {
            Some(place)
        } else {
            None
        }
    }
}

/// Whether there is an element, and it has a limit in the direction.
fn is_limited(element: Option<&Element>, opposite: bool) -> bool
    ensures { result ≡ is_limited opposite (option_copied element.entry) }
{
    match element {
        None => false,
        Some(element) => {
            if opposite {
                element.opposite.is_some()
            } else {
                element.direct.is_some()
            }
        }
    }
}

/// The places of elements by their ids. A place past 32 bits is refused as want of memory.
fn places_of(alloc: Global, elements: &[Element]) -> Result<ValueTable<u32>, AllocError>
    ensures { IfOk result (λ places. ArePlaces places (element_ids elements.now)) }
{
    let mut places = ValueTable::new(alloc);
    for (place, element) in elements.iter().enumerate() {
        let Ok(number) = u32::try_from(place) else {
            return Err(AllocError);
        };
        let id = String::from_str(alloc, element.id.as_text())?;
        places.note(id, number)?;
    }
    Ok(places)
}

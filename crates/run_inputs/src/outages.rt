//! The contingencies that have a grid state.

ghost use Rattle.std.specs.Prelude.{◌≡◌, ◌<◌, ◌≤◌, length, filter, All, IfOk, IfSome};
ghost use Rattle.std.specs.List.{range_with_len};
ghost use Rattle.fb_certificate.specs.CracRows.{outages_of};
ghost use Rattle.run_inputs.specs.Marks.{is_marked, named_of};

use fb_types::{Crac, Element, Items};
use std::alloc::{AllocError, Global};

/// For each of so many contingencies, whether an element names it.
fn named(alloc: Global, contingencies: usize, elements: &[Element]) -> Result<Vec<bool>, AllocError>
    requires { All (λ e. IfSome e.contingency (λ k. k < contingencies)) elements.now }
    ensures { IfOk result (λ marks. marks.items ≡ named_of contingencies elements.now) }
{
    let mut marks = vec![in alloc; false; contingencies]?;
    for element in elements {
        let Some(contingency) = element.contingency else {
            continue;
        };
        marks[contingency as usize] = true;
    }
    Ok(marks)
}

/// The places that are marked, from 0.
fn marked_places(alloc: Global, marks: &[bool]) -> Result<Items<u32>, AllocError>
    requires { length marks.now ≤ 512 }
    ensures { IfOk result (λ places. places ≡ filter (is_marked marks.now) (range_with_len 0 (length marks.now))) }
{
    let mut places = Items::new(alloc);
    for place in 0..marks.len() {
        if !marks[place] {
            continue;
        }
        places.add(place as u32)?;
    }
    Ok(places)
}

/// The contingencies that an element names, by their places, in the order of the list.
pub fn outages_of(alloc: Global, crac: &Crac) -> Result<Items<u32>, AllocError>
    requires few { length crac.now.contingencies ≤ 512 }
    requires elements { All (λ e. IfSome e.contingency (λ k. k < length crac.now.contingencies)) crac.now.elements }
    ensures outages { IfOk result (λ outages. outages ≡ outages_of crac.now) }
{
    let elements = crac.elements.as_slice();
    let marks = named(alloc, crac.contingencies.as_slice().len(), elements)?;
    marked_places(alloc, &marks)
}

//! Tables of places: where in a list each number first stands.
#![tactic(auto)]

ghost use Rattle.std.specs.Prelude.{◌≡◌, IfOk};
ghost use Rattle.place_tables.specs.Places.{first_places};

use std::alloc::{AllocError, Global};

/// For each number below `count`, the place from 0 at which it first stands in the list, or None where it does not stand
/// there. Other numbers of the list have no entry.
///
/// The table takes memory for `count` entries, and one pass over the list makes it.
pub fn first_places(
    alloc: Global,
    count: u32,
    numbers: &[u32],
) -> Result<Vec<Option<usize>>, AllocError>
    ensures { IfOk result (λ places. places.items ≡ first_places count numbers.now) }
{
    let mut places = vec![in alloc; None; count as usize]?;
    for (place, number) in numbers.iter().enumerate() {
        if *number >= count || places[*number as usize].is_some() {
            continue;
        }
        places[*number as usize] = Some(place);
    }
    Ok(places)
}

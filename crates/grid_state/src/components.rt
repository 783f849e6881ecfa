//! The classes that links make of places: two places are of one class where a chain of links joins them.

ghost use Rattle.std.specs.Prelude.{◌≡◌, ◌<◌, ◌^◌, [], length, slice_index, IfOk};
ghost use Rattle.grid_state.specs.Links.{AreClasses};
ghost use Rattle.grid_state.specs.Unions.{PointsUp, Climbs, Unites, ArePlacesApart, AreTrees, AreLabels, AreLinksBelow};

use crate::links::Link;
use std::alloc::{AllocError, Global};

/// How many classes there are, and the class of each place.
#[derive(Debug, Drop)]
pub struct Numbering {
    pub count: u32,
    pub class_of: Vec<u32>,
}

/// The root of a place's tree. On the way each place is made to point up two steps at once, which keeps the trees low.
fn root_of(up: &mut [u32], place: u32) -> u32
    requires place { place < length up.old }
    requires points { PointsUp up.old }
    ensures climbs { Climbs up.old up.new place result }
    ensures root { slice_index up.new result ≡ result }
{
    let mut at = place;
    'climb: while up[at as usize] != at {
        let next = up[up[at as usize] as usize];
        up[at as usize] = next;
        at = next;
    }
    at
}

/// Makes the trees of the two ends of a link one.
fn unite(up: &mut [u32], link: &Link)
    requires one { link.now.one < length up.old }
    requires other { link.now.other < length up.old }
    requires points { PointsUp up.old }
    ensures { Unites up.old up.new link.now }
{
    let one = root_of(up, link.one);
    let other = root_of(up, link.other);
    if one < other {
        up[other as usize] = one;
    } else {
        up[one as usize] = other;
    }
}

/// Unites the ends of each link.
fn unite_all(up: &mut [u32], links: &[Link])
    requires links { AreLinksBelow (length up.old) links.now }
    requires apart { AreTrees [] up.old }
    ensures { AreTrees links.now up.new }
{
    for link in links {
        unite(up, link);
    }
}

/// So many places, each of them a tree of its own.
fn apart(alloc: Global, places: u32) -> Result<Vec<u32>, AllocError>
    ensures { IfOk result (λ up. ArePlacesApart up.items places) }
{
    let mut up = Vec::new(alloc);
    for place in 0..places {
        up.push(place)?;
    }
    Ok(up)
}

/// The trees of the classes that links make of so many places.
fn trees(alloc: Global, places: u32, links: &[Link]) -> Result<Vec<u32>, AllocError>
    requires { AreLinksBelow places links.now }
    ensures trees { IfOk result (λ up. AreTrees links.now up.items) }
    ensures each_place { IfOk result (λ up. length up.items ≡ places) }
{
    let mut up = apart(alloc, places)?;
    unite_all(&mut up, links);
    Ok(up)
}

/// Numbers the trees in the order of their roots, and labels each place with the number of its tree.
fn labelled(alloc: Global, up: &[u32]) -> Result<Numbering, AllocError>
    requires few { length up.now < 2 ^ 32 }
    requires points { PointsUp up.now }
    ensures labels { IfOk result (λ classes. AreLabels up.now classes.class_of.items classes.count) }
    ensures each_place { IfOk result (λ classes. length classes.class_of.items ≡ length up.now) }
{
    let mut class_of = Vec::new(alloc);
    let mut count = 0;
    for (place, above) in up.iter().enumerate() {
        if *above as usize == place {
            class_of.push(count)?;
            count += 1;
        } else {
            let class = class_of[*above as usize];
            class_of.push(class)?;
        }
    }
    Ok(Numbering { count, class_of })
}

/// The classes that links make of so many places.
pub fn number_classes(alloc: Global, places: u32, links: &[Link]) -> Result<Numbering, AllocError>
    requires { AreLinksBelow places links.now }
    ensures { IfOk result (λ classes. AreClasses places links.now classes.count classes.class_of.items) }
{
    let up = trees(alloc, places, links)?;
    labelled(alloc, &up)
}

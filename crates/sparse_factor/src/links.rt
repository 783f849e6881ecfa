//! The links of classes to others while classes are eliminated.

use crate::shares::{Inverse, weight_of};
use grid_state::Edge;
use std::alloc::{AllocError, Global};

/// A class that another is joined to, and the weight of what joins them: a susceptance in fixed point.
#[derive(Clone, Copy, Debug)]
pub struct Link {
    pub to: u32,
    pub weight: u64,
}

/// A class that an eliminated class hands its balance to, and the share that it gets, in 2^-64.
#[derive(Clone, Copy, Debug)]
pub struct Share {
    pub to: u32,
    pub part: u64,
}

/// Where the row that was tidied last holds each class, for those that are not eliminated.
#[derive(Debug, Drop)]
pub struct Places {
    places: Vec<u32>,
}

/// The place of a class that is eliminated.
const GONE: u32 = u32::MAX;

impl Places {
    /// The places of so many classes, none of them eliminated.
    pub fn new(alloc: Global, classes: usize) -> Result<Places, AllocError> {
        Ok(Places {
            places: vec![in alloc; 0; classes]?,
        })
    }

    /// Notes that a class is eliminated.
    pub fn leave(&mut self, class: u32) {
        self.put(class, GONE as usize);
    }

    /// Where the row that was tidied last holds a class, if it does.
    fn place_of(&self, class: u32) -> u32 {
        match self.places.get(class as usize) {
            Some(place) => *place,
            None => GONE,
        }
    }

    /// Notes where the row that is tidied holds a class.
    fn put(&mut self, class: u32, place: usize) {
        if (class as usize) < self.places.len() {
            self.places[class as usize] = u32::try_from(place).unwrap_or(GONE);
        }
    }
}

/// Keeps a link in the first `kept` of a row, where each class stands once, and says how many they are now.
fn keep(row: &mut [Link], places: &mut Places, kept: usize, link: Link) -> usize {
    let place = places.place_of(link.to);
    if place == GONE || kept >= row.len() {
        return kept;
    }
    let place = place as usize;
    if place < kept && row[place].to == link.to {
        row[place].weight = row[place].weight.saturating_add(link.weight);
        kept
    } else {
        places.put(link.to, kept);
        row[kept] = link;
        kept + 1
    }
}

/// Drops the links of a row to classes that are eliminated, and makes of all links to one class a single one.
pub fn tidy(row: &mut Vec<Link>, places: &mut Places) {
    let mut kept = 0;
    for at in 0..row.len() {
        let link = row[at];
        kept = keep(row, places, kept, link);
    }
    row.truncate(kept);
}

/// Joins a class to the row that was tidied last: where it stands there, its weight rises.
fn join(row: &mut Vec<Link>, places: &mut Places, link: Link) -> Result<(), AllocError> {
    let place = places.place_of(link.to) as usize;
    if place < row.len() && row[place].to == link.to {
        row[place].weight = row[place].weight.saturating_add(link.weight);
    } else {
        places.put(link.to, row.len());
        row.push(link)?;
    }
    Ok(())
}

/// The links of the branches of a class.
pub fn links_of(alloc: Global, row: &[Edge], places: u32) -> Result<Vec<Link>, AllocError> {
    let mut links = Vec::new(alloc);
    for edge in row {
        links.push(Link {
            to: edge.to,
            weight: edge.b.wrapping_shl(places),
        })?;
    }
    Ok(links)
}

/// What a class that gets a share is joined by to another one that had this weight to the class that gives it.
fn link_of(share: &Share, weight: u64) -> Link {
    Link {
        to: share.to,
        weight: weight_of(share.part, weight),
    }
}

/// Joins the classes that get a share to the row of a class among them, the one that was tidied last. It had this weight to the
/// class that gives it.
pub fn join_shares(
    row: &mut Vec<Link>,
    places: &mut Places,
    shares: &[Share],
    here: u32,
    weight: u64,
) -> Result<(), AllocError> {
    for share in shares {
        if share.to != here {
            join(row, places, link_of(share, weight))?;
        }
    }
    Ok(())
}

/// The same for any row: a class that stands there already stands there twice then.
pub fn push_shares(
    row: &mut Vec<Link>,
    shares: &[Share],
    here: u32,
    weight: u64,
) -> Result<(), AllocError> {
    for share in shares {
        if share.to != here {
            row.push(link_of(share, weight))?;
        }
    }
    Ok(())
}

/// The weight of all links.
pub fn weight_over(links: &[Link]) -> u64 {
    let mut sum: u64 = 0;
    for link in links {
        sum = sum.saturating_add(link.weight);
    }
    sum
}

/// Adds the share of each link in their weight to a list.
pub fn add_shares(
    shares: &mut Vec<Share>,
    links: &[Link],
    whole: &Inverse,
) -> Result<(), AllocError> {
    for link in links {
        shares.push(Share {
            to: link.to,
            part: whole.share_of(link.weight),
        })?;
    }
    Ok(())
}

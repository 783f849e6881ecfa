//! Nodes that a document names, and those of a zone.

ghost use Rattle.std.specs.Prelude.{◌≡◌, pos, ◌≤ℤ◌, ◌++◌, [], ◌∷◌, IfOk, length, All, ⊤};
ghost use Rattle.json_reading.specs.Outcome.{Gives, same};
ghost use Rattle.json_reading.specs.Here.{at_of};
ghost use Rattle.glsk_keys.specs.Document.{node_here, node_in, listed_node_of, factor_of, weight_of};
ghost use Rattle.glsk_keys.specs.Facts.{facts_of};
ghost use Rattle.glsk_keys.specs.Sizes.{IsFactor};
ghost use Rattle.glsk_keys.specs.Zones.{is_zone, is_member, members_of, listed_of};

use crate::known::Known;
use crate::model::KeyKind;
use fb_types::Weight;
use json_reading::{Here, ItemReader, ReadError};
use std::alloc::{AllocError, Global};

fn is_zone(zone: u32, home: Option<u32>) -> bool
    ensures { result ≡ is_zone zone home }
{
    match home {
        None => false,
        Some(home) => home == zone,
    }
}

/// Whether the node is of the zone.
fn is_member(zone: u32, homes: &[Option<u32>], node: u32) -> bool
    ensures { result ≡ is_member zone homes.now node }
{
    match homes.get(node as usize) {
        None => false,
        Some(home) => is_zone(zone, *home),
    }
}

/// For each node, whether it is of the zone.
pub fn members(alloc: Global, zone: u32, homes: &[Option<u32>]) -> Result<Vec<bool>, AllocError>
    ensures members { IfOk result (λ v. v.items ≡ members_of zone homes.now) }
    ensures each { IfOk result (λ v. length v.items ≡ length homes.now) }
{
    let mut members = Vec::new(alloc);
    for home in homes {
        members.push(is_zone(zone, *home))?;
    }
    Ok(members)
}

/// For each of so many nodes, whether it is listed.
pub fn listed_marks(alloc: Global, count: usize, places: &[u32]) -> Result<Vec<bool>, AllocError>
    ensures marks { IfOk result (λ v. v.items ≡ listed_of count places.now) }
    ensures each { IfOk result (λ v. length v.items ≡ count) }
{
    let mut listed = vec![in alloc; false; count]?;
    for place in places {
        let place = *place as usize;
        if place >= listed.len() {
            continue;
        }
        listed[place] = true;
    }
    Ok(listed)
}

/// The node that the text at the spot names, which must be of the zone.
#[tactic(auto, using(json_reading::proofs::Refused::refused), unfolding(crate::specs::Document::node_here))]
fn node_here(
    alloc: Global,
    known: &Known<'_>,
    zone: u32,
    at: &Here<'_, KeyKind>,
) -> Result<u32, ReadError<KeyKind>>
    ensures { Gives same result (node_here (facts_of known.now) zone (at_of at.now)) }
{
    let name = at.text(alloc)?;
    let found = known.table.find(alloc, name)?;
    let node = at.found_or_here(alloc, KeyKind::UnknownNode, found)?;
    if !is_member(zone, known.homes, node) {
        return Err(at.fault(alloc, KeyKind::WrongZone));
    }
    Ok(node)
}

/// The same of a member.
#[tactic(auto, using(json_reading::proofs::Refused::refused), unfolding(crate::specs::Document::node_in))]
fn node_in(
    alloc: Global,
    known: &Known<'_>,
    zone: u32,
    name: &str,
    at: &Here<'_, KeyKind>,
) -> Result<u32, ReadError<KeyKind>>
    ensures { Gives same result (node_in (facts_of known.now) zone name.now (at_of at.now)) }
{
    match at.inner(alloc, name)? {
        None => Err(at.fault_in(alloc, name, at.missing)),
        Some(inner) => node_here(alloc, known, zone, &inner),
    }
}

/// Reads the nodes of a list of codes.
#[derive(Drop)]
pub struct NodeReader<'a> {
    pub known: &'a Known<'a>,
    pub zone: u32,
}

impl<'a> ItemReader for NodeReader<'a> {
    type Item = u32;

    type Kind = KeyKind;

    type Index = ();

    ghost reads = { λ r. listed_node_of (facts_of r.known.now) r.zone };

    ghost keeps = { λ _ _. ⊤ };

    #[tactic(auto, unfolding(crate::specs::Document::listed_node_of))]
    fn read(
        &self,
        alloc: Global,
        index: &mut (),
        before: &[u32],
        at: &Here<'_, KeyKind>,
    ) -> Result<Option<u32>, ReadError<KeyKind>> {
        let node = node_here(alloc, self.known, self.zone, at)?;
        Ok(Some(node))
    }
}

/// A factor, in millionths.
#[tactic(auto, using(json_reading::proofs::Refused::refused), unfolding(crate::specs::Document::factor_of))]
fn factor_of(alloc: Global, at: &Here<'_, KeyKind>) -> Result<i64, ReadError<KeyKind>>
    ensures factor { Gives same result (factor_of (at_of at.now)) }
    ensures low { IfOk result (λ f. pos 0 ≤ℤ f) }
    ensures high { IfOk result (λ f. f ≤ℤ pos 1000000000000) }
{
    let factor = at.required_decimal(alloc, "factor")?.millionths;
    if factor < 0 {
        return Err(at.fault_in(alloc, "factor", KeyKind::NegativeFactor));
    }
    if factor > 1_000_000_000_000 {
        return Err(at.fault_in(alloc, "factor", KeyKind::OutOfRange));
    }
    Ok(factor as i64)
}

/// Reads the nodes with factors of a manual key.
#[derive(Drop)]
pub struct WeightReader<'a> {
    pub known: &'a Known<'a>,
    pub zone: u32,
}

impl<'a> ItemReader for WeightReader<'a> {
    type Item = Weight;

    type Kind = KeyKind;

    type Index = ();

    ghost reads = { λ r. weight_of (facts_of r.known.now) r.zone };

    ghost keeps = { λ _ read. All IsFactor read };

    #[tactic(auto, unfolding(crate::specs::Document::weight_of))]
    fn read(
        &self,
        alloc: Global,
        index: &mut (),
        before: &[Weight],
        at: &Here<'_, KeyKind>,
    ) -> Result<Option<Weight>, ReadError<KeyKind>> {
        let node = node_in(alloc, self.known, self.zone, "node", at)?;
        let weight = factor_of(alloc, at)?;
        Ok(Some(Weight { node, weight }))
    }
}

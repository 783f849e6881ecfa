//! Arrays, item by item.

ghost use Rattle.std.specs.Prelude.{◌≡◌, ◌<◌, ◌≤◌, ◌+◌, List, [], ◌∷◌, ◌++◌, Option, Result, length, drop, OnOk, IfOk, IfSome};
ghost use Rattle.std.specs.Option.{option_to_list, option_map};
ghost use Rattle.fb_json.specs.Spots.{spot_tree};
ghost use Rattle.json_reading.specs.Reading.{At, Fault, entries_of, each, spots_from, array, optional_array, required_array};
ghost use Rattle.json_reading.specs.Outcome.{Gives, same};
ghost use Rattle.json_reading.specs.Here.{at_of};

use crate::fault::ReadError;
use crate::here::Here;
use fb_json::{Got, Spot};
use std::alloc::{AllocError, Global};

/// What reads an item of an array, knowing the items that were read before. None passes the item over.
pub trait ItemReader {
    type Item;

    type Kind: Copy;

    /// What is kept of the items read before, so that they need not be searched.
    type Index;

    ghost reads: { Self → List Self.Item → At Self.Kind → Result (Option Self.Item) (Fault Self.Kind) };

    /// The index keeps these items.
    ghost keeps: { Self.Index → List Self.Item → Type 0 };

    fn read(
        &self,
        alloc: Global,
        index: &mut Self::Index,
        before: &[Self::Item],
        at: &Here<'_, Self::Kind>,
    ) -> Result<Option<Self::Item>, ReadError<Self::Kind>>
        requires { keeps index.old before.now }
        ensures item { Gives same result (reads self.now before.now (at_of at.now)) }
        ensures index { IfOk result (λ item. keeps index.new (before.now ++ option_to_list item)) };
}

fn item_at<'a>(spot: &Spot<'a>, number: u64) -> Spot<'a>
    requires { number < length (entries_of (spot_tree spot.now)) }
    ensures { drop number (entries_of (spot_tree spot.now)) ≡ spot_tree result ∷ drop (number + 1) (entries_of (spot_tree spot.now)) }
{
    match spot.item(number) {
        Got::Value(item) => item,
        Got::Absent => unreachable!(),
        Got::Wrong => unreachable!(),
    }
}

fn keep<T: Drop>(items: &mut Vec<T>, item: Option<T>) -> Result<(), AllocError>
    ensures { OnOk result (items.new.items ≡ items.old.items ++ option_to_list item) }
{
    if let Some(item) = item {
        items.push(item)?;
    }
    Ok(())
}

fn items_of<R: ItemReader>(
    alloc: Global,
    reader: &R,
    index: &mut R::Index,
    at: &Here<'_, R::Kind>,
    count: u64,
) -> Result<Vec<R::Item>, ReadError<R::Kind>>
where
    R::Item: Drop,
    requires count { count ≡ length (entries_of (spot_tree at.now.spot)) }
    requires index { R.keeps index.old [] }
    ensures items { Gives (λ v. v.items) result (each (R.reads reader.now) [] (spots_from 0 (at_of at.now) (entries_of (spot_tree at.now.spot)))) }
    ensures index { IfOk result (λ v. R.keeps index.new v.items) }
    ensures few { IfOk result (λ v. length v.items ≤ count) }
{
    let mut items = Vec::new(alloc);
    for number in 0..count {
        let spot = item_at(&at.spot, number);
        let here = at.item(number, spot);
        let item = reader.read(alloc, index, &items, &here)?;
        keep(&mut items, item)?;
    }
    Ok(items)
}

/// The items of the array at the spot.
#[tactic(auto, using(crate::proofs::Refused::refused), unfolding(crate::specs::Reading::array))]
pub fn array<R: ItemReader>(
    alloc: Global,
    reader: &R,
    index: &mut R::Index,
    at: &Here<'_, R::Kind>,
) -> Result<Vec<R::Item>, ReadError<R::Kind>>
where
    R::Item: Drop,
    requires { R.keeps index.old [] }
    ensures items { Gives (λ v. v.items) result (array (R.reads reader.now) (at_of at.now)) }
    ensures index { IfOk result (λ v. R.keeps index.new v.items) }
    ensures few { IfOk result (λ v. length v.items ≤ length (entries_of (spot_tree at.now.spot))) }
{
    match at.spot.length() {
        Got::Value(count) => items_of(alloc, reader, index, at, count),
        _ => Err(at.fault(alloc, at.wrong)),
    }
}

/// The items of a member that is an array, if it is there.
#[tactic(auto, using(crate::proofs::Refused::refused), unfolding(crate::specs::Reading::optional_array))]
pub fn optional_array<R: ItemReader>(
    alloc: Global,
    reader: &R,
    index: &mut R::Index,
    at: &Here<'_, R::Kind>,
    name: &str,
) -> Result<Option<Vec<R::Item>>, ReadError<R::Kind>>
where
    R::Item: Drop,
    requires { R.keeps index.old [] }
    ensures items { Gives (option_map (λ v. v.items)) result (optional_array (R.reads reader.now) name.now (at_of at.now)) }
    ensures index { IfOk result (λ found. IfSome found (λ v. R.keeps index.new v.items)) }
{
    match at.inner(alloc, name)? {
        None => Ok(None),
        Some(inner) => {
            let items = array(alloc, reader, index, &inner)?;
            Ok(Some(items))
        }
    }
}

/// The items of a member that is an array, which must be there.
#[tactic(auto, using(crate::proofs::Refused::refused), unfolding(crate::specs::Reading::required_array))]
pub fn required_array<R: ItemReader>(
    alloc: Global,
    reader: &R,
    index: &mut R::Index,
    at: &Here<'_, R::Kind>,
    name: &str,
) -> Result<Vec<R::Item>, ReadError<R::Kind>>
where
    R::Item: Drop,
    requires { R.keeps index.old [] }
    ensures items { Gives (λ v. v.items) result (required_array (R.reads reader.now) name.now (at_of at.now)) }
    ensures index { IfOk result (λ v. R.keeps index.new v.items) }
{
    match optional_array(alloc, reader, index, at, name)? {
        None => Err(at.fault_in(alloc, name, at.missing)),
        Some(items) => Ok(items),
    }
}

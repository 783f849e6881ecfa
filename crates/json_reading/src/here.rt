//! Members of a form, or the fault.

ghost use Rattle.std.specs.Prelude.{◌≡◌};
ghost use Rattle.std.specs.Option.{option_map};
ghost use Rattle.fb_json.specs.Tree.{text_of, decimal_of, truth_of, length_of};
ghost use Rattle.fb_json.specs.Spots.{spot_tree};
ghost use Rattle.json_reading.specs.Place.{in_member, in_item};
ghost use Rattle.json_reading.specs.Reading.{member, optional, required, spot, here, is_true, has, absent, found_or, fault_in, fault_here};
ghost use Rattle.json_reading.specs.Outcome.{Gives, Refuses, same};
ghost use Rattle.json_reading.specs.Here.{at_of, place_text};

use crate::fault::ReadError;
use crate::place::Place;
use fb_decimal::Decimal;
use fb_json::{Got, Spot};
use std::alloc::Global;

/// A spot of a document with its place, and how the document's faults of form are called.
#[derive(Clone, Copy)]
pub struct Here<'a, K> {
    pub spot: Spot<'a>,
    pub place: Place<'a>,
    pub missing: K,
    pub wrong: K,
}

/// A fault at a place.
fn fault_at<K: Copy>(alloc: Global, place: &Place<'_>, kind: K) -> ReadError<K>
    ensures { Refuses result (place_text place.now) kind }
{
    match place.text(alloc) {
        Ok(place) => ReadError::Fault { place, kind },
        Err(e) => ReadError::Memory(e),
    }
}

impl<'a, K: Copy> Here<'a, K> {
    /// A fault at the spot.
    pub fn fault(&self, alloc: Global, kind: K) -> ReadError<K>
        ensures { Refuses result (place_text self.now.place) kind }
    {
        fault_at(alloc, &self.place, kind)
    }

    /// A fault at a member.
    pub fn fault_in(&self, alloc: Global, name: &str, kind: K) -> ReadError<K>
        ensures { Refuses result (in_member (place_text self.now.place) name.now) kind }
    {
        let outer = &self.place;
        fault_at(alloc, &Place::Member { outer, name }, kind)
    }

    #[tactic(auto, using(crate::proofs::Refused::refused), unfolding(crate::specs::Reading::member))]
    pub fn member(&self, alloc: Global, name: &str) -> Result<Option<Spot<'a>>, ReadError<K>>
        ensures { Gives (option_map spot_tree) result (member name.now (at_of self.now)) }
    {
        match self.spot.member(name) {
            Got::Absent => Ok(None),
            Got::Wrong => Err(self.fault(alloc, self.wrong)),
            Got::Value(spot) => Ok(Some(spot)),
        }
    }

    #[tactic(auto, using(crate::proofs::Refused::refused), unfolding(crate::specs::Reading::optional))]
    pub fn optional_text(&self, alloc: Global, name: &str) -> Result<Option<&'a str>, ReadError<K>>
        ensures { Gives (option_map (λ t. t.now)) result (optional text_of name.now (at_of self.now)) }
    {
        match self.member(alloc, name)? {
            None => Ok(None),
            Some(spot) => match spot.text() {
                Got::Value(text) => Ok(Some(text)),
                _ => Err(self.fault_in(alloc, name, self.wrong)),
            },
        }
    }

    #[tactic(auto, using(crate::proofs::Refused::refused), unfolding(crate::specs::Reading::required))]
    pub fn required_text(&self, alloc: Global, name: &str) -> Result<&'a str, ReadError<K>>
        ensures { Gives (λ t. t.now) result (required text_of name.now (at_of self.now)) }
    {
        match self.optional_text(alloc, name)? {
            None => Err(self.fault_in(alloc, name, self.missing)),
            Some(text) => Ok(text),
        }
    }

    #[tactic(auto, using(crate::proofs::Refused::refused), unfolding(crate::specs::Reading::optional))]
    pub fn optional_decimal(
        &self,
        alloc: Global,
        name: &str,
    ) -> Result<Option<Decimal>, ReadError<K>>
        ensures { Gives same result (optional decimal_of name.now (at_of self.now)) }
    {
        match self.member(alloc, name)? {
            None => Ok(None),
            Some(spot) => match spot.decimal() {
                Got::Value(number) => Ok(Some(number)),
                _ => Err(self.fault_in(alloc, name, self.wrong)),
            },
        }
    }

    #[tactic(auto, using(crate::proofs::Refused::refused), unfolding(crate::specs::Reading::optional))]
    pub fn optional_length(&self, alloc: Global, name: &str) -> Result<Option<u64>, ReadError<K>>
        ensures { Gives same result (optional length_of name.now (at_of self.now)) }
    {
        match self.member(alloc, name)? {
            None => Ok(None),
            Some(spot) => match spot.length() {
                Got::Value(length) => Ok(Some(length)),
                _ => Err(self.fault_in(alloc, name, self.wrong)),
            },
        }
    }

    /// The text that the spot itself is.
    #[tactic(auto, using(crate::proofs::Refused::refused), unfolding(crate::specs::Reading::here))]
    pub fn text(&self, alloc: Global) -> Result<&'a str, ReadError<K>>
        ensures { Gives (λ t. t.now) result (here text_of (at_of self.now)) }
    {
        match self.spot.text() {
            Got::Value(text) => Ok(text),
            _ => Err(self.fault(alloc, self.wrong)),
        }
    }

    /// Whether a member is there and true.
    #[tactic(auto, using(crate::proofs::Refused::refused), unfolding(crate::specs::Reading::is_true))]
    pub fn is_true(&self, alloc: Global, name: &str) -> Result<bool, ReadError<K>>
        ensures { Gives same result (is_true name.now (at_of self.now)) }
    {
        match self.member(alloc, name)? {
            None => Ok(false),
            Some(spot) => match spot.truth() {
                Got::Value(truth) => Ok(truth),
                _ => Ok(false),
            },
        }
    }

    /// Whether a member is there.
    #[tactic(auto, unfolding(crate::specs::Reading::has))]
    pub fn has(&self, alloc: Global, name: &str) -> Result<bool, ReadError<K>>
        ensures { Gives same result (has name.now (at_of self.now)) }
    {
        Ok(self.member(alloc, name)?.is_some())
    }

    /// Refuses a member that must not be there.
    #[tactic(auto, using(crate::proofs::Refused::refused), unfolding(crate::specs::Reading::absent))]
    pub fn absent(&self, alloc: Global, name: &str) -> Result<(), ReadError<K>>
        ensures { Gives same result (absent name.now (at_of self.now)) }
    {
        match self.member(alloc, name)? {
            None => Ok(()),
            Some(_) => Err(self.fault_in(alloc, name, self.wrong)),
        }
    }

    /// What was looked up, or a fault of this kind at a member.
    #[tactic(auto, using(crate::proofs::Refused::refused))]
    pub fn found_or<T>(
        &self,
        alloc: Global,
        name: &str,
        kind: K,
        found: Option<T>,
    ) -> Result<T, ReadError<K>>
        ensures { Gives same result (found_or found (fault_in name.now kind (at_of self.now))) }
    {
        match found {
            Some(value) => Ok(value),
            None => Err(self.fault_in(alloc, name, kind)),
        }
    }

    /// What was looked up, or a fault of this kind at the spot.
    #[tactic(auto, using(crate::proofs::Refused::refused))]
    pub fn found_or_here<T>(
        &self,
        alloc: Global,
        kind: K,
        found: Option<T>,
    ) -> Result<T, ReadError<K>>
        ensures { Gives same result (found_or found (fault_here kind (at_of self.now))) }
    {
        match found {
            Some(value) => Ok(value),
            None => Err(self.fault(alloc, kind)),
        }
    }

    #[tactic(auto, using(crate::proofs::Refused::refused), unfolding(crate::specs::Reading::required))]
    pub fn required_decimal(&self, alloc: Global, name: &str) -> Result<Decimal, ReadError<K>>
        ensures { Gives same result (required decimal_of name.now (at_of self.now)) }
    {
        match self.optional_decimal(alloc, name)? {
            None => Err(self.fault_in(alloc, name, self.missing)),
            Some(number) => Ok(number),
        }
    }

    #[tactic(auto, using(crate::proofs::Refused::refused), unfolding(crate::specs::Reading::required))]
    pub fn required_length(&self, alloc: Global, name: &str) -> Result<u64, ReadError<K>>
        ensures { Gives same result (required length_of name.now (at_of self.now)) }
    {
        match self.optional_length(alloc, name)? {
            None => Err(self.fault_in(alloc, name, self.missing)),
            Some(length) => Ok(length),
        }
    }

    #[tactic(auto, using(crate::proofs::Refused::refused), unfolding(crate::specs::Reading::optional))]
    pub fn optional_truth(&self, alloc: Global, name: &str) -> Result<Option<bool>, ReadError<K>>
        ensures { Gives same result (optional truth_of name.now (at_of self.now)) }
    {
        match self.member(alloc, name)? {
            None => Ok(None),
            Some(spot) => match spot.truth() {
                Got::Value(truth) => Ok(Some(truth)),
                _ => Err(self.fault_in(alloc, name, self.wrong)),
            },
        }
    }

    /// The spot of a member, if it is there.
    #[tactic(auto, unfolding(crate::specs::Reading::spot))]
    pub fn inner<'b>(
        &'b self,
        alloc: Global,
        name: &'b str,
    ) -> Result<Option<Here<'b, K>>, ReadError<K>>
        ensures { Gives (option_map at_of) result (spot name.now (at_of self.now)) }
    {
        match self.member(alloc, name)? {
            None => Ok(None),
            Some(spot) => {
                let outer = &self.place;
                Ok(Some(self.at(spot, Place::Member { outer, name })))
            }
        }
    }

    /// The spot of an item of the array, by its number.
    pub fn item<'b>(&'b self, number: u64, spot: Spot<'b>) -> Here<'b, K>
        ensures { at_of result ≡ record (at_of self.now) { place = in_item (place_text self.now.place) number; tree = spot_tree spot.entry } }
    {
        let outer = &self.place;
        self.at(spot, Place::Item { outer, number })
    }

    /// Another spot of the same document, at this place.
    fn at<'b>(&self, spot: Spot<'b>, place: Place<'b>) -> Here<'b, K>
        ensures { at_of result ≡ record (at_of self.now) { place = place_text place.entry; tree = spot_tree spot.entry } }
    {
        Here {
            spot,
            place,
            missing: self.missing,
            wrong: self.wrong,
        }
    }

    /// The number that the spot itself is.
    #[tactic(auto, using(crate::proofs::Refused::refused), unfolding(crate::specs::Reading::here))]
    pub fn decimal(&self, alloc: Global) -> Result<Decimal, ReadError<K>>
        ensures { Gives same result (here decimal_of (at_of self.now)) }
    {
        match self.spot.decimal() {
            Got::Value(number) => Ok(number),
            _ => Err(self.fault(alloc, self.wrong)),
        }
    }

    /// The length of the array that the spot itself is.
    #[tactic(auto, using(crate::proofs::Refused::refused), unfolding(crate::specs::Reading::here))]
    pub fn length(&self, alloc: Global) -> Result<u64, ReadError<K>>
        ensures { Gives same result (here length_of (at_of self.now)) }
    {
        match self.spot.length() {
            Got::Value(length) => Ok(length),
            _ => Err(self.fault(alloc, self.wrong)),
        }
    }
}

//! The thresholds of an element: limits of its flow in the two directions.

ghost use Rattle.std.specs.Prelude.{◌≡◌, pos, neg_ℤ, ◌≤ℤ◌, ◌≤◌, ◌^◌, ◌*ℤ◌, nat_abs, int_div, codes, IfSome, IfOk, ⊤};
ghost use Rattle.std.specs.Option.{option_map};
ghost use Rattle.fb_json.specs.Spots.{spot_tree};
ghost use Rattle.json_reading.specs.Reading.{optional};
ghost use Rattle.json_reading.specs.Outcome.{Gives, same};
ghost use Rattle.json_reading.specs.Here.{at_of};
ghost use Rattle.crac_model.specs.Words.{word_is, unit_of};
ghost use Rattle.crac_model.specs.Thresholds.{side_by_number, side_by_word, side_of, side_in, bound_in, watts_of, threshold_limit, threshold_of, smaller, tightest, limits_of};

use crate::fault::CracKind;
use crate::power::{MOST_WATTS, carried_watts};
use crate::ratings::{Ratings, Side, current_at, volts_at};
use fb_decimal::Decimal;
use fb_json::{Got, Spot};
use json_reading::{Here, ItemReader, ReadError, required_array};
use std::alloc::Global;

/// What a threshold's limits are given in.
#[derive(Clone, Copy, Debug, PartialEq, Eq)]
pub enum LimitUnit {
    Megawatt,
    Ampere,
    /// Shares of the current limit.
    PercentImax,
}

/// Limits in watts, one for each direction that has one.
#[derive(Clone, Copy, Debug)]
pub struct Limits {
    pub direct: Option<i64>,
    pub opposite: Option<i64>,
}

/// Whether the word is this one.
pub fn is_word(word: &str, wanted: &str) -> Option<()>
    ensures { result ≡ word_is wanted.now word.now }
{
    if word == wanted { Some(()) } else { None }
}

fn unit_of(word: &str) -> Option<LimitUnit>
    ensures { result ≡ unit_of word.now }
{
    match word {
        "megawatt" => Some(LimitUnit::Megawatt),
        "ampere" => Some(LimitUnit::Ampere),
        "percent_imax" => Some(LimitUnit::PercentImax),
        _ => None,
    }
}

fn side_by_number(number: Decimal) -> Got<Side>
    ensures { result ≡ side_by_number number }
{
    if 1_000_000 <= number.millionths && number.millionths <= 1_000_000 {
        Got::Value(Side::First)
    } else if 2_000_000 <= number.millionths && number.millionths <= 2_000_000 {
        Got::Value(Side::Last)
    } else {
        Got::Wrong
    }
}

fn side_by_word(word: &str) -> Got<Side>
    ensures { result ≡ side_by_word word.now }
{
    match word {
        "left" => Got::Value(Side::First),
        "right" => Got::Value(Side::Last),
        _ => Got::Wrong,
    }
}

/// The side at a spot: a number, or a text.
#[tactic(auto, unfolding(crate::specs::Thresholds::side_of))]
fn side_of(spot: &Spot<'_>) -> Got<Side>
    ensures { result ≡ side_of (spot_tree spot.now) }
{
    match spot.decimal() {
        Got::Value(number) => side_by_number(number),
        _ => match spot.text() {
            Got::Value(word) => side_by_word(word),
            _ => Got::Wrong,
        },
    }
}

#[tactic(auto, using(json_reading::proofs::Refused::refused), unfolding(json_reading::specs::Reading::optional))]
fn optional_side(
    alloc: Global,
    at: &Here<'_, CracKind>,
) -> Result<Option<Side>, ReadError<CracKind>>
    ensures { Gives same result (optional side_of (codes "side") (at_of at.now)) }
{
    match at.member(alloc, "side")? {
        None => Ok(None),
        Some(spot) => match side_of(&spot) {
            Got::Value(side) => Ok(Some(side)),
            Got::Wrong => Err(at.fault_in(alloc, "side", at.wrong)),
            Got::Absent => Err(at.fault_in(alloc, "side", at.wrong)),
        },
    }
}

#[tactic(auto, unfolding(crate::specs::Thresholds::side_in))]
fn side_in(alloc: Global, at: &Here<'_, CracKind>) -> Result<Side, ReadError<CracKind>>
    ensures { Gives same result (side_in (at_of at.now)) }
{
    match optional_side(alloc, at)? {
        None => Ok(Side::First),
        Some(side) => Ok(side),
    }
}

/// An end of a threshold, in millionths, within 10^9.
#[tactic(auto, using(json_reading::proofs::Refused::refused), unfolding(crate::specs::Thresholds::bound_in))]
fn bound_in(
    alloc: Global,
    name: &str,
    at: &Here<'_, CracKind>,
) -> Result<Option<i64>, ReadError<CracKind>>
    ensures exact { Gives same result (bound_in name.now (at_of at.now)) }
    ensures small { IfOk result (λ o. IfSome o (λ v. nat_abs v ≤ 10 ^ 15)) }
{
    match at.optional_decimal(alloc, name)? {
        None => Ok(None),
        Some(Decimal { millionths }) => {
            if millionths < -1_000_000_000_000_000 || millionths > 1_000_000_000_000_000 {
                return Err(at.fault_in(alloc, name, CracKind::OutOfRange));
            }
            Ok(Some(millionths as i64))
        }
    }
}

fn negative_of(value: Option<i64>) -> Option<i64>
    requires { IfSome value (λ v. nat_abs v ≤ 10 ^ 15) }
    ensures value { result ≡ option_map neg_ℤ value }
    ensures small { IfSome result (λ v. nat_abs v ≤ 10 ^ 15) }
{
    match value {
        None => None,
        Some(value) => Some(-value),
    }
}

/// A share of a current, in mA: both in millionths.
fn share_of(current: i128, share: i64) -> i128
    requires current { nat_abs current ≤ 10 ^ 22 }
    requires share { nat_abs share ≤ 10 ^ 15 }
    ensures { result ≡ int_div (current *ℤ share) (pos (10 ^ 9)) }
{
    current * i128::from(share) / 1_000_000_000
}

/// The watts of a limit whose value is in millionths of the unit.
#[tactic(auto, unfolding(crate::specs::Thresholds::watts_of))]
fn watts_of(
    alloc: Global,
    ratings: &Ratings,
    unit: LimitUnit,
    side: Side,
    value: i64,
    at: &Here<'_, CracKind>,
) -> Result<i64, ReadError<CracKind>>
    requires { nat_abs value ≤ 10 ^ 15 }
    ensures { Gives same result (watts_of ratings.now unit side value (at_of at.now)) }
{
    match unit {
        LimitUnit::Megawatt => Ok(value),
        LimitUnit::Ampere => {
            let current = value / 1000;
            Ok(carried_watts(i128::from(current), volts_at(ratings, side)) as i64)
        }
        LimitUnit::PercentImax => {
            let current = at.found_or_here(alloc, CracKind::NoCurrent, current_at(ratings, side))?;
            Ok(carried_watts(share_of(current, value), volts_at(ratings, side)) as i64)
        }
    }
}

#[tactic(auto, using(json_reading::proofs::Refused::refused), unfolding(crate::specs::Thresholds::threshold_limit))]
fn threshold_limit(
    alloc: Global,
    ratings: &Ratings,
    unit: LimitUnit,
    side: Side,
    value: Option<i64>,
    at: &Here<'_, CracKind>,
) -> Result<Option<i64>, ReadError<CracKind>>
    requires { IfSome value (λ v. nat_abs v ≤ 10 ^ 15) }
    ensures { Gives same result (threshold_limit ratings.now unit side value (at_of at.now)) }
{
    match value {
        None => Ok(None),
        Some(value) => {
            let watts = watts_of(alloc, ratings, unit, side, value, at)?;
            if watts < 1 {
                return Err(at.fault(alloc, CracKind::LimitNotPositive));
            }
            Ok(Some(watts.min(MOST_WATTS as i64)))
        }
    }
}

#[derive(Drop)]
struct ThresholdReader<'a> {
    ratings: &'a Ratings,
}

impl<'a> ItemReader for ThresholdReader<'a> {
    type Item = Limits;

    type Kind = CracKind;

    type Index = ();

    ghost reads = { λ r. threshold_of r.ratings.now };

    ghost keeps = { λ _ _. ⊤ };

    #[tactic(auto, unfolding(crate::specs::Thresholds::threshold_of))]
    fn read(
        &self,
        alloc: Global,
        _index: &mut (),
        _before: &[Limits],
        at: &Here<'_, CracKind>,
    ) -> Result<Option<Limits>, ReadError<CracKind>> {
        let word = at.required_text(alloc, "unit")?;
        let unit = at.found_or(alloc, "unit", CracKind::WrongType, unit_of(word))?;
        let side = side_in(alloc, at)?;
        let low = bound_in(alloc, "min", at)?;
        let high = bound_in(alloc, "max", at)?;
        let direct = threshold_limit(alloc, self.ratings, unit, side, high, at)?;
        let opposite = threshold_limit(alloc, self.ratings, unit, side, negative_of(low), at)?;
        Ok(Some(Limits { direct, opposite }))
    }
}

fn smaller(a: Option<i64>, b: Option<i64>) -> Option<i64>
    ensures { result ≡ smaller a b }
{
    match (a, b) {
        (None, b) => b,
        (Some(a), None) => Some(a),
        (Some(a), Some(b)) => Some(a.min(b)),
    }
}

/// The smallest limit of each direction.
#[tactic(auto, unfolding(crate::specs::Thresholds::tightest))]
fn tightest(thresholds: &[Limits]) -> Limits
    ensures { result ≡ tightest thresholds.now }
{
    let mut limits = Limits {
        direct: None,
        opposite: None,
    };
    for threshold in thresholds {
        limits = Limits {
            direct: smaller(limits.direct, threshold.direct),
            opposite: smaller(limits.opposite, threshold.opposite),
        };
    }
    limits
}

/// The limits of an element.
#[tactic(auto, using(json_reading::proofs::Refused::refused), unfolding(crate::specs::Thresholds::limits_of))]
pub fn read_limits(
    alloc: Global,
    ratings: &Ratings,
    at: &Here<'_, CracKind>,
) -> Result<Limits, ReadError<CracKind>>
    ensures { Gives same result (limits_of ratings.now (at_of at.now)) }
{
    let reader = ThresholdReader { ratings };
    let thresholds = required_array(alloc, &reader, &mut (), at, "thresholds")?;
    let limits = tightest(&thresholds);
    if limits.direct.is_none() && limits.opposite.is_none() {
        return Err(at.fault(alloc, CracKind::NoLimit));
    }
    Ok(limits)
}

//! What the limits of an element rest on: currents and voltages at its two sides.

ghost use Rattle.std.specs.Prelude.{◌≡◌, ◌≤◌, ◌/◌, ◌^◌, nat_abs, IfOk, IfSome, ⊤};
ghost use Rattle.std.specs.Option.{option_map};
ghost use Rattle.json_reading.specs.Outcome.{Gives, same};
ghost use Rattle.json_reading.specs.Here.{at_of};
ghost use Rattle.crac_model.specs.Naming.{grid_of};
ghost use Rattle.crac_model.specs.Ratings.{amount_from, amount_of, amount_list, sides_of, amounts_at, amounts, level_volts, node_volts, at_side, current_at, volts_at, ratings_at};

use crate::fault::CracKind;
use crate::names::GridNames;
use fb_decimal::Decimal;
use fb_json::Got;
use fb_types::Node;
use json_reading::{Here, ItemReader, ReadError, array};
use std::alloc::Global;

/// The side of a branch: its first node or its second, in the branch's own order.
#[derive(Clone, Copy, Debug, PartialEq, Eq)]
pub enum Side {
    First,
    Last,
}

/// A number for each side.
#[derive(Clone, Copy, Debug)]
pub struct Sides {
    pub first: i64,
    pub last: i64,
}

/// The currents and the voltages of an element.
#[derive(Clone, Copy, Debug)]
pub struct Ratings {
    /// The document's, in millionths of an ampere.
    pub currents: Option<Sides>,
    /// The document's, in millionths of a kilovolt.
    pub voltages: Option<Sides>,
    /// The grid's current limit, in mA.
    pub current: Option<i64>,
    /// The voltages of the nodes' levels.
    pub first_volts: u32,
    pub last_volts: u32,
}

/// The voltages of the levels 0 to 9, in volts.
const LEVELS: [u32; 10] = [
    750_000, 380_000, 220_000, 150_000, 120_000, 110_000, 70_000, 27_000, 330_000, 500_000,
];

#[tactic(auto, using(json_reading::proofs::Refused::refused))]
fn amount_from(
    alloc: Global,
    low: i64,
    high: i64,
    value: Decimal,
    at: &Here<'_, CracKind>,
) -> Result<i64, ReadError<CracKind>>
    ensures { Gives same result (amount_from low high (at_of at.now) value) }
{
    if value.millionths < i128::from(low) || value.millionths > i128::from(high) {
        return Err(at.fault(alloc, CracKind::OutOfRange));
    }
    Ok(value.millionths as i64)
}

#[derive(Drop)]
struct AmountReader {
    low: i64,
    high: i64,
}

impl ItemReader for AmountReader {
    type Item = i64;

    type Kind = CracKind;

    type Index = ();

    ghost reads = { λ r. amount_of r.low r.high };

    ghost keeps = { λ _ _. ⊤ };

    #[tactic(auto, unfolding(crate::specs::Ratings::amount_of))]
    fn read(
        &self,
        alloc: Global,
        _index: &mut (),
        _before: &[i64],
        at: &Here<'_, CracKind>,
    ) -> Result<Option<i64>, ReadError<CracKind>> {
        let value = at.decimal(alloc)?;
        let amount = amount_from(alloc, self.low, self.high, value, at)?;
        Ok(Some(amount))
    }
}

fn sides_of(amounts: &[i64]) -> Sides
    ensures { result ≡ sides_of amounts.now }
{
    match amounts {
        [] => Sides { first: 0, last: 0 },
        [only] => Sides {
            first: *only,
            last: *only,
        },
        [first, last, ..] => Sides {
            first: *first,
            last: *last,
        },
    }
}

#[tactic(auto, using(json_reading::proofs::Refused::refused), unfolding(crate::specs::Ratings::amount_list))]
fn amount_list(
    alloc: Global,
    low: i64,
    high: i64,
    at: &Here<'_, CracKind>,
) -> Result<Sides, ReadError<CracKind>>
    ensures { Gives same result (amount_list low high (at_of at.now)) }
{
    let count = at.length(alloc)?;
    if count == 0 || count > 2 {
        return Err(at.fault(alloc, CracKind::WrongType));
    }
    let amounts = array(alloc, &AmountReader { low, high }, &mut (), at)?;
    Ok(sides_of(&amounts))
}

#[tactic(auto, unfolding(crate::specs::Ratings::amounts_at))]
fn amounts_at(
    alloc: Global,
    low: i64,
    high: i64,
    at: &Here<'_, CracKind>,
) -> Result<Sides, ReadError<CracKind>>
    ensures { Gives same result (amounts_at low high (at_of at.now)) }
{
    match at.spot.decimal() {
        Got::Value(value) => {
            let amount = amount_from(alloc, low, high, value, at)?;
            Ok(Sides {
                first: amount,
                last: amount,
            })
        }
        Got::Wrong => amount_list(alloc, low, high, at),
        Got::Absent => amount_list(alloc, low, high, at),
    }
}

/// A member that is a number, or an array of one or two, each from the least to the greatest.
#[tactic(auto, unfolding(crate::specs::Ratings::amounts))]
pub fn amounts(
    alloc: Global,
    low: i64,
    high: i64,
    name: &str,
    at: &Here<'_, CracKind>,
) -> Result<Option<Sides>, ReadError<CracKind>>
    ensures { Gives same result (amounts low high name.now (at_of at.now)) }
{
    match at.inner(alloc, name)? {
        None => Ok(None),
        Some(inner) => {
            let found = amounts_at(alloc, low, high, &inner)?;
            Ok(Some(found))
        }
    }
}

fn level_volts(level: u8) -> u32
    ensures { result ≡ level_volts level }
{
    match LEVELS.get(usize::from(level)) {
        None => 0,
        Some(volts) => *volts,
    }
}

fn node_volts(nodes: &[Node], place: u32) -> u32
    ensures { result ≡ node_volts nodes.now place }
{
    match nodes.get(place as usize) {
        None => 0,
        Some(node) => level_volts(node.level),
    }
}

/// The ratings of the branch at a place of the grid.
pub fn ratings_at(
    grid: &GridNames<'_>,
    place: u32,
    currents: Option<Sides>,
    voltages: Option<Sides>,
) -> Ratings
    ensures { result ≡ ratings_at (grid_of grid.now) place currents voltages }
{
    match grid.branches.get(place as usize) {
        None => Ratings {
            currents,
            voltages,
            current: None,
            first_volts: 0,
            last_volts: 0,
        },
        Some(branch) => Ratings {
            currents,
            voltages,
            current: branch.current,
            first_volts: node_volts(grid.nodes, branch.from),
            last_volts: node_volts(grid.nodes, branch.to),
        },
    }
}

fn at_side(side: Side, sides: Sides) -> i64
    ensures { result ≡ at_side side sides }
{
    match side {
        Side::First => sides.first,
        Side::Last => sides.last,
    }
}

/// The current limit at a side, in millionths of an ampere.
pub fn current_at(ratings: &Ratings, side: Side) -> Option<i128>
    ensures value { result ≡ current_at ratings.now side }
    ensures small { IfSome result (λ z. nat_abs z ≤ 10 ^ 22) }
{
    match ratings.currents {
        Some(sides) => Some(i128::from(at_side(side, sides))),
        None => match ratings.current {
            None => None,
            Some(current) => Some(i128::from(current) * 1000),
        },
    }
}

fn volts_in(amount: i64) -> u64
    ensures { result ≡ nat_abs amount / 1000 }
{
    amount.unsigned_abs() / 1000
}

/// The voltage at a side, in volts.
pub fn volts_at(ratings: &Ratings, side: Side) -> u64
    ensures value { result ≡ volts_at ratings.now side }
{
    match ratings.voltages {
        Some(sides) => volts_in(at_side(side, sides)),
        None => match side {
            Side::First => u64::from(ratings.first_volts),
            Side::Last => u64::from(ratings.last_volts),
        },
    }
}

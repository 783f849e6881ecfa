//! The power that a current carries at a voltage.

ghost use Rattle.std.specs.Prelude.{◌≡◌, ◌+◌, ◌*◌, ◌<◌, ◌≤◌, ◌^◌, true, false, pos, ◌≤ℤ◌, unsigned_abs};
ghost use Rattle.crac_model.specs.Carried.{carried_watts};
ghost use Rattle.crac_model.specs.Power.{most_watts, is_carried, IsPower};

/// Every limit above 10^11 W counts as 10^11 W.
pub const MOST_WATTS: u64 = 100_000_000_000;

/// A product of milliamperes and volts at which more than 10^11 W are carried.
const GREAT_PRODUCT: u128 = 100_000_000_000_000;

/// Whether so many watts are not more than is carried.
fn is_carried(square: u128, watts: u64) -> bool
    requires { watts ≤ most_watts }
    ensures { result ≡ is_carried square watts }
{
    u128::from(watts) * u128::from(watts) * 1_000_000 <= square
}

/// A number between the two, above the lower.
fn middle(low: u64, high: u64) -> u64
    requires { low < high }
    ensures above { low < result }
    ensures within { result ≤ high }
{
    high - (high - low) / 2
}

/// The greatest number of watts up to 10^11 that is carried, by halving.
fn greatest_carried(square: u128) -> u64
    ensures most { result ≤ most_watts }
    ensures holds { is_carried square result ≡ true }
    ensures fails { result < most_watts → is_carried square (result + 1) ≡ false }
{
    let mut low: u64 = 0;
    let mut high: u64 = MOST_WATTS;
    while low < high {
        let middle = middle(low, high);
        if is_carried(square, middle) {
            low = middle;
        } else {
            high = middle - 1;
        }
    }
    low
}

/// The power that a current in mA carries at a voltage in V, in whole watts, rounded down and at most 10^11 W.
fn power(current: u128, voltage: u64) -> u64
    ensures { IsPower current voltage result }
{
    if voltage == 0 {
        return 0;
    }
    if current >= GREAT_PRODUCT {
        return MOST_WATTS;
    }
    let product = current * u128::from(voltage);
    if product >= GREAT_PRODUCT {
        return MOST_WATTS;
    }
    greatest_carried(3 * (product * product))
}

#[tactic(auto, using(crate::proofs::PowerLaws::carried_is, crate::proofs::PowerLaws::carried_none))]
/// The same of a current of either sign: one that is not positive carries nothing.
pub fn carried_watts(current: i128, voltage: u64) -> u64
    ensures watts { result ≡ carried_watts current voltage }
    ensures inequality { pos 0 ≤ℤ current → IsPower (unsigned_abs current) voltage result }
    ensures most { result ≤ most_watts }
{
    if current < 0 {
        return 0;
    }
    power(current.unsigned_abs(), voltage)
}

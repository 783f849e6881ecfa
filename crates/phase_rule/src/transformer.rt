//! The two ways in which a tap changer adds its voltage.

ghost use Rattle.std.specs.Prelude.{◌≡◌, ◌*◌, ◌/◌, ◌^◌, ◌≤◌, IfOk, ℤ, pos, nat_abs, ◌*ℤ◌, ◌<ℤ◌, int_div};
ghost use Rattle.whole_laws.specs.Sums.{IsWithin};
ghost use Rattle.phase_rule.specs.Trigonometry.{one, quarter_turn};
ghost use Rattle.phase_rule.specs.Shift.{added_voltage, numerator_of, denominator_of, signed, asymmetrical_shift_of, symmetrical_shift_of, regulated_shift_of};

use crate::trigonometry::{arc_tangent, cosine, sine};
use crate::{PhaseFault, Regulation};

/// One, in 10^-12.
const ONE: i128 = 1_000_000_000_000;

/// The voltage that the tap adds, per unit, in 10^-12.
pub fn voltage(step: i64, tap: i32) -> i128
    requires step { IsWithin (10 ^ 17) step }
    requires tap { IsWithin 999 tap }
    ensures value { result ≡ added_voltage step tap }
    ensures within { IsWithin (10 ^ 24) result }
{
    i128::from(tap) * i128::from(step) * 10_000
}

/// A part of the voltage that is added, rounded towards 0.
fn part(added: i128, factor: i128) -> i128
    requires added { IsWithin (10 ^ 24) added }
    requires factor { IsWithin (2 * 10 ^ 12) factor }
    ensures value { result ≡ int_div (added *ℤ factor) (pos one) }
    ensures within { IsWithin (2 * 10 ^ 24) result }
{
    added * factor / ONE
}

/// A number with a sign.
fn with_sign(sign: i128, size: u128) -> i64
    requires { size ≤ 2 * quarter_turn }
    ensures value { result ≡ signed sign (pos size) }
    ensures within { IsWithin (2 * quarter_turn) result }
{
    if sign < 0 {
        -(size as i64)
    } else {
        size as i64
    }
}

/// The tangent of the shift's size, rounded down.
fn tangent(numerator: i128, denominator: i128) -> u128
    requires numerator { IsWithin (2 * 10 ^ 24) numerator }
    requires denominator { pos 0 <ℤ denominator }
    ensures { result ≡ nat_abs numerator * one / nat_abs denominator }
{
    numerator.unsigned_abs() * 1_000_000_000_000 / denominator.unsigned_abs()
}

/// The part of the summed voltage across that of node 1.
#[tactic(auto, unfolding(crate::specs::Shift::numerator_of))]
fn across(added: i128, angle: i64) -> i128
    requires added { IsWithin (10 ^ 24) added }
    requires angle { IsWithin (180 * 10 ^ 6) angle }
    ensures value { result ≡ numerator_of added angle }
    ensures within { IsWithin (2 * 10 ^ 24) result }
{
    part(added, sine(angle))
}

/// The part of the summed voltage along that of node 1.
#[tactic(auto, unfolding(crate::specs::Shift::denominator_of))]
fn along(added: i128, angle: i64) -> i128
    requires added { IsWithin (10 ^ 24) added }
    requires angle { IsWithin (180 * 10 ^ 6) angle }
    ensures { result ≡ denominator_of added angle }
{
    ONE + part(added, cosine(angle))
}

/// The voltage is added at one end, at an angle to the voltage there.
fn asymmetrical(added: i128, angle: i64) -> Result<i64, PhaseFault>
    requires added { IsWithin (10 ^ 24) added }
    requires angle { IsWithin (180 * 10 ^ 6) angle }
    ensures value { result ≡ asymmetrical_shift_of added angle }
    ensures within { IfOk result (IsWithin (2 * quarter_turn)) }
{
    let numerator = across(added, angle);
    let denominator = along(added, angle);
    if denominator <= 0 {
        return Err(PhaseFault::Denominator);
    }
    Ok(with_sign(numerator, arc_tangent(tangent(numerator, denominator))))
}

/// Half of the voltage is added at either end, at 90 degrees.
#[tactic(auto, unfolding(crate::specs::Shift::symmetrical_shift_of))]
fn symmetrical(added: i128) -> i64
    requires { IsWithin (10 ^ 24) added }
    ensures value { result ≡ symmetrical_shift_of added }
    ensures within { IsWithin (2 * quarter_turn) result }
{
    with_sign(added, 2 * arc_tangent(added.unsigned_abs() / 2))
}

/// The shift where a voltage is added.
#[tactic(auto, unfolding(crate::specs::Shift::regulated_shift_of))]
pub fn regulated(added: i128, angle: i64, kind: Regulation) -> Result<i64, PhaseFault>
    requires added { IsWithin (10 ^ 24) added }
    requires angle { IsWithin (180 * 10 ^ 6) angle }
    ensures value { result ≡ regulated_shift_of added angle kind }
    ensures within { IfOk result (IsWithin (2 * quarter_turn)) }
{
    match kind {
        Regulation::Asym => asymmetrical(added, angle),
        Regulation::Symm => Ok(symmetrical(added)),
    }
}

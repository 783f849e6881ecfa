//! Sine and arc tangent in whole numbers, in 10^-12.

ghost use Rattle.std.specs.Prelude.{◌≡◌, ◌≤◌, ◌<◌, ◌+◌, ◌*◌, ◌/◌, ◌^◌, pos};
ghost use Rattle.whole_laws.specs.Sums.{IsWithin};
ghost use Rattle.phase_rule.specs.Trigonometry.{one, right_angle, quarter_turn, times_square, sine_series, sine_to_right_angle, sine_to_half_turn, sine_of, cosine_of, arc_series, arc_tangent_of};

/// One, in 10^-12.
const ONE: u128 = 1_000_000_000_000;

/// 90 degrees, in millionths of a degree.
const RIGHT_ANGLE: u128 = 90_000_000;

/// The sine's term after `term`, which stands at the place `k`.
fn next_sine_term(x: u128, k: u128, term: u128) -> u128
    requires angle { x ≤ quarter_turn + 1 }
    requires place { k < 100 }
    requires before { term ≤ x }
    ensures value { result ≡ times_square x term / ((2 * k + 2) * (2 * k + 3)) }
    ensures smaller { result ≤ term }
{
    term * x / ONE * x / ONE / ((2 * k + 2) * (2 * k + 3))
}

/// The sine of an angle in radians: nine terms.
fn series_sine(x: u128) -> u128
    requires { x ≤ quarter_turn + 1 }
    ensures value { pos result ≡ sine_series x }
    ensures bound { result ≤ x }
{
    let mut sum = 0;
    let mut term = x;
    for pair in 0..4u64 {
        let place = 2 * u128::from(pair);
        let taken = next_sine_term(x, place, term);
        sum += term - taken;
        term = next_sine_term(x, place + 1, taken);
    }
    sum + term
}

/// The sine of an angle from 0 to 90 degrees.
#[tactic(auto, unfolding(crate::specs::Trigonometry::sine_to_right_angle))]
fn sine_in_quarter(angle: u128) -> u128
    requires { angle ≤ right_angle }
    ensures value { pos result ≡ sine_to_right_angle angle }
    ensures bound { result ≤ quarter_turn + 1 }
{
    if angle == RIGHT_ANGLE {
        ONE
    } else {
        series_sine(angle * 3_141_592_653_589_793 / 180_000_000_000)
    }
}

/// The sine of an angle from 0 to 180 degrees.
#[tactic(auto, unfolding(crate::specs::Trigonometry::sine_to_half_turn))]
fn sine_in_half(angle: u128) -> u128
    requires { angle ≤ 2 * right_angle }
    ensures value { pos result ≡ sine_to_half_turn angle }
    ensures bound { result ≤ quarter_turn + 1 }
{
    if angle <= RIGHT_ANGLE {
        sine_in_quarter(angle)
    } else {
        sine_in_quarter(2 * RIGHT_ANGLE - angle)
    }
}

/// The sine of an angle within 180 degrees.
#[tactic(auto, unfolding(crate::specs::Trigonometry::sine_of))]
pub fn sine(angle: i64) -> i128
    requires { IsWithin (180 * 10 ^ 6) angle }
    ensures value { result ≡ sine_of angle }
    ensures within { IsWithin (2 * 10 ^ 12) result }
{
    let size = sine_in_half(u128::from(angle.unsigned_abs())) as i128;
    if angle < 0 { -size } else { size }
}

/// The cosine of an angle within 180 degrees.
#[tactic(auto, unfolding(crate::specs::Trigonometry::cosine_of))]
pub fn cosine(angle: i64) -> i128
    requires { IsWithin (180 * 10 ^ 6) angle }
    ensures value { result ≡ cosine_of angle }
    ensures within { IsWithin (2 * 10 ^ 12) result }
{
    sine(90_000_000 - angle.abs())
}

/// `power` times the square of `u`.
fn next_power(u: u128, power: u128) -> u128
    requires factor { u ≤ one }
    requires before { power ≤ u }
    ensures value { result ≡ times_square u power }
    ensures smaller { result ≤ power }
{
    power * u / ONE * u / ONE
}

/// The arc tangent of a small number: sixteen terms.
fn series_arc_tangent(u: u128) -> u128
    requires { u ≤ one }
    ensures value { pos result ≡ arc_series u }
    ensures bound { result ≤ u }
{
    let mut sum = 0;
    let mut power = u;
    for pair in 0..8u64 {
        let place = 4 * u128::from(pair);
        let taken = next_power(u, power);
        sum += power / (place + 1) - taken / (place + 3);
        power = next_power(u, taken);
    }
    sum
}

/// The arc tangent of any number that is not negative.
#[tactic(auto, unfolding(crate::specs::Trigonometry::arc_tangent_of))]
pub fn arc_tangent(q: u128) -> u128
    ensures value { pos result ≡ arc_tangent_of q }
    ensures bound { result ≤ quarter_turn }
{
    if q <= 414_213_562_373 {
        series_arc_tangent(q)
    } else if q < ONE {
        785_398_163_397 - series_arc_tangent((ONE - q) * ONE / (ONE + q))
    } else if q <= 2_414_213_562_373 {
        785_398_163_397 + series_arc_tangent((q - ONE) * ONE / (q + ONE))
    } else {
        1_570_796_326_794 - series_arc_tangent(ONE * ONE / q)
    }
}

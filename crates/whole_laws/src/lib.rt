//! Whole numbers: the laws of their ring, of their order, of sums and of rounded quotients, on which the other crates'
//! proofs rest, and the two rounded quotients of numbers of 128 bits.
#![tactic(auto)]

ghost use Rattle.std.specs.Prelude.{◌≡◌, pos, ◌<ℤ◌};
ghost use Rattle.whole_laws.specs.Quotients.{floor_of, ceil_of};

/// The greatest whole number that is at most `value / divisor`.
pub fn floor_div(value: i128, divisor: i128) -> i128
    requires { pos 0 <ℤ divisor }
    ensures { result ≡ floor_of value divisor }
{
    value.div_euclid(divisor)
}

/// The least whole number that is at least `value / divisor`.
pub fn ceil_div(value: i128, divisor: i128) -> i128
    requires { pos 0 <ℤ divisor }
    ensures { result ≡ ceil_of value divisor }
{
    let quotient = value.div_euclid(divisor);
    if value.rem_euclid(divisor) == 0 {
        quotient
    } else {
        quotient + 1
    }
}

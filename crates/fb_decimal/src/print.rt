//! The text of a decimal number.

ghost use Rattle.std.specs.Prelude.{◌≡◌, ◌++◌, ◌∷◌, IfOk, string_bytes};
ghost use Rattle.std.specs.Fmt.{decimal};
ghost use Rattle.fb_decimal.specs.Printing.{decimal_text, padded_digits};

use std::alloc::{AllocError, Global};

/// A sign, a whole part, a point and the six digits behind it.
fn joined(alloc: Global, sign: &str, whole: u128, rest: u32) -> Result<String, AllocError>
    ensures { IfOk result (λ text. string_bytes text ≡ sign.now ++ (decimal whole ++ 46 ∷ padded_digits 6 rest)) }
{
    format!(in alloc; "{sign}{whole}.{rest:06}")
}

/// The text of so many millionths.
#[tactic(auto, unfolding(crate::specs::Printing::decimal_text))]
pub fn printed(alloc: Global, millionths: i128) -> Result<String, AllocError>
    ensures { IfOk result (λ text. string_bytes text ≡ decimal_text millionths) }
{
    let size = millionths.unsigned_abs();
    let sign = if millionths < 0 { "-" } else { "" };
    joined(alloc, sign, size / 1_000_000, (size % 1_000_000) as u32)
}

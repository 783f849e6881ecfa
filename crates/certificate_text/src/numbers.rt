//! Whole numbers in a field.

ghost use Rattle.std.specs.Prelude.{◌≡◌, ◌++◌, ◌∷◌, OnOk, string_bytes};
ghost use Rattle.std.specs.Fmt.{signed_decimal};
ghost use Rattle.certificate_text.specs.Lines.{numbers_text};
ghost use Rattle.certificate_text.specs.Pieces.{spaced_text};

use csv_rows::put_whole;
use std::alloc::AllocError;

/// Appends whole numbers, parted by single blanks.
pub(crate) fn put_numbers(text: &mut String, numbers: &[i128]) -> Result<(), AllocError>
    ensures { OnOk result (string_bytes text.new ≡ string_bytes text.old ++ numbers_text numbers.now) }
{
    let Some((first, rest)) = numbers.split_first() else {
        return Ok(());
    };
    put_whole(text, *first)?;
    for number in rest {
        put_after_blank(text, *number)?;
    }
    Ok(())
}

/// Appends whole numbers, each after a blank.
pub(crate) fn put_spaced(text: &mut String, numbers: &[i64]) -> Result<(), AllocError>
    ensures { OnOk result (string_bytes text.new ≡ string_bytes text.old ++ spaced_text numbers.now) }
{
    for number in numbers {
        put_after_blank(text, i128::from(*number))?;
    }
    Ok(())
}

/// Appends a whole number after a blank.
fn put_after_blank(text: &mut String, number: i128) -> Result<(), AllocError>
    ensures { OnOk result (string_bytes text.new ≡ string_bytes text.old ++ 32 ∷ signed_decimal number) }
{
    text.push(' ')?;
    put_whole(text, number)
}

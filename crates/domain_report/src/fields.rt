//! Several fields of a record at a time.

ghost use Rattle.std.specs.Prelude.{◌≡◌, ◌++◌, map, OnOk};
ghost use Rattle.std.specs.Fmt.{signed_decimal};

use csv_rows::Fields;
use std::alloc::AllocError;

/// Appends each text as a field.
pub(crate) fn put_texts(fields: &mut Fields, texts: &[&str]) -> Result<(), AllocError>
    ensures { OnOk result (fields.new ≡ fields.old ++ map (λ t. t.now) texts.now) }
{
    for text in texts {
        fields.put_text(text)?;
    }
    Ok(())
}

/// Appends each whole number as a field.
pub(crate) fn put_wholes(fields: &mut Fields, numbers: &[i64]) -> Result<(), AllocError>
    ensures { OnOk result (fields.new ≡ fields.old ++ map signed_decimal numbers.now) }
{
    for number in numbers {
        fields.put_whole(i128::from(*number))?;
    }
    Ok(())
}

//! Names of a fixed width.

ghost use Rattle.std.specs.Prelude.{◌≡◌, IfOk, string_bytes};
ghost use Rattle.std.specs.Str.{chars};
ghost use Rattle.name_tables.specs.Padding.{padded_name};

use std::alloc::{AllocError, Global};

fn characters(alloc: Global, name: &str) -> Result<Vec<char>, AllocError>
    ensures { IfOk result (λ v. v.items ≡ chars name.now) }
{
    name.chars().collect(alloc)
}

/// The name with blanks behind, up to so many characters.
pub fn padded(alloc: Global, name: &str, width: u64) -> Result<String, AllocError>
    ensures { IfOk result (λ text. string_bytes text ≡ padded_name width name.now) }
{
    let count = characters(alloc, name)?.len() as u64;
    let blanks = width.saturating_sub(count);
    let mut text = String::from_str(alloc, name)?;
    for _blank in 0..blanks {
        text.push(' ')?;
    }
    Ok(text)
}

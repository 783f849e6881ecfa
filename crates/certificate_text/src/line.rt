//! A line of a certificate's text.

ghost use Rattle.std.specs.Prelude.{◌≡◌, ◌++◌, ◌∷◌, [], OnOk};
ghost use Rattle.csv_rows.specs.Tables.{record_text};

use csv_rows::Table;
use std::alloc::AllocError;

/// Appends a line: its kind, its key and its value.
pub(crate) fn put_line(
    table: &mut Table,
    kind: &str,
    key: &str,
    value: &str,
) -> Result<(), AllocError>
    ensures { OnOk result (table.new.text ≡ table.old.text ++ record_text (kind.now ∷ key.now ∷ value.now ∷ [])) }
{
    let fields = [kind.as_bytes(), key.as_bytes(), value.as_bytes()];
    table.put_slices(&fields)
}

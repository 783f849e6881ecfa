//! What the lines of a whole file are judged by.

ghost use Rattle.std.specs.Prelude.{◌≡◌, option_map};
ghost use Rattle.name_tables.specs.Names.{value_at};
ghost use Rattle.ucte_reader.specs.Steps.{names_in, capped, shift_in};

use name_tables::{NameTable, ValueTable};

/// The nodes' codes with their places, the transformers' ids, and the regulations' ids with their phase shifts.
#[derive(Drop)]
pub struct Known {
    pub places: ValueTable<u64>,
    pub transformers: NameTable,
    pub shifts: ValueTable<i64>,
    /// How many node lines there were.
    pub count: u64,
}

/// The place of the node of a code.
pub fn place(known: &Known, code: &str) -> Option<u32>
    ensures { result ≡ option_map capped (value_at known.now.places code.now) }
{
    match known.places.get(code) {
        None => None,
        Some(place) => Some(place.min(4_294_967_295) as u32),
    }
}

/// Whether a transformer has the id.
pub fn is_transformer(known: &Known, id: &str) -> bool
    ensures { result ≡ (names_in known.now).is_transformer id.now }
{
    known.transformers.contains(id)
}

/// The phase shift that the regulation of the id gives, or 0.
pub fn shift(known: &Known, id: &str) -> i64
    ensures { result ≡ shift_in known.now id.now }
{
    known.shifts.get(id).unwrap_or(0)
}

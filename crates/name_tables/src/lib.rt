//! Tables of names, looked up by hashes: names each once, and names with a value each. Names padded to a width.
#![tactic(auto)]

ghost use Rattle.std.specs.Prelude.{◌≡◌, [], not, IfOk, OnOk, string_bytes};
ghost use Rattle.name_tables.specs.Names.{is_among, value_at};
ghost use Rattle.name_tables.specs.Tables.{with_name, with_entry};

mod padding;

use indexmap::{IndexMap, IndexSet};
pub use padding::padded;
use std::alloc::{AllocError, Global};
use std::marker::Model;

/// Names, each once, in the order in which they came.
#[derive(Drop)]
pub struct NameTable {
    names: IndexSet<String>,
}

impl Model for NameTable {
    ghost use Rattle.std.specs.Prelude.{List, ℕ, map, string_bytes};

    ghost Value = { List (List ℕ) };

    ghost view = { λ t. map string_bytes t.names.keys };
}

impl NameTable {
    /// A table without names. It takes no memory.
    pub fn new(alloc: Global) -> Self
        ensures { result ≡ [] }
    {
        NameTable {
            names: IndexSet::new(alloc),
        }
    }

    /// Whether the table has the name.
    pub fn contains(&self, name: &str) -> bool
        ensures { result ≡ is_among self.now name.now }
    {
        self.names.contains(name)
    }

    /// Adds a name, and says whether it is new.
    pub fn add(&mut self, name: String) -> Result<bool, AllocError>
        ensures added { IfOk result (λ is_new. is_new ≡ not (is_among self.old (string_bytes name))) }
        ensures names { OnOk result (self.new ≡ with_name self.old (string_bytes name)) }
    {
        Ok(self.names.insert(name)?)
    }
}

/// Names with a value each, where the first of a name counts.
#[derive(Drop)]
pub struct ValueTable<V: Copy + Drop> {
    values: IndexMap<String, V>,
}

impl<V: Copy + Drop> Model for ValueTable<V> {
    ghost use Rattle.std.specs.Prelude.{List, ℕ, map, string_bytes};

    ghost Value = { List (List ℕ × V) };

    ghost view = { λ t. map (λ e. (string_bytes e.0, e.1)) t.values.entries };
}

impl<V: Copy + Drop> ValueTable<V> {
    /// A table without names. It takes no memory.
    pub fn new(alloc: Global) -> Self
        ensures { result ≡ [] }
    {
        ValueTable {
            values: IndexMap::new(alloc),
        }
    }

    /// The value of a name, if it has one.
    pub fn get(&self, name: &str) -> Option<V>
        ensures { result ≡ value_at self.now name.now }
    {
        self.values.get(name).copied()
    }

    /// Adds a value, if the name has none.
    pub fn note(&mut self, name: String, value: V) -> Result<(), AllocError>
        ensures { OnOk result (self.new ≡ with_entry self.old (string_bytes name) value) }
    {
        if self.get(name.as_str()).is_some() {
            return Ok(());
        }
        self.values.insert(name, value)?;
        Ok(())
    }
}

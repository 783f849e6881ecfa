//! A list that is owned.

ghost use Rattle.std.specs.Prelude.{◌≡◌, List, [], ◌∷◌, ◌++◌, length, OnOk, OnErr, IfErr, slice_get};
ghost use Rattle.std.specs.Option.{option_copied};

use std::alloc::{AllocError, AllocFailed, Global};
use std::marker::Model;

/// A list of items in order. A contract sees the list.
#[derive(Debug, Drop)]
pub struct Items<T> {
    items: Vec<T>,
}

impl<T> Model for Items<T> {
    ghost use Rattle.std.specs.Prelude.{List};
    ghost use Rattle.std.specs.Coded.{coded_list};

    ghost Value = { List T };

    ghost coded = { coded_list T.code };

    ghost view = { λ list. list.items.items };
}

impl<T> Items<T> {
    /// An empty list. It takes no memory.
    pub fn new(alloc: Global) -> Items<T>
        ensures empty { result ≡ [] }
    {
        Items {
            items: Vec::new(alloc),
        }
    }

    /// The list of the items of `items`.
    pub fn from_vec(items: Vec<T>) -> Items<T>
        ensures same { result ≡ items.items }
    {
        Items { items }
    }

    /// The items as a `Vec`.
    pub fn into_vec(self) -> Vec<T>
        ensures same { result.items ≡ self }
    {
        let Items { items } = self;
        items
    }

    /// Appends the item, or hands it back where there is no memory and changes nothing.
    pub fn push(&mut self, item: T) -> Result<(), T>
        ensures pushed { OnOk result (self.new ≡ self.old ++ item ∷ []) }
        ensures unchanged { OnErr result (self.new ≡ self.old) }
        ensures handed_back { IfErr result (λ refused. refused ≡ item) }
    {
        match self.items.push(item) {
            Ok(()) => Ok(()),
            Err(AllocFailed { value }) => Err(value),
        }
    }

    /// How many items there are.
    pub fn len(&self) -> u64
        ensures count { result ≡ length self.now }
    {
        self.items.len() as u64
    }

    /// The item at a place, counted from 0. It is none past the end.
    pub fn get(&self, at: u64) -> Option<&T>
        ensures item { option_copied result ≡ slice_get self.now at }
    {
        self.items.get(at as usize)
    }

    /// The items as a slice.
    pub fn as_slice(&self) -> &[T]
        ensures items { result.now ≡ self.now }
    {
        self.items.as_slice()
    }
}

impl<T: Drop> Items<T> {
    /// Appends the item. Where there is no memory it changes nothing and drops the item.
    pub fn add(&mut self, item: T) -> Result<(), AllocError>
        ensures pushed { OnOk result (self.new ≡ self.old ++ item ∷ []) }
        ensures unchanged { OnErr result (self.new ≡ self.old) }
    {
        self.items.push(item)?;
        Ok(())
    }
}

//! A shelf in memory.

ghost use Rattle.std.specs.Prelude.{◌≡◌, ◌^◌, ◌≤◌, ◌<◌, ◌⊎◌, IfOk, IsOk, OnOk, OnErr, Some, length, string_bytes};
ghost use Rattle.std.specs.FinMap as map;
ghost use Rattle.std.specs.FinSet as set;
ghost use Rattle.std.specs.Option.{option_copied};
ghost use Rattle.std.specs.Ordering.{nat_cmp};
ghost use Rattle.fb_base.specs.Answers.{IsFailed, IsTooLong, LacksMemory, TellsLimit, seen};
ghost use Rattle.fb_base.specs.Counts.{counted, Rose};
ghost use Rattle.fb_base.specs.Documents.{documents_of, Holds, IsMissing, HasAtMost, HasMoreThan};
ghost use Rattle.fb_base.specs.ShelfState.{empty_shelf, called, failed, within_limit, answer_of};

use crate::counting::one_more;
use crate::shelf::{Fetch, Shelf};
use std::alloc::{AllocError, Global};
use std::collections::{BTreeMap, BTreeSet};
use std::marker::Model;

/// A shelf that keeps documents in memory and fails at the fetches that it is told, and at a name that it has not.
///
/// Fetches are numbered from 1 over the shelf's life. Their count stays at `u64::MAX`, so from there on each fetch has
/// that number. A clause sees a shelf as a `ShelfState`: the documents, the numbers that are to fail, the counts of
/// fetches and of faults, and the name of the last fetch that failed.
#[derive(Debug, Drop)]
pub struct MemShelf {
    alloc: Global,
    held: BTreeMap<String, Vec<u8>>,
    to_fail: BTreeSet<u64>,
    calls: u64,
    faults: u64,
    last_failed: Option<String>,
}

impl Model for MemShelf {
    ghost use Rattle.std.specs.Prelude.{string_bytes};
    ghost use Rattle.std.specs.Option.{option_map};
    ghost use Rattle.std.specs.FinSet as set;
    ghost use Rattle.fb_base.specs.Documents.{documents_of};
    ghost use Rattle.fb_base.specs.ShelfState.{ShelfState, state_code};

    ghost Value = { ShelfState };

    ghost coded = { state_code };

    ghost view = { λ shelf. record { held = documents_of string_bytes (λ bytes. bytes.items) shelf.held.entries; to_fail = set.from_list shelf.to_fail.keys; calls = shelf.calls; faults = shelf.faults; last_failed = option_map string_bytes shelf.last_failed } };
}

impl MemShelf {
    /// A shelf with no document. It takes no memory, and what it takes later it takes from `alloc`.
    pub fn new(alloc: Global) -> MemShelf
        ensures { result ≡ empty_shelf }
    {
        MemShelf {
            alloc,
            held: BTreeMap::new(alloc),
            to_fail: BTreeSet::new(alloc),
            calls: 0,
            faults: 0,
            last_failed: None,
        }
    }

    /// Adds a document, or replaces the bytes of the document of this name.
    pub fn add(&mut self, name: &str, bytes: &[u8]) -> Result<(), AllocError>
        ensures added { OnOk result (self.new ≡ record self.old { held = map.insert self.old.held name.now bytes.now }) }
        ensures refused { OnErr result (self.new ≡ self.old) }
    {
        let name = String::from_str(self.alloc, name)?;
        let bytes = Vec::from_slice(self.alloc, bytes)?;
        self.held.insert(name, bytes)?;
        Ok(())
    }

    /// Lets the fetch of this number fail. A number that is past has no effect.
    pub fn fail_at(&mut self, call: u64) -> Result<(), AllocError>
        ensures added { OnOk result (self.old.calls < call → self.new ≡ record self.old { to_fail = set.insert self.old.to_fail call }) }
        ensures past { call ≤ self.old.calls → self.new ≡ self.old }
        ensures past_ok { call ≤ self.old.calls → IsOk result }
        ensures refused { OnErr result (self.new ≡ self.old) }
    {
        if call <= self.calls {
            return Ok(());
        }
        self.to_fail.insert(call)?;
        Ok(())
    }

    /// Counts a fetch and answers it, but keeps nothing of a failure.
    fn look_up(&mut self, alloc: Global, name: &str, limit: u64) -> Result<Vec<u8>, Fetch>
        ensures answer { ¬ LacksMemory result → seen result ≡ answer_of self.old name.now limit }
        ensures after { self.new ≡ called self.old }
        ensures small { self.old.faults < 2 ^ 64 }
    {
        self.calls = one_more(self.calls);
        let _faults = self.faults;
        if is_among(&self.to_fail, self.calls) {
            Err(Fetch::Failed)
        } else {
            copy_within(alloc, find(&self.held, name), limit)
        }
    }

    /// Counts a failure of a fetch of this name and keeps the name.
    fn keep_failure(&mut self, name: &str) -> Result<(), AllocError>
        ensures kept { OnOk result (self.new ≡ record self.old { faults = counted self.old.faults; last_failed = Some name.now }) }
        ensures refused { OnErr result (self.new ≡ self.old) }
    {
        let name = String::from_str(self.alloc, name)?;
        self.last_failed = Some(name);
        self.faults = one_more(self.faults);
        Ok(())
    }
}

/// Whether the number is among those that are to fail.
fn is_among(to_fail: &BTreeSet<u64>, call: u64) -> bool
    ensures { result ≡ set.contains (set.from_list {R = nat_cmp} to_fail.now.keys) call }
{
    to_fail.contains(&call)
}

/// The bytes of the document of this name.
fn find<'a>(held: &'a BTreeMap<String, Vec<u8>>, name: &str) -> Option<&'a [u8]>
    ensures { option_copied result ≡ map.get (documents_of string_bytes (λ bytes. bytes.items) held.now.entries) name.now }
{
    match held.get(name) {
        None => None,
        Some(bytes) => Some(bytes.as_slice()),
    }
}

/// A copy of the document, if there is one and it has at most `limit` bytes.
fn copy_within(alloc: Global, document: Option<&[u8]>, limit: u64) -> Result<Vec<u8>, Fetch>
    ensures { ¬ LacksMemory result → seen result ≡ within_limit (option_copied document.entry) limit }
{
    match document {
        None => Err(Fetch::Failed),
        Some(bytes) if limit < bytes.len() as u64 => Err(Fetch::TooLong { limit }),
        Some(bytes) => match Vec::from_slice(alloc, bytes) {
            Ok(copy) => Ok(copy),
            Err(e) => Err(Fetch::Memory(e)),
        },
    }
}

impl Shelf for MemShelf {
    ghost use Rattle.std.specs.Prelude.{true};

    ghost tells = { λ _. true };

    ghost held = { λ shelf. shelf.held };

    ghost faults = { λ shelf. shelf.faults };

    ghost last_failed = { λ shelf. shelf.last_failed };

    fn fetch(&mut self, alloc: Global, name: &str, limit: u64) -> Result<Vec<u8>, Fetch>
        // Exactly what a fetch does, where memory suffices.
        ensures answer { ¬ LacksMemory result → seen result ≡ answer_of self.old name.now limit }
        ensures failed_after { IsFailed result → self.new ≡ failed self.old name.now }
        ensures other_after { ¬ IsFailed result → self.new ≡ called self.old }

        // What it does as a shelf.
        ensures never_falls { self.old.faults ≤ self.new.faults }
        ensures bytes { IfOk result (λ bytes. Holds self.old.held name.now bytes.items) }
        ensures within { IfOk result (λ bytes. length bytes.items ≤ limit) }
        ensures given { HasAtMost self.old.held name.now limit → ¬ Rose self.old.faults self.new.faults → IsOk result ⊎ LacksMemory result }
        ensures failed { IsFailed result → Rose self.old.faults self.new.faults }
        ensures missing { IsMissing self.old.held name.now → IsFailed result ⊎ LacksMemory result }
        ensures limit_told { TellsLimit result limit }
        ensures too_long { IsTooLong result → HasMoreThan self.old.held name.now limit }
        ensures longer { HasMoreThan self.old.held name.now limit → ¬ Rose self.old.faults self.new.faults → IsTooLong result ⊎ LacksMemory result }
    {
        match self.look_up(alloc, name, limit) {
            Err(Fetch::Failed) => match self.keep_failure(name) {
                Ok(()) => Err(Fetch::Failed),
                Err(e) => Err(Fetch::Memory(e)),
            },
            answer => answer,
        }
    }
}

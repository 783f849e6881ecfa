//! The files of the machine as a shelf.

ghost use Rattle.std.specs.Prelude.{◌≡◌, ◌+◌, ◌≤◌, ◌<◌, ◌++◌, OnOk, IfOk, IfSome, length, vec_len};
ghost use Rattle.fb_base.specs.Answers.{IsFailed, IsTooLong, TellsLimit};
ghost use Rattle.fb_base.specs.Counts.{counted, Rose};

use crate::counting::one_more;
use crate::shelf::{Fetch, Shelf};
use std::alloc::{AllocError, Global};
use std::fs;
use std::io::Read;
use std::marker::Model;
use std::rt::Files;

/// How many bytes one read asks for.
const CHUNK: usize = 65_536;

/// The files of the machine by their paths, through the runtime that it borrows.
///
/// It tells no content and no name: what the machine gives is trusted. Each refusal of the machine is a failure. A
/// clause sees a shelf as the count of its failures.
pub struct DirShelf<'a, R: Files> {
    rt: &'a R,
    failures: u64,
}

impl<'a, R: Files> Model for DirShelf<'a, R> {
    ghost use Rattle.std.specs.Prelude.{ℕ};

    ghost Value = { ℕ };

    ghost view = { λ shelf. shelf.failures };
}

impl<'a, R: Files> Drop for DirShelf<'a, R> {
    fn drop(self) {
        let DirShelf { rt: _, failures: _ } = self;
    }
}

impl<'a, R: Files> DirShelf<'a, R> {
    /// A shelf that has not failed.
    pub fn new(rt: &'a R) -> DirShelf<'a, R>
        ensures { result ≡ 0 }
    {
        DirShelf { rt, failures: 0 }
    }

    /// How many fetches failed. The count stays at `u64::MAX`.
    pub fn failures(&self) -> u64
        ensures { result ≡ self.now }
    {
        self.failures
    }
}

/// Appends the piece to bytes that are to be at most `limit`, and grows their block to no more than that.
fn append(bytes: &mut Vec<u8>, piece: &[u8], limit: usize) -> Result<(), AllocError>
    requires { vec_len bytes.old + length piece.now ≤ limit }
    ensures { OnOk result (bytes.new.items ≡ bytes.old.items ++ piece.now) }
{
    let needed = bytes.len() + piece.len();
    if bytes.capacity() < needed {
        let doubled = bytes.capacity().saturating_mul(2);
        let room = needed.max(doubled).min(limit);
        bytes.reserve_exact(room - bytes.len())?;
    }
    bytes.extend_from_slice(piece)
}

/// All that the reader has left, if that is at most `limit` bytes. An `Err` of the reader is a failure.
pub(crate) fn read_all<F: Read>(alloc: Global, reader: &mut F, limit: u64) -> Result<Vec<u8>, Fetch>
    ensures all { IfOk result (λ bytes. IfSome (F.remaining reader.old) (λ left. bytes.items ≡ left)) }
    ensures within { IfOk result (λ bytes. length bytes.items ≤ limit) }
    ensures too_long { IsTooLong result → IfSome (F.remaining reader.old) (λ left. limit < length left) }
    ensures limit_told { TellsLimit result limit }
{
    let mut bytes = Vec::new(alloc);
    let mut chunk = [0u8; CHUNK];
    'reads: loop {
        let count = match reader.read(&mut chunk) {
            Ok(count) => count,
            Err(_) => return Err(Fetch::Failed),
        };
        if count == 0 {
            return Ok(bytes);
        }
        if limit - (bytes.len() as u64) < count as u64 {
            return Err(Fetch::TooLong { limit });
        }
        if let Err(e) = append(&mut bytes, &chunk[..count], limit as usize) {
            return Err(Fetch::Memory(e));
        }
    }
}

impl<'a, R: Files> Shelf for DirShelf<'a, R> {
    ghost use Rattle.std.specs.Prelude.{false, None};
    ghost use Rattle.std.specs.FinMap.{empty};

    ghost tells = { λ _. false };

    ghost held = { λ _. empty };

    ghost faults = { λ failures. failures };

    ghost last_failed = { λ _. None };

    fn fetch(&mut self, alloc: Global, name: &str, limit: u64) -> Result<Vec<u8>, Fetch>
        // Each failure is counted, and nothing else is.
        ensures one_fault { IsFailed result → self.new ≡ counted self.old }
        ensures no_fault { ¬ IsFailed result → self.new ≡ self.old }

        // What it does as a shelf that tells nothing.
        ensures never_falls { self.old ≤ self.new }
        ensures failed { IsFailed result → Rose self.old self.new }
        ensures within { IfOk result (λ bytes. length bytes.items ≤ limit) }
        ensures limit_told { TellsLimit result limit }
    {
        let answer = match fs::open(self.rt, name) {
            Ok(mut file) => read_all(alloc, &mut file, limit),
            Err(_) => Err(Fetch::Failed),
        };
        if let Err(Fetch::Failed) = &answer {
            self.failures = one_more(self.failures);
        }
        answer
    }
}

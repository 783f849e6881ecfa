//! A shelf of named documents.

ghost use Rattle.std.specs.Prelude.{◌≡◌, ℕ, ◌≤◌, Bool, List, Option, Some, IsTrue, IsOk, IfOk, length, ◌⊎◌};
ghost use Rattle.fb_base.specs.Answers.{IsFailed, IsTooLong, LacksMemory, TellsLimit};
ghost use Rattle.fb_base.specs.Counts.{Rose};
ghost use Rattle.fb_base.specs.Documents.{Documents, Holds, IsMissing, HasAtMost, HasMoreThan};

use std::alloc::{AllocError, Global};

/// Why a fetch gave no bytes.
#[derive(Debug, Drop)]
pub enum Fetch {
    /// The shelf failed, or has no document of the name.
    Failed,
    /// The document has more than `limit` bytes, the limit that was passed.
    TooLong { limit: u64 },
    /// There was no memory for the bytes.
    Memory(AllocError),
}

/// Documents by name, and a count of faults.
///
/// The count never falls. It is kept in 64 bits and stays at its last value, so where it stands there a fault need not
/// raise it. A shelf that tells what it holds tells its documents and the name of the last fetch that failed; of one
/// that does not, only the clauses on counts, on limits and on lengths say anything.
pub trait Shelf {
    /// Whether it tells what it holds.
    ghost tells: { Self → Bool };

    /// The documents, where it tells them.
    ghost held: { Self → Documents };

    /// How many faults there were.
    ghost faults: { Self → ℕ };

    /// The name of the last fetch that failed, where it tells it.
    ghost last_failed: { Self → Option (List ℕ) };

    /// The bytes of the document of this name, if there are at most `limit` of them.
    fn fetch(&mut self, alloc: Global, name: &str, limit: u64) -> Result<Vec<u8>, Fetch>
        // A fetch changes no document, and no count falls.
        ensures still_tells { tells self.new ≡ tells self.old }
        ensures still_held { held self.new ≡ held self.old }
        ensures never_falls { faults self.old ≤ faults self.new }

        // Bytes are the document's, and never more than the limit.
        ensures bytes { IfOk result (λ bytes. IsTrue (tells self.old) → Holds (held self.old) name.now bytes.items) }
        ensures within { IfOk result (λ bytes. length bytes.items ≤ limit) }
        ensures given { IsTrue (tells self.old) → HasAtMost (held self.old) name.now limit → ¬ Rose (faults self.old) (faults self.new) → IsOk result ⊎ LacksMemory result }

        // A failure comes only with a fault, and a missing name is one.
        ensures failed { IsFailed result → Rose (faults self.old) (faults self.new) }
        ensures missing { IsTrue (tells self.old) → IsMissing (held self.old) name.now → IsFailed result ⊎ LacksMemory result }
        ensures failed_name { IsFailed result → IsTrue (tells self.old) → last_failed self.new ≡ Some name.now }
        ensures other_name { ¬ IsFailed result → last_failed self.new ≡ last_failed self.old }

        // A document that is too long.
        ensures limit_told { TellsLimit result limit }
        ensures too_long { IsTooLong result → IsTrue (tells self.old) → HasMoreThan (held self.old) name.now limit }
        ensures longer { IsTrue (tells self.old) → HasMoreThan (held self.old) name.now limit → ¬ Rose (faults self.old) (faults self.new) → IsTooLong result ⊎ LacksMemory result };
}

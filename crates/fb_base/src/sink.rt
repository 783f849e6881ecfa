//! A sink for bytes.

ghost use Rattle.std.specs.Prelude.{◌≡◌, ℕ, ◌≤◌, ◌++◌, Bool, List, IsTrue, IsOk, OnOk, OnErr};
ghost use Rattle.fb_base.specs.Counts.{Rose};
ghost use Rattle.fb_base.specs.Pieces.{AppendsPrefix};

/// Not all bytes of a piece were taken.
#[derive(Debug, Drop)]
pub struct PutFailed;

/// Takes bytes, piece by piece, and counts its faults.
///
/// The count never falls. It is kept in 64 bits and stays at its last value, so where it stands there a fault need not
/// raise it. Of a sink that does not tell what it took, only the clauses on the count say anything.
pub trait Sink {
    /// Whether it tells what it took.
    ghost tells: { Self → Bool };

    /// The bytes taken so far, where it tells them.
    ghost taken: { Self → List ℕ };

    /// How many faults there were.
    ghost faults: { Self → ℕ };

    /// Appends the bytes. Where it fails, some first bytes of them were appended, which may be none or all.
    fn put(&mut self, bytes: &[u8]) -> Result<(), PutFailed>
        ensures still_tells { tells self.new ≡ tells self.old }
        ensures never_falls { faults self.old ≤ faults self.new }

        // The whole piece on success, and else a prefix of it.
        ensures whole { OnOk result (IsTrue (tells self.old) → taken self.new ≡ taken self.old ++ bytes.now) }
        ensures prefix { OnErr result (IsTrue (tells self.old) → AppendsPrefix (taken self.old) (taken self.new) bytes.now) }

        // It fails only with a fault.
        ensures failed { OnErr result (Rose (faults self.old) (faults self.new)) }
        ensures ok { ¬ Rose (faults self.old) (faults self.new) → IsOk result };
}

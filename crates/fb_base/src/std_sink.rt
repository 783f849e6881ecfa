//! A writer as a sink.

ghost use Rattle.std.specs.Prelude.{◌≡◌, ℕ, ◌≤◌, IsOk, OnOk, OnErr, take};
ghost use Rattle.std.specs.Bool.{OnTrue, OnFalse};
ghost use Rattle.std.specs.Io.KnownBytes.{Appends};
ghost use Rattle.fb_base.specs.Counts.{counted, Rose};

use crate::counting::one_more;
use crate::sink::{PutFailed, Sink};
use std::io::Write;
use std::marker::Model;

/// A sink over a writer, as standard output.
///
/// As a sink it tells nothing that it took: what becomes of the bytes is trusted. Of a writer whose contents are known,
/// its own `put` says more. Each `Err` of the writer is a failure, and so is a write of nothing from a piece that is not
/// empty. A put ends by flushing the writer. A clause sees a sink as its writer and the count of its failures.
#[derive(Debug, Drop)]
pub struct StdSink<W: Write + Drop> {
    writer: W,
    failures: u64,
}

impl<W: Write + Drop> Model for StdSink<W> {
    ghost use Rattle.fb_base.specs.WriterState.{WriterState, state_code};

    ghost Value = { WriterState W };

    ghost coded = { state_code W.code };

    ghost view = { λ sink. record { writer = sink.writer; failures = sink.failures } };
}

impl<W: Write + Drop> StdSink<W> {
    /// A sink that has not failed.
    pub fn new(writer: W) -> StdSink<W>
        ensures { result ≡ record { writer = writer; failures = 0 } }
    {
        StdSink {
            writer,
            failures: 0,
        }
    }

    /// How many puts failed. The count stays at `u64::MAX`.
    pub fn failures(&self) -> u64
        ensures { result ≡ self.now.failures }
    {
        self.failures
    }
}

/// Writes the piece and flushes the writer, and says whether both went well. The writer then has the piece, and else
/// some first bytes of it.
fn write_whole<W: Write>(writer: &mut W, piece: &[u8]) -> bool
    ensures whole { OnTrue result (Appends (W.contents writer.old) (W.contents writer.new) piece.now) }
    ensures prefix { OnFalse result ((count : ℕ) × Appends (W.contents writer.old) (W.contents writer.new) (take count piece.now)) }
{
    let mut done = 0;
    'writes: while done < piece.len() {
        match writer.write(&piece[done..]) {
            Ok(0) | Err(_) => return false,
            Ok(count) => done += count,
        }
    }
    writer.flush().is_ok()
}

impl<W: Write + Drop> Sink for StdSink<W> {
    ghost use Rattle.std.specs.Prelude.{false, []};

    ghost tells = { λ _. false };

    ghost taken = { λ _. [] };

    ghost faults = { λ sink. sink.failures };

    fn put(&mut self, bytes: &[u8]) -> Result<(), PutFailed>
        // The writer has the whole piece on success, and else a prefix of it.
        ensures whole { OnOk result (Appends (W.contents self.old.writer) (W.contents self.new.writer) bytes.now) }
        ensures prefix { OnErr result ((count : ℕ) × Appends (W.contents self.old.writer) (W.contents self.new.writer) (take count bytes.now)) }

        // Each failure is counted, and nothing else is.
        ensures one_fault { OnErr result (self.new.failures ≡ counted self.old.failures) }
        ensures no_fault { OnOk result (self.new.failures ≡ self.old.failures) }

        // What it does as a sink that tells nothing.
        ensures never_falls { self.old.failures ≤ self.new.failures }
        ensures failed { OnErr result (Rose self.old.failures self.new.failures) }
        ensures ok { ¬ Rose self.old.failures self.new.failures → IsOk result }
    {
        if write_whole(&mut self.writer, bytes) {
            return Ok(());
        }
        self.failures = one_more(self.failures);
        Err(PutFailed)
    }
}

//! Text put to a sink in pieces.

ghost use Rattle.std.specs.Prelude.{◌≡◌, ◌++◌, ◌≤◌, IsTrue, IsOk, OnOk, OnErr};
ghost use Rattle.fb_base.specs.Counts.{Rose};
ghost use Rattle.fb_base.specs.Pieces.{AppendsPrefix};

use fb_base::{PutFailed, Sink};

/// The greatest length of a piece, in bytes.
const PIECE: usize = 4096;

/// Puts the text in pieces of 4,096 bytes, the last one shorter.
pub fn put_all<S: Sink>(sink: &mut S, text: &[u8]) -> Result<(), PutFailed>
    ensures still_tells { S.tells sink.new ≡ S.tells sink.old }
    ensures never_falls { S.faults sink.old ≤ S.faults sink.new }
    ensures whole { OnOk result (IsTrue (S.tells sink.old) → S.taken sink.new ≡ S.taken sink.old ++ text.now) }
    ensures prefix { OnErr result (IsTrue (S.tells sink.old) → AppendsPrefix (S.taken sink.old) (S.taken sink.new) text.now) }
    ensures failed { OnErr result (Rose (S.faults sink.old) (S.faults sink.new)) }
    ensures ok { ¬ Rose (S.faults sink.old) (S.faults sink.new) → IsOk result }
{
    let mut at = 0;
    'pieces: while at < text.len() {
        let end = text.len().min(at + PIECE);
        if let Err(failed) = sink.put(&text[at..end]) {
            return Err(failed);
        }
        at = end;
    }
    Ok(())
}

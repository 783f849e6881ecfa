//! The call.

ghost use Rattle.std.specs.Prelude.{◌≡◌, ◌⊎◌, ◌≤◌, Some, map, string_bytes};
ghost use Rattle.fbcc_core.specs.Causes.{IsCaused, IsOutOfMemory, Refuses, Judges, Completes, Verifies, IsTold, Took, TookPrefix};
ghost use Rattle.fbcc_core.specs.Commands.{work_of};
ghost use Rattle.fbcc_core.specs.NamedDocuments.{AreNamed, IsCaseInRange, IsOfCase};
ghost use Rattle.fbcc_core.specs.Printed.{PrintsCapacity, ChecksCapacity, PrintsSummary};
ghost use Rattle.fbcc_core.specs.Seen.{shelf_seen, sink_seen};
ghost use Rattle.fbcc_core.specs.Statuses.{status_of};
ghost use Rattle.fbcc_core.specs.Words.{Accepts, IsGenerated, names_of};

use crate::answer::{Fault, Outcome, status};
use crate::check_command::check_work;
use crate::domain_command::domain_work;
use crate::net_command::net_work;
use crate::output::put_all;
use crate::paper::Paper;
use crate::request::{Command, command_in};
use crate::rows_command::rows_work;
use crate::selftest_command::selftest_work;
use crate::telling::tell;
use crate::work::Work;
use command_words::{Request, WordsError, read_words};
use fan_out::Gate;
use fb_base::{Shelf, Sink};
use std::alloc::Global;
use std::thread::Threads;

/// Does what the words ask for: reads documents from `shelf`, puts the answer to `out`, and tells a fault on `err`.
///
/// The states of the grid are shared among the workers that the words give, as threads of the runtime; `gate` is told of
/// each state, by its number, before a worker turns to it.
pub fn fbcc<R: Threads + Sync, H: Shelf, O: Sink, E: Sink, G: Gate + Sync>(
    rt: &R,
    alloc: Global,
    words: &[String],
    shelf: &mut H,
    out: &mut O,
    err: &mut E,
    gate: &G,
) -> Outcome
    ensures status { result.status ≡ status_of result.fault }

    // Words that are no command are refused, unless memory ran out, and nothing else is; nothing is fetched then, nor for a generated
    // case.
    ensures usage { result.fault ≡ Some Fault.Usage → ¬ Accepts (map string_bytes words.now) }
    ensures misused { ¬ Accepts (map string_bytes words.now) → (result.fault ≡ Some Fault.Usage) ⊎ IsOutOfMemory result.fault }
    ensures untouched { ¬ Accepts (map string_bytes words.now) → shelf.new ≡ shelf.old }
    ensures generated { IsGenerated (map string_bytes words.now) → shelf.new ≡ shelf.old }

    // Each answer comes only by its cause, and the cause says what was put to the output. At status 0 of `rows` the multipliers of the
    // document prove its target, which then holds at every balanced list of net positions in the box that meets the cited rows; at
    // status 0 of `net` the document is a grid, and the text that of its net positions; at status 0 of `domain`, `certify` and
    // `report` the text is that of a valid certificate: every balanced list of net positions in the box that meets its kept inner
    // rows is secure, and every secure one meets its outer rows.
    ensures caused { IsCaused (map string_bytes words.now) (shelf_seen H.tells H.held H.faults H.last_failed shelf.old shelf.new) (sink_seen O.tells O.taken O.faults out.old out.new) result.fault }

    // Each refusal and each verdict comes wherever it is caused, unless the outside failed or memory ran out, and a domain is
    // printed wherever its documents can be read and its states are in order.
    ensures refuses { Refuses (map string_bytes words.now) (shelf_seen H.tells H.held H.faults H.last_failed shelf.old shelf.new) result.fault }
    ensures judges { Judges (map string_bytes words.now) (shelf_seen H.tells H.held H.faults H.last_failed shelf.old shelf.new) (sink_seen O.tells O.taken O.faults out.old out.new) result.fault }
    ensures completes { Completes (map string_bytes words.now) (shelf_seen H.tells H.held H.faults H.last_failed shelf.old shelf.new) (sink_seen O.tells O.taken O.faults out.old out.new) result.fault }

    // A certificate is judged wherever it and the documents can be read: the answer is yes exactly where it is valid for the inputs
    // and all its labels are due, and otherwise the first record that fails, with the first reason there.
    ensures verifies { Verifies (map string_bytes words.now) (shelf_seen H.tells H.held H.faults H.last_failed shelf.old shelf.new) (sink_seen O.tells O.taken O.faults out.old out.new) result.fault }

    // The promise of a domain: where the words ask for one and the answer is no fault, what was put is the table, the text or the
    // report of a certificate for the inputs that the documents say, which is sound: it is valid, and
    // - every balanced list of net positions in the box that meets its kept inner rows is secure, and every secure one meets its
    //   outer rows: `BracketSecure` (security/specs/Capacity.antt); what secure is: `IsSecure` (security/specs/Secure.antt);
    // - each row, kept or not, brackets its own exact flow, its gap being the difference of its two sides: `IsBracketed`
    //   (security/specs/Capacity.antt); the gap is small, by a bound from the inputs alone: `HasSmallGaps`
    //   (valid_domains/specs/Gaps.antt);
    // - rows that are removed follow from kept ones and the box by their multipliers: `AreCites` (fb_certificate/specs/Lists.antt),
    //   a part of a valid certificate;
    // - no row is kept that follows from the box or from one other kept row: `IsThinDomain` (fb_certificate/specs/Thin.antt).
    ensures capacity { PrintsCapacity (map string_bytes words.now) (shelf_seen H.tells H.held H.faults H.last_failed shelf.old shelf.new) (sink_seen O.tells O.taken O.faults out.old out.new) result.fault }

    // The same promise, but the last part, where the answer to `check` is yes: for the certificate that was given, whoever made it.
    ensures checked { ChecksCapacity (map string_bytes words.now) (shelf_seen H.tells H.held H.faults H.last_failed shelf.old shelf.new) (sink_seen O.tells O.taken O.faults out.old out.new) result.fault }

    // What `selftest` puts where its answer is no fault: the summary of a certificate for the inputs that the generated documents
    // say, of which the same is promised as of a domain that is printed.
    ensures tested { PrintsSummary (map string_bytes words.now) (sink_seen O.tells O.taken O.faults out.old out.new) result.fault }

    // What was put to the error output.
    ensures told { IsTold (sink_seen E.tells E.taken E.faults err.old err.new) result.fault }
{
    let answer = answer_to(rt, alloc, words, shelf, out, gate);
    let fault = tell(alloc, answer, err);
    Outcome {
        status: status(&fault),
        fault,
    }
}

/// Does what the words ask for, and tells no fault.
fn answer_to<R: Threads + Sync, H: Shelf, O: Sink, G: Gate + Sync>(
    rt: &R,
    alloc: Global,
    words: &[String],
    shelf: &mut H,
    out: &mut O,
    gate: &G,
) -> Option<Fault>
    ensures usage { result ≡ Some Fault.Usage → ¬ Accepts (map string_bytes words.now) }
    ensures misused { ¬ Accepts (map string_bytes words.now) → (result ≡ Some Fault.Usage) ⊎ IsOutOfMemory result }
    ensures untouched { ¬ Accepts (map string_bytes words.now) → shelf.new ≡ shelf.old }
    ensures generated { IsGenerated (map string_bytes words.now) → shelf.new ≡ shelf.old }
    ensures caused { IsCaused (map string_bytes words.now) (shelf_seen H.tells H.held H.faults H.last_failed shelf.old shelf.new) (sink_seen O.tells O.taken O.faults out.old out.new) result }
{
    let request = match read_words(alloc, words) {
        Ok(request) => request,
        Err(WordsError::Usage) => return Some(Fault::Usage),
        Err(WordsError::Memory(e)) => return Some(Fault::Memory(e)),
    };
    let Some(command) = command_in(&request) else {
        return Some(Fault::Usage);
    };
    match do_work(rt, alloc, &request, command, shelf, gate) {
        Ok(work) => put_work(work, out),
        Err(fault) => Some(fault),
    }
}

/// The work of the command, on the documents that the request names.
fn do_work<R: Threads + Sync, H: Shelf, G: Gate + Sync>(
    rt: &R,
    alloc: Global,
    request: &Request<'_>,
    command: Command,
    shelf: &mut H,
    gate: &G,
) -> Result<Work, Fault>
    requires named { AreNamed command (names_of request.now) }
    requires case { IsCaseInRange command }
    requires workers { (1 ≤ request.now.workers) × (request.now.workers ≤ 64) }
    ensures generated { IsOfCase command → shelf.new ≡ shelf.old }
    ensures steps { work_of (names_of request.now) (shelf_seen H.tells H.held H.faults H.last_failed shelf.old shelf.new) command result }
{
    match command {
        Command::Rows => rows_work(alloc, request, shelf),
        Command::Net => net_work(alloc, request, shelf),
        Command::Domain => domain_work(rt, alloc, request, Paper::Table, shelf, gate),
        Command::Certify => domain_work(rt, alloc, request, Paper::Evidence, shelf, gate),
        Command::Check => check_work(rt, alloc, request, shelf, gate),
        Command::Report => domain_work(rt, alloc, request, Paper::Report, shelf, gate),
        Command::Selftest { case, nodes } => {
            let workers = u32::from(request.workers);
            selftest_work(rt, alloc, case, nodes as u32, gate, workers)
        }
    }
}

/// Puts the text of the work, and answers its verdict, or that the output failed.
fn put_work<O: Sink>(work: Work, out: &mut O) -> Option<Fault>
    ensures { ((result ≡ work.verdict) × Took (sink_seen O.tells O.taken O.faults out.old out.new) work.text) ⊎ ((result ≡ Some Fault.WriteFault) × TookPrefix (sink_seen O.tells O.taken O.faults out.old out.new) work.text) }
{
    match put_all(out, work.text.as_slice()) {
        Ok(()) => work.verdict,
        Err(_failed) => Some(Fault::WriteFault),
    }
}

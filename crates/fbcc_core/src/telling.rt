//! The line that tells a fault.

ghost use Rattle.std.specs.Prelude.{◌≡◌, Some, IfOk, IfSome, IfNone, string_bytes};
ghost use Rattle.fbcc_core.specs.Causes.{IsTold, IsLineTold, Took, TookPrefix};
ghost use Rattle.fbcc_core.specs.Seen.{sink_seen};
ghost use Rattle.fbcc_core.specs.Telling.{IsMade, IsFaultKept, IsKept};
ghost use Rattle.fbcc_core.specs.Texts.{fault_line, placed_line};
ghost use Rattle.std.specs.Prelude.{◌⊎◌};

use crate::answer::Fault;
use crate::kinds::{
    crac_kind_name, grid_kind_name, key_kind_name, reduction_kind_name, settings_kind_name,
};
use crate::output::put_all;
use fb_base::Sink;
use fb_types::Text;
use std::alloc::{AllocError, Global};

/// Tells the answer, if a line is due for it. Where there is no memory for the line, the answer becomes want of memory.
pub fn tell<E: Sink>(alloc: Global, answer: Option<Fault>, err: &mut E) -> Option<Fault>
    ensures kept { IsKept answer result }
    ensures told { IsTold (sink_seen E.tells E.taken E.faults err.old err.new) result }
{
    match answer {
        None => None,
        Some(Fault::No { row, reason }) => Some(Fault::No { row, reason }),
        Some(fault) => Some(tell_fault(alloc, fault, err)),
    }
}

/// Tells the fault by its line.
fn tell_fault<E: Sink>(alloc: Global, fault: Fault, err: &mut E) -> Fault
    ensures kept { IsFaultKept fault result }
    ensures told { IsLineTold (sink_seen E.tells E.taken E.faults err.old err.new) result }
{
    if let Some(line) = fixed_line(&fault) {
        put_line(err, line);
        return fault;
    }
    match made_line(alloc, &fault) {
        Ok(line) => {
            put_line(err, line.as_str());
            fault
        }
        Err(e) => {
            put_line(err, OUT_OF_MEMORY);
            Fault::Memory(e)
        }
    }
}

/// Puts a line. That it fails changes nothing.
fn put_line<E: Sink>(err: &mut E, line: &str)
    ensures { Took (sink_seen E.tells E.taken E.faults err.old err.new) line.now ⊎ TookPrefix (sink_seen E.tells E.taken E.faults err.old err.new) line.now }
{
    let _ = put_all(err, line.as_bytes());
}

/// The line of want of memory.
const OUT_OF_MEMORY: &str = "out of memory\n";

/// The line of a fault that has no name and no number in it.
fn fixed_line(fault: &Fault) -> Option<&'static str>
    ensures line { IfSome result (λ line. line.now ≡ fault_line fault.now) }
    ensures none { IfNone result (IsMade fault.now) }
{
    match fault {
        Fault::No { .. } => Some(""),
        Fault::Usage => Some("usage: fbcc COMMAND [--name value]\n"),
        Fault::ReadFault { .. } => None,
        Fault::TooLong { .. } => None,
        Fault::GridFault { .. } => None,
        Fault::JsonFault { .. } => None,
        Fault::CracFault { .. } => None,
        Fault::KeyFault { .. } => None,
        Fault::SettingsFault { .. } => None,
        Fault::ReductionFault { .. } => None,
        Fault::NoSlack => Some("no slack node\n"),
        Fault::SplitGrid { .. } => None,
        Fault::RangeExceeded { .. } => None,
        Fault::CertificateFault { .. } => None,
        Fault::WriteFault => Some("cannot write\n"),
        Fault::Memory(_) => Some("out of memory\n"),
    }
}

/// The line of a fault that has a name or a number in it.
fn made_line(alloc: Global, fault: &Fault) -> Result<String, AllocError>
    requires { IsMade fault.now }
    ensures { IfOk result (λ line. string_bytes line ≡ fault_line fault.now) }
{
    match fault {
        Fault::No { .. } => unreachable!(),
        Fault::Usage => unreachable!(),
        Fault::ReadFault { document } => format!(in alloc; "cannot read {}\n", document.name()),
        Fault::TooLong { document, limit } => {
            format!(in alloc; "{} is longer than {limit} bytes\n", document.name())
        }
        Fault::GridFault { line, kind } => {
            format!(in alloc; "grid line {line}: {}\n", grid_kind_name(*kind))
        }
        Fault::JsonFault { document } => format!(in alloc; "{} is not JSON\n", document.name()),
        Fault::CracFault { place, kind } => {
            placed_line(alloc, "crac", place, crac_kind_name(*kind))
        }
        Fault::KeyFault { place, kind } => placed_line(alloc, "glsk", place, key_kind_name(*kind)),
        Fault::SettingsFault { place, kind } => {
            placed_line(alloc, "settings", place, settings_kind_name(*kind))
        }
        Fault::ReductionFault { row, kind } => {
            format!(in alloc; "reductions row {row}: {}\n", reduction_kind_name(*kind))
        }
        Fault::NoSlack => unreachable!(),
        Fault::SplitGrid { state, node } => {
            format!(in alloc; "split grid in state {state} at node {}\n", node.as_text())
        }
        Fault::RangeExceeded { state } => {
            format!(in alloc; "numbers past range in state {state}\n")
        }
        Fault::CertificateFault { row } => {
            format!(in alloc; "certificate row {row} cannot be read\n")
        }
        Fault::WriteFault => unreachable!(),
        Fault::Memory(_) => unreachable!(),
    }
}

/// A line that names a document, a place in it, and what is wrong there.
fn placed_line(
    alloc: Global,
    document: &str,
    place: &Text,
    kind: &str,
) -> Result<String, AllocError>
    ensures { IfOk result (λ text. string_bytes text ≡ placed_line document.now place.now kind.now) }
{
    let place = place.as_text();
    format!(in alloc; "{document} {place}: {kind}\n")
}

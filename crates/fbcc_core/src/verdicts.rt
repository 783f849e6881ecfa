//! Verdicts: yes, and no with its place and reason.

ghost use Rattle.std.specs.Prelude.{◌≡◌, IfErr, IfOk, None, Some};
ghost use Rattle.fbcc_core.specs.Steps.{IsMemory};
ghost use Rattle.fbcc_core.specs.Texts.{no_text, reason_text, yes_text};

use crate::answer::Fault;
use crate::work::Work;
use certificate_check::Reason;
use fb_types::Items;
use std::alloc::Global;

/// The verdict yes.
pub fn yes(alloc: Global) -> Result<Work, Fault>
    ensures text { IfOk result (λ work. work.text ≡ yes_text) }
    ensures verdict { IfOk result (λ work. work.verdict ≡ None) }
    ensures memory { IfErr result IsMemory }
{
    match String::from_str(alloc, "yes\n") {
        Ok(text) => Ok(Work {
            text: Items::from_vec(text.into_bytes()),
            verdict: None,
        }),
        Err(e) => Err(Fault::Memory(e)),
    }
}

/// The verdict no, with the record or the line and the reason.
pub fn no(alloc: Global, row: u64, reason: Reason) -> Result<Work, Fault>
    ensures text { IfOk result (λ work. work.text ≡ no_text row reason) }
    ensures verdict { IfOk result (λ work. work.verdict ≡ Some (Fault.No row reason)) }
    ensures memory { IfErr result IsMemory }
{
    let word = reason_word(reason);
    match format!(in alloc; "no {row} {word}\n") {
        Ok(text) => Ok(Work {
            text: Items::from_vec(text.into_bytes()),
            verdict: Some(Fault::No { row, reason }),
        }),
        Err(e) => Err(Fault::Memory(e)),
    }
}

/// The word of a reason.
fn reason_word(reason: Reason) -> &'static str
    ensures { result.now ≡ reason_text reason }
{
    match reason {
        Reason::Order => "Order",
        Reason::Barrier => "Barrier",
        Reason::Angle => "Angle",
        Reason::Kappa => "Kappa",
        Reason::Class => "Class",
        Reason::Coefficient => "Coefficient",
        Reason::RightSide => "RightSide",
        Reason::Cited => "Cited",
        Reason::Follows => "Follows",
    }
}

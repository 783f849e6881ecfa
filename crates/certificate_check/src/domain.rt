//! Whether the rows and the cites of a certificate are right, once its states are proved.

ghost use Rattle.std.specs.Prelude.{◌+◌, ◌^◌, ◌≤◌, IfOk};
ghost use Rattle.fb_certificate.specs.Valid.{AreProofs};
ghost use Rattle.fb_certificate.specs.Whole.{IsWhole};
ghost use Rattle.certificate_check.specs.Judged.{IsJudged, domain_records, number_of};

use crate::cites::judge_lists;
use crate::judgement::Judgement;
use crate::rows::judge_rows;
use fb_certificate::{Certificate, Inputs, make_rows, row_zones};
use std::alloc::{AllocError, Global};
use valid_domains::row_ranges;

/// Judges the rows and the cites of a certificate whose states are proved.
pub(crate) fn judge_domain(
    alloc: Global,
    inputs: &Inputs,
    certificate: &Certificate,
) -> Result<Judgement, AllocError>
    requires whole { IsWhole inputs.now }
    requires proofs { AreProofs inputs.now certificate.now.states }
    ensures judged { IfOk result (IsJudged inputs.now certificate.now (domain_records inputs.now certificate.now)) }
    ensures small { IfOk result (λ j. number_of j ≤ 2 ^ 63 + 2 ^ 36) }
{
    let due = make_rows(alloc, inputs, &certificate.states)?;
    let rows = certificate.rows.as_slice();
    let done = match judge_rows(due.as_slice(), rows) {
        Judgement::Passed { records } => records,
        Judgement::Failed { record, reason } => {
            return Ok(Judgement::Failed { record, reason });
        }
    };
    row_ranges(inputs, &certificate.states, &certificate.rows);
    let zones = row_zones(alloc, &inputs.settings, &inputs.keys)?;
    let inner = certificate.inner.as_slice();
    let outer = certificate.outer.as_slice();
    let lists = judge_lists(alloc, rows, &zones.bounds, inner, outer)?;
    Ok(lists.behind(done))
}

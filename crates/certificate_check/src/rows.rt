//! Whether the rows of a certificate are those that the proofs of its states give.

ghost use Rattle.std.specs.Prelude.{◌≡◌, ◌+◌, ◌≤◌, ◌↔◌, IsTrue, length};
ghost use Rattle.certificate_check.specs.Judged.{AreRowsJudged, number_of};
ghost use Rattle.certificate_check.specs.Rulings.{RowRuling};

use crate::judgement::Judgement;
use crate::verdict::Reason;
use fb_certificate::RowProof;

/// Whether two lists of numbers are the same.
fn are_same(a: &[i64], b: &[i64]) -> bool
    ensures { IsTrue result ↔ (a.now ≡ b.now) }
{
    a == b
}

/// Whether two rows have the same class.
fn is_same_class(row: &RowProof, due: &RowProof) -> bool
    ensures { IsTrue result ↔ (row.now.class ≡ due.now.class) }
{
    row.class == due.class
}

/// Whether two rows have the same coefficients.
fn are_same_coefficients(row: &RowProof, due: &RowProof) -> bool
    ensures { IsTrue result ↔ (row.now.a ≡ due.now.a) }
{
    are_same(row.a.as_slice(), due.a.as_slice())
}

/// Whether two rows have the same right sides.
fn are_same_sides(row: &RowProof, due: &RowProof) -> bool
    ensures { IsTrue result ↔ ((row.now.r_in ≡ due.now.r_in) × (row.now.r_out ≡ due.now.r_out)) }
{
    row.r_in == due.r_in && row.r_out == due.r_out
}

/// The first reason for which a row fails beside the one that is due, if it does.
fn row_fault(due: &RowProof, row: &RowProof) -> Option<Reason>
    ensures { RowRuling due.now row.now result }
{
    if !is_same_class(row, due) {
        return Some(Reason::Class);
    }
    if !are_same_coefficients(row, due) {
        return Some(Reason::Coefficient);
    }
    if !are_same_sides(row, due) {
        return Some(Reason::RightSide);
    }
    None
}

/// Judges the rows beside those that are due.
pub(crate) fn judge_rows(due: &[RowProof], rows: &[RowProof]) -> Judgement
    ensures judged { AreRowsJudged due.now rows.now result }
    ensures small { number_of result ≤ length due.now + 1 }
{
    for i in 0..due.len() {
        if rows.len() <= i {
            return Judgement::Failed {
                record: i as u64 + 1,
                reason: Reason::Order,
            };
        }
        if let Some(reason) = row_fault(&due[i], &rows[i]) {
            return Judgement::Failed {
                record: i as u64 + 1,
                reason,
            };
        }
    }
    if due.len() < rows.len() {
        return Judgement::Failed {
            record: due.len() as u64 + 1,
            reason: Reason::Order,
        };
    }
    Judgement::Passed {
        records: due.len() as u64,
    }
}

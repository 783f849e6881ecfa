//! What becomes of a part of a certificate's records.

ghost use Rattle.std.specs.Prelude.{◌≡◌, ◌+◌, ◌*◌, ◌^◌, ◌<◌, ◌≤◌, All, length};
ghost use Rattle.certificate_check.specs.Judged.{number_of, behind, followed, joined};

use crate::verdict::Reason;

/// What becomes of a part of a certificate's records.
#[derive(Clone, Copy, Debug)]
pub(crate) enum Judgement {
    /// All of them pass: so many.
    Passed { records: u64 },
    /// The first that fails, by its number among them, from 1, and the first reason there.
    Failed { record: u64, reason: Reason },
}

impl Judgement {
    /// The judgement of the part and of so many records before it, which pass.
    pub(crate) fn behind(self, before: u64) -> Judgement
        requires { before + number_of self < 2 ^ 64 }
        ensures value { result ≡ behind before self }
        ensures number { number_of result ≡ before + number_of self }
    {
        match self {
            Judgement::Passed { records } => Judgement::Passed {
                records: before + records,
            },
            Judgement::Failed { record, reason } => Judgement::Failed {
                record: before + record,
                reason,
            },
        }
    }

    /// The judgement of the part and of one after it: the first failure of both, if there is one.
    pub(crate) fn then(self, later: Judgement) -> Judgement
        requires { number_of self + number_of later < 2 ^ 64 }
        ensures value { result ≡ followed self later }
        ensures number { number_of result ≤ number_of self + number_of later }
    {
        match self {
            Judgement::Passed { records } => later.behind(records),
            Judgement::Failed { record, reason } => Judgement::Failed { record, reason },
        }
    }
}

/// The judgement of parts, one after another, from the judgement of each: the first failure, if there is one.
pub(crate) fn joined(judgements: &[Judgement]) -> Judgement
    requires few { length judgements.now ≤ 513 }
    requires small { All (λ j. number_of j ≤ 303) judgements.now }
    ensures value { result ≡ joined judgements.now }
    ensures small { number_of result ≤ 303 * 513 }
{
    let mut judgement = Judgement::Passed { records: 0 };
    for next in judgements {
        judgement = judgement.then(*next);
    }
    judgement
}

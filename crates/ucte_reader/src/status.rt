//! The statuses of a branch.

ghost use Rattle.std.specs.Prelude.{◌≡◌};
ghost use Rattle.ucte_reader.specs.Branches.{coupler_at, status_at, is_running as is_running_status, is_coupler as is_coupler_status, is_in_operation as is_in_operation_status, branch_kind};

use crate::block::Form;
use fb_types::BranchKind;

/// Whether a branch is in operation, and whether it is a coupler.
#[derive(Clone, Copy, Debug)]
pub enum Status {
    Running,
    Out,
    ClosedCoupler,
    OpenCoupler,
}

fn coupler(form: Form, digit: char) -> Option<Status>
    ensures { result ≡ coupler_at form digit }
{
    match form {
        Form::Line => {
            if digit == '2' {
                Some(Status::ClosedCoupler)
            } else if digit == '7' {
                Some(Status::OpenCoupler)
            } else {
                None
            }
        }
        Form::Transformer => None,
    }
}

/// The status that a field says, if it may stand there: couplers are lines alone.
pub fn status_of(form: Form, text: &[char]) -> Option<Status>
    ensures { result ≡ status_at form text.now }
{
    match text {
        [digit] => {
            if *digit == '0' || *digit == '1' {
                Some(Status::Running)
            } else if *digit == '8' || *digit == '9' {
                Some(Status::Out)
            } else {
                coupler(form, *digit)
            }
        }
        _ => None,
    }
}

/// Whether power flows through the branch by its susceptance: it is in operation, and no coupler.
pub fn is_running(status: Status) -> bool
    ensures { result ≡ is_running_status status }
{
    matches!(status, Status::Running)
}

pub fn is_coupler(status: Status) -> bool
    ensures { result ≡ is_coupler_status status }
{
    matches!(status, Status::ClosedCoupler | Status::OpenCoupler)
}

pub fn is_in_operation(status: Status) -> bool
    ensures { result ≡ is_in_operation_status status }
{
    matches!(status, Status::Running | Status::ClosedCoupler)
}

pub fn kind_of(form: Form, status: Status) -> BranchKind
    ensures { result ≡ branch_kind form status }
{
    match form {
        Form::Transformer => BranchKind::Transformer,
        Form::Line => {
            if is_coupler(status) {
                BranchKind::Coupler
            } else {
                BranchKind::Line
            }
        }
    }
}

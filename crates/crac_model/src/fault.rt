//! Why a document is no CRAC.

ghost use Rattle.std.specs.Prelude.{◌≡◌};
ghost use Rattle.crac_model.specs.Answer.{error_of as error_in};

use fb_types::Text;
use json_reading::ReadError;
use std::alloc::AllocError;
use thiserror::Error;

/// What is wrong with a CRAC.
#[derive(Clone, Copy, Debug, PartialEq, Eq)]
pub enum CracKind {
    /// A member that must be there is absent.
    Missing,
    /// A member or an item of another form, or a word that may not stand there.
    WrongType,
    UnknownInstant,
    UnknownContingency,
    /// A text that names no branch and no tie line of the grid.
    UnknownElement,
    CouplerMonitored,
    /// A limit below 1 W.
    LimitNotPositive,
    OutOfRange,
    /// An element without any limit.
    NoLimit,
    /// A limit in per cent of a current that neither the document nor the grid gives.
    NoCurrent,
    /// A reliability margin under both of its names.
    BothMargins,
    DuplicateId,
    /// More than 512 contingencies or 20,000 elements.
    TooMany,
}

/// Why a document is not read as a CRAC.
#[derive(Debug, Drop, Error)]
pub enum CracError {
    /// The first fault of the document, at a place such as `flowCnecs[3].thresholds[0].max`; places count from 0.
    #[error("a fault of the CRAC")]
    Fault { place: Text, kind: CracKind },
    #[error("out of memory")]
    Memory(AllocError),
}

/// The error of a reading.
pub fn error_of(error: ReadError<CracKind>) -> CracError
    ensures { result ≡ error_in error }
{
    match error {
        ReadError::Fault { place, kind } => CracError::Fault { place, kind },
        ReadError::Memory(e) => CracError::Memory(e),
    }
}

//! What a reductions document says, and why it is not read.

use std::alloc::AllocError;

/// What the validation of capacities takes off the limit of an element in one direction.
#[derive(Clone, Copy, Debug, PartialEq, Eq)]
pub struct Reduction {
    /// The element, by its place in the CRAC's list, from 0.
    pub element: u32,
    /// Whether the direction is OPPOSITE and not DIRECT.
    pub opposite: bool,
    /// The reduction by the coordinated validation (CVA), in watts: 0 to 10^11.
    pub cva: i64,
    /// The reduction by the individual validation (IVA), in watts: 0 to 10^11.
    pub iva: i64,
}

/// What is wrong with a row of a reductions document.
#[derive(Clone, Copy, Debug, PartialEq, Eq)]
pub enum ReductionKind {
    /// The record has not four fields.
    Missing,
    /// The first row is not the header, or a field is no text, no direction or no number.
    WrongType,
    /// No entered element of the id is limited in the direction.
    UnknownElement,
    /// A reduction is below 0 or above 10^11 W.
    OutOfRange,
    /// An earlier record names the element and the direction.
    Twice,
}

/// Why reductions are not read: the document's one first fault and its row, counted from 1, or want of memory.
#[derive(Debug, Drop)]
pub enum ReductionError {
    Fault { row: u64, kind: ReductionKind },
    Memory(AllocError),
}

impl From<AllocError> for ReductionError {
    ghost use Rattle.std.specs.Prelude.{◌≡◌};
    ghost use Rattle.run_settings.specs.declared.reduction.ReductionError.TheVariants.{Memory};

    ghost from_gives = { λ d e. e ≡ Memory d };

    fn from(e: AllocError) -> ReductionError {
        ReductionError::Memory(e)
    }
}

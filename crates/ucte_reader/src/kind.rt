//! Why a file is no grid.

ghost use Rattle.std.specs.Prelude.{◌≡◌};
ghost use Rattle.ucte_reader.specs.declared.kind.GridError.TheVariants.{Memory};

use std::alloc::{AllocError, AllocFailed};

/// What is wrong with a line of a grid.
#[derive(Clone, Copy, Debug, PartialEq, Eq)]
pub enum GridKind {
    /// A heading of no block, or a line under none.
    UnknownBlock,
    BadNumber,
    /// A node code of fewer than 7 characters, or without a digit as its seventh.
    BadCode,
    /// A status or a node type that may not stand there.
    BadStatus,
    DuplicateNode,
    /// A branch, or a regulation, of an id that an earlier one has.
    DuplicateBranch,
    UnknownNode,
    /// A regulation of no transformer.
    UnknownBranch,
    NegativeReactance,
    /// A susceptance outside 1 to 10^11 kW/rad.
    SusceptanceOutOfRange,
    /// All loads and generations together are above 10^12 W in size.
    InjectionOutOfRange,
    /// More than 4,096 nodes or 16,384 branches.
    TooMany,
    /// No line has a fault, and there is no node.
    NoNodes,
    /// A regulation of unknown type, past 180 degrees, or that leaves no voltage.
    BadPhase,
}

/// Why a file is not read as a grid.
#[derive(Debug, Drop)]
pub enum GridError {
    /// The first line that has a fault, counted from 1, and its first failing check. `NoNodes` stands at line 0.
    Fault { line: u64, kind: GridKind },
    Memory(AllocError),
}

impl From<AllocError> for GridError {
    ghost from_gives = { λ e made. made ≡ Memory e };

    fn from(e: AllocError) -> GridError {
        GridError::Memory(e)
    }
}

/// Why a line is not taken.
#[derive(Debug, Drop)]
pub enum LineError {
    Fault(GridKind),
    Memory(AllocError),
}

impl From<AllocError> for LineError {
    ghost use Rattle.ucte_reader.specs.declared.kind.LineError.TheVariants.{Memory as NoMemory};

    ghost from_gives = { λ e made. made ≡ NoMemory e };

    fn from(e: AllocError) -> LineError {
        LineError::Memory(e)
    }
}

impl<T: Drop> From<AllocFailed<T>> for LineError {
    ghost use Rattle.std.specs.Prelude.{alloc_error};
    ghost use Rattle.ucte_reader.specs.declared.kind.LineError.TheVariants.{Memory as NoMemory};

    ghost from_gives = { λ _ made. made ≡ NoMemory alloc_error };

    fn from(_e: AllocFailed<T>) -> LineError {
        LineError::Memory(AllocError)
    }
}

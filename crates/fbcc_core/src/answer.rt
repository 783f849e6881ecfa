//! The answers of the call.

ghost use Rattle.std.specs.Prelude.{◌≡◌};
ghost use Rattle.fbcc_core.specs.Statuses.{status_of, name_of};

use certificate_check::Reason;
use crac_model::CracKind;
use fb_types::Text;
use glsk_keys::KeyKind;
use run_settings::{ReductionKind, SettingsKind};
use std::alloc::AllocError;
use ucte_reader::GridKind;

/// A document that a command reads.
#[derive(Clone, Copy, Debug, PartialEq, Eq)]
pub enum Document {
    Grid,
    Crac,
    Settings,
    Glsk,
    Reductions,
    Certificate,
    Rows,
}

/// Why the call did not do its work, or that its answer is no.
#[derive(Debug, Drop)]
pub enum Fault {
    /// The answer is no: at this record of the certificate, counted from 1, or at this line of the rows document, and for
    /// this reason.
    No { row: u64, reason: Reason },
    /// The words are no command with its options.
    Usage,
    /// The shelf failed at the document.
    ReadFault { document: Document },
    /// The document has more than `limit` bytes.
    TooLong { document: Document, limit: u64 },
    /// This line of the grid is the first that has a fault, and this is its first one.
    GridFault { line: u64, kind: GridKind },
    /// The document is not JSON.
    JsonFault { document: Document },
    /// The first fault of the CRAC and its place.
    CracFault { place: Text, kind: CracKind },
    /// The first fault of the shift keys and its place.
    KeyFault { place: Text, kind: KeyKind },
    /// The first fault of the settings and its place.
    SettingsFault { place: Text, kind: SettingsKind },
    /// The first fault of the reductions and its row, counted from 1.
    ReductionFault { row: u64, kind: ReductionKind },
    /// The settings name no slack node, and no node has type 3.
    NoSlack,
    /// This state is the first that is split, and the node with this code its first stranded one.
    SplitGrid { state: u32, node: Text },
    /// This state is the first outside the range rule.
    RangeExceeded { state: u32 },
    /// This record of the certificate, or line of the rows document, is the first that is none.
    CertificateFault { row: u64 },
    /// The output failed.
    WriteFault,
    /// Memory ran out.
    Memory(AllocError),
}

/// The status with which the program ends, and the fault, if there is one.
#[derive(Debug, Drop)]
pub struct Outcome {
    pub status: u8,
    pub fault: Option<Fault>,
}

/// The status of an answer.
pub fn status(fault: &Option<Fault>) -> u8
    ensures { result ≡ status_of fault.now }
{
    match fault {
        None => 0,
        Some(Fault::No { .. }) => 1,
        Some(Fault::Usage) => 2,
        Some(Fault::ReadFault { .. }) => 3,
        Some(Fault::TooLong { .. }) => 4,
        Some(Fault::GridFault { .. }) => 5,
        Some(Fault::JsonFault { .. }) => 6,
        Some(Fault::CracFault { .. }) => 7,
        Some(Fault::KeyFault { .. }) => 8,
        Some(Fault::SettingsFault { .. }) => 9,
        Some(Fault::ReductionFault { .. }) => 10,
        Some(Fault::NoSlack) => 11,
        Some(Fault::SplitGrid { .. }) => 12,
        Some(Fault::RangeExceeded { .. }) => 13,
        Some(Fault::CertificateFault { .. }) => 14,
        Some(Fault::WriteFault) => 15,
        Some(Fault::Memory(_)) => 16,
    }
}

impl Document {
    /// The name of the document in a fault line.
    pub fn name(self) -> &'static str
        ensures { result.now ≡ name_of self }
    {
        match self {
            Document::Grid => "grid",
            Document::Crac => "crac",
            Document::Settings => "settings",
            Document::Glsk => "glsk",
            Document::Reductions => "reductions",
            Document::Certificate => "certificate",
            Document::Rows => "rows",
        }
    }
}

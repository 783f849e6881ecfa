//! What a row is computed from, and its numbers.

use cnec_selection::Class;
use fb_span::Span;
use fb_types::{Bounds, Items};

/// What is stated of a row: a critical network element with its contingency (CNEC), in one direction.
#[derive(Clone, Copy, Debug)]
pub struct RowTerms {
    /// The branch, by its place in the grid's list, from 0.
    pub branch: u32,
    /// Whether the row counts flows from the branch's second node to its first.
    pub against: bool,
    /// The limit of the flow (Fmax), in watts: 1 to 10^11.
    pub limit: i64,
    /// The reliability margin (FRM), in watts: 0 to 10^11.
    pub margin: i64,
    /// What the coordinated validation takes away (CVA), in watts: 0 to 10^11.
    pub cva: i64,
    /// What the individual validation takes away (IVA), in watts: 0 to 10^11.
    pub iva: i64,
    /// The part of the limit that is to remain for trade (Ramr), in thousandths: 0 to 1000.
    pub ramr: u16,
    /// The spread from which the row is selected, in thousandths: 0 to 1000.
    pub threshold: u16,
}

/// The zones as all rows see them, in the order of the settings.
#[derive(Debug, Drop)]
pub struct RowZones {
    /// The net position of each zone at the reference, in watts.
    pub positions: Items<i64>,
    /// Whether each zone is one of Core.
    pub core: Items<bool>,
    /// The least and the greatest net position of each Core zone, in watts.
    pub bounds: Items<Bounds>,
}

/// The flows of a branch in a grid state, from its first node to its second, as spans. Each holds the exact number.
#[derive(Debug, Drop)]
pub struct BranchFlows {
    /// The reference flow, in picowatts.
    pub reference: Span<i128>,
    /// The factors of all zones, in 10^-12.
    pub factors: Items<Span<i128>>,
}

/// The spans of a row's numbers. Each holds the exact number.
#[derive(Clone, Copy, Debug)]
pub struct RowSpans {
    /// The reference flow, in picowatts.
    pub fref: Span<i128>,
    /// The flow without the exchanges of Core, in picowatts.
    pub f0core: Span<i128>,
    /// The flow without any exchanges, in picowatts.
    pub f0all: Span<i128>,
    /// The flow of exchanges outside Core, in picowatts.
    pub fuaf: Span<i128>,
    /// The remaining available margin, in picowatts.
    pub ram: Span<i128>,
    /// The greatest less the least factor of the Core zones, in 10^-12.
    pub spread: Span<i128>,
}

/// A row of the domain: its class, a coefficient for each Core zone, in 10^-12, and the right sides in the inner and in the
/// outer list, in watts.
#[derive(Debug, Drop)]
pub struct RowProof {
    pub class: Class,
    pub a: Items<i64>,
    pub r_in: i64,
    pub r_out: i64,
}

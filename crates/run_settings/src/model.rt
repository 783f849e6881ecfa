//! What the settings of a run say, and why they are not read.

use fb_types::{Bounds, Items, Text};
use jiff::Timestamp;
use std::alloc::AllocError;

/// A bidding zone.
#[derive(Debug, Drop)]
pub struct Zone {
    pub id: Text,
    /// The two-letter codes of the grid's blocks whose nodes are of the zone.
    pub codes: Items<Text>,
    /// Whether the zone is one of the Core region.
    pub core: bool,
    /// The least and the greatest net position, in watts, each within 10^11: 0 and 0 for a zone outside Core.
    pub bounds: Bounds,
}

/// The settings of a run.
#[derive(Debug, Drop)]
pub struct Settings {
    /// The moment that the capacities are for.
    pub moment: Timestamp,
    /// The zones, in the order of the document.
    pub zones: Items<Zone>,
    /// The part of each limit that the methodology guarantees to trade (minimum RAM factor), in thousandths: 0 to 1000.
    pub ramr: u16,
    /// The spread of factors from which an element is selected, in thousandths: 0 to 1000.
    pub threshold: u16,
    /// The slack node, by its place in the grid's list, if the document names one.
    pub slack: Option<u32>,
}

/// What is wrong with a settings document.
#[derive(Clone, Copy, Debug, PartialEq, Eq)]
pub enum SettingsKind {
    /// A member that must be there is not, or there is no zone, or no Core zone.
    Missing,
    /// A member or an item has another form than it must have.
    WrongType,
    /// A least net position is above the greatest, of a zone or of all zones together.
    BoxReversed,
    /// A number is outside its range.
    OutOfRange,
    /// The grid has no node of this code.
    UnknownNode,
    /// A text is no instant.
    BadTime,
    /// An id of a zone, or a code, stood before.
    Twice,
    /// There are more than 64 zones.
    TooMany,
}

/// Why settings are not read: the document's one first fault and its place, or want of memory.
#[derive(Debug, Drop)]
pub enum SettingsError {
    Fault { place: Text, kind: SettingsKind },
    Memory(AllocError),
}

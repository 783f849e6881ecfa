//! What a document of shift keys says, and how it fails.

use fb_types::{Column, Items, Text};
use std::alloc::AllocError;

/// What is wrong at a place of a document of shift keys.
#[derive(Clone, Copy, Debug, PartialEq, Eq)]
pub enum KeyKind {
    /// What must be there is not.
    Missing,
    /// It is of another form, or another word than those that may stand there.
    WrongType,
    /// The text is no instant.
    BadTime,
    /// The grid has no node of this code.
    UnknownNode,
    /// The node is not of the zone.
    WrongZone,
    /// The shares of the blocks do not add up to exactly 100 per cent.
    SharesNot100,
    /// The weights of the block add up to 0.
    EmptyKey,
    /// The factor or the share is below 0.
    NegativeFactor,
    /// The number, or the sum of the block's weights, is above its greatest value.
    OutOfRange,
    /// There are more than four blocks.
    TooMany,
    /// A zone of the Core region has no series that holds the moment.
    NoSeries,
    /// An earlier series of the zone holds the moment.
    TwoSeries,
}

/// Why keys are not read: the document's one first fault and its place, or want of memory.
#[derive(Debug, Drop)]
pub enum KeyError {
    Fault { place: Text, kind: KeyKind },
    Memory(AllocError),
}

/// The shift keys of the zones, and what the zones feed in.
#[derive(Debug, Drop)]
pub struct Keys {
    /// The key of each zone, in the order of the settings. A zone without a key has no blocks.
    pub columns: Items<Column>,
    /// The reference net position of each zone, in watts: what its nodes generate less what they consume.
    pub positions: Items<i64>,
}

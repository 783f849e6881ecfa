//! The contingencies and the monitored elements of a capacity calculation, as OpenRAO's JSON CRAC lists them.

use crate::items::Items;
use crate::text::Text;

/// An outage: the branches that it takes out of operation.
#[derive(Debug, Drop)]
pub struct Contingency {
    pub id: Text,
    /// The branches, by their places in the grid's list, from 0.
    pub branches: Items<u32>,
}

/// A critical network element with its contingency (CNEC): a branch that is monitored in one grid state.
#[derive(Debug, Drop)]
pub struct Element {
    pub id: Text,
    /// The id of the instant.
    pub instant: Text,
    /// The contingency, by its place in the list, from 0; none in the base state.
    pub contingency: Option<u32>,
    /// The branch, by its place in the grid's list, from 0.
    pub branch: u32,
    /// Whether the direction DIRECT runs from the branch's second node to its first.
    pub turned: bool,
    /// The reliability margin (FRM), in watts.
    pub margin: i64,
    /// The limit of the flow in the direction DIRECT, in watts, if it has one.
    pub direct: Option<i64>,
    /// The limit of the flow in the direction OPPOSITE, in watts, if it has one.
    pub opposite: Option<i64>,
}

/// The contingencies and the elements, each in the order of the document.
#[derive(Debug, Drop)]
pub struct Crac {
    pub contingencies: Items<Contingency>,
    pub elements: Items<Element>,
}

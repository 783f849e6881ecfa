//! Generation and load shift keys: how an exchange of a zone is shared among its nodes.

use crate::items::Items;

/// The weight of a node, named by its place in the list of nodes.
#[derive(Clone, Copy, Debug)]
pub struct Weight {
    pub node: u32,
    pub weight: i64,
}

/// A block of a key: its share in 10^-8, the sum of its weights, and the weights.
#[derive(Debug, Drop)]
pub struct Block {
    pub share: i64,
    pub total: i64,
    pub weights: Items<Weight>,
}

/// The key of a zone, named by its place in the list of zones. A zone without a key has no blocks.
#[derive(Debug, Drop)]
pub struct Column {
    pub zone: u32,
    pub blocks: Items<Block>,
}

//! Why there is no state.

use std::alloc::AllocError;

/// Why `state` answers no state.
#[derive(Debug, Drop)]
pub enum StateFault {
    /// A node that feeds something in, or has a key weight, is of a class that is not live. It is the first such node.
    SplitGrid { node: u32 },
    /// There was no memory.
    Memory(AllocError),
}

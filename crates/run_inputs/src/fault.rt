//! Why there are no inputs.

use fb_types::Text;
use std::alloc::AllocError;

/// Why `run_inputs` answers no inputs. States go by their numbers: 0 is the base state, and behind it the states after each
/// contingency that a monitored element names, in the order of the contingencies.
#[derive(Debug, Drop)]
pub enum InputsError {
    /// The settings name no slack node, and no node of the grid is of type 3.
    NoSlack,
    /// A node that feeds something in, or has a key weight, is of a class that is not live. The state is the first that is
    /// split, and the node is the code of its first such node.
    SplitGrid { state: u32, node: Text },
    /// Loads, generations, susceptances and phase shifts are outside the range rule. No state is split, and this one is the
    /// first outside the rule.
    RangeExceeded { state: u32 },
    /// There was no memory.
    Memory(AllocError),
}

impl From<AllocError> for InputsError {
    ghost use Rattle.std.specs.Prelude.{◌≡◌};
    ghost use Rattle.run_inputs.specs.declared.fault.InputsError.TheVariants.{Memory};

    ghost from_gives = { λ d e. e ≡ Memory d };

    fn from(e: AllocError) -> InputsError {
        InputsError::Memory(e)
    }
}

//! The first fault of a list, where an item is judged knowing the items before it, and checks in order: what readers of
//! documents mean by the one fault that they answer.
#![tactic(auto)]

ghost use Rattle.first_fault.specs.Laws.{FirstFaultIsOne};

/// Law: a list has at most one first fault, and none where no item has a fault.
pub fn one_first_fault<I, K>()
    ensures { FirstFaultIsOne I K }
{}

//! Exact fractions: their equality, order and operations, the whole numbers between which a fraction lies, and the laws
//! of all these.
#![tactic(auto)]

ghost use Rattle.fractions.specs.Orders.{FractionsAreOrdered, ListsHaveEnds};

/// Law: fractions are ordered by their cross products.
pub fn order()
    ensures { FractionsAreOrdered }
{}

/// Law: the greatest of a list of fractions is in it and at least every other, and the least is in it and at most every
/// other.
pub fn ends()
    ensures { ListsHaveEnds }
{}

//! Laws of the rule for phase shifts. The calls do nothing: their contracts are the laws.

ghost use Rattle.phase_rule.specs.Signs.{SymmetricalFollowsTap, SymmetricalTurnsWithTap, AsymmetricalFollowsNumerator};

/// A symmetrical shift has the sign of the tap times the step, so that of the tap where the step is positive.
pub fn symmetrical_follows_tap()
    ensures { SymmetricalFollowsTap }
{}

/// The opposite tap gives the opposite symmetrical shift.
pub fn symmetrical_turns_with_tap()
    ensures { SymmetricalTurnsWithTap }
{}

/// An asymmetrical shift is on the side of 0 of its numerator, the part of the added voltage across that of node 1, and is 0
/// exactly where the numerator's size is below 10^-12 of the denominator.
pub fn asymmetrical_follows_numerator()
    ensures { AsymmetricalFollowsNumerator }
{}

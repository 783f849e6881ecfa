//! Phase shifts of regulated transformers, by one exact rule in whole numbers.
#![tactic(auto)]

ghost use Rattle.std.specs.Prelude.{◌≡◌, ◌*◌, ◌^◌, ◌↔◌, IfOk, pos, ◌≤ℤ◌};
ghost use Rattle.whole_laws.specs.Sums.{IsWithin};
ghost use Rattle.phase_rule.specs.Trigonometry.{quarter_turn};
ghost use Rattle.phase_rule.specs.Shift.{added_voltage, denominator_of, phase_shift_of};

use thiserror::Error;

pub mod laws;
mod transformer;
mod trigonometry;

use transformer::{regulated, voltage};

/// How a tap changer adds its voltage.
#[derive(Clone, Copy, Debug, PartialEq, Eq)]
pub enum Regulation {
    /// At one end of the transformer, at the regulation's angle.
    Asym,
    /// Half at either end, at 90 degrees.
    Symm,
}

/// Why a regulation has no phase shift.
#[derive(Clone, Copy, Debug, PartialEq, Eq, Error)]
pub enum PhaseFault {
    /// The voltage that is added leaves nothing along the voltage of node 1.
    #[error("the regulation leaves no voltage along that of node 1")]
    Denominator,
}

/// The phase shift at node 1's end in 10^-12 rad. `step` is in millionths of a per cent, `angle` in millionths of a degree.
/// The call takes no memory.
#[tactic(auto, unfolding(crate::specs::Shift::phase_shift_of))]
pub fn shift(step: i64, angle: i64, tap: i32, kind: Regulation) -> Result<i64, PhaseFault>
    requires step { IsWithin (10 ^ 17) step }
    requires angle { IsWithin (180 * 10 ^ 6) angle }
    requires tap { IsWithin 999 tap }
    ensures value { result ≡ phase_shift_of step angle tap kind }
    ensures within { IfOk result (IsWithin (2 * quarter_turn)) }

    // A fault comes exactly where an asymmetrical regulation has a denominator that is not positive.
    ensures denominator { (result ≡ Err PhaseFault.Denominator) ↔ ((kind ≡ Regulation.Asym) × (denominator_of (added_voltage step tap) angle ≤ℤ pos 0)) }
{
    if step == 0 || tap == 0 {
        return Ok(0);
    }
    regulated(voltage(step, tap), angle, kind)
}

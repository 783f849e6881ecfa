//! The span of an angle.

ghost use Rattle.std.specs.Prelude.{◌≡◌, ◌<◌, ◌*ℤ◌, ◌≤ℤ◌, pos, length, FitsSigned};
ghost use Rattle.std.specs.Int.{w128};
ghost use Rattle.whole_laws.specs.Sums.{at};
ghost use Rattle.grid_laplacian.specs.Enclosures.{angle_span_of};

use fb_span::Span;
use fb_types::{Angles, Items};

/// How far an angle may be off.
fn spread(kappa: u8, v: i128) -> i128
    requires { FitsSigned w128 (pos kappa *ℤ v) }
    ensures { result ≡ pos kappa *ℤ v }
{
    i128::from(kappa) * v
}

/// The span of the exact angle of a class: from w - kappa·v to w + kappa·v, with the barrier v, in 10^-16 rad.
///
/// Both lists have the class, the barrier is not negative there, and both ends are within 128 bits. The call takes no memory.
pub fn angle_span(barrier: &Items<i128>, angles: &Angles, class: u32) -> Span<i128>
    requires in_barrier { class < length barrier.now }
    requires in_angles { class < length angles.now.w }
    requires nonnegative { pos 0 ≤ℤ at barrier.now class }
    requires low_fits { FitsSigned w128 (angle_span_of barrier.now angles.now class).0 }
    requires high_fits { FitsSigned w128 (angle_span_of barrier.now angles.now class).1 }
    ensures { result ≡ angle_span_of barrier.now angles.now class }
{
    let middle = angles.w.as_slice()[class as usize];
    let off = spread(angles.kappa, barrier.as_slice()[class as usize]);
    Span::between(middle - off, middle + off)
}

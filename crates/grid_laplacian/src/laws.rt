//! The laws of the direct-current load flow of a state. Each call changes nothing and answers nothing: its contract is the
//! law, for this state and for all lists of whole numbers.

ghost use Rattle.grid_laplacian.specs.Laws.{Maximum, Existence, Uniqueness, Cut, Angle};
ghost use Rattle.grid_laplacian.specs.Enclosures.{Containment};

use grid_state::State;

/// A list that is 0 at the slack's class, and whose Laplacian is at least 0 at every other live class, is at least 0 at each
/// live class.
pub fn maximum(state: &State)
    ensures { Maximum state.now }
{
    state.sound();
}

/// Each right side makes angles.
pub fn existence(state: &State)
    ensures { Existence state.now }
{
    state.sound();
}

/// Two lists of angles that one right side makes are the same fractions.
pub fn uniqueness(state: &State)
    ensures { Uniqueness state.now }
{
    state.sound();
}

/// No carrying branch has a flow above the sum of what is fed in or taken out at the live classes but the slack's.
pub fn cut(state: &State)
    ensures { Cut state.now }
{
    state.sound();
}

/// No angle is larger than the number of live classes times that sum, over the least susceptance.
pub fn angle(state: &State)
    ensures { Angle state.now }
{
    state.sound();
}

/// A barrier and an enclosed column, wherever they come from, hold each exact angle of the column: with the barrier v and the
/// column's w and kappa, it lies from w - kappa·v to w + kappa·v.
pub fn containment(state: &State)
    ensures { Containment state.now }
{
    state.sound();
}

//! What an outage changes in a state, as far as guesses need to know it.

ghost use Rattle.std.specs.Prelude.{◌≡◌, ◌<◌};
ghost use Rattle.grid_state.specs.GridState.{classes_of};

use grid_state::State;

/// What a state lacks of another of the same grid.
#[derive(Clone, Copy, Debug)]
pub enum Change {
    /// Nothing.
    Nothing,
    /// A susceptance at one class so far.
    At { class: u32, b: i128 },
    /// The susceptance of branches between two classes, in kW/rad.
    Between { from: u32, to: u32, b: i128 },
    /// More than that.
    More,
}

impl Change {
    /// The change with that of one more class, which lacks a susceptance.
    fn and(self, class: u32, lost: i128) -> Change {
        match self {
            Change::Nothing => Change::At { class, b: lost },
            Change::At { class: from, b } if b == lost => Change::Between { from, to: class, b },
            _ => Change::More,
        }
    }

    /// Whether nothing of this can be a change between two classes any more.
    fn is_more(self) -> bool {
        match self {
            Change::More => true,
            _ => false,
        }
    }
}

/// What a class lacks: a susceptance, 0 or more, in kW/rad. It is none where the class is live in one state alone.
fn lost_at(base: &State, state: &State, class: u32) -> Option<i128>
    requires base { class < classes_of base.now }
    requires state { class < classes_of state.now }
{
    if base.live(class) == state.live(class) {
        Some(
            base.susceptance_at(class)
                .saturating_sub(state.susceptance_at(class)),
        )
    } else {
        None
    }
}

/// What a state lacks of a base state of the same grid. An outage takes branches alone, and each of them from both its ends: so
/// where two classes alone lack a susceptance, all that is lost stood between them.
pub fn change_of(base: &State, state: &State) -> Change {
    if base.classes() != state.classes() {
        return Change::More;
    }
    let mut change = Change::Nothing;
    for class in 0..state.classes() {
        match lost_at(base, state, class) {
            Some(0) => {}
            Some(lost) => change = change.and(class, lost),
            None => change = Change::More,
        }
        if change.is_more() {
            break;
        }
    }
    change
}

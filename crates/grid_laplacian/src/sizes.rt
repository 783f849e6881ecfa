//! Sizes of a state: how many classes are live, and the sum, the greatest and the least of their susceptances in kW/rad.

ghost use Rattle.std.specs.Prelude.{◌≡◌, ◌*◌, ◌^◌, ◌<◌, ◌≤◌};
ghost use Rattle.grid_state.specs.GridState.{classes_of, is_free, live_count};
ghost use Rattle.grid_laplacian.specs.Sizes.{free_susceptance_of, total_susceptance_of, greatest_susceptance_of, least_over, least_susceptance_of};

use grid_state::{Edge, State};

/// Whether a class is live and not the slack's: where the load flow has an equation.
pub fn is_free(state: &State, class: u32) -> bool
    requires { class < classes_of state.now }
    ensures { result ≡ is_free state.now class }
{
    state.live(class) && class != state.slack()
}

/// The susceptance of a class that is live and not the slack's, else 0.
fn free_susceptance(state: &State, class: u32) -> u128
    requires { class < classes_of state.now }
    ensures value { result ≡ free_susceptance_of state.now class }
    ensures small { free_susceptance_of state.now class ≤ 16384 * 100000000000 }
{
    state.sound();
    if is_free(state, class) {
        state.susceptance_at(class).unsigned_abs()
    } else {
        0
    }
}

/// How many classes are live.
pub fn live_classes(state: &State) -> u32
    ensures value { result ≡ live_count state.now }
    ensures few { live_count state.now ≤ 4096 }
{
    state.sound();
    let mut live = 0;
    for class in 0..state.classes() {
        if state.live(class) {
            live += 1;
        }
    }
    live
}

/// The sum of the susceptances of the live classes but the slack's.
pub fn total_susceptance(state: &State) -> u128
    ensures value { result ≡ total_susceptance_of state.now }
    ensures small { total_susceptance_of state.now ≤ 2 ^ 63 }
{
    state.sound();
    let mut total = 0;
    for class in 0..state.classes() {
        total += free_susceptance(state, class);
    }
    total
}

/// The greatest susceptance of a live class but the slack's.
pub fn greatest_susceptance(state: &State) -> u128
    ensures { result ≡ greatest_susceptance_of state.now }
{
    let mut greatest = 0;
    for class in 0..state.classes() {
        let here = free_susceptance(state, class);
        if here > greatest {
            greatest = here;
        }
    }
    greatest
}

/// The least of 10^11 and the susceptances of a row.
fn least_in_row(row: &[Edge]) -> u64
    ensures { result ≡ least_over row.now }
{
    let mut least = 100_000_000_000;
    for edge in row {
        if edge.b < least {
            least = edge.b;
        }
    }
    least
}

/// The least susceptance of the carrying branches between two classes; where there is none, 10^11.
pub fn least_susceptance(state: &State) -> u64
    ensures value { result ≡ least_susceptance_of state.now }
    ensures some { 0 < least_susceptance_of state.now }
    ensures small { least_susceptance_of state.now ≤ 100000000000 }
{
    state.sound();
    let mut least = 100_000_000_000;
    for class in 0..state.classes() {
        let here = least_in_row(state.row(class));
        if here < least {
            least = here;
        }
    }
    least
}

//! How far the angles of a state reach, and whether its loads, generations and phase shifts are in range.

ghost use Rattle.std.specs.Prelude.{◌≡◌, ◌+◌, ◌*◌, ◌/◌, ◌^◌, ◌<◌, ◌≤◌, ◌+ℤ◌, pos, ℕ, true, IsTrue, ◌↔◌, length, sum_by, unsigned_abs};
ghost use Rattle.grid_state.specs.GridState.{carries_at};
ghost use Rattle.grid_laplacian.specs.Sizes.{greatest_susceptance_of, least_susceptance_of, IsLeastSusceptance};
ghost use Rattle.grid_laplacian.specs.Ranges.{reach_of, HasCrossing, HasRoomFor, IsOfGrid, exchanges_of, shift_of, shifts_of, greatest_total_of, IsInRange};

use crate::sizes::{greatest_susceptance, least_susceptance, live_classes, total_susceptance};
use fb_types::{Branch, Grid, Node};
use grid_state::State;

/// The size of what a node takes or feeds in, in watts.
fn exchange(node: &Node) -> u128
    ensures value { result ≡ unsigned_abs (node.now.load +ℤ node.now.generation) }
    ensures small { unsigned_abs (node.now.load +ℤ node.now.generation) ≤ 2 ^ 64 }
{
    (i128::from(node.load) + i128::from(node.generation)).unsigned_abs()
}

/// The sum over all nodes.
fn exchanges(grid: &Grid) -> u128
    ensures value { result ≡ exchanges_of grid.now }
    ensures small { exchanges_of grid.now ≤ 4096 * 2 ^ 64 }
{
    let nodes = grid.nodes.as_slice();
    let mut sum = 0;
    for node in nodes {
        sum += exchange(node);
    }
    sum
}

/// The susceptance times the size of the phase shift of the branch of this number, if it carries, else 0.
fn shift(state: &State, branch: &Branch, number: u32) -> u128
    requires number { number < length state.now.carries }
    requires in_range { carries_at state.now number ≡ true → unsigned_abs branch.now.b ≤ 10 ^ 11 }
    ensures value { result ≡ shift_of state.now (number, branch.now) }
    ensures small { shift_of state.now (number, branch.now) ≤ 10 ^ 11 * 2 ^ 63 }
{
    if state.carries(number) {
        u128::from(branch.b.unsigned_abs()) * u128::from(branch.phi.unsigned_abs())
    } else {
        0
    }
}

/// The sum over all carrying branches.
fn shifts(state: &State, grid: &Grid) -> u128
    requires { IsOfGrid grid.now state.now }
    ensures value { result ≡ shifts_of state.now grid.now }
    ensures small { shifts_of state.now grid.now ≤ 16384 * (10 ^ 11 * 2 ^ 63) }
{
    let branches = grid.branches.as_slice();
    let mut sum = 0;
    for number in 0..branches.len() {
        sum += shift(state, &branches[number], number as u32);
    }
    sum
}

/// Whether the base balance of the state, in 10^-13 W, adds up to at most 2·10^25 in size.
fn is_balance_small(state: &State, grid: &Grid) -> bool
    requires { IsOfGrid grid.now state.now }
    ensures { IsTrue result ↔ 10 ^ 13 * exchanges_of grid.now + 2 * 10 ^ 4 * shifts_of state.now grid.now ≤ 2 * 10 ^ 25 }
{
    let powers = 10_000_000_000_000 * exchanges(grid);
    powers + 20_000 * shifts(state, grid) <= 20_000_000_000_000_000_000_000_000
}

/// Whether `live` times `total` is at most `least` times the whole part of 2^120 over `greatest`.
fn are_products_small(live: u32, total: u128, greatest: u128, least: u64) -> bool
    requires live { live ≤ 4096 }
    requires total { total ≤ 2 ^ 85 }
    requires some { 0 < greatest }
    requires least { least ≤ greatest }
    ensures { IsTrue result ↔ live * total ≤ 2 ^ 120 / greatest * least }
{
    u128::from(live) * total <= (1 << 120) / greatest * u128::from(least)
}

/// The greater of 2·10^25 and twice the sum of the susceptances.
fn greatest_total(state: &State) -> u128
    ensures value { result ≡ greatest_total_of state.now }
    ensures small { greatest_total_of state.now ≤ 2 ^ 85 }
{
    let susceptances = 2 * total_susceptance(state);
    if susceptances > 20_000_000_000_000_000_000_000_000 {
        susceptances
    } else {
        20_000_000_000_000_000_000_000_000
    }
}

/// Whether there is room for right sides that add up to at most 2·10^25 in size.
fn has_room(state: &State) -> bool
    ensures { IsTrue result ↔ HasRoomFor state.now (2 * 10 ^ 25) }
{
    state.sound();
    let greatest = greatest_susceptance(state);
    if greatest == 0 {
        return true;
    }
    are_products_small(
        live_classes(state),
        greatest_total(state),
        greatest,
        least_susceptance(state),
    )
}

/// Whether the loads, the generations and the phase shifts of a state of the grid are in range, so that all numbers that come
/// of them stay within 128 bits.
///
/// With powers in watts, susceptances b in kW/rad and phase shifts φ in 10^-12 rad, 10^13 times the sum of
/// |load + generation| over all nodes and 2·10^4 times the sum of b·|φ| over the carrying branches are together at most
/// 2·10^25. And, unless no carrying branch joins two classes, n·P is at most floor(2^120/s)·b: n live classes, P the greater
/// of 2·10^25 and twice the sum of the susceptances of the live classes but the slack's, s the greatest of these and b the
/// least of a carrying branch between two classes. Nodes whose class is not live count too.
///
/// The state must be one of this grid. The call takes no memory.
pub fn range_ok(state: &State, grid: &Grid) -> bool
    requires { IsOfGrid grid.now state.now }
    ensures rule { IsTrue result ↔ IsInRange grid.now state.now }

    // The size condition of the calls on angles holds for each total up to P.
    ensures room { IsTrue result → (total : ℕ) → total ≤ greatest_total_of state.now → HasRoomFor state.now total }
{
    is_balance_small(state, grid) && has_room(state)
}

/// How far angles reach: n times the sum of the susceptances of the live classes but the slack's over the least susceptance of
/// a carrying branch between two classes, rounded up, with n live classes. It is 0 where no carrying branch joins two classes.
///
/// A barrier is at most twice the reach. The call takes no memory.
pub fn reach(state: &State) -> i128
    ensures value { result ≡ pos (reach_of state.now) }

    // The least susceptance is that of a carrying branch, where one joins two classes.
    ensures least { HasCrossing state.now → IsLeastSusceptance state.now (least_susceptance_of state.now) }
{
    state.sound();
    let least = u128::from(least_susceptance(state));
    let whole = (total_susceptance(state) + least - 1) / least;
    (u128::from(live_classes(state)) * whole) as i128
}

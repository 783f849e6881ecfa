//! What a list of angles leaves of a right side.

ghost use Rattle.std.specs.Prelude.{◌≡◌, ◌*◌, ◌^◌, ◌<◌, ◌≤◌, ◌-ℤ◌, ◌*ℤ◌, pos, true, length, All, unsigned_abs};
ghost use Rattle.whole_laws.specs.Sums.{at, IsWithin};
ghost use Rattle.grid_state.specs.GridState.{classes_of, is_free};
ghost use Rattle.grid_laplacian.specs.Laws.{drop_over, laplacian_at};
ghost use Rattle.grid_laplacian.specs.Rooms.{HasRoom};
ghost use Rattle.grid_laplacian.specs.Sizes.{greatest_susceptance_of};

use fb_types::Items;
use grid_state::{Edge, State};

/// A susceptance times a difference.
fn weighted_drop(b: u64, here: i128, there: i128) -> i128
    requires some { 0 < b }
    requires here_small { b * unsigned_abs here ≤ 2 ^ 121 }
    requires there_small { b * unsigned_abs there ≤ 2 ^ 121 }
    ensures { result ≡ pos b *ℤ (here -ℤ there) }
{
    i128::from(b) * (here - there)
}

/// `start` less the susceptance times the difference of `w` along each branch of a class's row.
fn less_drops(row: &[Edge], w: &[i128], start: i128, here: i128) -> i128
    requires { HasRoom row.now w.now start here }
    ensures { result ≡ start -ℤ drop_over row.now (at w.now) here }
{
    let mut left = start;
    for edge in row {
        left -= weighted_drop(edge.b, here, w[edge.to as usize]);
    }
    left
}

/// What is left of `p` at a live class that is not the slack's, once the Laplacian of `w` is taken off: `p - L·w`.
///
/// Both lists have one number for each class. All sums stay within 128 bits, since each number of `p`, and each number of `w`
/// times the greatest susceptance of a class, is within ±2^121.
pub fn residual_of(state: &State, p: &[i128], w: &[i128], class: u32) -> i128
    requires class { class < classes_of state.now }
    requires live_and_not_slack { is_free state.now class ≡ true }
    requires p_length { length p.now ≡ classes_of state.now }
    requires w_length { length w.now ≡ classes_of state.now }
    requires p_small { All (λ z. IsWithin (2 ^ 121) z) p.now }
    requires w_small { All (λ z. IsWithin (2 ^ 121) (pos (greatest_susceptance_of state.now) *ℤ z)) w.now }
    ensures { result ≡ at p.now class -ℤ laplacian_at state.now w.now class }
{
    state.sound();
    less_drops(state.row(class), w, p[class as usize], w[class as usize])
}

/// The same of lists that are owned.
pub fn residual_at(state: &State, p: &Items<i128>, w: &Items<i128>, class: u32) -> i128
    requires class { class < classes_of state.now }
    requires live_and_not_slack { is_free state.now class ≡ true }
    requires p_length { length p.now ≡ classes_of state.now }
    requires w_length { length w.now ≡ classes_of state.now }
    requires p_small { All (λ z. IsWithin (2 ^ 121) z) p.now }
    requires w_small { All (λ z. IsWithin (2 ^ 121) (pos (greatest_susceptance_of state.now) *ℤ z)) w.now }
    ensures { result ≡ at p.now class -ℤ laplacian_at state.now w.now class }
{
    residual_of(state, p.as_slice(), w.as_slice(), class)
}

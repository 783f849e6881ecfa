//! The factor of a state, and guesses with it.

ghost use Rattle.std.specs.Prelude.{◌≡◌, length, IfOk};
ghost use Rattle.grid_state.specs.GridState.{classes_of};
ghost use Rattle.grid_laplacian.specs.Sizes.{size_of};
ghost use Rattle.grid_laplacian.specs.Ranges.{HasRoomFor};
ghost use Rattle.sparse_factor.specs.Guesses.{IsGuess};

use crate::elimination::{Steps, steps_of};
use crate::guesses::{guess_of, total_of};
use crate::numbers::copy_of;
use crate::shares::{digits_of, shifted};
use crate::solving::{solve, solve_each};
use fb_types::Items;
use grid_laplacian::{greatest_susceptance, least_susceptance, live_classes};
use grid_state::State;
use std::alloc::{AllocError, Global};

/// The grid matrix of a state in factors: its classes in the order in which they were eliminated.
///
/// A susceptance has `weight` binary places. A right side is moved by so many places that its numbers add up to about 2^120,
/// and a quotient of it by a weight gets `quotient` more places, which is what angles allow: none is larger than the sum of the
/// right side times the number of live classes over the least susceptance.
#[derive(Debug, Drop)]
pub struct Factor {
    steps: Steps,
    slack: u32,
    weight: i64,
    quotient: i64,
}

/// Moves each number by so many places.
fn shift_all(numbers: &mut [i128], places: i64) {
    for z in numbers.iter_mut() {
        *z = shifted(*z, places);
    }
}

/// How many places numbers are moved by that add up to `total`.
fn places_for(total: u128) -> i64 {
    120i64.wrapping_sub(digits_of(total))
}

impl Factor {
    /// Factors the grid matrix of a state. Its classes are eliminated one after another, each time one of those that are joined
    /// to the fewest others.
    pub fn new(alloc: Global, state: &State) -> Result<Factor, AllocError> {
        let greatest = digits_of(greatest_susceptance(state));
        let least = digits_of(u128::from(least_susceptance(state)));
        let live = digits_of(u128::from(live_classes(state)));
        let weight = 62i64.wrapping_sub(greatest).clamp(0, 62);
        Ok(Factor {
            steps: steps_of(alloc, state, weight.unsigned_abs() as u32)?,
            slack: state.slack(),
            weight,
            quotient: weight
                .wrapping_add(least)
                .wrapping_sub(live)
                .wrapping_add(3),
        })
    }

    /// How many binary places an angle has for a right side that was moved by so many.
    fn angle_places(&self, moved: i64) -> i64 {
        moved.wrapping_add(self.quotient).wrapping_sub(self.weight)
    }

    /// How many binary places the angles of a right side may have that adds up to `total`.
    pub(crate) fn places_of(&self, total: u128) -> i64 {
        self.angle_places(places_for(total))
    }

    /// Makes of the numbers of a right side its angles, and says how many binary places these have.
    pub(crate) fn solve(&self, numbers: &mut [i128]) -> i64 {
        let moved = places_for(total_of(numbers));
        shift_all(numbers, moved);
        solve(&self.steps, numbers, self.slack, self.quotient);
        self.angle_places(moved)
    }

    /// Moves the numbers of a right side to where they are solved, and says how many binary places its angles have then.
    pub(crate) fn stretch(&self, numbers: &mut [i128]) -> i64 {
        let moved = places_for(total_of(numbers));
        shift_all(numbers, moved);
        self.angle_places(moved)
    }

    /// Makes of the numbers of stretched right sides their angles. A row has the numbers of a class, one of each right side.
    pub(crate) fn solve_each(
        &self,
        alloc: Global,
        rows: &mut [Vec<i128>],
        width: usize,
    ) -> Result<(), AllocError> {
        solve_each(alloc, &self.steps, rows, width, self.slack, self.quotient)
    }

    /// Guesses the angles that the right side p makes in a state. All that is promised is that the slack's class and classes
    /// that are not live have 0, and how large the numbers are at most.
    ///
    /// There is one number of p for each class. Wherever a carrying branch joins two classes, n·max(T, 2S) is at most
    /// floor(2^120/s)·b: n live classes, T the sum of |p| over all classes, S the sum and s the greatest of the susceptances of
    /// the live classes but the slack's, and b the least of a carrying branch between two classes. Each number of the guess is
    /// at most 2·n·max(T, 2S)/b in size.
    pub fn guess(
        &self,
        alloc: Global,
        state: &State,
        p: &Items<i128>,
    ) -> Result<Items<i128>, AllocError>
        requires each_class { length p.now ≡ classes_of state.now }
        requires room { HasRoomFor state.now (size_of p.now) }
        ensures { IfOk result (λ w. IsGuess state.now (size_of p.now) w) }
    {
        let mut numbers = copy_of(alloc, p.as_slice())?;
        let places = self.solve(&mut numbers);
        guess_of(alloc, state, p, &numbers, places)
    }
}

//! The angles of several right sides, with more digits than their unit.

ghost use Rattle.std.specs.Prelude.{◌≡◌, length, IfOk};
ghost use Rattle.grid_state.specs.GridState.{classes_of};
ghost use Rattle.grid_laplacian.specs.Sizes.{size_of};
ghost use Rattle.grid_laplacian.specs.Ranges.{HasRoomFor};
ghost use Rattle.sparse_factor.specs.Guesses.{IsGuess};
ghost use Rattle.sparse_factor.specs.Bounds.{AreSizes};

use crate::factors::Factor;
use crate::guesses::{guess_by, total_of};
use crate::numbers::number_at;
use crate::remainders::{Remainder, remainder_of};
use crate::shares::shifted;
use crate::sizes::Sizes;
use fb_types::Items;
use grid_state::State;
use std::alloc::{AllocError, Global};

/// A right side, and its angles in so many binary places.
#[derive(Debug, Drop)]
pub(crate) struct Solution {
    pub side: Items<i128>,
    pub angles: Vec<i128>,
    pub places: i64,
}

/// The angles that right sides make in a state, to a small part of their unit.
#[derive(Debug, Drop)]
pub struct Solutions {
    solutions: Vec<Solution>,
}

/// At most so many binary places.
const PLACES: i64 = 32;

/// What is left of a right side is no longer corrected where it is at most the susceptance times 2^-16.
const NEAR: i64 = 16;

/// All right sides are solved at most so many times.
const PASSES: u32 = 6;

impl Solution {
    /// A right side that is not solved yet: all its angles are 0.
    fn new(
        alloc: Global,
        factor: &Factor,
        classes: u32,
        side: Items<i128>,
    ) -> Result<Solution, AllocError> {
        let places = factor.places_of(total_of(side.as_slice())).clamp(0, PLACES);
        Ok(Solution {
            side,
            angles: vec![in alloc; 0; classes as usize]?,
            places,
        })
    }

    fn remainder(&self, alloc: Global, state: &State) -> Result<Remainder, AllocError> {
        remainder_of(
            alloc,
            state,
            self.side.as_slice(),
            &self.angles,
            self.places,
            self.places.wrapping_sub(NEAR).max(1),
        )
    }

    /// Adds the angles of a column of rows, which have so many places more.
    fn add(&mut self, rows: &[Vec<i128>], column: usize, places: i64) {
        for (angle, row) in self.angles.iter_mut().zip(rows) {
            if column < row.len() {
                *angle = angle.wrapping_add(shifted(row[column], places.wrapping_neg()));
            }
        }
    }
}

/// What the angles leave of each right side.
fn remainders_of(
    alloc: Global,
    state: &State,
    solutions: &[Solution],
) -> Result<Vec<Remainder>, AllocError> {
    let mut remainders = Vec::new(alloc);
    for solution in solutions {
        remainders.push(solution.remainder(alloc, state)?)?;
    }
    Ok(remainders)
}

/// Whether what is left is much anywhere.
fn are_large(remainders: &[Remainder]) -> bool {
    for remainder in remainders {
        if remainder.is_large {
            return true;
        }
    }
    false
}

/// Stretches each remainder, and says how many binary places its angles have then.
fn stretch_each(
    alloc: Global,
    factor: &Factor,
    remainders: &mut [Remainder],
) -> Result<Vec<i64>, AllocError> {
    let mut places = Vec::new(alloc);
    for remainder in remainders.iter_mut() {
        places.push(factor.stretch(&mut remainder.numbers))?;
    }
    Ok(places)
}

/// The numbers of a class.
fn row_of(alloc: Global, remainders: &[Remainder], class: u32) -> Result<Vec<i128>, AllocError> {
    let mut row = Vec::with_capacity(alloc, remainders.len())?;
    for remainder in remainders {
        row.push(number_at(&remainder.numbers, class))?;
    }
    Ok(row)
}

/// The numbers of each class.
fn rows_of(
    alloc: Global,
    remainders: &[Remainder],
    classes: u32,
) -> Result<Vec<Vec<i128>>, AllocError> {
    let mut rows = Vec::with_capacity(alloc, classes as usize)?;
    for class in 0..classes {
        rows.push(row_of(alloc, remainders, class)?)?;
    }
    Ok(rows)
}

/// Adds the angles of each column of rows.
fn add_each(solutions: &mut [Solution], rows: &[Vec<i128>], places: &[i64]) {
    let mut column: usize = 0;
    for (solution, places) in solutions.iter_mut().zip(places) {
        solution.add(rows, column, *places);
        column = column.saturating_add(1);
    }
}

impl Solutions {
    /// The angles that these right sides make in a state, by its factor. A right side has one number for each class.
    pub fn new(
        alloc: Global,
        factor: &Factor,
        state: &State,
        sides: Items<Items<i128>>,
    ) -> Result<Solutions, AllocError> {
        let mut solutions = Vec::new(alloc);
        for side in sides.into_vec() {
            solutions.push(Solution::new(alloc, factor, state.classes(), side)?)?;
        }
        let mut solutions = Solutions { solutions };
        for _pass in 0..PASSES {
            if !solutions.correct(alloc, factor, state)? {
                break;
            }
        }
        Ok(solutions)
    }

    /// Corrects all angles by those of what they leave of their right sides, where that is much anywhere.
    fn correct(
        &mut self,
        alloc: Global,
        factor: &Factor,
        state: &State,
    ) -> Result<bool, AllocError> {
        let mut remainders = remainders_of(alloc, state, &self.solutions)?;
        if !are_large(&remainders) {
            return Ok(false);
        }
        let places = stretch_each(alloc, factor, &mut remainders)?;
        let mut rows = rows_of(alloc, &remainders, state.classes())?;
        factor.solve_each(alloc, &mut rows, remainders.len())?;
        add_each(&mut self.solutions, &rows, &places);
        Ok(true)
    }

    /// A right side and its angles.
    pub(crate) fn solution(&self, column: usize) -> Option<&Solution> {
        self.solutions.get(column)
    }

    /// Guesses the angles that the right side p makes in a state to be those of the right side at this place. Where there is
    /// none, all are 0. The conditions on p, and all that is promised, are those of `Factor::guess`.
    pub fn guess(
        &self,
        alloc: Global,
        state: &State,
        column: usize,
        p: &Items<i128>,
    ) -> Result<Items<i128>, AllocError>
        requires each_class { length p.now ≡ classes_of state.now }
        requires room { HasRoomFor state.now (size_of p.now) }
        ensures { IfOk result (λ w. IsGuess state.now (size_of p.now) w) }
    {
        self.guess_by(alloc, state, &Sizes::new(state), column, p)
    }

    /// The same by the sizes of the state, which are then read once for many guesses.
    pub fn guess_by(
        &self,
        alloc: Global,
        state: &State,
        sizes: &Sizes,
        column: usize,
        p: &Items<i128>,
    ) -> Result<Items<i128>, AllocError>
        requires each_class { length p.now ≡ classes_of state.now }
        requires room { HasRoomFor state.now (size_of p.now) }
        requires sizes { AreSizes state.now sizes.now }
        ensures { IfOk result (λ w. IsGuess state.now (size_of p.now) w) }
    {
        match self.solutions.get(column) {
            Some(solution) => guess_by(alloc, state, sizes, p, &solution.angles, solution.places),
            None => guess_by(alloc, state, sizes, p, &[], 0),
        }
    }
}

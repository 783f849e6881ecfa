//! The outage of one branch, as a change of the angles of the state before it.
//!
//! With the grid matrix L, the branch's susceptance b and u = 1 at the one of its classes and -1 at the other, the matrix after
//! the outage is L - b·u·u'. So with y = b·L^-1·u the angles of the right side p + c·u are x + y·g, x being those of p before
//! the outage and g = (c/b + x_i - x_j) / (1 - (y_i - y_j)), where i and j are the branch's classes (Sherman and Morrison 1950).

ghost use Rattle.std.specs.Prelude.{◌≡◌, ◌^◌, ◌≤◌, length, IfOk};
ghost use Rattle.grid_state.specs.GridState.{classes_of};
ghost use Rattle.grid_laplacian.specs.Sizes.{size_of};
ghost use Rattle.grid_laplacian.specs.Ranges.{HasRoomFor};
ghost use Rattle.sparse_factor.specs.Guesses.{IsGuess};
ghost use Rattle.sparse_factor.specs.Bounds.{AreBounded, AreSizes};

use crate::factors::Factor;
use crate::fractions::{Divisor, Signed};
use crate::guesses::{Rounding, angle_of, guess_by, limit_by, total_of};
use crate::numbers::{add_at, copy_of, number_at};
use crate::remainders::remainder_of;
use crate::shares::shifted;
use crate::sizes::Sizes;
use crate::solutions::{Solution, Solutions};
use fb_types::Items;
use grid_state::State;
use std::alloc::{AllocError, Global};

/// How the outage of a branch changes angles: y, and 1 - (y_i - y_j).
#[derive(Debug, Drop)]
pub struct Outage {
    from: u32,
    to: u32,
    b: u64,
    changes: Vec<Signed>,
    rest: Divisor,
}

/// Angles of a right side before the outage, in so many binary places, and what the branch had put in.
#[derive(Clone, Copy)]
struct Before<'a> {
    angles: &'a [i128],
    places: i64,
    c: i128,
}

/// How many binary places y has.
const PLACES: i64 = 100;

/// y is no longer corrected where it leaves at most the susceptance of a class times 2^ENOUGH of its last place.
const ENOUGH: i64 = 22;

/// y is corrected at most so many times.
const CORRECTIONS: u32 = 4;

/// The right side b·u.
fn side_of(
    alloc: Global,
    classes: u32,
    from: u32,
    to: u32,
    b: u64,
) -> Result<Vec<i128>, AllocError> {
    let mut side = vec![in alloc; 0; classes as usize]?;
    add_at(&mut side, from, i128::from(b));
    add_at(&mut side, to, -i128::from(b));
    Ok(side)
}

/// Adds angles that have so many binary places to y.
fn add_angles(y: &mut [i128], angles: &[i128], places: i64) {
    for (there, here) in y.iter_mut().zip(angles) {
        *there = there.wrapping_add(shifted(*here, places.wrapping_neg()));
    }
}

/// The angles y that the right side b·u makes before the outage.
fn angles_of(
    alloc: Global,
    factor: &Factor,
    base: &State,
    side: &[i128],
) -> Result<Vec<i128>, AllocError> {
    let mut first = copy_of(alloc, side)?;
    let places = factor.solve(&mut first);
    let mut y = vec![in alloc; 0; side.len()]?;
    add_angles(&mut y, &first, places.wrapping_sub(PLACES));
    for _correction in 0..CORRECTIONS {
        let mut left = remainder_of(alloc, base, side, &y, PLACES, ENOUGH)?;
        if !left.is_large {
            break;
        }
        let places = factor.solve(&mut left.numbers);
        add_angles(&mut y, &left.numbers, places);
    }
    Ok(y)
}

impl Outage {
    /// The outage of a branch of susceptance b, in kW/rad, between two classes of a state, by the factor of that state.
    pub fn new(
        alloc: Global,
        factor: &Factor,
        base: &State,
        from: u32,
        to: u32,
        b: u64,
    ) -> Result<Outage, AllocError> {
        let side = side_of(alloc, base.classes(), from, to, b)?;
        let y = angles_of(alloc, factor, base, &side)?;
        let apart = number_at(&y, from).wrapping_sub(number_at(&y, to));
        let mut changes = Vec::with_capacity(alloc, y.len())?;
        for z in &y {
            changes.push(Signed::new(*z))?;
        }
        Ok(Outage {
            from,
            to,
            b,
            changes,
            rest: Divisor::new(apart),
        })
    }

    /// g, where the branch had put in c.
    fn factor_of(&self, before: &Before<'_>) -> i128 {
        let put_in = shifted(before.c, before.places) / i128::from(self.b.max(1));
        let one = number_at(before.angles, self.from);
        let apart = one.wrapping_sub(number_at(before.angles, self.to));
        self.rest.quotient(put_in.wrapping_add(apart))
    }

    /// The angle of a class after the outage.
    fn moved(&self, angles: &[i128], by: i128, class: u32) -> i128 {
        let angle = number_at(angles, class);
        match self.changes.get(class as usize) {
            Some(change) => angle.wrapping_add(change.times(by)),
            None => angle,
        }
    }

    /// The angles of all classes after the outage, brought within the limit.
    fn angles_after(
        &self,
        alloc: Global,
        state: &State,
        before: &Before<'_>,
        limit: u128,
    ) -> Result<Items<i128>, AllocError>
        requires { limit ≤ 2 ^ 121 }
        ensures { IfOk result (λ w. AreBounded state.now limit w (classes_of state.now)) }
    {
        let by = self.factor_of(before);
        let rounding = Rounding::new(before.places);
        let mut angles = Vec::with_capacity(alloc, state.classes() as usize)?;
        for class in 0..state.classes() {
            let number = self.moved(before.angles, by, class);
            angles.push(angle_of(state, number, &rounding, limit, class))?;
        }
        Ok(Items::from_vec(angles))
    }

    /// The guess for the right side p after the outage, from angles before it.
    fn guess_after(
        &self,
        alloc: Global,
        state: &State,
        sizes: &Sizes,
        p: &Items<i128>,
        before: &Before<'_>,
    ) -> Result<Items<i128>, AllocError>
        requires each_class { length p.now ≡ classes_of state.now }
        requires room { HasRoomFor state.now (size_of p.now) }
        requires sizes { AreSizes state.now sizes.now }
        ensures { IfOk result (λ w. IsGuess state.now (size_of p.now) w) }
    {
        let total = total_of(p.as_slice());
        let limit = limit_by(state, sizes, total);
        self.angles_after(alloc, state, before, limit)
    }

    /// The angles of a right side before the outage. Where p differs from it is what the branch had put in.
    fn before<'a>(&self, solution: &'a Solution, p: &[i128]) -> Before<'a> {
        let side = solution.side.as_slice();
        Before {
            angles: &solution.angles,
            places: solution.places,
            c: number_at(p, self.from).wrapping_sub(number_at(side, self.from)),
        }
    }

    /// Guesses the angles that the right side p makes in a state after the outage, from those of the right side at this place,
    /// which p differs from in what the branch had put in. Where there is none, all are 0. The conditions on p, and all that is
    /// promised, are those of `Factor::guess`.
    pub fn guess(
        &self,
        alloc: Global,
        state: &State,
        solutions: &Solutions,
        column: usize,
        p: &Items<i128>,
    ) -> Result<Items<i128>, AllocError>
        requires each_class { length p.now ≡ classes_of state.now }
        requires room { HasRoomFor state.now (size_of p.now) }
        ensures { IfOk result (λ w. IsGuess state.now (size_of p.now) w) }
    {
        self.guess_by(alloc, state, &Sizes::new(state), solutions, column, p)
    }

    /// The same by the sizes of the state after the outage, which are then read once for many guesses.
    pub fn guess_by(
        &self,
        alloc: Global,
        state: &State,
        sizes: &Sizes,
        solutions: &Solutions,
        column: usize,
        p: &Items<i128>,
    ) -> Result<Items<i128>, AllocError>
        requires each_class { length p.now ≡ classes_of state.now }
        requires room { HasRoomFor state.now (size_of p.now) }
        requires sizes { AreSizes state.now sizes.now }
        ensures { IfOk result (λ w. IsGuess state.now (size_of p.now) w) }
    {
        match solutions.solution(column) {
            Some(solution) => {
                let before = self.before(solution, p.as_slice());
                self.guess_after(alloc, state, sizes, p, &before)
            }
            None => guess_by(alloc, state, sizes, p, &[], 0),
        }
    }

    /// Guesses the angles that any right side p makes in a state after the outage, by the factor of the state before it.
    pub(crate) fn guess_any(
        &self,
        alloc: Global,
        factor: &Factor,
        state: &State,
        p: &Items<i128>,
    ) -> Result<Items<i128>, AllocError>
        requires each_class { length p.now ≡ classes_of state.now }
        requires room { HasRoomFor state.now (size_of p.now) }
        ensures { IfOk result (λ w. IsGuess state.now (size_of p.now) w) }
    {
        let mut angles = copy_of(alloc, p.as_slice())?;
        let places = factor.solve(&mut angles);
        let before = Before {
            angles: &angles,
            places,
            c: 0,
        };
        self.guess_after(alloc, state, &Sizes::new(state), p, &before)
    }
}

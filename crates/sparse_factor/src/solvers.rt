//! What guesses with the factor of a state, or with that of the state before an outage.

ghost use Rattle.std.specs.Prelude.{◌≡◌, length, IfOk};
ghost use Rattle.grid_state.specs.GridState.{classes_of};
ghost use Rattle.grid_laplacian.specs.Sizes.{size_of};
ghost use Rattle.grid_laplacian.specs.Ranges.{HasRoomFor};
ghost use Rattle.sparse_factor.specs.Guesses.{IsGuess};

use crate::factors::Factor;
use crate::outages::Outage;
use fb_types::Items;
use grid_state::State;
use std::alloc::{AllocError, Global};

/// What guesses the angles of a state: its own factor, or that of the state before an outage and the change by the outage.
#[derive(Clone, Copy, Debug)]
pub enum Solver<'a> {
    Own(&'a Factor),
    After(&'a Factor, &'a Outage),
}

impl Solver<'_> {
    /// Guesses the angles that the right side p makes in a state. The conditions on p, and all that is promised, are those of
    /// `Factor::guess`.
    pub fn guess(
        &self,
        alloc: Global,
        state: &State,
        p: &Items<i128>,
    ) -> Result<Items<i128>, AllocError>
        requires each_class { length p.now ≡ classes_of state.now }
        requires room { HasRoomFor state.now (size_of p.now) }
        ensures { IfOk result (λ w. IsGuess state.now (size_of p.now) w) }
    {
        match self {
            Solver::Own(factor) => factor.guess(alloc, state, p),
            Solver::After(factor, outage) => outage.guess_any(alloc, factor, state, p),
        }
    }
}

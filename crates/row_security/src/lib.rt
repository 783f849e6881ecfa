//! Rows by exact flows: what a row's numbers are, and that rows which bracket all fractions in some spans bracket the exact flow
//! wherever the spans hold the row's exact numbers. All of it speaks of exact angles that are chosen freely: there always are some.
#![tactic(auto)]

ghost use Rattle.row_security.specs.Choices.{HasChoices};
ghost use Rattle.row_security.specs.Laws.{HeldRowsAreBracketed};

use fb_types::Grid;
use grid_state::State;

/// Law: where spans hold the factors and the margin of a row for every choice of exact angles, the two right sides that bracket
/// all fractions in them bracket the exact flow of the row, by nodal injections.
pub fn bracketing(state: &State, _grid: &Grid)
    ensures { HeldRowsAreBracketed state.now _grid.now }
{
    state.sound();
}

/// Law: exact angles for the numbers of a row can always be chosen, and for every list of net positions too.
pub fn choices(state: &State, _grid: &Grid)
    ensures { HasChoices state.now _grid.now }
{
    state.sound();
}

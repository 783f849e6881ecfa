//! What a domain is computed from, its rows, and its certificate.

ghost use Rattle.std.specs.Prelude.{◌≡◌};
ghost use Rattle.fb_certificate.specs.RunRows.{is_opposite};

use cnec_rows::{RowProof, RowTerms};
use fb_types::{Crac, Grid, Items, Multipliers};
use glsk_keys::Keys;
use grid_state::State;
use run_settings::{Reduction, Settings};
use state_proofs::StateProof;

/// What a domain is computed from.
#[derive(Debug, Drop)]
pub struct Inputs {
    pub grid: Grid,
    pub crac: Crac,
    pub settings: Settings,
    pub keys: Keys,
    /// The validation reductions. A row without one has none.
    pub reductions: Items<Reduction>,
    /// The grid states: the base grid, and the grid after each outage that a monitored element names.
    pub states: Items<State>,
    /// The contingency of each state after the base state, by its place in the CRAC's list, from 0.
    pub outages: Items<u32>,
}

/// The direction in which a row counts the flow of its element.
#[derive(Clone, Copy, Debug, PartialEq, Eq)]
pub enum Direction {
    Direct,
    Opposite,
}

impl Direction {
    pub fn is_opposite(self) -> bool
        ensures { result ≡ is_opposite self }
    {
        match self {
            Direction::Direct => false,
            Direction::Opposite => true,
        }
    }
}

/// A row of a run: an element in a direction in which it has a limit.
#[derive(Clone, Copy, Debug)]
pub struct RunRow {
    /// The element, by its place in the CRAC's list, from 0.
    pub element: u32,
    pub direction: Direction,
    /// The grid state that the row is monitored in: 0 for the base state.
    pub state: u32,
    /// What is stated of the row: its branch, limit, margin and reductions.
    pub terms: RowTerms,
}

/// A row that is removed from a list, by its number from 1, and the multipliers that prove it from rows that are kept.
#[derive(Debug, Drop)]
pub struct Cite {
    pub row: u32,
    pub by: Multipliers,
}

/// A domain with its proof.
#[derive(Debug, Drop)]
pub struct Certificate {
    /// The version of the certificate's form: 1.
    pub version: u8,
    /// One for each state.
    pub states: Items<StateProof>,
    /// One for each row.
    pub rows: Items<RowProof>,
    /// The rows that are removed from the inner list, by rising number, and those that are removed from the outer one.
    pub inner: Items<Cite>,
    pub outer: Items<Cite>,
}

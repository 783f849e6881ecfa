//! Generated cases: a meshed grid of so many nodes in sixteen zones, with outages, monitored elements, settings and
//! shift keys. The same number and the same count of nodes give the same documents.
#![tactic(auto)]

ghost use Rattle.std.specs.Prelude.{ℕ, ◌≤◌, IfOk};
ghost use Rattle.case_maker.specs.CaseTexts.{IsCase};

mod counts;
mod crac;
mod draws;
mod grid;
mod names;
#[cfg(test)]
mod tests;
mod zones;

use crac::crac_text;
use draws::Draws;
use fb_types::Text;
use grid::grid_text;
use std::alloc::{AllocError, Global};
use zones::{glsk_text, settings_text};

/// The documents of a case, as `domain` reads them.
#[derive(Debug, Drop)]
pub struct Case {
    /// The grid in the UCTE data exchange format.
    pub grid: Text,
    /// The contingencies and the monitored elements, as a JSON CRAC.
    pub crac: Text,
    /// The moment and the zones, as JSON.
    pub settings: Text,
    /// The shift keys, as JSON.
    pub glsk: Text,
}

/// The case of a number with so many nodes, from 48 to 4,096.
pub fn make_case(alloc: Global, number: u64, nodes: u32) -> Result<Case, AllocError>
    requires enough { 48 ≤ nodes }
    requires few { nodes ≤ 4096 }
    ensures { IfOk result (IsCase number nodes) }
{
    let mut draws = Draws::new(number);
    let grid = grid_text(alloc, &mut draws, nodes)?;
    let crac = crac_text(alloc, &mut draws, nodes)?;
    let settings = settings_text(alloc)?;
    let glsk = glsk_text(alloc)?;
    Ok(Case {
        grid: Text::from_string(grid),
        crac: Text::from_string(crac),
        settings: Text::from_string(settings),
        glsk: Text::from_string(glsk),
    })
}

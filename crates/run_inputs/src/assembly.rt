//! Puts the inputs of a run together.

ghost use Rattle.std.specs.Prelude.{◌≡◌, length, IfOk, IfErr};
ghost use Rattle.run_settings.specs.Laws.{AreSettings};
ghost use Rattle.run_settings.specs.ReductionLaws.{AreReductionsOf};
ghost use Rattle.run_settings.specs.Views.{said};
ghost use Rattle.glsk_keys.specs.Laws.{AreKeys};
ghost use Rattle.fb_certificate.specs.Whole.{IsCracOver, IsWhole};
ghost use Rattle.run_inputs.specs.Refusals.{IsRefused};

use crate::fault::InputsError;
use crate::outages::outages_of;
use crate::range::first_out_of_range;
use crate::states::states;
use fb_certificate::Inputs;
use fb_types::{Crac, Grid, Items};
use glsk_keys::Keys;
use grid_state::slack_of;
use run_settings::{Reduction, Settings};
use std::alloc::Global;

/// What a domain is computed from: the documents of a run, with the grid states of the base grid and after each contingency
/// that a monitored element names, seen from the slack node.
///
/// It is refused where there is no slack node; else where a state is split, with the first such state and its first stranded
/// node; else where a state is outside the range rule, with the first such state. Contingencies that no element names have no
/// state, and are not judged.
///
/// The documents are given back as they were. Where there are no inputs, they are dropped.
pub fn run_inputs(
    alloc: Global,
    grid: Grid,
    crac: Crac,
    settings: Settings,
    keys: Keys,
    reductions: Items<Reduction>,
) -> Result<Inputs, InputsError>
    requires crac { IsCracOver (length grid.branches) crac }
    requires settings { AreSettings grid.nodes (said settings) }
    requires keys { AreKeys grid.nodes settings.zones keys }
    requires reductions { AreReductionsOf crac.elements reductions }
    ensures whole { IfOk result IsWhole }
    ensures parts { IfOk result (λ inputs. (inputs.grid ≡ grid) × (inputs.crac ≡ crac) × (inputs.settings ≡ settings) × (inputs.keys ≡ keys) × (inputs.reductions ≡ reductions)) }
    ensures cause { IfErr result (IsRefused grid crac settings.slack keys.columns) }
{
    let Some(slack) = slack_of(&grid, settings.slack) else {
        return Err(InputsError::NoSlack);
    };
    let outages = outages_of(alloc, &crac)?;
    let states = states(
        alloc,
        &grid,
        slack,
        &crac,
        outages.as_slice(),
        &keys.columns,
    )?;
    if let Some(state) = first_out_of_range(&grid, states.as_slice()) {
        return Err(InputsError::RangeExceeded { state });
    }
    Ok(Inputs {
        grid,
        crac,
        settings,
        keys,
        reductions,
        states,
        outages,
    })
}

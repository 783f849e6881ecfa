//! What is stated of a row.

ghost use Rattle.std.specs.Prelude.{◌≡◌, ℕ, pos};
ghost use Rattle.std.specs.Option.{option_map_or};
ghost use Rattle.run_settings.specs.Reductions.{limit_in};
ghost use Rattle.fb_certificate.specs.CracRows.{reduction_for};
ghost use Rattle.fb_certificate.specs.RunRows.{is_opposite, row_with};
ghost use Rattle.fb_certificate.specs.Situations.{stated};

use crate::types::{Direction, Inputs};
use cnec_rows::RowTerms;
use fb_types::Element;
use run_settings::Reduction;

/// The limit of an element in a direction.
pub(crate) fn limit_in(element: &Element, direction: Direction) -> Option<i64>
    ensures { result ≡ limit_in (is_opposite direction) element.now }
{
    match direction {
        Direction::Direct => element.direct,
        Direction::Opposite => element.opposite,
    }
}

/// What the coordinated (CVA) and the individual validation (IVA) take off a limit, in watts: nothing without a reduction.
fn reductions_of(reduction: Option<Reduction>) -> (i64, i64)
    ensures cva { result.0 ≡ option_map_or (λ r. r.cva) reduction (pos 0) }
    ensures iva { result.1 ≡ option_map_or (λ r. r.iva) reduction (pos 0) }
{
    match reduction {
        None => (0, 0),
        Some(reduction) => (reduction.cva, reduction.iva),
    }
}

/// What is stated of the row of an element in a direction, with its limit there and its reduction.
pub(crate) fn terms_of(
    inputs: &Inputs,
    element: &Element,
    direction: Direction,
    limit: i64,
    reduction: Option<Reduction>,
) -> RowTerms
    ensures { (place : ℕ) → reduction ≡ reduction_for inputs.now.reductions (row_with place element.now direction limit) → result ≡ stated inputs.now (row_with place element.now direction limit) }
{
    let (cva, iva) = reductions_of(reduction);
    RowTerms {
        branch: element.branch,
        against: direction.is_opposite() != element.turned,
        limit,
        margin: element.margin,
        cva,
        iva,
        ramr: inputs.settings.ramr,
        threshold: inputs.settings.threshold,
    }
}

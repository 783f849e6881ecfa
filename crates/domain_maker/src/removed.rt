//! The rows that are removed from a list of the domain.

ghost use Rattle.std.specs.Prelude.{◌<◌, ◌^◌, length, IfOk};
ghost use Rattle.run_settings.specs.Laws.{core_bounds};
ghost use Rattle.fb_certificate.specs.Lists.{AreCites};
ghost use Rattle.fb_certificate.specs.Thin.{IsThinList};
ghost use Rattle.fb_certificate.specs.Whole.{IsWhole};
ghost use Rattle.row_removal.specs.Kinds.{kind_of};
ghost use Rattle.valid_domains.specs.Ranges.{AreRowsInRange};

use fb_certificate::{Cite, Inputs, RowProof, row_zones};
use fb_types::Items;
use row_removal::{DomainList, removed_rows};
use std::alloc::{AllocError, Global};

/// The rows that are removed from a list of the domain, with the multipliers that prove them.
pub(crate) fn removed(
    alloc: Global,
    inputs: &Inputs,
    rows: &Items<RowProof>,
    list: DomainList,
) -> Result<Items<Cite>, AllocError>
    requires whole { IsWhole inputs.now }
    requires range { AreRowsInRange inputs.now rows.now }
    requires few { length rows.now < 2 ^ 32 }
    ensures cites { IfOk result (λ cites. AreCites (kind_of list) (core_bounds inputs.now.settings.zones) rows.now cites) }
    ensures thin { IfOk result (λ cites. IsThinList (kind_of list) (core_bounds inputs.now.settings.zones) rows.now cites) }
{
    let zones = row_zones(alloc, &inputs.settings, &inputs.keys)?;
    removed_rows(alloc, rows, list, &zones.bounds)
}

//! The header of a domain.

ghost use Rattle.std.specs.Prelude.{◌≡◌, ◌++◌, ◌∷◌, [], codes, OnOk, string_bytes};
ghost use Rattle.domain_report.specs.DomainTexts.{label_columns, side_columns, zone_columns, header};

use crate::fields::put_texts;
use csv_rows::Fields;
use run_settings::Zone;
use std::alloc::{AllocError, Global};

/// Appends the names of the columns.
pub(crate) fn put_header(
    alloc: Global,
    fields: &mut Fields,
    zones: &[Zone],
) -> Result<(), AllocError>
    ensures { OnOk result (fields.new ≡ fields.old ++ header zones.now) }
{
    put_label_columns(fields)?;
    put_side_columns(fields)?;
    put_zone_columns(alloc, fields, zones)?;
    put_texts(fields, &["inner_by", "outer_by"])
}

fn put_label_columns(fields: &mut Fields) -> Result<(), AllocError>
    ensures { OnOk result (fields.new ≡ fields.old ++ label_columns) }
{
    let columns = ["row", "element", "instant", "contingency", "direction"];
    put_texts(fields, &columns)
}

fn put_side_columns(fields: &mut Fields) -> Result<(), AllocError>
    ensures { OnOk result (fields.new ≡ fields.old ++ side_columns) }
{
    let columns = ["class", "inner", "outer", "r_in", "r_out", "gap"];
    put_texts(fields, &columns)
}

/// Appends the column of each Core zone.
fn put_zone_columns(alloc: Global, fields: &mut Fields, zones: &[Zone]) -> Result<(), AllocError>
    ensures { OnOk result (fields.new ≡ fields.old ++ zone_columns zones.now) }
{
    for zone in zones {
        if !zone.core {
            continue;
        }
        put_zone_column(alloc, fields, zone)?;
    }
    Ok(())
}

fn put_zone_column(alloc: Global, fields: &mut Fields, zone: &Zone) -> Result<(), AllocError>
    ensures { OnOk result (fields.new ≡ fields.old ++ (codes "a:" ++ zone.now.id) ∷ []) }
{
    let id = zone.id.as_text();
    let column = format!(in alloc; "a:{id}")?;
    fields.put_text(column.as_str())
}

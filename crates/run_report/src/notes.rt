//! The branches whose reactance was raised.

ghost use Rattle.std.specs.Prelude.{◌≡◌, IfOk, map};
ghost use Rattle.serde_json.specs.Written.{compact_text};
ghost use Rattle.run_report.specs.ReportTexts.{notes};

use crate::json::quoted;
use fb_types::{Branch, Items, Text};
use std::alloc::{AllocError, Global};

/// The id of each branch whose reactance was raised, as a string of JSON.
pub(crate) fn notes(alloc: Global, branches: &[Branch]) -> Result<Items<Text>, AllocError>
    ensures { IfOk result (λ ids. ids ≡ map compact_text (notes branches.now)) }
{
    let mut ids = Items::new(alloc);
    for branch in branches {
        if !branch.floored {
            continue;
        }
        let id = quoted(alloc, branch.id.as_text())?;
        ids.add(Text::from_string(id))?;
    }
    Ok(ids)
}

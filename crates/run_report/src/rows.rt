//! The rows of a report.

ghost use Rattle.std.specs.Prelude.{◌≡◌, ◌++◌, false, IfOk, OnOk, length, map, string_bytes};
ghost use Rattle.serde_json.specs.Data.{string};
ghost use Rattle.serde_json.specs.Written.{compact_text};
ghost use Rattle.domain_report.specs.DomainTexts.{class_word, direction_word};
ghost use Rattle.fb_certificate.specs.CracRows.{crac_rows};
ghost use Rattle.fb_certificate.specs.RunRows.{is_opposite};
ghost use Rattle.fb_certificate.specs.Whole.{IsWhole};
ghost use Rattle.run_report.specs.Lines.{joined, labels_text, margins_text, row_text, with_text, without_text};
ghost use Rattle.run_report.specs.ReportTexts.{ends, gap_of, row_trees, watts};

use crate::json::{put_item, quoted, span_text, watts_text};
use crate::summary::gap;
use cnec_rows::RowSpans;
use cnec_selection::Class;
use domain_report::{class_word, direction_word};
use fb_certificate::{Certificate, Direction, Inputs, RowProof, run_rows};
use fb_types::Element;
use std::alloc::{AllocError, Global};

/// Appends the texts of the rows, in the order of the run and with a comma between each and the next, from the spans of
/// all rows.
pub(crate) fn put_rows(
    alloc: Global,
    line: &mut String,
    inputs: &Inputs,
    certificate: &Certificate,
    spans: &[RowSpans],
) -> Result<(), AllocError>
    requires whole { IsWhole inputs.now }
    requires rows { length certificate.now.rows ≡ length (crac_rows inputs.now.crac.elements) }
    requires spans { length spans.now ≡ length (crac_rows inputs.now.crac.elements) }
    ensures { OnOk result (string_bytes line.new ≡ string_bytes line.old ++ joined false (map compact_text
        (row_trees (crac_rows inputs.now.crac.elements) certificate.now.rows spans.now))) }
{
    let elements = inputs.crac.elements.as_slice();
    let numbers = certificate.rows.as_slice();
    let rows = run_rows(alloc, inputs)?;
    for (place, row) in rows.as_slice().iter().enumerate() {
        let element = &elements[row.element as usize];
        let text = row_text(
            alloc,
            place as u32 + 1,
            element,
            row.direction,
            &numbers[place],
            &spans[place],
        )?;
        put_item(line, place, text.as_str())?;
    }
    Ok(())
}

/// The text of the row with this number, of an element in a direction, from its numbers in the certificate and its
/// spans.
fn row_text(
    alloc: Global,
    number: u32,
    element: &Element,
    direction: Direction,
    row: &RowProof,
    spans: &RowSpans,
) -> Result<String, AllocError>
    ensures { IfOk result (λ text. string_bytes text
        ≡ row_text number element.now (is_opposite direction) row.now spans.now) }
{
    let labels = labels(alloc, element, direction, row.class)?;
    let without = flows_without_exchanges(alloc, spans)?;
    let with = flows_with_exchanges(alloc, spans)?;
    let margins = margins(alloc, number, row, spans)?;
    format!(in alloc; "{labels}{without}{with}{margins}")
}

/// The members of a row up to its element.
fn labels(
    alloc: Global,
    element: &Element,
    direction: Direction,
    class: Class,
) -> Result<String, AllocError>
    ensures { IfOk result (λ text. string_bytes text ≡ labels_text (compact_text (string (class_word class)))
        (compact_text (string (direction_word (is_opposite direction)))) (compact_text (string element.now.id))) }
{
    let class = quoted(alloc, class_word(class))?;
    let direction = quoted(alloc, direction_word(direction.is_opposite()))?;
    let element = quoted(alloc, element.id.as_text())?;
    format!(in alloc; "{{\"class\":{class},\"direction\":{direction},\"element\":{element}")
}

/// The flows without exchanges.
fn flows_without_exchanges(alloc: Global, spans: &RowSpans) -> Result<String, AllocError>
    ensures { IfOk result (λ text. string_bytes text
        ≡ without_text (compact_text (watts spans.now.f0all)) (compact_text (watts spans.now.f0core))) }
{
    let f0all = watts_text(alloc, spans.f0all)?;
    let f0core = watts_text(alloc, spans.f0core)?;
    format!(in alloc; ",\"f0all\":{f0all},\"f0core\":{f0core}")
}

/// The reference flow, and the flow of exchanges outside Core.
fn flows_with_exchanges(alloc: Global, spans: &RowSpans) -> Result<String, AllocError>
    ensures { IfOk result (λ text. string_bytes text
        ≡ with_text (compact_text (watts spans.now.fref)) (compact_text (watts spans.now.fuaf))) }
{
    let fref = watts_text(alloc, spans.fref)?;
    let fuaf = watts_text(alloc, spans.fuaf)?;
    format!(in alloc; ",\"fref\":{fref},\"fuaf\":{fuaf}")
}

/// The members of a row behind its flows.
fn margins(
    alloc: Global,
    number: u32,
    row: &RowProof,
    spans: &RowSpans,
) -> Result<String, AllocError>
    ensures { IfOk result (λ text. string_bytes text ≡ margins_text (gap_of row.now)
        (compact_text (watts spans.now.ram)) number (compact_text (ends spans.now.spread.0 spans.now.spread.1))) }
{
    let gap = gap(row);
    let ram = watts_text(alloc, spans.ram)?;
    let spread = span_text(alloc, spans.spread)?;
    format!(in alloc; ",\"gap\":{gap},\"ram\":{ram},\"row\":{number},\"spread\":{spread}}}")
}

//! Pieces of compact JSON.

ghost use Rattle.std.specs.Prelude.{◌≡◌, ◌<◌, ◌++◌, [], ◌∷◌, false, IfOk, OnOk, string_bytes};
ghost use Rattle.serde_json.specs.Data.{string};
ghost use Rattle.serde_json.specs.Written.{compact_text};
ghost use Rattle.run_report.specs.Lines.{array_text, joined};
ghost use Rattle.run_report.specs.ReportTexts.{ends, watts};

use fb_span::Span;
use fb_types::Text;
use serde_json::Value;
use std::alloc::{AllocError, Global};
use whole_laws::{ceil_div, floor_div};

/// One watt in picowatts.
const WATT: i128 = 1_000_000_000_000;

/// A text as a string of JSON.
pub(crate) fn quoted(alloc: Global, text: &str) -> Result<String, AllocError>
    ensures { IfOk result (λ quoted. string_bytes quoted ≡ compact_text (string text.now)) }
{
    Value::try_from_str(alloc, text)?.to_string(alloc)
}

/// Two numbers as an array.
fn ends_text(alloc: Global, low: i128, high: i128) -> Result<String, AllocError>
    ensures { IfOk result (λ text. string_bytes text ≡ compact_text (ends low high)) }
{
    format!(in alloc; "[{low},{high}]")
}

/// The ends of a span as an array.
pub(crate) fn span_text(alloc: Global, span: Span<i128>) -> Result<String, AllocError>
    ensures { IfOk result (λ text. string_bytes text ≡ compact_text (ends span.0 span.1)) }
{
    ends_text(alloc, span.low(), span.high())
}

/// The ends of a span in picowatts as an array, in watts: the low one rounded down, and the high one up.
pub(crate) fn watts_text(alloc: Global, span: Span<i128>) -> Result<String, AllocError>
    ensures { IfOk result (λ text. string_bytes text ≡ compact_text (watts span)) }
{
    let low = floor_div(span.low(), WATT);
    let high = ceil_div(span.high(), WATT);
    ends_text(alloc, low, high)
}

/// The array of items with these texts.
pub(crate) fn array_text(alloc: Global, items: &[Text]) -> Result<String, AllocError>
    ensures { IfOk result (λ text. string_bytes text ≡ array_text items.now) }
{
    let mut text = String::from_str(alloc, "[")?;
    put_items(&mut text, items)?;
    text.push(']')?;
    Ok(text)
}

/// Appends texts with a comma between each and the next.
fn put_items(text: &mut String, items: &[Text]) -> Result<(), AllocError>
    ensures { OnOk result (string_bytes text.new ≡ string_bytes text.old ++ joined false items.now) }
{
    for (place, item) in items.iter().enumerate() {
        put_item(text, place, item.as_text())?;
    }
    Ok(())
}

/// Appends the item at a place of an array, with a comma before it where it is not the first.
pub(crate) fn put_item(text: &mut String, place: usize, item: &str) -> Result<(), AllocError>
    ensures first { OnOk result (place ≡ 0 → string_bytes text.new ≡ string_bytes text.old ++ item.now) }
    ensures more { OnOk result (0 < place → string_bytes text.new ≡ (string_bytes text.old ++ 44 ∷ []) ++ item.now) }
{
    if place == 0 {
        return text.push_str(item);
    }
    text.push_str(",")?;
    text.push_str(item)
}

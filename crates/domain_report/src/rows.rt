//! The fields of the record of a row.

ghost use Rattle.std.specs.Prelude.{◌≡◌, ◌++◌, ◌∷◌, ◌-ℤ◌, [], ℕ, OnOk};
ghost use Rattle.domain_report.specs.DomainTexts.{citation_text, class_word, contingency_id, direction_word, labels, sides, coefficients, citations};
ghost use Rattle.domain_report.specs.Standings.{AreCitesOf, IsIndexFor, sides_of, standing_word, standing_citation};
ghost use Rattle.fb_certificate.specs.declared.types.Certificate.{Certificate};

use crate::cite_index::Cites;
use crate::fields::{put_texts, put_wholes};
use crate::standing::{Standing, citation_text, is_inner, is_outer, standing_of, word};
use cnec_selection::Class;
use csv_rows::Fields;
use fb_certificate::RowProof;
use fb_types::{Contingency, Element, Multipliers};
use std::alloc::{AllocError, Global};

/// Appends what names a row: its number, its element's id and instant, the contingency and the direction.
pub(crate) fn put_labels(
    fields: &mut Fields,
    contingencies: &[Contingency],
    number: u32,
    element: &Element,
    opposite: bool,
) -> Result<(), AllocError>
    ensures { OnOk result (fields.new ≡ fields.old ++ labels contingencies.now number element.now opposite) }
{
    fields.put_whole(i128::from(number))?;
    fields.put_text(element.id.as_text())?;
    fields.put_text(element.instant.as_text())?;
    fields.put_text(contingency_id(contingencies, element.contingency))?;
    fields.put_text(direction_word(opposite))
}

/// The id of a contingency of the list, empty in the base state.
pub fn contingency_id(contingencies: &[Contingency], contingency: Option<u32>) -> &str
    ensures { result.now ≡ contingency_id contingencies.now contingency }
{
    let Some(place) = contingency else {
        return "";
    };
    match contingencies.get(place as usize) {
        None => "",
        Some(contingency) => contingency.id.as_text(),
    }
}

/// The word of a direction.
pub fn direction_word(opposite: bool) -> &'static str
    ensures { result.now ≡ direction_word opposite }
{
    if opposite { "OPPOSITE" } else { "DIRECT" }
}

/// The word of a class.
pub fn class_word(class: Class) -> &'static str
    ensures { result.now ≡ class_word class }
{
    match class {
        Class::Below => "BELOW",
        Class::Doubtful => "DOUBTFUL",
        Class::Certain => "CERTAIN",
    }
}

/// Appends what a certificate has of the row with this number: its class, how it stands in the lists, its numbers and its
/// citations. The cites are those of a certificate whose rows have numbers below a count.
pub(crate) fn put_proof(
    alloc: Global,
    fields: &mut Fields,
    cites: &Cites,
    number: u32,
    row: &RowProof,
) -> Result<(), AllocError>
    requires inner { IsIndexFor number cites.now.inner }
    requires outer { IsIndexFor number cites.now.outer }
    ensures { (certificate : Certificate) → (count : ℕ) → AreCitesOf count certificate cites.now → OnOk result (fields.new ≡ fields.old ++ (sides certificate number row.now ++ (coefficients row.now ++ citations certificate number row.now))) }
{
    let inner = standing_of(is_inner(row.class), &cites.inner, number);
    let outer = standing_of(is_outer(row.class), &cites.outer, number);
    put_sides(fields, inner, outer, row)?;
    put_wholes(fields, row.a.as_slice())?;
    put_citation(alloc, fields, inner)?;
    put_citation(alloc, fields, outer)?;
    Ok(())
}

/// Appends the class of a row, how it stands in the lists, its right sides and their gap.
fn put_sides(
    fields: &mut Fields,
    inner: Standing,
    outer: Standing,
    row: &RowProof,
) -> Result<(), AllocError>
    ensures { OnOk result (fields.new ≡ fields.old ++ sides_of (standing_word inner.entry) (standing_word outer.entry) row.now) }
{
    let words = [class_word(row.class), word(inner), word(outer)];
    put_texts(fields, &words)?;
    put_wholes(fields, &[row.r_in, row.r_out])?;
    fields.put_whole(gap(row))
}

/// The right side in the outer list less that in the inner one.
fn gap(row: &RowProof) -> i128
    ensures { result ≡ row.now.r_out -ℤ row.now.r_in }
{
    i128::from(row.r_out) - i128::from(row.r_in)
}

/// Appends the citation of a row that is removed, an empty field for another.
fn put_citation(alloc: Global, fields: &mut Fields, standing: Standing) -> Result<(), AllocError>
    ensures { OnOk result (fields.new ≡ fields.old ++ standing_citation standing.entry ∷ []) }
{
    match standing {
        Standing::Absent => fields.put_text(""),
        Standing::Kept => fields.put_text(""),
        Standing::Removed(by) => put_cited(alloc, fields, by),
    }
}

/// Appends the text of multipliers as a field.
fn put_cited(alloc: Global, fields: &mut Fields, by: &Multipliers) -> Result<(), AllocError>
    ensures { OnOk result (fields.new ≡ fields.old ++ citation_text by.now ∷ []) }
{
    let text = citation_text(alloc, by)?;
    fields.put_text(text.as_str())
}

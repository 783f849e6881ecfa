//! How a row stands in the inner and in the outer list.

ghost use Rattle.std.specs.Prelude.{◌≡◌, ◌++◌, ◌∷◌, [], IfOk, OnOk, string_bytes};
ghost use Rattle.fb_certificate.specs.Lists.{inner_list, outer_list};
ghost use Rattle.domain_report.specs.DomainTexts.{citation, citation_text, fate_word, multiplier_text};
ghost use Rattle.domain_report.specs.Standings.{IsIndexFor, standing_word, standing_citation};

use crate::cite_index::CiteIndex;
use cnec_selection::Class;
use csv_rows::put_whole;
use fb_types::{Mult, Multipliers};
use std::alloc::{AllocError, Global};

/// How a row stands in a list.
#[derive(Clone, Copy)]
pub(crate) enum Standing<'a> {
    /// The row is not of the list.
    Absent,
    Kept,
    /// It is removed, by these multipliers.
    Removed(&'a Multipliers),
}

/// Whether a row of this class stands in the inner list.
pub(crate) fn is_inner(class: Class) -> bool
    ensures { result ≡ inner_list.holds class }
{
    match class {
        Class::Below => false,
        Class::Doubtful => true,
        Class::Certain => true,
    }
}

/// Whether a row of this class stands in the outer list.
pub(crate) fn is_outer(class: Class) -> bool
    ensures { result ≡ outer_list.holds class }
{
    match class {
        Class::Below => false,
        Class::Doubtful => false,
        Class::Certain => true,
    }
}

/// How the row with this number stands in the list with these cites, of which it is or not.
pub(crate) fn standing_of<'a>(is_listed: bool, cites: &CiteIndex<'a>, number: u32) -> Standing<'a>
    requires { IsIndexFor number cites.now }
    ensures word { standing_word result ≡ fate_word is_listed cites.now.cites.now number }
    ensures citation { standing_citation result ≡ citation is_listed cites.now.cites.now number }
{
    if !is_listed {
        return Standing::Absent;
    }
    match cites.cite_of(number) {
        None => Standing::Kept,
        Some(cite) => Standing::Removed(&cite.by),
    }
}

/// The word of a standing.
pub(crate) fn word(standing: Standing) -> &'static str
    ensures { result.now ≡ standing_word standing.entry }
{
    match standing {
        Standing::Absent => "-",
        Standing::Kept => "KEPT",
        Standing::Removed(_) => "REMOVED",
    }
}

/// Multipliers as text: mu, and then for each multiplier a blank, its row, a colon and its value.
pub fn citation_text(alloc: Global, by: &Multipliers) -> Result<String, AllocError>
    ensures { IfOk result (λ text. string_bytes text ≡ citation_text by.now) }
{
    let mut text = String::new(alloc);
    put_whole(&mut text, by.mu)?;
    for m in by.mults.as_slice() {
        put_multiplier(&mut text, m)?;
    }
    Ok(text)
}

/// Appends a multiplier.
fn put_multiplier(text: &mut String, m: &Mult) -> Result<(), AllocError>
    ensures { OnOk result (string_bytes text.new ≡ string_bytes text.old ++ multiplier_text m.now) }
{
    text.push(' ')?;
    put_whole(text, i128::from(m.row))?;
    text.push(':')?;
    put_whole(text, m.value)
}

//! The contingencies and the monitored elements of a case, as a JSON CRAC.

ghost use Rattle.std.specs.Prelude.{◌≡◌, ℕ, ◌+◌, ◌*◌, ◌++◌, ◌<◌, ◌≤◌, IfOk, OnOk, string_bytes};
ghost use Rattle.case_maker.specs.Drawing.{next_state, state_after};
ghost use Rattle.case_maker.specs.Pieces.{separator, parted, contingency_texts, element_texts, limits_text};
ghost use Rattle.case_maker.specs.Layout.{outages_of, elements_of};
ghost use Rattle.case_maker.specs.CracTexts.{crac_text, contingency_text, instant_members, element_text};

use crate::counts::{element_node, elements, outage_node, outages};
use crate::draws::Draws;
use crate::grid::CHORD;
use crate::names::branch_id;
use std::alloc::{AllocError, Global};

/// The CRAC: a contingency for each of some chords, and an element for each of some lines round the ring.
pub(crate) fn crac_text(alloc: Global, draws: &mut Draws, nodes: u32) -> Result<String, AllocError>
    requires enough { 48 ≤ nodes }
    requires few { nodes ≤ 4096 }
    ensures { IfOk result (λ text. string_bytes text ≡ crac_text draws.old.state nodes) }
{
    let mut text = String::from_str(alloc, r#"{"type":"CRAC","version":"2.5","instants":["#)?;
    text.push_str(r#"{"id":"preventive","kind":"PREVENTIVE"},{"id":"outage","kind":"OUTAGE"}"#)?;
    text.push_str(r#"],"contingencies":["#)?;
    put_contingencies(alloc, &mut text, nodes)?;
    text.push_str(r#"],"flowCnecs":["#)?;
    put_elements(alloc, &mut text, draws, nodes)?;
    text.push_str("]}")?;
    Ok(text)
}

/// Appends what stands before the item at a place of a list.
pub(crate) fn put_separator(text: &mut String, place: u32) -> Result<(), AllocError>
    ensures { OnOk result (string_bytes text.new ≡ string_bytes text.old ++ separator place) }
{
    text.push_str(if place == 0 { "" } else { "," })
}

/// Appends the contingencies.
fn put_contingencies(alloc: Global, text: &mut String, nodes: u32) -> Result<(), AllocError>
    requires enough { 48 ≤ nodes }
    requires few { nodes ≤ 4096 }
    ensures { OnOk result (string_bytes text.new ≡ string_bytes text.old ++ contingency_texts nodes) }
{
    for outage in 0..outages(nodes) {
        put_separator(text, outage)?;
        put_contingency(alloc, text, nodes, outage)?;
    }
    Ok(())
}

/// Appends a contingency.
fn put_contingency(
    alloc: Global,
    text: &mut String,
    nodes: u32,
    outage: u32,
) -> Result<(), AllocError>
    requires enough { 48 ≤ nodes }
    requires few { nodes ≤ 4096 }
    requires there { outage < outages_of nodes }
    ensures { OnOk result (string_bytes text.new ≡ string_bytes text.old ++ contingency_text nodes outage) }
{
    let branch = branch_id(alloc, nodes, outage_node(nodes, outage), CHORD)?;
    write!(
        text,
        r#"{{"id":"o{outage}","networkElementsIds":["{branch}"]}}"#
    )
}

/// Appends the elements.
fn put_elements(
    alloc: Global,
    text: &mut String,
    draws: &mut Draws,
    nodes: u32,
) -> Result<(), AllocError>
    requires enough { 48 ≤ nodes }
    requires few { nodes ≤ 4096 }
    ensures { OnOk result (string_bytes text.new ≡ string_bytes text.old ++ element_texts draws.old.state nodes) }
{
    for element in 0..elements(nodes) {
        put_separator(text, element)?;
        put_element(alloc, text, draws, nodes, element)?;
    }
    Ok(())
}

/// The members that say in which state an element is monitored: every second one after an outage.
fn instant_members(alloc: Global, nodes: u32, element: u32) -> Result<String, AllocError>
    requires enough { 48 ≤ nodes }
    requires few { nodes ≤ 4096 }
    ensures { IfOk result (λ members. string_bytes members ≡ parted (instant_members nodes element)) }
{
    if element % 2 == 0 {
        return String::from_str(alloc, r#""instant":"preventive""#);
    }
    let outage = element % outages(nodes);
    format!(in alloc; r#""instant":"outage","contingencyId":"o{outage}""#)
}

/// Appends an element, with its limit and its margin in MW.
fn put_element(
    alloc: Global,
    text: &mut String,
    draws: &mut Draws,
    nodes: u32,
    element: u32,
) -> Result<(), AllocError>
    requires enough { 48 ≤ nodes }
    requires few { nodes ≤ 4096 }
    requires there { element < elements_of nodes }
    ensures text { OnOk result (string_bytes text.new ≡ string_bytes text.old ++ element_text draws.old.state nodes element) }
    ensures moved { OnOk result (draws.new.state ≡ next_state (next_state draws.old.state)) }
{
    let limit = 500 + draws.draw(1500);
    let margin = draws.draw(100);
    let branch = branch_id(alloc, nodes, element_node(nodes, element), 1)?;
    let instant = instant_members(alloc, nodes, element)?;
    write!(
        text,
        r#"{{"id":"e{element}","networkElementId":"{branch}",{instant},"optimized":true,"#
    )?;
    put_limits(text, margin, limit)
}

/// Appends the members of an element with its margin and its limit, which is the same in both directions, and ends it.
fn put_limits(text: &mut String, margin: u32, limit: u32) -> Result<(), AllocError>
    ensures { OnOk result (string_bytes text.new ≡ string_bytes text.old ++ limits_text margin limit) }
{
    write!(
        text,
        r#""reliabilityMargin":{margin},"thresholds":[{{"unit":"megawatt","min":-{limit},"max":{limit}}}]}}"#
    )
}

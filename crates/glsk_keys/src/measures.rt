//! Numbers at nodes.

ghost use Rattle.std.specs.Prelude.{◌≡◌, ◌≤◌, ◌<◌, ◌^◌, length, IfOk, All};
ghost use Rattle.fb_types.specs.GridRanges.{AreInjections};
ghost use Rattle.whole_laws.specs.Sums.{IsWithin};
ghost use Rattle.glsk_keys.specs.Measures.{value_of, chosen_value, values_of, factors_of, total_of, injection_of, net_of};
ghost use Rattle.glsk_keys.specs.Sizes.{AreSmall, AreWeights, IsFactor};

use fb_types::{Node, Weight};
use std::alloc::{AllocError, Global};

/// What is measured at a node.
#[derive(Clone, Copy, Debug)]
pub enum Measure {
    /// What it generates, in watts.
    Generation,
    /// What it consumes, in watts.
    Load,
    /// 1 for each node.
    One,
    /// The sizes of its load and of its generation together, in watts.
    Size,
}

pub fn value(measure: Measure, node: &Node) -> i128
    ensures { result ≡ value_of measure node.now }
{
    let load = i128::from(node.load);
    let generation = i128::from(node.generation);
    match measure {
        Measure::Generation => (-generation).max(0),
        Measure::Load => load.max(0),
        Measure::One => 1,
        Measure::Size => load.abs() + generation.abs(),
    }
}

fn chosen_value(measure: Measure, is_chosen: bool, node: &Node) -> i128
    ensures { result ≡ chosen_value measure is_chosen node.now }
{
    if is_chosen { value(measure, node) } else { 0 }
}

/// A number for each node: its value where it is chosen, and 0 elsewhere.
pub fn values(
    alloc: Global,
    measure: Measure,
    chosen: &[bool],
    nodes: &[Node],
) -> Result<Vec<i128>, AllocError>
    requires few { length nodes.now ≤ 4096 }
    requires each { length chosen.now ≡ length nodes.now }
    requires in_range { AreInjections nodes.now }
    ensures values { IfOk result (λ v. v.items ≡ values_of measure chosen.now nodes.now) }
    ensures small { IfOk result (λ v. AreSmall v.items) }
    ensures none_below { IfOk result (λ v. AreWeights v.items) }
{
    let mut values = Vec::new(alloc);
    for (place, node) in nodes.iter().enumerate() {
        values.push(chosen_value(measure, chosen[place], node))?;
    }
    Ok(values)
}

/// A number for each of so many nodes: the sum of its factors.
pub fn factors(alloc: Global, count: usize, listed: &[Weight]) -> Result<Vec<i128>, AllocError>
    requires few { count ≤ 4096 }
    requires factors { All IsFactor listed.now }
    ensures factors { IfOk result (λ v. v.items ≡ factors_of count listed.now) }
    ensures small { IfOk result (λ v. AreSmall v.items) }
    ensures none_below { IfOk result (λ v. AreWeights v.items) }
{
    let mut factors = vec![in alloc; 0_i128; count]?;
    for weight in listed {
        let place = weight.node as usize;
        if place >= factors.len() {
            continue;
        }
        factors[place] += i128::from(weight.weight);
    }
    Ok(factors)
}

pub fn total(values: &[i128]) -> i128
    requires { AreSmall values.now }
    ensures { result ≡ total_of values.now }
{
    let mut total: i128 = 0;
    for value in values {
        total += *value;
    }
    total
}

/// What the node feeds in, where it is chosen.
fn injection(is_chosen: bool, node: &Node) -> i64
    requires load { IsWithin (10 ^ 12) node.now.load }
    requires generation { IsWithin (10 ^ 12) node.now.generation }
    ensures { result ≡ injection_of is_chosen node.now }
{
    if is_chosen {
        -node.load - node.generation
    } else {
        0
    }
}

/// What the chosen nodes feed in together, in watts.
pub fn net(chosen: &[bool], nodes: &[Node]) -> i64
    requires each { length chosen.now ≡ length nodes.now }
    requires small { AreInjections nodes.now }
    ensures { result ≡ net_of chosen.now nodes.now }
{
    let mut net: i64 = 0;
    for (place, node) in nodes.iter().enumerate() {
        net += injection(chosen[place], node);
    }
    net
}

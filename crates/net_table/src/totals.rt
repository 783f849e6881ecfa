//! Totals by two-letter code.

ghost use Rattle.std.specs.Prelude.{◌≡◌, ◌^◌, ℤ, ◌+ℤ◌, neg_ℤ, ◌-ℤ◌, List, [], map, string_bytes, IfOk, OnOk, All};
ghost use Rattle.whole_laws.specs.Sums.{IsWithin};
ghost use Rattle.net_table.specs.NetTexts.{injection_of, nets_of};
ghost use Rattle.net_table.specs.Totals.{with_amount, totals_in, AreWithin};

use fb_types::{Grid, Node};
use indexmap::IndexMap;
use std::alloc::{AllocError, Global};

/// The net position of each code, in watts, in the order of its first node.
pub type Totals = IndexMap<String, i64>;

/// What a node feeds in.
fn injection(node: &Node) -> i64
    requires load { IsWithin (10 ^ 12) node.now.load }
    requires generation { IsWithin (10 ^ 12) node.now.generation }
    ensures { result ≡ injection_of node.now }
{
    -node.load - node.generation
}

/// Adds an amount to the total of a code.
fn add(alloc: Global, totals: &mut Totals, code: &str, amount: i64) -> Result<(), AllocError>
    requires amount { IsWithin (10 ^ 12) amount }
    requires totals { AreWithin (10 ^ 12) (totals_in totals.old.entries) }
    ensures { OnOk result (totals_in totals.new.entries ≡ with_amount (totals_in totals.old.entries) code.now amount) }
{
    let before = totals.get(code).copied().unwrap_or(0);
    let after = before + amount;
    totals.insert(String::from_str(alloc, code)?, after)?;
    Ok(())
}

/// The net position of each code of a grid.
pub fn totals(alloc: Global, grid: &Grid) -> Result<Totals, AllocError>
    ensures { IfOk result (λ totals. totals_in totals.entries ≡ nets_of grid.now.nodes) }
{
    let mut totals = IndexMap::new(alloc);
    for node in grid.nodes.as_slice() {
        add(alloc, &mut totals, node.zone.as_text(), injection(node))?;
    }
    Ok(totals)
}

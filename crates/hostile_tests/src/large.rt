//! The command `domain` on grids that sweeps alone would take minutes for: a long chain, a ring of as many nodes as a grid
//! may have, and strong lines beside weak ones.

use fb_base::MemShelf;
use std::alloc::{AllocError, Global};
use test_calls::calls::{DOMAIN, call};
use test_calls::documents::shelf_of;

/// A CRAC with one element on the branch named, in the grid without outages.
fn crac_of(alloc: Global, branch: &str) -> Result<String, AllocError> {
    let mut crac = String::from_str(
        alloc,
        r#"{"type":"CRAC","version":"2.5","instants":[{"id":"preventive","kind":"PREVENTIVE"}],"contingencies":[],"flowCnecs":[{"id":"c1","networkElementId":""#,
    )?;
    crac.push_str(branch)?;
    crac.push_str(
        r#"","instant":"preventive","optimized":true,"reliabilityMargin":0,"thresholds":[{"unit":"megawatt","min":-400,"max":400}]}]}"#,
    )?;
    Ok(crac)
}

/// The documents of a grid with one element.
fn on_branch(alloc: Global, grid: &str, branch: &str) -> Result<MemShelf, AllocError> {
    let crac = crac_of(alloc, branch)?;
    shelf_of(alloc, grid, crac.as_str())
}

/// The code of a node of a chain: the slack is the first.
fn code_of(alloc: Global, place: u32) -> Result<String, AllocError> {
    format!(in alloc; "CN{place:04}1 ")
}

/// The nodes of a chain of so many, the first half of Belgium and the others of the Netherlands.
fn push_nodes(alloc: Global, grid: &mut String, nodes: u32) -> Result<(), AllocError> {
    grid.push_str("##N\n##ZBE\n")?;
    for place in 0..nodes {
        if place == nodes / 2 {
            grid.push_str("##ZNL\n")?;
        }
        let kind = if place == 0 { "3" } else { "0" };
        grid.push_str(code_of(alloc, place)?.as_str())?;
        grid.push_str("              0 ")?;
        grid.push_str(kind)?;
        grid.push_str("\n")?;
    }
    Ok(())
}

/// A line of 14.44 ohm.
fn push_line(alloc: Global, grid: &mut String, from: u32, to: u32) -> Result<(), AllocError> {
    grid.push_str(code_of(alloc, from)?.as_str())?;
    grid.push_str(" ")?;
    grid.push_str(code_of(alloc, to)?.as_str())?;
    grid.push_str(" 1 0         14.44\n")
}

/// A chain of so many nodes.
fn chain(alloc: Global, nodes: u32) -> Result<String, AllocError> {
    let mut grid = String::new(alloc);
    push_nodes(alloc, &mut grid, nodes)?;
    grid.push_str("##L\n")?;
    for place in 1..nodes {
        push_line(alloc, &mut grid, place - 1, place)?;
    }
    Ok(grid)
}

/// A table begins like this where the first row binds.
const FIRST_OF_TABLE: &str =
    "row,element,instant,contingency,direction,class,inner,outer,r_in,r_out,gap,a:BE,a:NL,inner_by,outer_by\n1,c1,preventive,,DIRECT,CERTAIN,KEPT,KEPT,";

/// The line in the middle carries all that the Netherlands take in and nothing of what Belgium does, as the slack is
/// Belgium's.
#[test]
fn a_long_chain(rt: HostRuntime) -> Result<(), AllocError> {
    let grid = chain(rt.alloc(), 2_000)?;
    let mut shelf = on_branch(rt.alloc(), grid.as_str(), "CN09991  CN10001  1")?;
    let answer = call(&rt, DOMAIN, &mut shelf)?;
    assert_eq!(rt; answer.outcome.status, 0);
    let table =
        "row,element,instant,contingency,direction,class,inner,outer,r_in,r_out,gap,a:BE,a:NL,inner_by,outer_by\n1,c1,preventive,,DIRECT,CERTAIN,KEPT,KEPT,400000000,400000000,0,0,-1000000000000,,\n2,c1,preventive,,OPPOSITE,CERTAIN,KEPT,KEPT,400000000,400000000,0,0,1000000000000,,\n";
    assert!(rt; answer.out.bytes() == table.as_bytes());
    Ok(())
}

/// As many nodes as a grid may have, in a ring. Of an exchange each of the two lines between the zones carries a half,
/// and so all that the element may carry binds in the box.
#[test]
fn the_largest_ring(rt: HostRuntime) -> Result<(), AllocError> {
    let mut grid = chain(rt.alloc(), 4_096)?;
    push_line(rt.alloc(), &mut grid, 4_095, 0)?;
    let mut shelf = on_branch(rt.alloc(), grid.as_str(), "CN20471  CN20481  1")?;
    let answer = call(&rt, DOMAIN, &mut shelf)?;
    assert_eq!(rt; answer.outcome.status, 0);
    assert!(rt; answer.out.bytes().starts_with(FIRST_OF_TABLE.as_bytes()));
    Ok(())
}

/// A ring of five nodes whose lines have 50,000 ohm but for one of 0.05 ohm.
const RING: &str =
    "##N\n##ZBE\nBBE1AA1               0 3\nBBE2AA1               0 0\n##ZNL\nNNL1AA1               0 0\nNNL2AA1               0 0\nNNL3AA1               0 0\n##L\nBBE1AA1  BBE2AA1  1 0        0.0500\nBBE2AA1  NNL1AA1  1 0         50000\nNNL1AA1  NNL2AA1  1 0         50000\nNNL2AA1  NNL3AA1  1 0         50000\nNNL3AA1  BBE1AA1  1 0         50000\n";

/// Sweeps would raise the ends of the strong line by a millionth of what is missing each time.
#[test]
fn strong_lines_beside_weak_ones(rt: HostRuntime) -> Result<(), AllocError> {
    let mut shelf = on_branch(rt.alloc(), RING, "BBE2AA1  NNL1AA1  1")?;
    let answer = call(&rt, DOMAIN, &mut shelf)?;
    assert_eq!(rt; answer.outcome.status, 0);
    assert!(rt; answer.out.bytes().starts_with(FIRST_OF_TABLE.as_bytes()));
    Ok(())
}

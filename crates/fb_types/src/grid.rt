//! A transmission grid as the UCTE data exchange format describes it, with the numbers of the direct-current load flow.

ghost use Rattle.fb_types.specs.GridRanges.{IsBranch, IsRunning, AreBranches, AreInjections, IsGrid};
ghost use Rattle.std.specs.Prelude.{◌≡◌, ◌≤◌, length, IsTrue, ◌↔◌, MatchOption};

use crate::items::Items;
use crate::text::Text;

/// A node of the grid.
#[derive(Debug, Drop)]
pub struct Node {
    /// The node code: 8 characters, padded with blanks.
    pub code: Text,
    /// The two-letter code of the block (country) that the node stands in.
    pub zone: Text,
    /// The digit of the voltage level, 0 to 9: the seventh character of the code.
    pub level: u8,
    /// The node type, 0 to 3: PQ, Q and angle, PU, U and angle.
    pub kind: u8,
    /// The active load, in watts.
    pub load: i64,
    /// The active generation, in watts. Produced power is negative.
    pub generation: i64,
}

/// What a branch is.
#[derive(Clone, Copy, Debug, PartialEq, Eq)]
pub enum BranchKind {
    Line,
    Transformer,
    Coupler,
}

/// A branch of the grid, from its first node to its second.
#[derive(Debug, Drop)]
pub struct Branch {
    /// The two node codes and the order code, with a blank between: 19 characters.
    pub id: Text,
    pub kind: BranchKind,
    /// The first and the second node, by their places in the list of nodes, from 0.
    pub from: u32,
    pub to: u32,
    pub in_operation: bool,
    /// The susceptance, in kW/rad. It is 0 for a coupler and for a branch out of operation.
    pub b: i64,
    /// The phase shift at the first node's end, in 10^-12 rad.
    pub phi: i64,
    /// The current limit, in mA, if there is one.
    pub current: Option<i64>,
    /// Whether a reactance below 0.05 ohm was raised to that value.
    pub floored: bool,
}

/// The nodes and the branches of a grid: at most 4,096 nodes and 16,384 branches, whose ends are nodes of the list, with
/// susceptances from 1 to 10^11 kW/rad in operation, and loads and generations of at most 10^12 W together in size.
#[derive(Debug, Drop)]
pub struct Grid {
    pub nodes: Items<Node>,
    pub branches: Items<Branch>,
    pub ghost few_nodes: { length nodes ≤ 4096 },
    pub ghost few_branches: { length branches ≤ 16384 },
    pub ghost injections_in_range: { AreInjections nodes },
    pub ghost branches_in_range: { AreBranches (length nodes) branches },
}

impl Grid {
    /// The grid of these nodes and branches, or none where they are not in the ranges of a grid. It takes no memory.
    pub fn new(nodes: Items<Node>, branches: Items<Branch>) -> Option<Grid>
        ensures in_range { MatchOption result (¬ IsGrid nodes branches) (λ grid. (grid.nodes ≡ nodes) × (grid.branches ≡ branches)) }
    {
        if nodes.len() <= 4096
            && branches.len() <= 16384
            && are_injections(nodes.as_slice())
            && are_branches(branches.as_slice(), nodes.len())
        {
            Some(Grid { nodes, branches })
        } else {
            None
        }
    }
}

fn is_running(branch: &Branch) -> bool
    ensures { IsTrue result ↔ IsRunning branch.now }
{
    branch.in_operation && branch.kind != BranchKind::Coupler
}

/// Whether the ends of the branch are among so many nodes, and its susceptance is in range where it is in operation.
fn is_branch(branch: &Branch, nodes: u64) -> bool
    ensures { IsTrue result ↔ IsBranch nodes branch.now }
{
    let is_in_range = 1 <= branch.b && branch.b <= 100_000_000_000;
    u64::from(branch.from) < nodes
        && u64::from(branch.to) < nodes
        && (!is_running(branch) || is_in_range)
}

fn are_branches(branches: &[Branch], nodes: u64) -> bool
    ensures { IsTrue result ↔ AreBranches nodes branches.now }
{
    for branch in branches {
        if !is_branch(branch, nodes) {
            return false;
        }
    }
    true
}

/// Whether all loads and generations together are in range.
fn are_injections(nodes: &[Node]) -> bool
    ensures { IsTrue result ↔ AreInjections nodes.now }
{
    let mut left: u64 = 1_000_000_000_000;
    for node in nodes {
        let size = u128::from(node.load.unsigned_abs())
            + u128::from(node.generation.unsigned_abs());
        if size > u128::from(left) {
            return false;
        }
        left -= size as u64;
    }
    true
}

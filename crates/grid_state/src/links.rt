//! Branches as links between nodes, and between classes.

ghost use Rattle.std.specs.Prelude.{◌≡◌, ◌<◌, ◌&&◌, not, length, map, All, IfOk};
ghost use Rattle.grid_state.specs.Links.{is_out, link_of, between};
ghost use Rattle.grid_state.specs.Unions.{AreMarks, AreLinksBelow, links_marked, is_wanted};

use fb_types::{Branch, BranchKind};
use std::alloc::{AllocError, Global};

/// A link of two places, such as a branch between nodes or classes, and its susceptance in kW/rad.
#[derive(Clone, Copy, Debug)]
pub struct Link {
    pub one: u32,
    pub other: u32,
    pub b: u64,
}

/// Marks each branch of the outage, of so many branches.
pub fn outage_marks(alloc: Global, branches: usize, outage: &[u32]) -> Result<Vec<bool>, AllocError>
    requires { All (λ k. k < branches) outage.now }
    ensures { IfOk result (λ marks. AreMarks branches marks.items (is_out outage.now)) }
{
    let mut marks = vec![in alloc; false; branches]?;
    for branch in outage {
        marks[*branch as usize] = true;
    }
    Ok(marks)
}

/// Whether a branch is a coupler, or where no couplers are wanted, a line or a transformer.
fn is_wanted(branch: &Branch, couplers: bool) -> bool
    ensures { result ≡ is_wanted couplers branch.now }
{
    match branch.kind {
        BranchKind::Coupler => couplers,
        BranchKind::Line | BranchKind::Transformer => !couplers,
    }
}

/// Whether a branch is in operation, outside the outage, and wanted.
pub fn is_chosen(branch: &Branch, out: bool, couplers: bool) -> bool
    ensures { result ≡ is_wanted couplers branch.now && (branch.now.in_operation && not out) }
{
    is_wanted(branch, couplers) && branch.in_operation && !out
}

/// A branch as a link of its nodes.
fn link_of(branch: &Branch) -> Link
    ensures { result ≡ link_of branch.now }
{
    Link {
        one: branch.from,
        other: branch.to,
        b: branch.b.unsigned_abs(),
    }
}

/// The couplers, or the lines and transformers, in operation outside the outage, in the order of the branches.
pub fn links(
    alloc: Global,
    branches: &[Branch],
    out: &[bool],
    couplers: bool,
) -> Result<Vec<Link>, AllocError>
    requires { length out.now ≡ length branches.now }
    ensures { IfOk result (λ links. links.items ≡ links_marked couplers out.now branches.now) }
{
    let mut chosen = Vec::new(alloc);
    for (number, branch) in branches.iter().enumerate() {
        if is_chosen(branch, out[number], couplers) {
            chosen.push(link_of(branch))?;
        }
    }
    Ok(chosen)
}

/// A link of nodes as a link of their classes.
fn between(link: &Link, class_of: &[u32]) -> Link
    requires one { link.now.one < length class_of.now }
    requires other { link.now.other < length class_of.now }
    ensures { result ≡ between class_of.now link.now }
{
    Link {
        one: class_of[link.one as usize],
        other: class_of[link.other as usize],
        b: link.b,
    }
}

/// Links of nodes as links of their classes.
pub fn class_links(alloc: Global, links: &[Link], class_of: &[u32]) -> Result<Vec<Link>, AllocError>
    requires { AreLinksBelow (length class_of.now) links.now }
    ensures { IfOk result (λ made. made.items ≡ map (between class_of.now) links.now) }
{
    let mut made = Vec::new(alloc);
    for link in links {
        made.push(between(link, class_of))?;
    }
    Ok(made)
}

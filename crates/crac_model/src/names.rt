//! What a text names in a grid: a branch, or a tie line of two.

ghost use Rattle.std.specs.Prelude.{◌≡◌, ◌≤◌, ◌<◌, ◌^◌, [], ◌∷◌, ◌++◌, not, true, false, is_some, length, Some, IfOk, OnOk};
ghost use Rattle.std.specs.Str.{chars, encode_utf8_all};
ghost use Rattle.name_tables.specs.Names.{is_among, value_at};
ghost use Rattle.name_tables.specs.Tables.{with_entry};
ghost use Rattle.crac_model.specs.Naming.{branch_places, halves_of, is_x_node, is_joint, meets_once, is_tie, tie_between, tie_at, tie_named, branch_named, grid_of};

use fb_types::{Branch, BranchKind, Node, Text};
use name_tables::{NameTable, ValueTable, padded};
use std::alloc::{AllocError, Global};

/// What a text names: a branch, or a tie line by its two halves, of which the first is measured.
#[derive(Clone, Copy, Debug)]
pub struct Named {
    /// The branch that is measured, by its place in the grid's list.
    pub branch: u32,
    /// The other half of a tie line.
    pub other: Option<u32>,
    /// Whether the direction DIRECT runs from the branch's second node to its first.
    pub turned: bool,
}

/// The ids of the two halves of a tie line.
#[derive(Debug, Drop)]
pub struct Halves {
    pub first: Text,
    pub second: Text,
}

/// A grid, and the places of its branches by their ids.
#[derive(Clone, Copy)]
pub struct GridNames<'a> {
    pub nodes: &'a [Node],
    pub branches: &'a [Branch],
    pub places: &'a ValueTable<u32>,
}

/// Adds a name, and says whether it is new.
#[tactic(auto, using(crate::proofs::TableLaws::new_name))]
pub fn add_name(alloc: Global, names: &mut NameTable, name: &str) -> Result<bool, AllocError>
    ensures added { IfOk result (λ is_new. is_new ≡ not (is_among names.old name.now)) }
    ensures names { IfOk result (λ is_new. is_new ≡ true → names.new ≡ names.old ++ name.now ∷ []) }
{
    names.add(String::from_str(alloc, name)?)
}

/// Notes the value of a name that has none.
#[tactic(auto, using(crate::proofs::TableLaws::new_entry))]
pub fn note_new<V: Copy + Drop>(
    alloc: Global,
    values: &mut ValueTable<V>,
    name: &str,
    value: V,
) -> Result<(), AllocError>
    requires { is_some (value_at values.old name.now) ≡ false }
    ensures { OnOk result (values.new ≡ values.old ++ (name.now, value) ∷ []) }
{
    note(alloc, values, name, value)
}

/// Notes the value of a name, if it has none.
pub fn note<V: Copy + Drop>(
    alloc: Global,
    values: &mut ValueTable<V>,
    name: &str,
    value: V,
) -> Result<(), AllocError>
    ensures { OnOk result (values.new ≡ with_entry values.old name.now value) }
{
    values.note(String::from_str(alloc, name)?, value)
}

/// The places of branches by their ids.
pub fn branch_places(alloc: Global, branches: &[Branch]) -> Result<ValueTable<u32>, AllocError>
    requires { length branches.now < 2 ^ 32 }
    ensures { IfOk result (λ places. places ≡ branch_places branches.now) }
{
    let mut places = ValueTable::new(alloc);
    let mut place: u32 = 0;
    for branch in branches {
        note(alloc, &mut places, branch.id.as_text(), place)?;
        place += 1;
    }
    Ok(places)
}

fn characters(alloc: Global, text: &str) -> Result<Vec<char>, AllocError>
    ensures { IfOk result (λ v. v.items ≡ chars text.now) }
{
    text.chars().collect(alloc)
}

fn text_of(alloc: Global, characters: &[char]) -> Result<Text, AllocError>
    ensures { IfOk result (λ text. text ≡ encode_utf8_all characters.now) }
{
    let text: String = characters.iter().copied().collect(alloc)?;
    Ok(Text::from_string(text))
}

/// The ids of the halves in a text `A + B` of 41 characters.
fn halves_in(alloc: Global, characters: &[char]) -> Result<Option<Halves>, AllocError>
    ensures { IfOk result (λ found. found ≡ halves_of characters.now) }
{
    if characters.len() != 41 {
        return Ok(None);
    }
    if characters[19] != ' ' || characters[20] != '+' || characters[21] != ' ' {
        return Ok(None);
    }
    let first = text_of(alloc, &characters[..19])?;
    let second = text_of(alloc, &characters[22..])?;
    Ok(Some(Halves { first, second }))
}

fn is_x_node(nodes: &[Node], place: u32) -> bool
    ensures { result ≡ is_x_node nodes.now place }
{
    match nodes.get(place as usize) {
        None => false,
        Some(node) => match node.code.as_text().as_bytes().split_first() {
            None => false,
            Some((first, _)) => *first == b'X',
        },
    }
}

/// Whether the place is that of an X node at which the other half ends.
fn is_joint(nodes: &[Node], other: &Branch, place: u32) -> bool
    ensures { result ≡ is_joint nodes.now other.now place }
{
    is_x_node(nodes, place) && (place == other.from || place == other.to)
}

/// Whether exactly one end of a half is an X node at which the other half ends.
fn meets_once(nodes: &[Node], half: &Branch, other: &Branch) -> bool
    ensures { result ≡ meets_once nodes.now half.now other.now }
{
    if is_joint(nodes, other, half.from) {
        !is_joint(nodes, other, half.to)
    } else {
        is_joint(nodes, other, half.to)
    }
}

/// Whether two halves at their places make a tie line.
fn is_tie(nodes: &[Node], first: u32, half: &Branch, second: u32, other: &Branch) -> bool
    ensures { result ≡ is_tie nodes.now first half.now second other.now }
{
    first != second
        && half.kind != BranchKind::Coupler
        && other.kind != BranchKind::Coupler
        && meets_once(nodes, half, other)
        && meets_once(nodes, other, half)
}

/// The tie line that two halves make, if they make one.
fn tie_between(
    nodes: &[Node],
    first: u32,
    half: &Branch,
    second: u32,
    other: &Branch,
) -> Option<Named>
    ensures { result ≡ tie_between nodes.now first second (Some half.now) (Some other.now) }
{
    if is_tie(nodes, first, half, second, other) {
        Some(Named {
            branch: first,
            other: Some(second),
            turned: is_joint(nodes, other, half.from),
        })
    } else {
        None
    }
}

/// The tie line of two halves by their places, if they make one.
fn tie_at(grid: &GridNames<'_>, first: u32, second: u32) -> Option<Named>
    ensures { result ≡ tie_at (grid_of grid.now) first second }
{
    let Some(half) = grid.branches.get(first as usize) else {
        return None;
    };
    let Some(other) = grid.branches.get(second as usize) else {
        return None;
    };
    tie_between(grid.nodes, first, half, second, other)
}

/// The tie line that a text names, if it names one.
fn tie_named(alloc: Global, grid: &GridNames<'_>, name: &str) -> Result<Option<Named>, AllocError>
    ensures { IfOk result (λ found. found ≡ tie_named (grid_of grid.now) name.now) }
{
    let characters = characters(alloc, name)?;
    let Some(halves) = halves_in(alloc, &characters)? else {
        return Ok(None);
    };
    let Some(first) = grid.places.get(halves.first.as_text()) else {
        return Ok(None);
    };
    let Some(second) = grid.places.get(halves.second.as_text()) else {
        return Ok(None);
    };
    Ok(tie_at(grid, first, second))
}

/// What a text names in the grid, if it names anything.
#[tactic(auto, unfolding(crate::specs::Naming::branch_named))]
pub fn find_named(
    alloc: Global,
    grid: &GridNames<'_>,
    name: &str,
) -> Result<Option<Named>, AllocError>
    ensures { IfOk result (λ found. found ≡ branch_named (grid_of grid.now) name.now) }
{
    let id = padded(alloc, name, 19)?;
    match grid.places.get(id.as_str()) {
        Some(branch) => Ok(Some(Named {
            branch,
            other: None,
            turned: false,
        })),
        None => tie_named(alloc, grid, name),
    }
}

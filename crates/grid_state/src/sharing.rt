//! What a state changes of the parts of another.

ghost use Rattle.std.specs.Prelude.{◌≡◌, ◌<◌, ◌≤◌, [], length, IfOk, IfSome, IsTrue};
ghost use Rattle.grid_state.specs.GridState.{classes_of};
ghost use Rattle.grid_state.specs.Changes.{with_changes, HasClassesOf, HasRowsOf, HasCarriesOf};

use crate::changes::{ChangedRow, Changes};
use crate::types::{Edge, State};
use crate::whole::Whole;
use fb_types::Items;
use std::alloc::{AllocError, Global};

/// A state that changes more rows than this is not told by changes.
const MOST: usize = 16;

/// Whether two rows are the same.
fn are_same_rows(one: &[Edge], other: &[Edge]) -> bool
    ensures { IsTrue result → one.now ≡ other.now }
{
    one == other
}

/// A copy of a row.
fn row_copy(alloc: Global, row: &[Edge]) -> Result<Items<Edge>, AllocError>
    ensures { IfOk result (λ copy. copy ≡ row.now) }
{
    let mut copy = Vec::with_capacity(alloc, row.len())?;
    for edge in row {
        copy.push(*edge)?;
    }
    Ok(Items::from_vec(copy))
}

/// The row of a class as a changed one.
fn changed_row(alloc: Global, state: &State, class: u32) -> Result<ChangedRow, AllocError>
    requires { class < classes_of state.now }
{
    let row = row_copy(alloc, state.row(class))?;
    Ok(ChangedRow { class, row })
}

/// The rows of a state that are not those of the parts, as far as they are few.
fn changed_rows(
    alloc: Global,
    whole: &Whole,
    state: &State,
) -> Result<Items<ChangedRow>, AllocError>
    requires { classes_of whole.now ≡ classes_of state.now }
{
    let mut changed = Vec::new(alloc);
    for class in 0..state.classes() {
        if changed.len() < MOST && !are_same_rows(whole.row(class), state.row(class)) {
            changed.push(changed_row(alloc, state, class)?)?;
        }
    }
    Ok(Items::from_vec(changed))
}

/// The branches that carry in the parts, and not in a state.
fn branches_out(alloc: Global, whole: &Whole, state: &State) -> Result<Items<u32>, AllocError>
    requires { length whole.now.carries ≡ length state.now.carries }
{
    let mut out = Vec::new(alloc);
    for branch in 0..whole.branches() {
        if out.len() < MOST && whole.carries(branch) && !state.carries(branch) {
            out.push(branch)?;
        }
    }
    Ok(Items::from_vec(out))
}

/// Whether each row of a state is that of the parts with these changes.
fn has_rows(whole: &Whole, changes: &Changes, state: &State) -> bool
    requires { classes_of whole.now ≡ classes_of state.now }
    ensures { IsTrue result → HasRowsOf (with_changes changes.now whole.now) state.now (classes_of state.now) }
{
    for class in 0..state.classes() {
        if !are_same_rows(changes.row(whole, class), state.row(class)) {
            return false;
        }
    }
    true
}

/// Whether the branches of a state carry that do in the parts with these changes.
fn has_carries(whole: &Whole, changes: &Changes, state: &State) -> bool
    requires { length whole.now.carries ≡ length state.now.carries }
    ensures { IsTrue result → HasCarriesOf (with_changes changes.now whole.now) state.now (length state.now.carries) }
{
    for branch in 0..whole.branches() {
        if changes.carries(whole, branch) != state.carries(branch) {
            return false;
        }
    }
    true
}

/// What a state changes of the parts of another of the same grid. It is none where that is much.
pub fn changes_of(
    alloc: Global,
    whole: &Whole,
    state: &State,
) -> Result<Option<Changes>, AllocError>
    ensures { IfOk result (λ found. IfSome found (λ changes. with_changes changes whole.now ≡ state.now)) }
{
    whole.sound();
    state.sound();
    let parts = state.whole();
    if !whole.has_classes_of(parts) || whole.branches() != parts.branches() {
        return Ok(None);
    }
    let changes = Changes {
        rows: changed_rows(alloc, whole, state)?,
        out: branches_out(alloc, whole, state)?,
    };
    if has_rows(whole, &changes, state) && has_carries(whole, &changes, state) {
        Ok(Some(changes))
    } else {
        Ok(None)
    }
}

//! Lists in groups by number: the items of a list by the numbers that stand beside them, and one list again of the groups.
#![tactic(auto)]

ghost use Rattle.std.specs.Prelude.{◌≡◌, ℕ, ◌<◌, ◌++◌, ◌∷◌, [], length, slice_index_or, slice_set, All, IfOk, OnOk};
ghost use Rattle.number_groups.specs.Groups.{AreGroups, beside};

mod queue;

use fb_types::Items;
use queue::{Queue, next_of, queues_of};
use std::alloc::{AllocError, Global};

/// So many groups with no items.
fn empty_groups<T: Drop>(alloc: Global, count: u32) -> Result<Vec<Items<T>>, AllocError>
    ensures { IfOk result (λ groups. AreGroups count [] [] groups.items) }
{
    let mut groups = Vec::new(alloc);
    for _ in 0..count {
        groups.push(Items::new(alloc))?;
    }
    Ok(groups)
}

/// Appends an item to the group with this number.
fn add_to<T: Drop>(groups: &mut [Items<T>], number: u32, item: T) -> Result<(), AllocError>
    requires { number < length groups.old }
    ensures { OnOk result (groups.new ≡ slice_set groups.old number (slice_index_or groups.old number [] ++ item ∷ [])) }
{
    groups[number as usize].add(item)
}

/// Appends each item to the group with the number beside it.
fn fill<T: Copy + Drop>(
    groups: &mut [Items<T>],
    numbers: &[u32],
    items: &[T],
) -> Result<(), AllocError>
    requires as_many { length numbers.now ≡ length items.now }
    requires below { All (λ n. n < length groups.old) numbers.now }
    requires empty { AreGroups (length groups.old) [] [] groups.old }
    ensures { OnOk result (AreGroups (length groups.old) numbers.now items.now groups.new) }
{
    for (place, number) in numbers.iter().enumerate() {
        add_to(groups, *number, items[place])?;
    }
    Ok(())
}

/// The items in `count` groups, each with those that stand beside its number, in order. Groups are numbered from 0. One pass
/// over the list makes them. The one error is want of memory.
pub fn grouped<T: Copy + Drop>(
    alloc: Global,
    count: u32,
    numbers: &[u32],
    items: &[T],
) -> Result<Vec<Items<T>>, AllocError>
    requires as_many { length numbers.now ≡ length items.now }
    requires below { All (λ n. n < count) numbers.now }
    ensures { IfOk result (λ groups. AreGroups count numbers.now items.now groups.items) }
{
    let mut groups = empty_groups(alloc, count)?;
    fill(&mut groups, numbers, items)?;
    Ok(groups)
}

/// The next item of the queue that each number names.
fn dealt<T: Drop>(
    alloc: Global,
    numbers: &[u32],
    queues: &mut [Queue<T>],
) -> Result<Items<T>, AllocError>
    requires below { All (λ n. n < length queues.old) numbers.now }
    requires as_many { (k : ℕ) → k < length queues.old → length (slice_index_or queues.old k []) ≡ length (beside k numbers.now numbers.now) }
    ensures as_many { IfOk result (λ items. length items ≡ length numbers.now) }
    ensures groups { IfOk result (λ items. AreGroups (length queues.old) numbers.now items queues.old) }
{
    let mut items = Items::new(alloc);
    for number in numbers {
        items.add(next_of(queues, *number))?;
    }
    Ok(items)
}

/// The one list of which these are the groups: beside each number stands the next item of the group with that number.
/// Groups are numbered from 0. Each has as many items as there are places of its number. The one error is want of memory.
pub fn regrouped<T: Drop>(
    alloc: Global,
    numbers: &[u32],
    groups: Items<Items<T>>,
) -> Result<Items<T>, AllocError>
    requires below { All (λ n. n < length groups) numbers.now }
    requires as_many { (k : ℕ) → k < length groups → length (slice_index_or groups k []) ≡ length (beside k numbers.now numbers.now) }
    ensures as_many { IfOk result (λ items. length items ≡ length numbers.now) }
    ensures groups { IfOk result (λ items. AreGroups (length groups) numbers.now items groups) }
{
    let mut queues = queues_of(alloc, groups)?;
    dealt(alloc, numbers, &mut queues)
}

//! Queues of items.

ghost use Rattle.std.specs.Prelude.{◌≡◌, ◌<◌, ◌∷◌, [], List, length, drop, slice_index_or, slice_set, IfOk};

use fb_types::Items;
use std::alloc::{AllocError, Global};
use std::collections::VecDeque;
use std::marker::Model;

/// Items that leave in the order in which they stand. A contract sees the list of those that are left.
#[derive(Drop)]
pub(crate) struct Queue<T> {
    items: VecDeque<T>,
}

impl<T> Model for Queue<T> {
    ghost use Rattle.std.specs.Prelude.{List};
    ghost use Rattle.std.specs.Coded.{coded_list};

    ghost Value = { List T };

    ghost coded = { coded_list T.code };

    ghost view = { λ queue. queue.items.items };
}

impl<T> Queue<T> {
    fn new(items: Items<T>) -> Queue<T>
        ensures { result ≡ items }
    {
        Queue {
            items: VecDeque::from(items.into_vec()),
        }
    }

    /// The first item, which leaves.
    fn next(&mut self) -> T
        requires { 0 < length self.old }
        ensures { self.old ≡ result ∷ self.new }
    {
        self.items.pop_front().unwrap()
    }
}

/// The first item of the queue with this number, which leaves it.
pub(crate) fn next_of<T>(queues: &mut [Queue<T>], number: u32) -> T
    requires below { number < length queues.old }
    requires some { 0 < length (slice_index_or queues.old number []) }
    ensures first { slice_index_or queues.old number [] ≡ result ∷ drop 1 (slice_index_or queues.old number []) }
    ensures left { queues.new ≡ slice_set queues.old number (drop 1 (slice_index_or queues.old number [])) }
{
    queues[number as usize].next()
}

/// A queue of the items of each group.
pub(crate) fn queues_of<T: Drop>(
    alloc: Global,
    groups: Items<Items<T>>,
) -> Result<Vec<Queue<T>>, AllocError>
    ensures { IfOk result (λ queues. queues.items ≡ groups) }
{
    let mut queues = Vec::new(alloc);
    for group in groups.into_vec() {
        queues.push(Queue::new(group))?;
    }
    Ok(queues)
}

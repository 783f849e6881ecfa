//! Work on items that is split among threads. Nothing is shared for writing, and nothing waits but for the answers.
#![tactic(auto)]

ghost use Rattle.std.specs.Prelude.{◌≡◌, ⊤, ◌*◌, ◌+◌, ◌^◌, ◌<◌, ◌≤◌, length, map, All, Ok, IfOk};
ghost use Rattle.std.specs.Thread.{IsSync, IsSend};
ghost use Rattle.fan_out.specs.Answers.{AreAnswers};

use fb_types::Items;
use std::alloc::{AllocError, Global};
use std::thread::{Threads, join};

/// The work on an item. A thread may do it beside others: it only reads, and gives an answer of its own.
pub trait Work {
    /// What is worked on.
    type Item: Sync;

    /// What comes of it.
    type Out: Send + Drop;

    /// What the work needs of an item.
    ghost takes: { Self → Self.Item → Type 0 };

    /// The answers that may be given for an item.
    ghost gives: { Self → Self.Item → Self.Out → Type 0 };

    /// Does the work on the item.
    fn run(&self, alloc: Global, item: &Self::Item) -> Self::Out
        requires { takes self.now item.now }
        ensures { gives self.now item.now result };
}

/// What is told of each item before the work on it begins.
pub trait Gate {
    /// Is told of an item by its place, from 0, and returns when the work on it may begin.
    fn enter(&self, place: u32);
}

/// A gate that lets everything through at once.
#[derive(Drop)]
pub struct OpenGate;

impl Gate for OpenGate {
    fn enter(&self, _place: u32) {}
}

/// The answers for a worker's share, one item after another.
fn run_share<W: Work, G: Gate>(
    alloc: Global,
    work: &W,
    gate: &G,
    items: &[W::Item],
    first: u32,
) -> Result<Vec<W::Out>, AllocError>
    requires places { first + length items.now < 2 ^ 32 }
    requires ready { All (W.takes work.now) items.now }
    ensures { IfOk result (λ outs. AreAnswers (W.gives work.now) items.now outs.items) }
{
    let mut outs = Vec::new(alloc);
    for i in 0..items.len() {
        gate.enter(first + i as u32);
        outs.push(work.run(alloc, &items[i]))?;
    }
    Ok(outs)
}

/// The answers for the shares of some workers: half of the workers have the first items, and the others the rest.
#[cycle(shares)]
fn run_shares<R: Threads + Sync, W: Work + Sync, G: Gate + Sync>(
    rt: &R,
    alloc: Global,
    work: &W,
    gate: &G,
    items: &[W::Item],
    first: u32,
    workers: u32,
) -> Result<Vec<W::Out>, AllocError>
    requires workers { (1 ≤ workers) × (workers ≤ 64) }
    requires places { first + length items.now < 2 ^ 32 }
    requires ready { All (W.takes work.now) items.now }
    ensures { IfOk result (λ outs. AreAnswers (W.gives work.now) items.now outs.items) }
{
    if workers == 1 || items.len() < 2 {
        return run_share(alloc, work, gate, items, first);
    }
    let low = workers / 2;
    let high = workers - low;
    let count = front_count(items.len() as u32, low, workers);
    let next = first + count;
    let (front, back) = items.split_at(count as usize);
    let (a, b) = join(
        rt,
        || -> Result<Vec<W::Out>, AllocError>
            requires shared { IsSync R.row × IsSync W.row × IsSync G.row × IsSync W.Item.row × IsSend W.Out.row }
            requires workers { (1 ≤ low) × (low ≤ 64) }
            requires places { first + length front.now < 2 ^ 32 }
            requires ready { All (W.takes work.now) front.now }
            ensures { IfOk result (λ outs. AreAnswers (W.gives work.entry.now) front.entry.now outs.items) }
        { run_shares(rt, alloc, work, gate, front, first, low) },
        || -> Result<Vec<W::Out>, AllocError>
            requires shared { IsSync R.row × IsSync W.row × IsSync G.row × IsSync W.Item.row × IsSend W.Out.row }
            requires workers { (1 ≤ high) × (high ≤ 64) }
            requires places { next + length back.now < 2 ^ 32 }
            requires ready { All (W.takes work.now) back.now }
            ensures { IfOk result (λ outs. AreAnswers (W.gives work.entry.now) back.entry.now outs.items) }
        { run_shares(rt, alloc, work, gate, back, next, high) },
    );
    let mut outs = a?;
    let mut rest = b?;
    outs.append(&mut rest)?;
    Ok(outs)
}

/// How many of the items the first `low` of the workers have.
fn front_count(items: u32, low: u32, workers: u32) -> u32
    requires workers { (1 ≤ low) × (low < workers) × (workers ≤ 64) }
    ensures { result ≤ items }
{
    (u64::from(items) * u64::from(low) / u64::from(workers)) as u32
}

/// Does the work on each item, split among so many workers, from 1 to 64. There is one answer for each item, in the
/// order of the items, each one that may be given for its item. The gate is told of the place of each item, counted
/// from 0, before the work on it begins. The one error is want of memory.
///
/// The split depends on the numbers of items and of workers alone. Where no thread can be made, one worker's share is
/// done after another's.
pub fn fan<R: Threads + Sync, W: Work + Sync, G: Gate + Sync>(
    rt: &R,
    alloc: Global,
    work: &W,
    gate: &G,
    items: &Items<W::Item>,
    workers: u32,
) -> Result<Items<W::Out>, AllocError>
    requires workers { (1 ≤ workers) × (workers ≤ 64) }
    requires places { length items.now < 2 ^ 32 }
    requires ready { All (W.takes work.now) items.now }
    ensures { IfOk result (λ outs. AreAnswers (W.gives work.now) items.now outs) }
{
    let outs = run_shares(rt, alloc, work, gate, items.as_slice(), 0, workers)?;
    Ok(Items::from_vec(outs))
}

/// The values of answers, in order, if all are there. The one error is want of memory.
pub fn all_made<T: Drop>(
    alloc: Global,
    answers: Items<Result<T, AllocError>>,
) -> Result<Items<T>, AllocError>
    ensures { IfOk result (λ made. answers ≡ map Ok made) }
{
    let mut made = Items::new(alloc);
    for answer in answers.into_vec() {
        made.add(answer?)?;
    }
    Ok(made)
}

#[cfg(test)]
mod tests {
    use super::*;
    use std::sync::atomic::{AtomicBool, Ordering};

    /// Doubles a number.
    #[derive(Drop)]
    struct Doubler;

    impl Work for Doubler {
        type Item = u32;

        type Out = u64;

        ghost takes = { λ _ _. ⊤ };

        ghost gives = { λ _ number out. out ≡ 2 * number };

        fn run(&self, _alloc: Global, number: &u32) -> u64 {
            2 * u64::from(*number)
        }
    }

    /// A gate that holds place 0 until place 1 has been entered, or its looks run out.
    #[derive(Drop)]
    struct HoldingGate {
        entered: AtomicBool,
        gave_up: AtomicBool,
    }

    impl Gate for HoldingGate {
        fn enter(&self, place: u32) {
            if place == 1 {
                self.entered.store(true, Ordering::SeqCst);
                return;
            }
            for _ in 0..200_000_000u32 {
                if self.entered.load(Ordering::SeqCst) {
                    return;
                }
            }
            self.gave_up.store(true, Ordering::SeqCst);
        }
    }

    #[test]
    fn the_second_item_is_entered_while_the_first_is_held(
        rt: HostRuntime,
    ) -> Result<(), AllocError> {
        let mut numbers = Items::new(rt.alloc());
        numbers.add(20)?;
        numbers.add(21)?;
        let gate = HoldingGate {
            entered: AtomicBool::new(false),
            gave_up: AtomicBool::new(false),
        };
        let doubled = fan(&rt, rt.alloc(), &Doubler, &gate, &numbers, 2)?;
        assert!(rt; !gate.gave_up.load(Ordering::SeqCst));
        assert!(rt; doubled.as_slice() == [40, 42].as_slice());
        Ok(())
    }

    #[test]
    fn answers_stand_in_order_for_each_number_of_workers(
        rt: HostRuntime,
    ) -> Result<(), AllocError> {
        let mut numbers = Items::new(rt.alloc());
        numbers.add(3)?;
        numbers.add(5)?;
        numbers.add(8)?;
        for workers in 1..65 {
            let doubled = fan(&rt, rt.alloc(), &Doubler, &OpenGate, &numbers, workers)?;
            assert!(rt; doubled.as_slice() == [6, 10, 16].as_slice());
        }
        Ok(())
    }
}

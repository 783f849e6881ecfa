//! Guesses on small grids, against exact angles that were worked out by elimination over fractions.

ghost use Rattle.std.specs.Prelude.{◌≡◌, ℕ, ◌*◌, ◌^◌, ◌≤◌, length, IsTrue, IfOk};
ghost use Rattle.grid_state.specs.GridState.{classes_of};
ghost use Rattle.grid_laplacian.specs.Sizes.{size_of};
ghost use Rattle.grid_laplacian.specs.Ranges.{HasRoomFor};

mod grids;

use crate::{Factor, Outage, Solutions, Solver};
use fb_types::Items;
use grid_state::State;
use grids::{Line, state_of};
use std::alloc::{AllocError, Global};
use std::test::Fail;

/// A right side p, and the exact angles t/d.
#[derive(Clone, Copy)]
struct Case<'a> {
    p: &'a [i128],
    d: i128,
    t: &'a [i128],
}

fn items_of(alloc: Global, numbers: &[i128]) -> Result<Items<i128>, AllocError>
    ensures { IfOk result (λ items. items ≡ numbers.now) }
{
    let mut items = Items::new(alloc);
    for number in numbers {
        items.add(*number)?;
    }
    Ok(items)
}

/// Whether the numbers add up to at most 2·10^25 in size.
fn is_total_small(p: &[i128]) -> bool
    ensures { IsTrue result → size_of p.now ≤ 2 * 10 ^ 25 }
{
    let mut left: u128 = 20_000_000_000_000_000_000_000_000;
    for z in p {
        let size = z.unsigned_abs();
        if size > left {
            return false;
        }
        left -= size;
    }
    true
}

/// Whether a number is off from t/d by at most a half.
fn is_nearest(d: i128, t: i128, number: i128) -> bool {
    let apart = d.wrapping_mul(number).wrapping_sub(t);
    apart.unsigned_abs() <= d.unsigned_abs() / 2
}

/// Whether the guess is the nearest whole number at each class.
fn are_nearest(case: &Case, guess: &Items<i128>) -> bool {
    for (t, number) in case.t.iter().zip(guess.as_slice()) {
        if !is_nearest(case.d, *t, *number) {
            return false;
        }
    }
    guess.len() == case.t.len() as u64
}

/// Whether the guesses with a factor, and from solutions by it, are the nearest.
fn guesses_in(alloc: Global, state: &State, case: &Case) -> Result<bool, AllocError>
    requires { (total : ℕ) → total ≤ 2 * 10 ^ 25 → HasRoomFor state.now total }
{
    let p = items_of(alloc, case.p)?;
    if p.len() != u64::from(state.classes()) || !is_total_small(case.p) {
        return Ok(false);
    }
    let factor = Factor::new(alloc, state)?;
    let mut sides = Items::new(alloc);
    sides.add(items_of(alloc, case.p)?)?;
    let solutions = Solutions::new(alloc, &factor, state, sides)?;
    let own = Solver::Own(&factor).guess(alloc, state, &p)?;
    let kept = solutions.guess(alloc, state, 0, &p)?;
    Ok(are_nearest(case, &own) && are_nearest(case, &kept))
}

#[test]
fn guesses_the_angles_of_a_triangle(rt: HostRuntime) -> Result<(), Fail> {
    let lines = [Line(0, 1, 3), Line(0, 2, 5), Line(1, 2, 7)];
    let state = state_of(rt.alloc(), 3, lines.as_slice())?.ok_or("no state")?;
    let triangle = Case {
        p: &[2, -100, 41],
        d: 71,
        t: &[0, -913, -290],
    };
    assert!(rt; guesses_in(rt.alloc(), &state, &triangle)?);
    Ok(())
}

/// The middle of the star is the second node, two lines of it are parallel, and the last node is cut off.
#[test]
fn guesses_the_angles_of_a_star(rt: HostRuntime) -> Result<(), Fail> {
    let lines = [Line(0, 1, 2), Line(1, 2, 3), Line(1, 3, 2), Line(3, 1, 3)];
    let state = state_of(rt.alloc(), 5, lines.as_slice())?.ok_or("no state")?;
    let star = Case {
        p: &[0, -11, 1_000, -500, 3],
        d: 6,
        t: &[0, 1_467, 3_467, 867, 0],
    };
    assert!(rt; guesses_in(rt.alloc(), &state, &star)?);
    Ok(())
}

/// Whether the guesses after an outage are the nearest: from the solution of the right side before it, and with the factor.
fn guesses_after(
    alloc: Global,
    state: &State,
    factor: &Factor,
    outage: &Outage,
    solutions: &Solutions,
    case: &Case,
) -> Result<bool, AllocError>
    requires { (total : ℕ) → total ≤ 2 * 10 ^ 25 → HasRoomFor state.now total }
{
    let p = items_of(alloc, case.p)?;
    if p.len() != u64::from(state.classes()) || !is_total_small(case.p) {
        return Ok(false);
    }
    let any = Solver::After(factor, outage).guess(alloc, state, &p)?;
    let moved = outage.guess(alloc, state, solutions, 0, &p)?;
    Ok(are_nearest(case, &any) && are_nearest(case, &moved))
}

/// The third line of the triangle is out. It had put in 4 at its second class, and taken out 4 at its first.
#[test]
fn guesses_the_angles_after_an_outage(rt: HostRuntime) -> Result<(), Fail> {
    let lines = [Line(0, 1, 3), Line(0, 2, 5), Line(1, 2, 7)];
    let base = state_of(rt.alloc(), 3, lines.as_slice())?.ok_or("no state")?;
    let state = state_of(rt.alloc(), 3, &[Line(0, 1, 3), Line(0, 2, 5)])?.ok_or("no state")?;
    let factor = Factor::new(rt.alloc(), &base)?;
    let mut sides = Items::new(rt.alloc());
    sides.add(items_of(rt.alloc(), &[2, -100, 41])?)?;
    let solutions = Solutions::new(rt.alloc(), &factor, &base, sides)?;
    let outage = Outage::new(rt.alloc(), &factor, &base, 1, 2, 7)?;
    let case = Case {
        p: &[2, -96, 37],
        d: 5,
        t: &[0, -160, 37],
    };
    assert!(rt; guesses_after(rt.alloc(), &state, &factor, &outage, &solutions, &case)?);
    Ok(())
}

//! Enclosures on small grids, against exact angles that were worked out by elimination over fractions.

ghost use Rattle.std.specs.Prelude.{◌≡◌, ℕ, ◌*◌, ◌^◌, ◌≤◌, ◌≤ℤ◌, pos, length, All, IsTrue, IfOk};
ghost use Rattle.grid_state.specs.GridState.{classes_of};
ghost use Rattle.grid_laplacian.specs.Sizes.{size_of};
ghost use Rattle.grid_laplacian.specs.Ranges.{HasRoomFor};
ghost use Rattle.grid_laplacian.specs.Enclosures.{IsBarrier, EnclosesWithin};

mod grids;

use crate::{angle_span, barrier, enclose, enclose_with};
use angle_sweeps::sweep_up;
use fb_types::{Angles, Items};
use grid_state::State;
use grids::{Line, state_of};
use sparse_factor::Factor;
use std::alloc::{AllocError, Global};
use std::test::Fail;

/// A grid seen from its first node, a right side p, the exact angles t/d, the exact solution u/d whose Laplacian is the
/// susceptance at each live class but the slack's, and the least kappa where the exact angles decide it: 1 where one of them
/// is no whole number.
#[derive(Clone, Copy)]
struct Case<'a> {
    places: u32,
    lines: &'a [Line],
    p: &'a [i128],
    d: i128,
    t: &'a [i128],
    u: &'a [i128],
    kappa: Option<u8>,
}

fn items_of(alloc: Global, numbers: &[i128]) -> Result<Items<i128>, AllocError>
    ensures { IfOk result (λ items. items ≡ numbers.now) }
{
    let mut items = Items::new(alloc);
    for number in numbers {
        items.add(*number)?;
    }
    Ok(items)
}

/// Whether the numbers add up to at most 2·10^25 in size.
fn is_total_small(p: &[i128]) -> bool
    ensures { IsTrue result → size_of p.now ≤ 2 * 10 ^ 25 }
{
    let mut left: u128 = 20_000_000_000_000_000_000_000_000;
    for z in p {
        let size = z.unsigned_abs();
        if size > left {
            return false;
        }
        left -= size;
    }
    true
}

fn are_nonnegative(p: &[i128]) -> bool
    ensures { IsTrue result → All (λ z. pos 0 ≤ℤ z) p.now }
{
    for z in p {
        if *z < 0 {
            return false;
        }
    }
    true
}

/// Whether d times the number is off from t by at most `off`.
fn is_off(d: i128, number: i128, t: i128, off: i128) -> Option<bool> {
    let apart = d.checked_mul(number)?.checked_sub(t)?;
    Some(0 <= off && apart.unsigned_abs() <= off.unsigned_abs())
}

/// Whether low ≤ t/d ≤ high.
fn is_between(d: i128, low: i128, t: i128, high: i128) -> Option<bool> {
    Some(d.checked_mul(low)? <= t && t <= d.checked_mul(high)?)
}

/// Whether the barrier is from u/d to less than 2·u/d + 1 at a class, and the angle, its span and kappa fit the exact angle.
fn fits(
    case: &Case,
    at: usize,
    v: i128,
    w: i128,
    kappa: u8,
    low: i128,
    high: i128,
) -> Option<bool> {
    let u = *case.u.get(at)?;
    let t = *case.t.get(at)?;
    let barrier = case.d.checked_mul(v)?;
    let is_barrier = u <= barrier && barrier < u.checked_mul(2)?.checked_add(case.d)?;
    let off = u.checked_mul(i128::from(kappa))?;
    Some(is_barrier && is_off(case.d, w, t, off)? && is_between(case.d, low, t, high)?)
}

/// Whether all classes fit.
fn all_fit(
    state: &State,
    case: &Case,
    p: &Items<i128>,
    barrier: &Items<i128>,
    angles: &Angles,
) -> bool
    requires room { HasRoomFor state.now (size_of p.now) }
    requires barrier { IsBarrier state.now barrier.now }
    requires angles { EnclosesWithin state.now (size_of p.now) p.now angles.now }
{
    state.sound();
    for class in 0..state.classes() {
        let span = angle_span(barrier, angles, class);
        let at = class as usize;
        let v = barrier.as_slice()[at];
        let w = angles.w.as_slice()[at];
        if fits(case, at, v, w, angles.kappa, span.low(), span.high()) != Some(true) {
            return false;
        }
    }
    true
}

/// The angles of a right side by the factor, or by one of the state's own if none is given.
fn enclosed(
    alloc: Global,
    state: &State,
    factor: Option<&Factor>,
    barrier: &Items<i128>,
    p: &Items<i128>,
) -> Result<Angles, AllocError>
    requires barrier { IsBarrier state.now barrier.now }
    requires each_class { length p.now ≡ classes_of state.now }
    requires room { HasRoomFor state.now (size_of p.now) }
    ensures { IfOk result (λ angles. EnclosesWithin state.now (size_of p.now) p.now angles) }
{
    match factor {
        Some(factor) => enclose_with(alloc, state, factor, barrier, p),
        None => enclose(alloc, state, barrier, p),
    }
}

/// Whether the calls enclose the exact angles of a case in its state.
fn encloses_in(
    alloc: Global,
    state: &State,
    factor: Option<&Factor>,
    case: &Case,
) -> Result<bool, AllocError>
    requires { (total : ℕ) → total ≤ 2 * 10 ^ 25 → HasRoomFor state.now total }
{
    let p = items_of(alloc, case.p)?;
    if p.len() != u64::from(state.classes()) || !is_total_small(case.p) {
        return Ok(false);
    }
    let barrier = barrier(alloc, state)?;
    let angles = enclosed(alloc, state, factor, &barrier, &p)?;
    let is_kappa = match case.kappa {
        Some(kappa) => angles.kappa == kappa,
        None => true,
    };
    Ok(is_kappa && all_fit(state, case, &p, &barrier, &angles))
}

fn encloses(alloc: Global, factor: Option<&Factor>, case: &Case) -> Result<bool, AllocError> {
    match state_of(alloc, case.places, case.lines)? {
        Some(state) => encloses_in(alloc, &state, factor, case),
        None => Ok(false),
    }
}

#[test]
fn encloses_exact_angles(rt: HostRuntime) -> Result<(), Fail> {
    let cases = [
        // One line: p/b is whole, and the barrier is from 1 to 2.
        Case {
            places: 2,
            lines: &[Line(0, 1, 10_000_000)],
            p: &[0, 10_000_000_000_000_000_000_000_000],
            d: 1,
            t: &[0, 1_000_000_000_000_000_000],
            u: &[0, 1],
            kappa: Some(0),
        },
        Case {
            places: 2,
            lines: &[Line(1, 0, 10_000_000)],
            p: &[7, -9_999_999_999_999_999_999_999_997],
            d: 10_000_000,
            t: &[0, -9_999_999_999_999_999_999_999_997],
            u: &[0, 10_000_000],
            kappa: Some(1),
        },
        // A triangle.
        Case {
            places: 3,
            lines: &[
                Line(0, 1, 10_000_000),
                Line(0, 2, 10_000_000),
                Line(1, 2, 10_000_000),
            ],
            p: &[0, 300_000_000_000_000_000_001, -50_000_000_000_000_000_000],
            d: 10_000_000,
            t: &[0, 183_333_333_333_333_333_334, 66_666_666_666_666_666_667],
            u: &[0, 20_000_000, 20_000_000],
            kappa: Some(1),
        },
        // A star whose middle is the second node.
        Case {
            places: 5,
            lines: &[Line(0, 1, 2), Line(1, 2, 3), Line(1, 3, 5), Line(4, 1, 7)],
            p: &[0, -11, 1_000, -500, 3],
            d: 21,
            t: &[0, 5_166, 12_166, 3_066, 5_175],
            u: &[0, 336, 357, 357, 357],
            kappa: Some(1),
        },
        // A node that is cut off.
        Case {
            places: 3,
            lines: &[Line(0, 1, 2)],
            p: &[1, 3, 9],
            d: 2,
            t: &[0, 3, 0],
            u: &[0, 2, 0],
            kappa: Some(1),
        },
    ];
    // The factor of another grid guesses badly, so that sweeps follow.
    let other = state_of(rt.alloc(), 2, &[Line(0, 1, 1)])?.ok_or("no state")?;
    let factor = Factor::new(rt.alloc(), &other)?;
    for case in cases {
        assert!(rt; encloses(rt.alloc(), None, &case)?);
        assert!(rt; encloses(rt.alloc(), Some(&factor), &case)?);
    }
    Ok(())
}

/// Whether the calls enclose the angles of a chain of so many nodes, with 10^24 fed in at its far end: it flows through every
/// line, so that the angle rises by the same in each. Where the susceptance is fed in at each node but the slack, the line
/// before the node k of n has 2·(n - k) - 1 times its own.
fn encloses_chain(alloc: Global, places: u32) -> Result<bool, AllocError> {
    let mut lines = Vec::new(alloc);
    let mut p = Vec::new(alloc);
    let mut t = Vec::new(alloc);
    let mut u = Vec::new(alloc);
    let last = i128::from(places) - 1;
    for k in 0..places {
        let place = i128::from(k);
        p.push(if place == last {
            1_000_000_000_000_000_000_000_000
        } else {
            0
        })?;
        t.push(place * 100_000_000_000_000_000)?;
        u.push(place.wrapping_mul(2 * last - place))?;
        if place < last {
            lines.push(Line(k, k + 1, 10_000_000))?;
        }
    }
    let chain = Case {
        places,
        lines: &lines,
        p: &p,
        d: 1,
        t: &t,
        u: &u,
        kappa: None,
    };
    encloses(alloc, None, &chain)
}

/// Sweeps alone would need millions of rounds for this chain.
#[test]
fn encloses_the_angles_of_a_long_chain(rt: HostRuntime) -> Result<(), AllocError> {
    assert!(rt; encloses_chain(rt.alloc(), 2_000)?);
    Ok(())
}

/// The sweep of a right side, if it is in range and not negative.
fn swept_up(alloc: Global, state: &State, p: &[i128]) -> Result<Option<Items<i128>>, AllocError>
    requires { (total : ℕ) → total ≤ 2 * 10 ^ 25 → HasRoomFor state.now total }
{
    let right_side = items_of(alloc, p)?;
    let is_each = right_side.len() == u64::from(state.classes());
    if !is_each || !is_total_small(p) || !are_nonnegative(p) {
        return Ok(None);
    }
    Ok(Some(sweep_up(alloc, state, &right_side)?))
}

/// The sweep of a pair comes just below 10/3.
#[test]
fn sweeps_come_just_below(rt: HostRuntime) -> Result<(), Fail> {
    let state = state_of(rt.alloc(), 2, &[Line(0, 1, 3)])?.ok_or("no state")?;
    let w = swept_up(rt.alloc(), &state, &[4, 10])?.ok_or("no sweep")?;
    assert_eq!(rt; w.as_slice(), [0, 3].as_slice());
    Ok(())
}

/// The line of the worked example: 14.44 ohm at 380 kV.
#[test]
fn barrier_of_two_nodes(rt: HostRuntime) -> Result<(), Fail> {
    let state = state_of(rt.alloc(), 2, &[Line(0, 1, 10_000_000)])?.ok_or("no state")?;
    let v = barrier(rt.alloc(), &state)?;
    assert_eq!(rt; v.as_slice(), [0, 2].as_slice());
    Ok(())
}

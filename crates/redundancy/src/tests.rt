mod lists;

use super::*;
use fb_types::Half;
use lists::{are_halves, bounds, is_box, rows};
use multiplier_search::find;

/// A coefficient of one.
const ONE: i64 = 1_000_000_000_000;

/// A side of 100 MW.
const SIDE: i64 = 100_000_000;

/// Whether these are the multipliers, with a balance of 0.
fn are(by: &Multipliers, values: &[i128]) -> bool {
    by.mu == 0
        && by.mults.len() == values.len() as u64
        && by
            .mults
            .as_slice()
            .iter()
            .zip(values.iter())
            .all(|(m, v)| m.value == *v)
}

fn is_kept(fates: &Items<Fate>, k: u64) -> bool {
    matches!(fates.get(k), Some(Fate::Kept))
}

fn is_removed(fates: &Items<Fate>, k: u64, values: &[i128]) -> bool {
    match fates.get(k) {
        Some(Fate::Removed(by)) => are(by, values),
        _ => false,
    }
}

#[test]
fn rows_that_follow_from_others_are_removed(rt: HostRuntime) -> Result<(), AllocError> {
    let alloc = rt.alloc();
    let zones = bounds(alloc, 3)?;
    let list = rows(
        alloc,
        &[
            (&[ONE, 0, 0], SIDE),
            (&[0, ONE, 0], SIDE),
            (&[ONE / 2, ONE / 2, 0], SIDE),
            (&[0, ONE, 0], 2 * SIDE),
            (&[ONE, 0, 0], SIDE),
        ],
    )?;
    assert!(rt; is_box(zones.as_slice()));
    assert!(rt; are_halves(list.as_slice(), zones.as_slice().len()));
    assert!(rt; list.len() == 5);
    let fates = thin(alloc, &list, &zones)?;
    assert!(rt; is_kept(&fates, 0) && is_kept(&fates, 1));
    assert!(rt; is_removed(&fates, 2, &[500_000_000, 500_000_000]));
    assert!(rt; is_removed(&fates, 3, &[1_000_000_000]) && is_removed(&fates, 4, &[1_000_000_000]));
    Ok(())
}

#[test]
fn a_row_that_needs_three_others_is_found_and_removed(rt: HostRuntime) -> Result<(), AllocError> {
    let alloc = rt.alloc();
    let zones = bounds(alloc, 4)?;
    let three = rows(
        alloc,
        &[
            (&[ONE, 0, 0, 0], SIDE),
            (&[0, ONE, 0, 0], SIDE),
            (&[0, 0, ONE, 0], SIDE),
        ],
    )?;
    let four = rows(
        alloc,
        &[
            (&[ONE, 0, 0, 0], SIDE),
            (&[0, ONE, 0, 0], SIDE),
            (&[0, 0, ONE, 0], SIDE),
            (&[ONE / 10 * 4, ONE / 10 * 3, ONE / 10 * 3, 0], SIDE),
        ],
    )?;
    let values = [400_000_000, 300_000_000, 300_000_000];
    assert!(rt; is_box(zones.as_slice()));
    assert!(rt; are_halves(three.as_slice(), zones.as_slice().len()));
    assert!(rt; are_halves(four.as_slice(), zones.as_slice().len()));
    assert!(rt; three.len() == 3);
    assert!(rt; four.len() == 4);
    let found = find(alloc, &four.as_slice()[3], &three, &zones)?;
    assert!(rt; matches!(&found, Some(by) if are(by, &values)));
    let fates = thin(alloc, &four, &zones)?;
    assert!(rt; is_kept(&fates, 0) && is_kept(&fates, 1) && is_kept(&fates, 2));
    assert!(rt; is_removed(&fates, 3, &values));
    Ok(())
}

//! Worked sums of reaches.

use super::*;
use std::alloc::AllocError;

#[test]
fn worked_reaches(rt: HostRuntime) -> Result<(), AllocError> {
    let alloc = rt.alloc();
    let factor = Span::between(0, 2);
    let bound = Bounds {
        low: -1_000_000_000,
        high: 1_000_000_000,
    };
    let factors = Items::from_vec(vec![in alloc; factor, factor]?);
    let bounds = Items::from_vec(vec![in alloc; bound, bound]?);
    let narrow = reach_sum::<i64>(&factors, &[1, 1], &bounds);
    assert_eq!(rt; narrow, Some(Span::between(-2_000_000_000, 2_000_000_000)));
    let wide = reach_sum::<i128>(&factors, &[1, 1], &bounds);
    assert_eq!(rt; wide, Some(Span::between(-2_000_000_000, 2_000_000_000)));
    Ok(())
}

//! Worked spans, and that threads share them.

use super::*;

/// The types whose values threads share.
fn is_shared<T: Send + Sync>() {}

#[test]
fn worked_spans(rt: HostRuntime) {
    is_shared::<Span<i64>>();
    is_shared::<Span<i128>>();
    assert_eq!(rt; Span::exactly(7_i64).div_pos(2), Span::between(3, 4));
    assert!(rt; Span::exactly(i64::MAX).add(Span::exactly(1)).is_none());
    assert!(rt; Span::between(0_i64, 1).meet(Span::between(2, 3)).is_none());
    assert_eq!(rt; i64::from_wide(-7), Some(-7));
    assert_eq!(rt; i64::MAX.wide(), 9_223_372_036_854_775_807);
}

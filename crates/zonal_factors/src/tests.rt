//! Worked sums of spans by their shares.

use super::*;

#[test]
fn worked_shares(rt: HostRuntime) {
    let shares = [100_000_000];
    let fitting = [Span::exactly(90_000_000_000)];
    let past = [Span::exactly(92_233_720_369)];
    assert_eq!(rt;
        shared::<i64>(&fitting, &shares),
        Some(Span::exactly(90_000_000_000))
    );
    assert!(rt; shared::<i64>(&past, &shares).is_none());
    assert_eq!(rt;
        shared::<i128>(&past, &shares),
        Some(Span::exactly(92_233_720_369))
    );
}

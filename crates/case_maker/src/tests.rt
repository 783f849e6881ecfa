//! Cases against their lengths and digests, which a script in another language worked out.

use super::*;
use std::test::Fail;

/// A number into which each byte goes with its place.
fn digest(text: &Text) -> u64 {
    let mut digest: u64 = 0;
    for byte in text.as_text().as_bytes() {
        digest = digest.wrapping_mul(31).wrapping_add(u64::from(*byte));
    }
    digest
}

/// The end of the CRAC of case 7 with 48 nodes.
const LAST_ELEMENT: &str =
    r#"{"id":"e31","networkElementId":"PN00461  PN00471  1","instant":"outage","contingencyId":"o1","optimized":true,"reliabilityMargin":19,"thresholds":[{"unit":"megawatt","min":-584,"max":584}]}]}"#;

#[test]
fn cases_are_those_of_the_script(rt: HostRuntime) -> Result<(), Fail> {
    let small = make_case(rt.alloc(), 7, 48)?;
    let first_lines = "##N\n##ZAA\nAN00001               0 3             79             -72\n";
    let last_line = "PN00471  CN00061  1 0         28.68\n";
    assert!(rt; small.grid.as_text().starts_with(first_lines));
    assert!(rt; small.grid.as_text().ends_with(last_line));
    assert!(rt; small.crac.as_text().ends_with(LAST_ELEMENT));
    assert_eq!(rt; small.grid.as_text().len(), 6_296);
    assert_eq!(rt; digest(&small.grid), 9_959_472_632_767_259_147);
    assert_eq!(rt; digest(&small.crac), 5_268_072_271_349_139_236);

    let medium = make_case(rt.alloc(), 7, 300)?;
    assert_eq!(rt; medium.crac.as_text().len(), 39_168);
    assert_eq!(rt; digest(&medium.grid), 9_221_834_792_800_158_807);
    assert_eq!(rt; digest(&medium.crac), 7_745_320_493_791_351_160);
    assert_eq!(rt; digest(&medium.settings), 4_981_259_614_239_658_683);
    assert_eq!(rt; digest(&medium.glsk), 13_720_361_932_295_456_903);
    Ok(())
}

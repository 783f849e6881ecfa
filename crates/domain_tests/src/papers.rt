//! The commands `certify` and `report`: what else is printed of a domain, and that `check` accepts it.

use crate::domain::{after_france, shifted};
use std::alloc::AllocError;
use test_calls::calls::{CERTIFY, CHECK, REPORT, call};
use test_calls::documents::two_nodes;

/// The certificate of two nodes, up to the barrier of the second one, and from there on. Angles are in 10^-16 rad: the
/// weight of the Dutch node, of 10^12, is met where the line of 10^7 kW/rad turns by 10^18.
const BEFORE_BARRIER: &str = "version,,1\nstate,0,\nbarrier,0,0 ";

const BEHIND_BARRIER: &str =
    "\ncolumn,0 0 0,0 0 0\ncolumn,0 1 1,0 0 0\ncolumn,0 2 1,0 0 1000000000000000000\nrow,1,CERTAIN 500000000 500000000 0 -1000000000000\nrow,2,CERTAIN 500000000 500000000 0 1000000000000\nend,,\n";

/// Each of these is a barrier.
const BARRIERS: [&str; 4] = ["1", "2", "3", "4"];

const REPORT_OF_TWO: &str =
    "{\"below\":0,\"doubtful\":0,\"greatestGap\":0,\"innerKept\":2,\"innerRemoved\":0,\"notes\":[],\"outerKept\":2,\"outerRemoved\":0,\"rows\":[{\"class\":\"CERTAIN\",\"direction\":\"DIRECT\",\"element\":\"c1\",\"f0all\":[0,0],\"f0core\":[0,0],\"fref\":[0,0],\"fuaf\":[0,0],\"gap\":0,\"ram\":[500000000,500000000],\"row\":1,\"spread\":[1000000000000,1000000000000]},{\"class\":\"CERTAIN\",\"direction\":\"OPPOSITE\",\"element\":\"c1\",\"f0all\":[0,0],\"f0core\":[0,0],\"fref\":[0,0],\"fuaf\":[0,0],\"gap\":0,\"ram\":[500000000,500000000],\"row\":2,\"spread\":[1000000000000,1000000000000]}]}\n";

#[test]
fn certificates_are_printed(rt: HostRuntime) -> Result<(), AllocError> {
    let mut shelf = two_nodes(rt.alloc())?;
    let answer = call(&rt, CERTIFY, &mut shelf)?;
    let mut is_printed = false;
    for barrier in &BARRIERS {
        let text = format!(in rt.alloc(); "{BEFORE_BARRIER}{barrier}{BEHIND_BARRIER}")?;
        if answer.out.bytes() == text.as_bytes() {
            is_printed = true;
        }
    }
    assert!(rt; is_printed);
    assert_eq!(rt; answer.outcome.status, 0);
    Ok(())
}

#[test]
fn reports_are_printed(rt: HostRuntime) -> Result<(), AllocError> {
    let mut shelf = two_nodes(rt.alloc())?;
    let answer = call(&rt, REPORT, &mut shelf)?;
    assert_eq!(rt; answer.out.bytes(), REPORT_OF_TWO.as_bytes());
    assert_eq!(rt; answer.outcome.status, 0);
    Ok(())
}

/// The line carries -249,791,978.615 W and the transformer as much the other way.
#[test]
fn reports_tell_the_flow_of_a_phase_shifter(rt: HostRuntime) -> Result<(), AllocError> {
    let mut shelf = shifted(rt.alloc())?;
    let answer = call(&rt, REPORT, &mut shelf)?;
    assert_eq!(rt; answer.outcome.status, 0);
    let report = str::from_utf8(answer.out.bytes()).unwrap_or("");
    let of_line =
        "\"direction\":\"DIRECT\",\"element\":\"c1\",\"f0all\":[-249791979,-249791978],\"f0core\":[-249791979,-249791978],\"fref\":[-249791979,-249791978]";
    let of_transformer =
        "\"direction\":\"DIRECT\",\"element\":\"c2\",\"f0all\":[249791978,249791979],\"f0core\":[249791978,249791979],\"fref\":[249791978,249791979]";
    assert!(rt; report.contains(of_line));
    assert!(rt; report.contains(of_transformer));
    Ok(())
}

/// What `certify` prints of a grid with an outage is accepted.
#[test]
fn printed_certificates_are_accepted(rt: HostRuntime) -> Result<(), AllocError> {
    let mut shelf = after_france(rt.alloc())?;
    let printed = call(&rt, CERTIFY, &mut shelf)?;
    shelf.add("certificate.csv", printed.out.bytes())?;
    let answer = call(&rt, CHECK, &mut shelf)?;
    assert_eq!(rt; answer.outcome.status, 0);
    assert_eq!(rt; answer.out.bytes(), b"yes\n".as_slice());
    Ok(())
}

//! A shelf that fails at a fetch, and an output that fails at a put.

use fb_base::MemSink;
use std::alloc::{AllocError, Global};
use test_calls::calls::{DOMAIN, REDUCED, call, call_into};
use test_calls::documents::{GRID, shelf_of, two_nodes};

/// The lines for each fetch that fails.
const FETCHES: [&str; 5] = [
    "cannot read grid\n",
    "cannot read crac\n",
    "cannot read settings\n",
    "cannot read glsk\n",
    "cannot read reductions\n",
];

#[test]
fn a_shelf_fails_at_each_fetch(rt: HostRuntime) -> Result<(), AllocError> {
    for fetch in 0..5 {
        let mut shelf = two_nodes(rt.alloc())?;
        shelf.fail_at(fetch as u64 + 1)?;
        let answer = call(&rt, REDUCED, &mut shelf)?;
        assert_eq!(rt; answer.outcome.status, 3);
        assert_eq!(rt; answer.err.bytes(), FETCHES[fetch].as_bytes());
        assert!(rt; answer.out.bytes().is_empty());
    }
    Ok(())
}

/// The fetch of one document more than the words name would fail.
#[test]
fn no_other_document_is_fetched(rt: HostRuntime) -> Result<(), AllocError> {
    let calls: [&str; 3] = ["net --grid grid.uct", DOMAIN, REDUCED];
    let one_more: [u64; 3] = [2, 5, 6];
    for place in 0..3 {
        let mut shelf = two_nodes(rt.alloc())?;
        shelf.fail_at(one_more[place])?;
        let answer = call(&rt, calls[place], &mut shelf)?;
        assert_eq!(rt; answer.outcome.status, 0);
    }
    Ok(())
}

/// A CRAC with 24 elements on the line between the two nodes, whose table has more than 4,096 bytes and less than 8,192.
fn crac_of_many(alloc: Global) -> Result<String, AllocError> {
    let mut crac = String::from_str(
        alloc,
        "{\"type\":\"CRAC\",\"contingencies\":[],\"flowCnecs\":[",
    )?;
    for number in 1..25_u32 {
        if number > 1 {
            crac.push_str(",")?;
        }
        write!(
            crac,
            "{{\"id\":\"c{number}\",\"networkElementId\":\"BBE1AA1  NNL1AA1  1\",\"instant\":\"preventive\",\"optimized\":true,\"thresholds\":[{{\"unit\":\"megawatt\",\"min\":-500,\"max\":500}}]}}"
        )?;
    }
    crac.push_str("]}")?;
    Ok(crac)
}

/// The put that fails, the bytes of it that are taken, the bytes of the line that the error output takes where it fails
/// too, all that the output then has, and what the error output has.
const PUTS: [(u64, u64, Option<u64>, usize, &str); 6] = [
    (1, 0, None, 0, "cannot write\n"),
    (1, 0, Some(0), 0, ""),
    (1, 100, None, 100, "cannot write\n"),
    (1, 4_096, Some(6), 4_096, "cannot"),
    (2, 0, None, 4_096, "cannot write\n"),
    (2, 100, Some(0), 4_196, ""),
];

/// The output then has a prefix of the table, which is put in pieces of 4,096 bytes.
#[test]
fn an_output_fails(rt: HostRuntime) -> Result<(), AllocError> {
    let crac = crac_of_many(rt.alloc())?;
    let mut shelf = shelf_of(rt.alloc(), GRID, crac.as_str())?;
    let whole = call(&rt, DOMAIN, &mut shelf)?;
    assert_eq!(rt; whole.outcome.status, 0);
    for (put, taken, told, length, line) in PUTS {
        let mut out = MemSink::new(rt.alloc(), 10_000)?;
        out.fail_at(put, taken)?;
        let mut err = MemSink::new(rt.alloc(), 100)?;
        if let Some(count) = told {
            err.fail_at(1, count)?;
        }
        let answer = call_into(&rt, DOMAIN, &mut shelf, out, err)?;
        assert_eq!(rt; answer.outcome.status, 15);
        assert_eq!(rt; answer.out.bytes().len(), length);
        assert!(rt; whole.out.bytes().starts_with(answer.out.bytes()));
        assert_eq!(rt; answer.err.bytes(), line.as_bytes());
    }
    Ok(())
}

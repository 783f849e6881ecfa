//! Workers: two of them work at the same time, and any number gives the same bytes.

use crate::domain::after_france;
use case_maker::{Case, make_case};
use fan_out::Gate;
use fb_base::{MemShelf, MemSink};
use std::alloc::{AllocError, Global};
use std::sync::atomic::{AtomicBool, Ordering};
use test_calls::calls::{CERTIFY, DOMAIN, call, call_at, call_into};

/// How often a worker looks whether the other one has begun.
const MOST_LOOKS: u32 = 200_000_000;

/// A gate that holds the base state until the state after the outage was entered.
#[derive(Drop)]
struct HoldingGate {
    second: AtomicBool,
    gave_up: AtomicBool,
}

impl HoldingGate {
    fn new() -> HoldingGate {
        HoldingGate {
            second: AtomicBool::new(false),
            gave_up: AtomicBool::new(false),
        }
    }
}

impl Gate for HoldingGate {
    fn enter(&self, place: u32) {
        if place != 0 {
            self.second.store(true, Ordering::SeqCst);
            return;
        }
        for _ in 0..MOST_LOOKS {
            if self.second.load(Ordering::SeqCst) {
                return;
            }
        }
        self.gave_up.store(true, Ordering::SeqCst);
    }
}

/// The words of `domain` and of `check` with two workers.
const WITH_TWO: [&str; 2] = [
    "domain --grid grid.uct --crac crac.json --glsk glsk.json --settings settings.json --workers 2",
    "check --grid grid.uct --crac crac.json --glsk glsk.json --settings settings.json --certificate certificate.csv --workers 2",
];

#[test]
fn two_workers_work_at_once(rt: HostRuntime) -> Result<(), AllocError> {
    let mut shelf = after_france(rt.alloc())?;
    let printed = call(&rt, CERTIFY, &mut shelf)?;
    shelf.add("certificate.csv", printed.out.bytes())?;
    for line in WITH_TWO {
        let gate = HoldingGate::new();
        let out = MemSink::new(rt.alloc(), 10_000)?;
        let err = MemSink::new(rt.alloc(), 100)?;
        let answer = call_at(&rt, line, &mut shelf, out, err, &gate)?;
        assert_eq!(rt; answer.outcome.status, 0);
        assert!(rt; !gate.gave_up.load(Ordering::SeqCst));
    }
    Ok(())
}

/// A shelf with the documents of a generated case.
fn shelf_of(alloc: Global, case: &Case) -> Result<MemShelf, AllocError> {
    let mut shelf = MemShelf::new(alloc);
    shelf.add("grid.uct", case.grid.as_text().as_bytes())?;
    shelf.add("crac.json", case.crac.as_text().as_bytes())?;
    shelf.add("settings.json", case.settings.as_text().as_bytes())?;
    shelf.add("glsk.json", case.glsk.as_text().as_bytes())?;
    Ok(shelf)
}

#[test]
fn any_number_of_workers_gives_the_same_bytes(rt: HostRuntime) -> Result<(), AllocError> {
    let case = make_case(rt.alloc(), 7, 300)?;
    let mut shelf = shelf_of(rt.alloc(), &case)?;
    let out = MemSink::new(rt.alloc(), 1_000_000)?;
    let err = MemSink::new(rt.alloc(), 100)?;
    let one = call_into(&rt, DOMAIN, &mut shelf, out, err)?;
    assert_eq!(rt; one.outcome.status, 0);
    for workers in ["1", "2", "7"] {
        let line = format!(in rt.alloc(); "{DOMAIN} --workers {workers}")?;
        let out = MemSink::new(rt.alloc(), 1_000_000)?;
        let err = MemSink::new(rt.alloc(), 100)?;
        let answer = call_into(&rt, line.as_str(), &mut shelf, out, err)?;
        assert!(rt; answer.out.bytes() == one.out.bytes());
    }
    Ok(())
}

#[test]
fn a_generated_case_is_tested(rt: HostRuntime) -> Result<(), AllocError> {
    let mut shelf = MemShelf::new(rt.alloc());
    let answer = call(&rt, "selftest --case 7 --nodes 300", &mut shelf)?;
    assert_eq!(rt; answer.outcome.status, 0);
    let out = answer.out.bytes();
    let first = b"case 7 nodes 300\nrows 400\nbelow 332\n".as_slice();
    assert!(rt; out.starts_with(first));
    assert!(rt; out.ends_with(b"\ncheck yes\n".as_slice()));
    Ok(())
}

//! Calls over a shelf and sinks in memory.

use fan_out::{Gate, OpenGate};
use fb_base::{MemShelf, MemSink};
use fbcc_core::{Outcome, fbcc};
use std::alloc::{AllocError, Global};
use std::thread::Threads;

/// The words of `domain`, without reductions and with them.
pub const DOMAIN: &str =
    "domain --grid grid.uct --crac crac.json --glsk glsk.json --settings settings.json";

pub const REDUCED: &str =
    "domain --grid grid.uct --crac crac.json --glsk glsk.json --settings settings.json --reductions reductions.csv";

/// The words of `certify` and of `report`.
pub const CERTIFY: &str =
    "certify --grid grid.uct --crac crac.json --glsk glsk.json --settings settings.json";

pub const REPORT: &str =
    "report --grid grid.uct --crac crac.json --glsk glsk.json --settings settings.json";

/// The words of `check`.
pub const CHECK: &str =
    "check --grid grid.uct --crac crac.json --glsk glsk.json --settings settings.json --certificate certificate.csv";

/// What a call answered and put.
#[derive(Drop)]
pub struct Answer {
    pub outcome: Outcome,
    pub out: MemSink,
    pub err: MemSink,
}

/// The words of a line, which stand between blanks, as the program is given them. An empty line has none.
fn words_of(alloc: Global, line: &str) -> Result<Vec<String>, AllocError> {
    let mut words = Vec::new(alloc);
    if line.is_empty() {
        return Ok(words);
    }
    for word in line.split(' ') {
        words.push(String::from_str(alloc, word)?)?;
    }
    Ok(words)
}

/// The call `rows --rows rows.txt`, with `document` under that name.
pub fn judge<R: Threads + Sync + AllocGlobal>(
    rt: &R,
    document: &[u8],
) -> Result<Answer, AllocError> {
    let mut shelf = MemShelf::new(rt.alloc());
    shelf.add("rows.txt", document)?;
    call(rt, "rows --rows rows.txt", &mut shelf)
}

/// A call with the words of a line, and with sinks that take everything.
pub fn call<R: Threads + Sync + AllocGlobal>(
    rt: &R,
    line: &str,
    shelf: &mut MemShelf,
) -> Result<Answer, AllocError> {
    let out = MemSink::new(rt.alloc(), 10_000)?;
    let err = MemSink::new(rt.alloc(), 10_000)?;
    call_into(rt, line, shelf, out, err)
}

/// A call with these sinks.
pub fn call_into<R: Threads + Sync + AllocGlobal>(
    rt: &R,
    line: &str,
    shelf: &mut MemShelf,
    out: MemSink,
    err: MemSink,
) -> Result<Answer, AllocError> {
    call_at(rt, line, shelf, out, err, &OpenGate)
}

/// A call with these sinks, whose workers pass this gate.
pub fn call_at<R: Threads + Sync + AllocGlobal, G: Gate + Sync>(
    rt: &R,
    line: &str,
    shelf: &mut MemShelf,
    mut out: MemSink,
    mut err: MemSink,
    gate: &G,
) -> Result<Answer, AllocError> {
    let alloc = rt.alloc();
    let words = words_of(alloc, line)?;
    let outcome = fbcc(rt, alloc, words.as_slice(), shelf, &mut out, &mut err, gate);
    Ok(Answer { outcome, out, err })
}

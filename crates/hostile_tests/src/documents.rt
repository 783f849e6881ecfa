//! Documents that are none, one change of a whole case each, and documents that were cut.

use std::alloc::{AllocError, Global};
use std::thread::Threads;
use test_calls::calls::{Answer, DOMAIN, REDUCED, call};
use test_calls::documents::{CRAC, GRID, KEYS, NO_REDUCTIONS, SETTINGS, two_nodes};

/// What is done to a document: another text stands in its place, or in the place of a part of it.
#[derive(Clone, Copy)]
enum Change {
    Whole(&'static str),
    Part(&'static str, &'static str),
}

use Change::{Part, Whole};

// ---- The documents of the case and their names

const ON_GRID: (&str, &str) = ("grid.uct", GRID);

const ON_CRAC: (&str, &str) = ("crac.json", CRAC);

const ON_SETTINGS: (&str, &str) = ("settings.json", SETTINGS);

const ON_KEYS: (&str, &str) = ("glsk.json", KEYS);

const ON_REDUCTIONS: (&str, &str) = ("reductions.csv", NO_REDUCTIONS);

const DOCUMENTS: [(&str, &str); 5] = [ON_GRID, ON_CRAC, ON_SETTINGS, ON_KEYS, ON_REDUCTIONS];

const NODE: &str = "NNL1AA1  NL1          0 0 380.00    0.00    0.00    0.00\n";

const NODE_TWICE: &str =
    "NNL1AA1  NL1          0 0 380.00    0.00    0.00    0.00\nNNL1AA1  NL1          0 0 380.00    0.00    0.00    0.00\n";

const LINE: &str = "BBE1AA1  NNL1AA1  1 0 0.0000 14.440 0.000000   2000\n";

const LINE_TWICE: &str =
    "BBE1AA1  NNL1AA1  1 0 0.0000 14.440 0.000000   2000\nBBE1AA1  NNL1AA1  1 0 0.0000 14.440 0.000000   2000\n";

const LEVELS_128: &str =
    "[[[[[[[[[[[[[[[[[[[[[[[[[[[[[[[[[[[[[[[[[[[[[[[[[[[[[[[[[[[[[[[[[[[[[[[[[[[[[[[[[[[[[[[[[[[[[[[[[[[[[[[[[[[[[[[[[[[[[[[[[[[[[[[[]]]]]]]]]]]]]]]]]]]]]]]]]]]]]]]]]]]]]]]]]]]]]]]]]]]]]]]]]]]]]]]]]]]]]]]]]]]]]]]]]]]]]]]]]]]]]]]]]]]]]]]]]]]]]]]]]]]]]]]]]]]]]]]]";

const LEVELS_127: &str =
    "[[[[[[[[[[[[[[[[[[[[[[[[[[[[[[[[[[[[[[[[[[[[[[[[[[[[[[[[[[[[[[[[[[[[[[[[[[[[[[[[[[[[[[[[[[[[[[[[[[[[[[[[[[[[[[[[[[[[[[[[[[[[[[[]]]]]]]]]]]]]]]]]]]]]]]]]]]]]]]]]]]]]]]]]]]]]]]]]]]]]]]]]]]]]]]]]]]]]]]]]]]]]]]]]]]]]]]]]]]]]]]]]]]]]]]]]]]]]]]]]]]]]]]]]]]]]]]";

/// A document, a change of it, and the status and the line that it is answered with.
const REFUSALS: [((&str, &str), Change, u8, &str); 22] = [
    (ON_GRID, Whole("##Q"), 5, "grid line 1: UnknownBlock\n"),
    (
        ON_GRID,
        Whole("##N\nBBE1AA1  BE1          0 3\n"),
        5,
        "grid line 2: UnknownBlock\n",
    ),
    (
        ON_GRID,
        Part(NODE, NODE_TWICE),
        5,
        "grid line 7: DuplicateNode\n",
    ),
    (
        ON_GRID,
        Part(LINE, LINE_TWICE),
        5,
        "grid line 9: DuplicateBranch\n",
    ),
    (ON_GRID, Whole(""), 5, "grid line 0: NoNodes\n"),
    (
        ON_GRID,
        Part("0 3 380.00", "0 0 380.00"),
        11,
        "no slack node\n",
    ),
    (ON_CRAC, Whole(LEVELS_128), 6, "crac is not JSON\n"),
    (ON_CRAC, Whole(LEVELS_127), 7, "crac : WrongType\n"),
    (ON_CRAC, Whole("{\"type\":01}"), 6, "crac is not JSON\n"),
    (ON_CRAC, Whole("{"), 6, "crac is not JSON\n"),
    (ON_CRAC, Whole("{}"), 7, "crac type: Missing\n"),
    (
        ON_CRAC,
        Part("\"max\":500", "\"max\":1e99"),
        7,
        "crac flowCnecs[0].thresholds[0].max: WrongType\n",
    ),
    (
        ON_CRAC,
        Part("\"max\":500", "\"max\":1e10"),
        7,
        "crac flowCnecs[0].thresholds[0].max: OutOfRange\n",
    ),
    (
        ON_CRAC,
        Part("\"max\":500", "\"max\":0"),
        7,
        "crac flowCnecs[0].thresholds[0]: LimitNotPositive\n",
    ),
    (
        ON_CRAC,
        Part("\"type\":\"CRAC\"", "\"type\":\"crac\""),
        7,
        "crac type: WrongType\n",
    ),
    (ON_SETTINGS, Whole("{}"), 9, "settings moment: Missing\n"),
    (ON_KEYS, Whole("x"), 6, "glsk is not JSON\n"),
    (
        ON_KEYS,
        Whole("{\"series\":[]}"),
        8,
        "glsk zones[0]: NoSeries\n",
    ),
    (
        ON_REDUCTIONS,
        Whole("element,direction,cva\n"),
        10,
        "reductions row 1: WrongType\n",
    ),
    (
        ON_REDUCTIONS,
        Whole("element,direction,cva,iva\nc2,DIRECT,1,1\n"),
        10,
        "reductions row 2: UnknownElement\n",
    ),
    (
        ON_REDUCTIONS,
        Whole("element,direction,cva,iva\nc1,DIRECT,1,0\nc1,DIRECT,1,0\n"),
        10,
        "reductions row 3: Twice\n",
    ),
    (
        ON_REDUCTIONS,
        Part("iva", "iva,"),
        10,
        "reductions row 1: WrongType\n",
    ),
];

/// The document with its change.
fn changed(alloc: Global, document: &str, change: Change) -> Result<String, AllocError> {
    match change {
        Whole(text) => String::from_str(alloc, text),
        Part(part, text) => document.replace(alloc, part, text),
    }
}

#[test]
fn hostile_documents_are_refused(rt: HostRuntime) -> Result<(), AllocError> {
    for ((name, document), change, status, line) in REFUSALS {
        let text = changed(rt.alloc(), document, change)?;
        let mut shelf = two_nodes(rt.alloc())?;
        shelf.add(name, text.as_bytes())?;
        let answer = call(&rt, REDUCED, &mut shelf)?;
        assert_eq!(rt; answer.err.bytes(), line.as_bytes(), "{text}");
        assert_eq!(rt; answer.outcome.status, status, "{text}");
        assert!(rt; answer.out.bytes().is_empty(), "{text}");
    }
    Ok(())
}

/// The lines that `x` in the place of each document is answered with.
const NO_DOCUMENTS: [&str; 5] = [
    "grid line 1: UnknownBlock\n",
    "crac is not JSON\n",
    "settings is not JSON\n",
    "glsk is not JSON\n",
    "reductions row 1: WrongType\n",
];

/// Documents are read in the order of the table.
#[test]
fn earlier_documents_are_refused_first(rt: HostRuntime) -> Result<(), AllocError> {
    for first in 0..5 {
        let mut shelf = two_nodes(rt.alloc())?;
        for place in first..5 {
            let (name, _document) = DOCUMENTS[place];
            shelf.add(name, b"x")?;
        }
        let answer = call(&rt, REDUCED, &mut shelf)?;
        assert_eq!(rt; answer.err.bytes(), NO_DOCUMENTS[first].as_bytes());
    }
    Ok(())
}

/// Whether a document that was cut may be answered like this: by a fault of a document or of the grid, with nothing on
/// the output, or by a table.
fn is_in_order(answer: &Answer) -> bool {
    match answer.outcome.status {
        0 => answer.err.bytes().is_empty(),
        5..=12 => answer.out.bytes().is_empty() && answer.err.bytes().ends_with(b"\n"),
        _ => false,
    }
}

/// The first number of bytes after which the document is cut and the answer is out of order.
fn first_bad_cut<R: Threads + Sync + AllocGlobal>(
    rt: &R,
    name: &str,
    document: &[u8],
) -> Result<Option<usize>, AllocError> {
    for length in 0..document.len() {
        let mut shelf = two_nodes(rt.alloc())?;
        shelf.add(name, &document[..length])?;
        let answer = call(rt, DOMAIN, &mut shelf)?;
        if !is_in_order(&answer) {
            return Ok(Some(length));
        }
    }
    Ok(None)
}

#[test]
fn cut_documents_are_answered(rt: HostRuntime) -> Result<(), AllocError> {
    for place in 0..4 {
        let (name, document) = DOCUMENTS[place];
        let bad_cut = first_bad_cut(&rt, name, document.as_bytes())?;
        assert!(rt; bad_cut.is_none(), "{name}: {bad_cut:?}");
    }
    Ok(())
}

//! The command `net`: grids, words, and an outside that fails.

use fb_base::{MemShelf, MemSink};
use fbcc_core::{Document, Fault};
use std::alloc::{AllocError, Global};
use std::test::Fail;
use test_calls::calls::{Answer, call, call_into};

/// A file of two blocks of nodes and one line, in three parts: up to the nodes of NL, these nodes, and the rest.
const HEAD: &str =
    "##C 2007.05.01\n##N\n##ZBE\nBBE1AA1  BE1          0 3 380.00    0.00    0.00    0.00\n##ZNL\n";

const NODE: &str = "NNL1AA1  NL1          0 0 380.00    0.00    0.00    0.00\n";

const LINES: &str = "##L\n";

const LINE: &str = "BBE1AA1  NNL1AA1  1 0 0.0000 14.440 0.000000   2000\n";

/// Three nodes: a load of 100 MW with 250 MW produced, a load of 80 MW, and a pump of 40 MW.
const THREE: &str =
    "NNL1AA1  NL1          0 0 380.00  100.00    0.00 -250.00\nNNL2AA1  NL2          0 0 380.00   80.00    0.00    0.00\nNNL3AA1  NL3          0 0 380.00    0.00    0.00   40.00\n";

/// A reactance of 0 ohm, and one below 0.
const FLOORED: &str = "BBE1AA1  NNL1AA1  1 0 0.0000 0.0000 0.000000   2000\n";

const NEGATIVE: &str = "BBE1AA1  NNL1AA1  1 0 0.0000 -1.000 0.000000   2000\n";

/// What a file is answered: a net text, or the first fault.
#[derive(Clone, Copy)]
enum Want {
    Net(&'static str),
    Fault(&'static str),
}

use Want::{Fault as First, Net};

const CASES: [(&str, [&str; 4], Want); 9] = [
    (
        "the file",
        [HEAD, NODE, LINES, LINE],
        Net("code,net\nBE,0\nNL,0\n"),
    ),
    (
        "loads and production",
        [HEAD, THREE, LINES, LINE],
        Net("code,net\nBE,0\nNL,30000000\n"),
    ),
    (
        "a reactance of 0",
        [HEAD, NODE, LINES, FLOORED],
        Net("code,net\nBE,0\nNL,0\nnote,BBE1AA1  NNL1AA1  1\n"),
    ),
    (
        "a reactance below 0",
        [HEAD, NODE, LINES, NEGATIVE],
        First("grid line 8: NegativeReactance\n"),
    ),
    (
        "an empty file",
        ["", "", "", ""],
        First("grid line 0: NoNodes\n"),
    ),
    (
        "an unknown heading",
        ["##Q", "", "", ""],
        First("grid line 1: UnknownBlock\n"),
    ),
    (
        "a last line of five columns",
        [HEAD, "NNL1A", "", ""],
        First("grid line 6: BadCode\n"),
    ),
    (
        "a last line of 25 columns",
        [HEAD, "NNL1AA1  NL1          0 0", "", ""],
        Net("code,net\nBE,0\nNL,0\n"),
    ),
    (
        "a node twice",
        [HEAD, NODE, NODE, LINES],
        First("grid line 7: DuplicateNode\n"),
    ),
];

/// A shelf that holds a file of these parts.
fn shelf_of(alloc: Global, parts: &[&str]) -> Result<MemShelf, AllocError> {
    let mut document = String::new(alloc);
    for part in parts {
        document.push_str(part)?;
    }
    let mut shelf = MemShelf::new(alloc);
    shelf.add("grid.uct", document.as_bytes())?;
    Ok(shelf)
}

/// Whether the answer is the wanted one, by its status and texts.
fn is_wanted(answer: &Answer, want: Want) -> bool {
    let (status, out, err) = match want {
        Net(text) => (0, text, ""),
        First(text) => (5, "", text),
    };
    answer.outcome.status == status
        && answer.out.bytes() == out.as_bytes()
        && answer.err.bytes() == err.as_bytes()
}

#[test]
fn grids_are_answered(rt: HostRuntime) -> Result<(), AllocError> {
    for (name, parts, want) in &CASES {
        let mut shelf = shelf_of(rt.alloc(), parts)?;
        let answer = call(&rt, "net --grid grid.uct", &mut shelf)?;
        assert!(rt; is_wanted(&answer, *want), "{name}");
    }
    Ok(())
}

#[test]
fn words_of_net_are_not_mixed_with_others(rt: HostRuntime) -> Result<(), Fail> {
    let lines: [&str; 6] = [
        "net",
        "net --rows grid.uct",
        "rows --grid grid.uct",
        "net --grid",
        "net --grid -grid.uct",
        "net --grid grid.uct --rows grid.uct",
    ];
    for line in lines {
        let mut shelf = shelf_of(rt.alloc(), &[HEAD])?;
        let answer = call(&rt, line, &mut shelf)?;
        assert_eq!(rt; answer.outcome.status, 2);
        assert!(rt; answer.out.bytes().is_empty());
    }
    Ok(())
}

#[test]
fn a_grid_that_cannot_be_read_is_told(rt: HostRuntime) -> Result<(), Fail> {
    let mut shelf = shelf_of(rt.alloc(), &[HEAD])?;
    shelf.fail_at(1)?;
    let answer = call(&rt, "net --grid grid.uct", &mut shelf)?;
    assert_eq!(rt; answer.outcome.status, 3);
    assert!(rt;
        matches!(
            answer.outcome.fault,
            Some(Fault::ReadFault {
                document: Document::Grid
            })
        )
    );
    assert!(rt; answer.err.bytes() == b"cannot read grid\n".as_slice());
    Ok(())
}

#[test]
fn an_output_that_fails_at_a_net_is_told(rt: HostRuntime) -> Result<(), Fail> {
    let mut shelf = shelf_of(rt.alloc(), &[HEAD, NODE])?;
    let mut out = MemSink::new(rt.alloc(), 100)?;
    out.fail_at(1, 6)?;
    let err = MemSink::new(rt.alloc(), 100)?;
    let answer = call_into(&rt, "net --grid grid.uct", &mut shelf, out, err)?;
    assert_eq!(rt; answer.outcome.status, 15);
    assert!(rt; answer.out.bytes() == b"code,n".as_slice());
    Ok(())
}

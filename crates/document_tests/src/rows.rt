//! The command `rows`: documents, words, and an outside that fails.

use fb_base::{MemShelf, MemSink};
use fbcc_core::{Document, Fault, Reason};
use std::alloc::{AllocError, Global};
use std::test::Fail;
use test_calls::calls::{Answer, call, call_into, judge};

/// A document whose target follows by a watt: both sides of the condition are 10^23.
const EXAMPLE: [&str; 6] = [
    "bounds,-100,100",
    "bounds,-100,100",
    "row,100,1000000000000,0",
    "target,100,1000000000000,0",
    "mult,1,999999999",
    "mu,0",
];

/// A change of the example: the line of a number, from 1, becomes a text, or a text is put before it.
#[derive(Clone, Copy)]
enum Change {
    Line(usize, &'static str),
    Before(usize, &'static str),
}

/// What a document is answered.
#[derive(Clone, Copy)]
enum Want {
    Yes,
    No(u64),
    Bad(u64),
}

use Change::{Before, Line};
use Want::{Bad, No, Yes};
use std::thread::Threads;

/// The example with a change.
fn changed(alloc: Global, change: Change) -> Result<String, AllocError> {
    let (number, text, kept) = match change {
        Line(number, text) => (number, text, false),
        Before(number, text) => (number, text, true),
    };
    let mut document = String::new(alloc);
    for (k, line) in EXAMPLE.iter().enumerate() {
        if k + 1 == number {
            document.push_str(text)?;
        }
        if k + 1 != number || kept {
            document.push_str(line)?;
            document.push_str("\n")?;
        }
    }
    if number == 7 {
        document.push_str(text)?;
    }
    Ok(document)
}

/// Whether the document is answered as it must be.
fn is_answered<R: Threads + Sync + AllocGlobal>(
    rt: &R,
    document: &[u8],
    want: Want,
) -> Result<bool, AllocError> {
    let alloc = rt.alloc();
    let answer = judge(rt, document)?;
    let (status, out, err) = match want {
        Yes => (0, format!(in alloc; "yes\n")?, String::new(alloc)),
        No(row) => (
            1,
            format!(in alloc; "no {row} Follows\n")?,
            String::new(alloc),
        ),
        Bad(row) => (
            14,
            String::new(alloc),
            format!(in alloc; "certificate row {row} cannot be read\n")?,
        ),
    };
    Ok(
        answer.outcome.status == status
            && answer.out.bytes() == out.as_bytes()
            && answer.err.bytes() == err.as_bytes(),
    )
}

/// Changes of the example, and what each is answered.
const CASES: [(&str, Change, Want); 51] = [
    ("the example", Before(1, ""), Yes),
    ("first bounds of 101", Line(1, "bounds,-101,101\n"), No(4)),
    ("a negative multiplier", Line(5, "mult,1,-1\n"), No(4)),
    ("no mu", Line(6, ""), Bad(6)),
    ("a byte order mark", Before(1, "\u{feff}"), Bad(1)),
    (
        "a carriage return",
        Line(3, "row,100,1000000000000,0\r\n"),
        Bad(3),
    ),
    ("the last line without its line feed", Line(6, "mu,0"), Yes),
    ("an empty first line", Before(1, "\n"), Bad(1)),
    ("an empty last line", Before(7, "\n"), Bad(7)),
    ("a line after mu", Before(7, "mult,1,1\n"), Bad(7)),
    ("a second mu", Before(7, "mu,0"), Bad(7)),
    ("no target", Line(4, ""), Bad(4)),
    ("no row", Line(3, ""), No(3)),
    ("a row first", Before(1, "row,1,1\n"), Bad(1)),
    ("bounds after a row", Before(4, "bounds,0,0\n"), Bad(4)),
    ("a row after the target", Before(5, "row,1,1,1\n"), Bad(5)),
    (
        "a second target",
        Before(5, "target,100,1000000000000,0\n"),
        Bad(5),
    ),
    ("mu before the target", Before(4, "mu,0\n"), Bad(4)),
    ("minus zero", Line(1, "bounds,-0,100\n"), Bad(1)),
    ("a plus sign", Line(2, "bounds,-100,+100\n"), Bad(2)),
    ("a leading zero", Line(2, "bounds,-100,0100\n"), Bad(2)),
    (
        "a blank before a number",
        Line(2, "bounds,-100, 100\n"),
        Bad(2),
    ),
    (
        "a blank after the keyword",
        Line(1, "bounds ,-100,100\n"),
        Bad(1),
    ),
    ("a blank after the last number", Line(6, "mu,0 \n"), Bad(6)),
    ("no number", Line(6, "mu,\n"), Bad(6)),
    ("min above max", Line(1, "bounds,100,-100\n"), Bad(1)),
    ("min equal to max", Line(1, "bounds,100,100\n"), Yes),
    (
        "a bound past 10^11",
        Line(1, "bounds,-100000000001,0\n"),
        Bad(1),
    ),
    (
        "a bound of 10^11",
        Line(2, "bounds,-100000000000,100000000000\n"),
        Yes,
    ),
    ("a row of one coefficient", Line(3, "row,100,1\n"), Bad(3)),
    (
        "a row of three coefficients",
        Line(3, "row,100,1,2,3\n"),
        Bad(3),
    ),
    ("a row without a side", Line(3, "row\n"), Bad(3)),
    (
        "a target of three coefficients",
        Line(4, "target,100,1,2,3\n"),
        Bad(4),
    ),
    (
        "a coefficient past 10^12",
        Line(3, "row,100,1000000000001,0\n"),
        Bad(3),
    ),
    (
        "a right side past 2*10^13",
        Line(3, "row,20000000000001,1,0\n"),
        Bad(3),
    ),
    ("row 0", Line(5, "mult,0,1\n"), No(4)),
    (
        "a row that is not there",
        Line(5, "mult,2,999999999\n"),
        No(4),
    ),
    ("row 2^32 - 1", Line(5, "mult,4294967295,1\n"), No(4)),
    ("row 2^32", Line(5, "mult,4294967296,1\n"), Bad(5)),
    ("row -1", Line(5, "mult,-1,1\n"), Bad(5)),
    (
        "rows that rise",
        Line(
            4,
            "row,200,1000000000000,0\ntarget,100,1000000000000,0\nmult,1,1\nmult,2,0\n",
        ),
        No(5),
    ),
    (
        "a row twice",
        Line(5, "mult,1,999999998\nmult,1,1\n"),
        No(4),
    ),
    (
        "a multiplier of 2^127 - 1",
        Line(5, "mult,1,170141183460469231731687303715884105727\n"),
        No(4),
    ),
    (
        "a multiplier of 2^127",
        Line(5, "mult,1,170141183460469231731687303715884105728\n"),
        Bad(5),
    ),
    (
        "a multiplier of -2^127",
        Line(5, "mult,1,-170141183460469231731687303715884105728\n"),
        No(4),
    ),
    (
        "a multiplier below -2^127",
        Line(5, "mult,1,-170141183460469231731687303715884105729\n"),
        Bad(5),
    ),
    (
        "multipliers that add up past 10^12",
        Line(5, "mult,1,1000000000001\n"),
        No(4),
    ),
    (
        "mu of 10^24 + 1",
        Line(6, "mu,1000000000000000000000001\n"),
        No(4),
    ),
    ("a field too many", Line(5, "mult,1,2,3\n"), Bad(5)),
    ("an unknown keyword", Line(5, "mults,1,2\n"), Bad(5)),
    (
        "a keyword in capitals",
        Line(1, "BOUNDS,-100,100\n"),
        Bad(1),
    ),
];

#[test]
fn documents_are_judged(rt: HostRuntime) -> Result<(), AllocError> {
    for (name, change, want) in &CASES {
        let document = changed(rt.alloc(), *change)?;
        assert!(rt; is_answered(&rt, document.as_bytes(), *want)?, "{name}");
    }
    assert!(rt; is_answered(&rt, b"", Bad(1))?, "an empty document");
    assert!(rt; is_answered(&rt, b"\n", Bad(1))?, "a line feed alone");
    Ok(())
}

/// A document of so many zones and rows, whose target is 0 <= 0.
fn large(alloc: Global, zones: u32, rows: u32) -> Result<String, AllocError> {
    let mut coefficients = String::new(alloc);
    for _ in 0..zones {
        coefficients.push_str(",0")?;
    }
    let mut document = String::new(alloc);
    for _ in 0..zones {
        document.push_str("bounds,-1,1\n")?;
    }
    for _ in 0..rows {
        document.push_str("row,0")?;
        document.push_str(coefficients.as_str())?;
        document.push_str("\n")?;
    }
    document.push_str("target,0")?;
    document.push_str(coefficients.as_str())?;
    document.push_str("\nmu,0\n")?;
    Ok(document)
}

#[test]
fn the_greatest_documents_are_judged(rt: HostRuntime) -> Result<(), AllocError> {
    for (zones, rows, want) in [
        (64, 1, Yes),
        (65, 0, Bad(65)),
        (1, 40_000, Yes),
        (1, 40_001, Bad(40_002)),
    ] {
        let document = large(rt.alloc(), zones, rows)?;
        assert!(rt;
            is_answered(&rt, document.as_bytes(), want)?,
            "{zones} zones, {rows} rows"
        );
    }
    Ok(())
}

/// A document of so many empty lines.
fn empty_lines(alloc: Global, count: usize) -> Result<Vec<u8>, AllocError> {
    vec![in alloc; b'\n'; count]
}

#[test]
fn a_document_past_the_limit_is_too_long(rt: HostRuntime) -> Result<(), Fail> {
    for (size, status, err) in [
        (67_108_864, 14, "certificate row 1 cannot be read\n"),
        (67_108_865, 4, "rows is longer than 67108864 bytes\n"),
    ] {
        let document = empty_lines(rt.alloc(), size)?;
        let answer = judge(&rt, document.as_slice())?;
        assert_eq!(rt; answer.outcome.status, status);
        assert!(rt; answer.out.bytes().is_empty());
        assert!(rt; answer.err.bytes() == err.as_bytes());
    }
    Ok(())
}

#[test]
fn other_words_are_refused(rt: HostRuntime) -> Result<(), Fail> {
    let lines: [&str; 22] = [
        "",
        " ",
        "-h",
        "rows",
        "row --rows rows.txt",
        "--rows rows.txt",
        "rows --rows",
        "rows rows.txt",
        "rows --rows -rows.txt",
        "rows --rows rows.txt x",
        "rows --row rows.txt",
        "ROWS --rows rows.txt",
        "rows --rows rows.txt --rows rows.txt",
        "rows --rows=rows.txt --rows rows.txt",
        "rows --rows rows.txt --help",
        "rows --rows rows.txt --workers 1",
        "rows --=rows.txt",
        "rows --rows -- rows.txt",
        "-- rows --rows rows.txt",
        "certify --rows rows.txt",
        "check --rows rows.txt",
        "selftest --case 1 --nodes 47",
    ];
    for line in lines {
        let mut shelf = MemShelf::new(rt.alloc());
        shelf.fail_at(1)?;
        let answer = call(&rt, line, &mut shelf)?;
        assert_eq!(rt; answer.outcome.status, 2);
        assert!(rt; matches!(answer.outcome.fault, Some(Fault::Usage)));
        assert!(rt; answer.out.bytes().is_empty());
        assert!(rt; answer.err.bytes() == b"usage: fbcc COMMAND [--name value]\n".as_slice());
    }
    Ok(())
}

#[test]
fn words_are_taken_by_their_forms(rt: HostRuntime) -> Result<(), Fail> {
    let document = changed(rt.alloc(), Before(1, ""))?;
    let calls: [(&str, &str); 8] = [
        ("rows --rows rows.txt", "rows.txt"),
        ("rows --rows=rows.txt", "rows.txt"),
        ("--rows rows.txt rows", "rows.txt"),
        ("--rows=rows.txt -- rows", "rows.txt"),
        ("rows --rows=-rows.txt", "-rows.txt"),
        ("rows --rows=a=b.txt", "a=b.txt"),
        ("rows --rows a=b.txt", "a=b.txt"),
        ("rows --rows -", "-"),
    ];
    for (line, name) in calls {
        let mut shelf = MemShelf::new(rt.alloc());
        shelf.add(name, document.as_bytes())?;
        let answer = call(&rt, line, &mut shelf)?;
        assert_eq!(rt; answer.outcome.status, 0);
        assert_eq!(rt; answer.out.bytes(), b"yes\n".as_slice());
    }
    Ok(())
}

/// A shelf that holds the example.
fn shelf_of(alloc: Global) -> Result<MemShelf, AllocError> {
    let document = changed(alloc, Before(1, ""))?;
    let mut shelf = MemShelf::new(alloc);
    shelf.add("rows.txt", document.as_bytes())?;
    Ok(shelf)
}

#[test]
fn a_shelf_that_fails_is_told(rt: HostRuntime) -> Result<(), Fail> {
    for (name, failing) in [("rows.txt", true), ("other.txt", false), ("", false)] {
        let mut shelf = shelf_of(rt.alloc())?;
        if failing {
            shelf.fail_at(1)?;
        }
        let line = format!(in rt.alloc(); "rows --rows {name}")?;
        let answer = call(&rt, line.as_str(), &mut shelf)?;
        assert_eq!(rt; answer.outcome.status, 3);
        assert!(rt;
            matches!(
                answer.outcome.fault,
                Some(Fault::ReadFault {
                    document: Document::Rows
                })
            )
        );
        assert!(rt; answer.out.bytes().is_empty());
        assert!(rt; answer.err.bytes() == b"cannot read rows\n".as_slice());
    }
    let mut shelf = shelf_of(rt.alloc())?;
    shelf.fail_at(2)?;
    let answer = call(&rt, "rows --rows rows.txt", &mut shelf)?;
    assert_eq!(rt; answer.outcome.status, 0);
    Ok(())
}

#[test]
fn an_output_that_fails_is_told(rt: HostRuntime) -> Result<(), Fail> {
    for (taken, out) in [(0, ""), (2, "ye"), (9, "yes\n")] {
        let mut shelf = shelf_of(rt.alloc())?;
        let mut sink = MemSink::new(rt.alloc(), 100)?;
        sink.fail_at(1, taken)?;
        let err = MemSink::new(rt.alloc(), 100)?;
        let answer = call_into(&rt, "rows --rows rows.txt", &mut shelf, sink, err)?;
        assert_eq!(rt; answer.outcome.status, 15);
        assert!(rt; matches!(answer.outcome.fault, Some(Fault::WriteFault)));
        assert!(rt; answer.out.bytes() == out.as_bytes());
        assert!(rt; answer.err.bytes() == b"cannot write\n".as_slice());
    }
    Ok(())
}

#[test]
fn an_error_output_that_fails_changes_nothing(rt: HostRuntime) -> Result<(), Fail> {
    let mut shelf = MemShelf::new(rt.alloc());
    let out = MemSink::new(rt.alloc(), 100)?;
    let mut err = MemSink::new(rt.alloc(), 100)?;
    err.fail_at(1, 6)?;
    let answer = call_into(&rt, "rows --rows rows.txt", &mut shelf, out, err)?;
    assert_eq!(rt; answer.outcome.status, 3);
    assert!(rt; answer.err.bytes() == b"cannot".as_slice());
    Ok(())
}

#[test]
fn a_no_names_its_line_and_reason(rt: HostRuntime) -> Result<(), Fail> {
    let document = changed(rt.alloc(), Line(1, "bounds,-101,101\n"))?;
    let answer = judge(&rt, document.as_bytes())?;
    assert!(rt;
        matches!(
            answer.outcome.fault,
            Some(Fault::No {
                row: 4,
                reason: Reason::Follows
            })
        )
    );
    Ok(())
}

//! The command `check`: certificates of two nodes with one change each.

use std::alloc::{AllocError, Global};
use test_calls::calls::{CHECK, call};
use test_calls::documents::two_nodes;

/// The certificate of two nodes, record by record: version, state, barrier, three columns, two rows, and the end.
const RECORDS: [&str; 9] = [
    "version,,1",
    "state,0,",
    "barrier,0,0 2",
    "column,0 0 0,0 0 0",
    "column,0 1 1,0 0 0",
    "column,0 2 1,0 0 1000000000000000000",
    "row,1,CERTAIN 500000000 500000000 0 -1000000000000",
    "row,2,CERTAIN 500000000 500000000 0 1000000000000",
    "end,,",
];

/// A record's number, what stands there instead, and the verdict.
const VERDICTS: [(usize, &str, &str); 27] = [
    (9, "end,,", "yes\n"),
    (9, "\r\n\"end\",\"\",\r\n\r\n", "yes\n"),
    (3, "barrier,0,0 1", "yes\n"),
    (2, "state,0,x", "no 2 Order\n"),
    (2, "state,1,", "no 2 Order\n"),
    (3, "barrier,1,0 1", "no 3 Order\n"),
    (3, "barrier,0,0 0", "no 3 Barrier\n"),
    (3, "barrier,0,0", "no 3 Barrier\n"),
    (3, "barrier,0,1 1", "no 3 Barrier\n"),
    (4, "column,0 0 1,0 0 0", "no 4 Order\n"),
    (5, "column,0 2 1,0 0 0", "no 5 Order\n"),
    (5, "column,0 1 1,0 0 0\ncolumn,0 1 2,0 0 0", "no 6 Order\n"),
    (6, "column,0 2 1,0 0 1000000000000000001", "no 6 Angle\n"),
    (6, "column,0 2 1,1 0 1000000000000000000", "no 6 Kappa\n"),
    (
        6,
        "column,0 2 1,1 0 1000000000000000001",
        "no 7 RightSide\n",
    ),
    (
        7,
        "row,2,CERTAIN 500000000 500000000 0 -1000000000000",
        "no 7 Order\n",
    ),
    (
        7,
        "row,1,DOUBTFUL 500000000 500000000 0 -1000000000000",
        "no 7 Class\n",
    ),
    (
        7,
        "row,1,CERTAIN 500000000 500000000 0 -999999999999",
        "no 7 Coefficient\n",
    ),
    (
        7,
        "row,1,CERTAIN 500000001 500000000 0 -1000000000000",
        "no 7 RightSide\n",
    ),
    (8, "", "no 8 Order\n"),
    (9, "row,3,CERTAIN 1 1 0 1\nend,,", "no 9 Order\n"),
    (9, "inner,1,0 2:1000000000\nend,,", "no 9 Follows\n"),
    (9, "inner,1,0 2:-1\nend,,", "no 9 Follows\n"),
    (9, "inner,1,0 1:1000000000\nend,,", "no 9 Cited\n"),
    (
        9,
        "inner,1,0 2:1000000000\ninner,2,0 1:1000000000\nend,,",
        "no 9 Cited\n",
    ),
    (9, "inner,3,0\nend,,", "no 9 Cited\n"),
    (9, "outer,2,0\nend,,", "no 9 Follows\n"),
];

/// A record's number, what stands there instead, and the first record that is none.
const NO_RECORDS: [(usize, &str, u32); 10] = [
    (9, "", 9),
    (1, "version,,2", 1),
    (1, "", 1),
    (3, "state,0,", 3),
    (3, "barrier,0,", 3),
    (
        6,
        "column,0 2 1,0 0 170141183460469231731687303715884105728",
        6,
    ),
    (6, "column,0 2 1,2 0 1", 6),
    (7, "row,1,certain 500000000 500000000 0 -1000000000000", 7),
    (
        7,
        "row,1,CERTAIN 20000000000001 500000000 0 -1000000000000",
        7,
    ),
    (9, "inner,4294967296,0\nend,,", 9),
];

/// The certificate with another text at one record.
fn with_change(alloc: Global, number: usize, change: &str) -> Result<String, AllocError> {
    let mut text = String::new(alloc);
    for (place, record) in RECORDS.iter().enumerate() {
        text.push_str(if place + 1 == number { change } else { record })?;
        text.push_str("\n")?;
    }
    Ok(text)
}

#[test]
fn certificates_are_judged(rt: HostRuntime) -> Result<(), AllocError> {
    for (number, change, verdict) in VERDICTS {
        let text = with_change(rt.alloc(), number, change)?;
        let mut shelf = two_nodes(rt.alloc())?;
        shelf.add("certificate.csv", text.as_bytes())?;
        let answer = call(&rt, CHECK, &mut shelf)?;
        let status = if verdict == "yes\n" { 0 } else { 1 };
        assert_eq!(rt; answer.out.bytes(), verdict.as_bytes(), "{change}");
        assert_eq!(rt; answer.outcome.status, status, "{change}");
    }
    Ok(())
}

#[test]
fn records_that_are_none_are_refused(rt: HostRuntime) -> Result<(), AllocError> {
    for (number, change, record) in NO_RECORDS {
        let text = with_change(rt.alloc(), number, change)?;
        let mut shelf = two_nodes(rt.alloc())?;
        shelf.add("certificate.csv", text.as_bytes())?;
        let answer = call(&rt, CHECK, &mut shelf)?;
        let line = format!(in rt.alloc(); "certificate row {record} cannot be read\n")?;
        assert_eq!(rt; answer.outcome.status, 14);
        assert_eq!(rt; answer.err.bytes(), line.as_bytes(), "{change}");
        assert!(rt; answer.out.bytes().is_empty());
    }
    Ok(())
}

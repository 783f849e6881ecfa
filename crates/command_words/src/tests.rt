//! Words that are taken, and words that are not.

use crate::{WordsError, read_words};
use std::alloc::{AllocError, Global};
use std::test::Fail;

/// What the words ask for: the command, the names of grid and rows, workers, case and nodes.
fn shown(alloc: Global, texts: &[&str]) -> Result<String, AllocError> {
    let mut words = Vec::new(alloc);
    for text in texts {
        words.push(String::from_str(alloc, text)?)?;
    }
    match read_words(alloc, words.as_slice()) {
        Ok(request) => format!(in alloc;
            "{:?} {:?} {:?} {} {:?} {:?}",
            request.command,
            request.grid,
            request.rows,
            request.workers,
            request.case,
            request.nodes
        ),
        Err(e) => format!(in alloc; "{e:?}"),
    }
}

#[test]
fn words_are_taken_by_their_forms(rt: HostRuntime) -> Result<(), Fail> {
    let table: [(&[&str], &str); 30] = [
        (&[], "Usage"),
        (&[""], "Usage"),
        (&["-h"], "Usage"),
        (&["ROWS", "--rows", "r"], "Usage"),
        (&["rows"], "Usage"),
        (&["--rows", "r"], "Usage"),
        (&["rows", "--rows"], "Usage"),
        (
            &["rows", "--rows", "r"],
            "Rows None Some(\"r\") 1 None None",
        ),
        (
            &["--rows", "a=b", "rows"],
            "Rows None Some(\"a=b\") 1 None None",
        ),
        (&["rows", "--rows=-r"], "Rows None Some(\"-r\") 1 None None"),
        (&["rows", "--rows="], "Rows None Some(\"\") 1 None None"),
        (
            &["--rows=r", "--", "rows"],
            "Rows None Some(\"r\") 1 None None",
        ),
        (&["rows", "--rows", "-r"], "Usage"),
        (&["rows", "--rows=r", "--rows", "r"], "Usage"),
        (&["rows", "--rows", "r", "x"], "Usage"),
        (&["rows", "--rows", "r", "--row", "x"], "Usage"),
        (&["rows", "--rows", "r", "--help"], "Usage"),
        (&["rows", "--rows", "r", "--version"], "Usage"),
        (&["rows", "--rows", "r", "--workers", "1"], "Usage"),
        (&["--", "rows", "--rows", "r"], "Usage"),
        (&["net", "--grid=g"], "Net Some(\"g\") None 1 None None"),
        (&["net", "--grid", "g", "--crac", "c"], "Usage"),
        (&["domain", "--grid", "g"], "Usage"),
        (
            &[
                "report",
                "--grid",
                "g",
                "--crac",
                "c",
                "--glsk",
                "k",
                "--settings",
                "s",
                "--workers=0064",
            ],
            "Report Some(\"g\") None 64 None None",
        ),
        (
            &[
                "domain",
                "--grid",
                "g",
                "--crac",
                "c",
                "--glsk",
                "k",
                "--settings",
                "s",
                "--workers=65",
            ],
            "Usage",
        ),
        (
            &[
                "check",
                "--grid",
                "g",
                "--crac",
                "c",
                "--glsk",
                "k",
                "--settings",
                "s",
            ],
            "Usage",
        ),
        (
            &[
                "selftest",
                "--case",
                "18446744073709551615",
                "--nodes",
                "48",
            ],
            "Selftest None None 1 Some(18446744073709551615) Some(48)",
        ),
        (
            &[
                "selftest",
                "--case",
                "18446744073709551616",
                "--nodes",
                "48",
            ],
            "Usage",
        ),
        (&["selftest", "--case", "+1", "--nodes", "48"], "Usage"),
        (&["selftest", "--case", "1", "--nodes", "4097"], "Usage"),
    ];
    for (texts, want) in table {
        let answer = shown(rt.alloc(), texts)?;
        assert_eq!(rt; answer.as_str(), want);
    }
    Ok(())
}

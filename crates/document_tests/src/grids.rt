//! Grid documents by the command `net`: the first fault of each, and what is read of bytes, columns and numbers.

use fb_base::MemShelf;
use std::alloc::{AllocError, Global};
use std::thread::Threads;
use test_calls::calls::{Answer, call};

const NODES: &str =
    "##N\n##ZBE\nBBE1AA1  x            0 3 380.00    0.00    0.00    0.00\n##ZNL\nNNL1AA1  x            0 0 380.00    0.00    0.00    0.00\n";

const TRANSFORMER: &str =
    "##T\nBBE1AA1  NNL1AA1  2 0 380.0 220.0              14.440                   2000\n##R\n";

/// Files in parts, each check with a fault of the next behind it, and their fault lines.
const FAULTS: [(&str, [&str; 3], &str); 29] = [
    (
        "zones without nodes",
        ["", "", "##N\n##ZBE\n"],
        "grid line 0: NoNodes\n",
    ),
    (
        "a zone outside the nodes",
        ["", "", "##N\n##L\n##ZBE\n"],
        "grid line 3: UnknownBlock\n",
    ),
    (
        "blanks before a heading",
        ["", "", "\n ##N\n"],
        "grid line 2: UnknownBlock\n",
    ),
    (
        "a byte order mark",
        ["", "", "﻿##N\n"],
        "grid line 1: UnknownBlock\n",
    ),
    (
        "a line under no zone",
        [
            "",
            "",
            "##N\nBBE1AA1  x            0 0 380.00    0.00    0.00    0.00\n",
        ],
        "grid line 2: UnknownBlock\n",
    ),
    (
        "a node behind a faulty heading",
        [
            "",
            "",
            "##L\nBBE1AA1  NNL1AA1  1 0 0.0000 14.440 0.000000   2000\n##N\n##ZBE\nBBE1AA1  x            0 0 380.00    0.00    0.00    0.00\n##Q\nNNL1AA1  x            0 0 380.00    0.00    0.00    0.00\n",
        ],
        "grid line 2: UnknownNode\n",
    ),
    (
        "a code without a digit",
        [
            "",
            "",
            "##N\n##ZBE\nBBE1AAX  x            0 0 380.00    0.00    0.00    0.00\n",
        ],
        "grid line 3: BadCode\n",
    ),
    (
        "a sum above 10^12 W, with the line before",
        [
            "",
            "",
            "##N\n##ZBE\nBBE1AA1  x            0 0 380.00 1000000    0.00    0.00\nBBE2AA1  x            0 0 380.00    0.00    0.00 .000001\n",
        ],
        "grid line 4: InjectionOutOfRange\n",
    ),
    (
        "two carriage returns",
        [
            NODES,
            "",
            "##L\nBBE1AA1  NNL1AA1  1 0                  \r\r\n",
        ],
        "grid line 7: BadNumber\n",
    ),
    (
        "a node twice, before its type",
        [
            NODES,
            "",
            " NNL1AA1  x            0 x 380.00    0.00    0.00    0.0\n",
        ],
        "grid line 6: DuplicateNode\n",
    ),
    (
        "a type, before a load",
        [
            NODES,
            "",
            "FFR1AA1  x            0 4 380.00       x    0.00    0.00\n",
        ],
        "grid line 6: BadStatus\n",
    ),
    (
        "a number, before the sum",
        [
            NODES,
            "",
            "FFR1AA1  x            0 0 380.00    1e11    0.00     --1\n",
        ],
        "grid line 6: BadNumber\n",
    ),
    (
        "a code, before its node",
        [
            NODES,
            "",
            "##L\nAAAAAA1  NNL1AA   1 0 0.0000 14.440 0.000000   2000\n",
        ],
        "grid line 7: BadCode\n",
    ),
    (
        "a node, before the status",
        [
            NODES,
            "",
            "##L\nBBE1AA1  AAAAAA1  1 5 0.0000 14.440 0.000000   2000\n",
        ],
        "grid line 7: UnknownNode\n",
    ),
    (
        "a blank status",
        [
            NODES,
            "",
            "##L\nBBE1AA1  NNL1AA1  1   0.0000 14.440 0.000000   2000\n",
        ],
        "grid line 7: BadStatus\n",
    ),
    (
        "an id twice, before its numbers",
        [
            NODES,
            "",
            "##L\nBBE1AA1  NNL1AA1  1 0 0.0000 14.440 0.000000   2000\nBBE1AA1  NNL1AA1  1 0 0.0000 x      0.000000   2000\n",
        ],
        "grid line 8: DuplicateBranch\n",
    ),
    (
        "a current, before a sign",
        [
            NODES,
            "",
            "##L\nBBE1AA1  NNL1AA1  1 0 0.0000 -1.000 0.000000     -5\n",
        ],
        "grid line 7: BadNumber\n",
    ),
    (
        "a sign, before the susceptance",
        [
            NODES,
            "",
            "##L\nBBE1AA1  NNL1AA1  1 0 0.0000 -1e11  0.000000   2000\n",
        ],
        "grid line 7: NegativeReactance\n",
    ),
    (
        "a susceptance of 0",
        [
            NODES,
            "",
            "##L\nBBE1AA1  NNL1AA1  1 0 0.0000 1e9    0.000000   2000\n",
        ],
        "grid line 7: SusceptanceOutOfRange\n",
    ),
    (
        "a transformer that is a coupler",
        [
            NODES,
            "",
            "##T\nBBE1AA1  NNL1AA1  2 2 380.0 220.0              14.440                   2000\n",
        ],
        "grid line 7: BadStatus\n",
    ),
    (
        "a rated voltage of 0",
        [
            NODES,
            "",
            "##T\nBBE1AA1  NNL1AA1  2 0 1e-7  220.0              14.440                   2000\n",
        ],
        "grid line 7: BadNumber\n",
    ),
    (
        "a regulation of a line",
        [
            NODES,
            "",
            "##L\nBBE1AA1  NNL1AA1  1 0 0.0000 14.440 0.000000   2000\n##R\nBBE1AA1  NNL1AA1  1                     1.00 90.00 10   5       ASYM\n",
        ],
        "grid line 9: UnknownBranch\n",
    ),
    (
        "a branch out of operation with a bad reactance",
        [
            NODES,
            "",
            "##L\nBBE1AA1  NNL1AA1  1 8 0.0000 x      0.000000   2000\n",
        ],
        "grid line 7: BadNumber\n",
    ),
    (
        "half a tap",
        [
            NODES,
            TRANSFORMER,
            "BBE1AA1  NNL1AA1  2                     1.00 90.00 10  .5       ASYM\n",
        ],
        "grid line 9: BadNumber\n",
    ),
    (
        "an unknown type, behind its angle",
        [
            NODES,
            TRANSFORMER,
            "BBE1AA1  NNL1AA1  2                     1.00     x 10   5       asym\n",
        ],
        "grid line 9: BadNumber\n",
    ),
    (
        "an unknown type",
        [
            NODES,
            TRANSFORMER,
            "BBE1AA1  NNL1AA1  2                        0     x 10   5       asym\n",
        ],
        "grid line 9: BadPhase\n",
    ),
    (
        "an angle past 180 degrees with tap 0",
        [
            NODES,
            TRANSFORMER,
            "BBE1AA1  NNL1AA1  2                     1.00 180.1 10   0       ASYM\n",
        ],
        "grid line 9: BadPhase\n",
    ),
    (
        "a denominator of 0",
        [
            NODES,
            TRANSFORMER,
            "BBE1AA1  NNL1AA1  2                    20.00   180 10   5       ASYM\n",
        ],
        "grid line 9: BadPhase\n",
    ),
    (
        "a second regulation, before its numbers",
        [
            NODES,
            TRANSFORMER,
            "BBE1AA1  NNL1AA1  2                     1.00 90.00 10   5       ASYM\nBBE1AA1  NNL1AA1  2                     1.00 90.00 10   x       ASYM\n",
        ],
        "grid line 10: DuplicateBranch\n",
    ),
];

/// Files, and their net texts.
const NETS: [(&str, &[u8], &[u8]); 7] = [
    (
        "carriage returns",
        b"##N\r\n##ZBE\r\nBBE1AA1\r\n##ZNL\r\nNNL1AA1\r",
        b"code,net\nBE,0\nNL,0\n",
    ),
    (
        "the byte E9 in a name",
        b"##N\n##ZBE\nBBE1AA1  B\xe9           0 0 380.00    1.00\n",
        b"code,net\nBE,-1000000\n",
    ),
    (
        "the byte E9 in a zone",
        b"##N\n##Z\xe9A\nBBE1AA1\n",
        b"code,net\n\xc3\xa9A,0\n",
    ),
    (
        "a column is a character",
        b"##N\n##Z\xc3\xa9A\n\xc3\xa9BE1AA12              0 0 380.00     .5\n",
        b"code,net\n\xc3\xa9A,-500000\n",
    ),
    (
        "a code with a comma",
        b"##N\n##Z,A\nBBE1AA1\n",
        b"code,net\n\",A\",0\n",
    ),
    (
        "codes in the order of their first nodes",
        b"##N\n##ZNL\nNNL1AA1  x            0 0 380.00    1e-6    0.00    0.00\n##ZBE\nBBE1AA1  x            0 0 380.00 1.5E3      0.00    0.00\n##ZNL\nNNL2AA1  x            0 0 380.00   19e-7    0.00 -0.0000\n",
        b"code,net\nNL,-2\nBE,-1500000000\n",
    ),
    (
        "notes, a coupler whose reactance is not judged, and a branch out of operation",
        b"##N\n##ZBE\nBBE1AA1  x            0 3 380.00    0.00    0.00    0.00\n##ZNL\nNNL1AA1  x            0 0 380.00    0.00    0.00    0.00\n##L\nBBE1AA1  NNL1AA1  1 0 0.0000 .04999 0.000000 0.0001\nBBE1AA1  NNL1AA1  2 0 0.0000 .05    0.000000   1e-7\nBBE1AA1  NNL1AA1  3 2 0.0000 x      0.000000   2000\nBBE1AA1  NNL1AA1  4 9 0.0000 -1.0   0.000000       \nBBE1AA1  NNL1AA1    0 0.0000 0.0000\n",
        b"code,net\nBE,0\nNL,0\nnote,BBE1AA1  NNL1AA1  1\nnote,BBE1AA1  NNL1AA1   \n",
    ),
];

/// What `net` answers of a file.
fn net<R: Threads + Sync + AllocGlobal>(rt: &R, file: &[u8]) -> Result<Answer, AllocError> {
    let mut shelf = MemShelf::new(rt.alloc());
    shelf.add("grid.uct", file)?;
    call(rt, "net --grid grid.uct", &mut shelf)
}

#[test]
fn grids_are_read(rt: HostRuntime) -> Result<(), AllocError> {
    for (name, parts, line) in FAULTS {
        let mut file = String::new(rt.alloc());
        for part in parts {
            file.push_str(part)?;
        }
        let answer = net(&rt, file.as_bytes())?;
        assert_eq!(rt; answer.outcome.status, 5, "{name}");
        assert_eq!(rt; answer.err.bytes(), line.as_bytes(), "{name}");
    }
    for (name, file, text) in NETS {
        let answer = net(&rt, file)?;
        assert_eq!(rt; answer.out.bytes(), text, "{name}");
    }
    Ok(())
}

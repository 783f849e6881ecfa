//! Settings, reductions and JSON documents by the command `domain`: the first fault of each, and the numbers that
//! decimals are.

use fb_base::MemShelf;
use std::alloc::{AllocError, Global};
use std::thread::Threads;
use test_calls::calls::{Answer, DOMAIN, REDUCED, call};

const GRID: &str =
    "##N\n##ZBE\nBBE1AA1  BE1          0 3\n##ZNL\nNNL1AA1  NL1          0 0\n##L\nBBE1AA1  NNL1AA1  1 0 0.0000 14.440\n";

const CRAC: &str =
    "{\"type\":\"CRAC\",\"flowCnecs\":[{\"id\":\"c1\",\"networkElementId\":\"BBE1AA1  NNL1AA1  1\",\"instant\":\"preventive\",\"optimized\":true,\"thresholds\":[{\"unit\":\"megawatt\",\"max\":500}]}]}";

const SETTINGS: &str =
    "{\"moment\":\"2024-05-01T10:30:00Z\",\"zones\":[{\"id\":\"BE\",\"min\":-1000,\"max\":1000},{\"id\":\"NL\",\"min\":-1000,\"max\":1000}]}";

const KEYS: &str =
    "{\"series\":[{\"zone\":\"BE\",\"from\":\"2024-05-01T00:00:00Z\",\"to\":\"2024-05-02T00:00:00Z\",\"blocks\":[{\"business\":\"GSK\",\"share\":100,\"kind\":\"country\"}]},{\"zone\":\"NL\",\"from\":\"2024-05-01T00:00:00Z\",\"to\":\"2024-05-02T00:00:00Z\",\"blocks\":[{\"business\":\"GSK\",\"share\":100,\"kind\":\"country\"}]}]}";

/// Settings, each check with a fault of the next behind it, and their fault lines without line ends.
const FAULTS: [(&str, &str); 28] = [
    ("{\"moment\":5,\"zones\":5}", "settings moment: WrongType"),
    (
        "{\"moment\":\"soon\",\"zones\":5}",
        "settings moment: BadTime",
    ),
    (
        "{\"moment\":\"2024-05-01T10:30:00\",\"zones\":5}",
        "settings moment: BadTime",
    ),
    (
        "{\"moment\":\"2024-02-30T10:30Z\",\"zones\":5}",
        "settings moment: BadTime",
    ),
    (
        "{\"moment\":\"2024-05-01T12:30:00+02:00\",\"zones\":5}",
        "settings zones: WrongType",
    ),
    (
        "{\"moment\":\"20240501T103000z\",\"zones\":5}",
        "settings zones: WrongType",
    ),
    (
        "{\"moment\":\"2024-05-01T10:30:00Z\",\"zones\":[]}",
        "settings zones: Missing",
    ),
    (
        "{\"moment\":\"2024-05-01T10:30:00Z\",\"zones\":[7]}",
        "settings zones[0]: WrongType",
    ),
    (
        "{\"moment\":\"2024-05-01T10:30:00Z\",\"zones\":[{\"id\":\"BE\",\"min\":0,\"max\":0},{\"id\":\"BE\",\"codes\":5}]}",
        "settings zones[1].id: Twice",
    ),
    (
        "{\"moment\":\"2024-05-01T10:30:00Z\",\"zones\":[{\"id\":\"BE\",\"codes\":[\"A1\",5,\"A1\"]}]}",
        "settings zones[0].codes[1]: WrongType",
    ),
    (
        "{\"moment\":\"2024-05-01T10:30:00Z\",\"zones\":[{\"id\":\"BE\",\"min\":0,\"max\":0},{\"id\":\"B\",\"codes\":[\"A1\",\"BE\"]}]}",
        "settings zones[1].codes[1]: Twice",
    ),
    (
        "{\"moment\":\"2024-05-01T10:30:00Z\",\"zones\":[{\"id\":\"B\",\"codes\":[\"A1\",\"BE\"],\"min\":0,\"max\":0},{\"id\":\"BE\",\"core\":5}]}",
        "settings zones[1].id: Twice",
    ),
    (
        "{\"moment\":\"2024-05-01T10:30:00Z\",\"zones\":[{\"id\":\"BE\",\"core\":\"no\"}]}",
        "settings zones[0].core: WrongType",
    ),
    (
        "{\"moment\":\"2024-05-01T10:30:00Z\",\"zones\":[{\"id\":\"BE\",\"core\":\"true\"}]}",
        "settings zones[0].min: Missing",
    ),
    (
        "{\"moment\":\"2024-05-01T10:30:00Z\",\"zones\":[{\"id\":\"BE\",\"min\":\"1\"}]}",
        "settings zones[0].min: WrongType",
    ),
    (
        "{\"moment\":\"2024-05-01T10:30:00Z\",\"zones\":[{\"id\":\"BE\",\"min\":1e40}]}",
        "settings zones[0].min: WrongType",
    ),
    (
        "{\"moment\":\"2024-05-01T10:30:00Z\",\"zones\":[{\"id\":\"BE\",\"min\":-100000.000001}]}",
        "settings zones[0].min: OutOfRange",
    ),
    (
        "{\"moment\":\"2024-05-01T10:30:00Z\",\"zones\":[{\"id\":\"BE\",\"min\":0,\"max\":100000.000001}]}",
        "settings zones[0].max: OutOfRange",
    ),
    (
        "{\"moment\":\"2024-05-01T10:30:00Z\",\"zones\":[{\"id\":\"BE\",\"min\":2,\"max\":1.999999}]}",
        "settings zones[0]: BoxReversed",
    ),
    (
        "{\"moment\":\"2024-05-01T10:30:00Z\",\"zones\":[{\"id\":\"BE\",\"min\":0,\"max\":-0.0000009},{}]}",
        "settings zones[1].id: Missing",
    ),
    (
        "{\"moment\":\"2024-05-01T10:30:00Z\",\"zones\":[{\"id\":\"FR\",\"core\":\"false\",\"min\":\"x\"}]}",
        "settings zones: Missing",
    ),
    (
        "{\"moment\":\"2024-05-01T10:30:00Z\",\"zones\":[{\"id\":\"BE\",\"min\":1,\"max\":5},{\"id\":\"NL\",\"min\":-0.999999,\"max\":9}]}",
        "settings zones: BoxReversed",
    ),
    (
        "{\"moment\":\"2024-05-01T10:30:00Z\",\"zones\":[{\"id\":\"BE\",\"min\":-9,\"max\":-1},{\"id\":\"NL\",\"min\":-9,\"max\":0.999999}]}",
        "settings zones: BoxReversed",
    ),
    (
        "{\"moment\":\"2024-05-01T10:30:00Z\",\"zones\":[{\"id\":\"BE\",\"min\":0,\"max\":0}],\"ramrPermille\":1000.5}",
        "settings ramrPermille: WrongType",
    ),
    (
        "{\"moment\":\"2024-05-01T10:30:00Z\",\"zones\":[{\"id\":\"BE\",\"min\":0,\"max\":0}],\"ramrPermille\":1001,\"thresholdPermille\":\"x\"}",
        "settings ramrPermille: OutOfRange",
    ),
    (
        "{\"moment\":\"2024-05-01T10:30:00Z\",\"zones\":[{\"id\":\"BE\",\"min\":0,\"max\":0}],\"ramrPermille\":7e2,\"thresholdPermille\":-1,\"slack\":5}",
        "settings thresholdPermille: OutOfRange",
    ),
    (
        "{\"moment\":\"2024-05-01T10:30:00Z\",\"zones\":[{\"id\":\"BE\",\"min\":0,\"max\":0}],\"slack\":5}",
        "settings slack: WrongType",
    ),
    (
        "{\"moment\":\"2024-05-01T10:30:00Z\",\"zones\":[{\"id\":\"BE\",\"min\":0,\"max\":0}],\"slack\":\"NNL1AA2\"}",
        "settings slack: UnknownNode",
    ),
];

/// Settings that are taken, and the end of the record of the line. Where the zones can exchange little, its row follows
/// from the box.
const TAKEN: [(&str, &str); 3] = [
    (
        "{\"moment\":\"2024-05-01T12:30+02:00[Europe/Brussels]\",\"zones\":[{\"id\":\"BE\",\"min\":-100000,\"max\":100000},{\"id\":\"NL\",\"min\":-1e5,\"max\":100000.0000009}]}",
        ",CERTAIN,KEPT,KEPT,500000000,500000000,0,0,-1000000000000,,\n",
    ),
    (
        "{\"moment\":\"2024-05-01T10:30:00Z\",\"thresholdPermille\":1e3,\"slack\":\"NNL1AA1\",\"zones\":[{\"id\":\"BE\",\"min\":-1,\"max\":1},{\"id\":\"NL\",\"min\":-1,\"max\":1}]}",
        ",CERTAIN,REMOVED,REMOVED,500000000,500000000,0,1000000000000,0,0,0\n",
    ),
    (
        "{\"moment\":\"2024-05-01T10:30:00Z\",\"ramrPermille\":1000.0,\"zones\":[{\"id\":\"NL\",\"min\":0,\"max\":0},{\"id\":\"FR\",\"core\":\"false\",\"min\":\"x\"},{\"id\":\"BE\",\"codes\":[\"BE\",\"B1\"],\"min\":0,\"max\":0}]}",
        ",CERTAIN,REMOVED,REMOVED,500000000,500000000,0,-1000000000000,0,-1000000000000000000000,-1000000000000000000000\n",
    ),
];

/// Texts in the place of the CRAC, and their fault lines without line ends.
const TEXTS: [(&str, &str); 32] = [
    ("0", "crac : WrongType"),
    ("-1.5e-3", "crac : WrongType"),
    ("1e99", "crac : WrongType"),
    ("null", "crac : WrongType"),
    (" [ ] ", "crac : WrongType"),
    ("\"\\u00e9\\n\"", "crac : WrongType"),
    ("﻿[]", "crac : WrongType"),
    ("[true,false]", "crac : WrongType"),
    ("{1:2}", "crac type: Missing"),
    ("{\"a\":1,\"a\":2}", "crac type: Missing"),
    ("{\"t\\u0079pe\":3}", "crac type: WrongType"),
    ("{\"type\":null}", "crac type: Missing"),
    ("", "crac is not JSON"),
    (" ", "crac is not JSON"),
    ("01", "crac is not JSON"),
    ("-", "crac is not JSON"),
    ("+1", "crac is not JSON"),
    ("1.", "crac is not JSON"),
    (".5", "crac is not JSON"),
    ("1e", "crac is not JSON"),
    ("e5", "crac is not JSON"),
    ("1 2", "crac is not JSON"),
    ("[1,]", "crac is not JSON"),
    ("{\"a\"}", "crac is not JSON"),
    ("{null:1}", "crac is not JSON"),
    ("[", "crac is not JSON"),
    ("\"a", "crac is not JSON"),
    ("\"\\x\"", "crac is not JSON"),
    ("\"\\ud800\"", "crac is not JSON"),
    ("\"\n\"", "crac is not JSON"),
    ("True", "crac is not JSON"),
    ("﻿﻿1", "crac is not JSON"),
];

/// Reductions of one element with a limit in the direction DIRECT, and their fault lines without line ends.
const REFUSED: [(&str, &str); 26] = [
    (
        "element,direction,cva,iva\ne1,DIRECT,1\n",
        "reductions row 2: Missing",
    ),
    (
        "element,direction,cva,iva\ne1,DIRECT,1,2,3\n",
        "reductions row 2: Missing",
    ),
    (
        "element,direction,cva,iva\ne3,direct,1,2\n",
        "reductions row 2: WrongType",
    ),
    (
        "element,direction,cva,iva\ne3, DIRECT,1,2\n",
        "reductions row 2: WrongType",
    ),
    (
        "element,direction,cva,iva\ne3,DIRECT,1,\n",
        "reductions row 2: WrongType",
    ),
    (
        "element,direction,cva,iva\ne3,DIRECT,-1,2\n",
        "reductions row 2: UnknownElement",
    ),
    (
        "element,direction,cva,iva\nc1,OPPOSITE,-1,2\n",
        "reductions row 2: UnknownElement",
    ),
    (
        "element,direction,cva,iva\nc1,DIRECT,-0.000001,2\n",
        "reductions row 2: OutOfRange",
    ),
    (
        "element,direction,cva,iva\nc1,DIRECT,1,100000.000001\n",
        "reductions row 2: OutOfRange",
    ),
    (
        "element,direction,cva,iva\nc1,DIRECT,1,2\n\nc1,DIRECT,-1,2\n",
        "reductions row 3: OutOfRange",
    ),
    (
        "element,direction,cva,iva\nc1,DIRECT,1,2\nc1,DIRECT,1,2\n",
        "reductions row 3: Twice",
    ),
    (
        "element,direction,cva,iva\nc1,DIRECT,1e,0\n",
        "reductions row 2: WrongType",
    ),
    (
        "element,direction,cva,iva\nc1,DIRECT,12a,0\n",
        "reductions row 2: WrongType",
    ),
    (
        "element,direction,cva,iva\nc1,DIRECT,+,0\n",
        "reductions row 2: WrongType",
    ),
    (
        "element,direction,cva,iva\nc1,DIRECT,-,0\n",
        "reductions row 2: WrongType",
    ),
    (
        "element,direction,cva,iva\nc1,DIRECT,.e1,0\n",
        "reductions row 2: WrongType",
    ),
    (
        "element,direction,cva,iva\nc1,DIRECT,1.2.3,0\n",
        "reductions row 2: WrongType",
    ),
    (
        "element,direction,cva,iva\nc1,DIRECT,1E5.0,0\n",
        "reductions row 2: WrongType",
    ),
    (
        "element,direction,cva,iva\nc1,DIRECT, 1,0\n",
        "reductions row 2: WrongType",
    ),
    (
        "element,direction,cva,iva\nc1,DIRECT,1 ,0\n",
        "reductions row 2: WrongType",
    ),
    (
        "element,direction,cva,iva\nc1,DIRECT,--1,0\n",
        "reductions row 2: WrongType",
    ),
    (
        "element,direction,cva,iva\nc1,DIRECT,NaN,0\n",
        "reductions row 2: WrongType",
    ),
    (
        "element,direction,cva,iva\nc1,DIRECT,1e40,0\n",
        "reductions row 2: WrongType",
    ),
    ("", "reductions row 1: WrongType"),
    (
        "element,direction,iva,cva\ne1\n",
        "reductions row 1: WrongType",
    ),
    (
        " element,direction,cva,iva\n",
        "reductions row 1: WrongType",
    ),
];

/// Two reductions in megawatts, and what they leave of 500 MW, in watts.
const DECIMALS: [(&str, &str, i64); 8] = [
    ("0", "0", 500_000_000),
    ("1e-6", "19e-7", 499_999_998),
    (".5", "1.", 498_500_000),
    ("+1.5e+3", "-0.0000009", -1_000_000_000),
    (
        "0e999999999999",
        "000.000e18446744073709551616",
        500_000_000,
    ),
    (
        "1e-99999999999999999999",
        "0.00000000000000000001e20",
        499_000_000,
    ),
    ("100000", "100000.0000009", -199_500_000_000),
    ("123.4567899", "100", 276_543_211),
];

/// What `domain` answers where a document stands in the place of one of two nodes.
fn answer<R: Threads + Sync + AllocGlobal>(
    rt: &R,
    words: &str,
    name: &str,
    document: &str,
) -> Result<Answer, AllocError> {
    let mut shelf = MemShelf::new(rt.alloc());
    shelf.add("grid.uct", GRID.as_bytes())?;
    shelf.add("crac.json", CRAC.as_bytes())?;
    shelf.add("settings.json", SETTINGS.as_bytes())?;
    shelf.add("glsk.json", KEYS.as_bytes())?;
    shelf.add(name, document.as_bytes())?;
    call(rt, words, &mut shelf)
}

/// The first document of a table that is not answered with its fault line.
fn first_wrong<R: Threads + Sync + AllocGlobal>(
    rt: &R,
    words: &str,
    name: &str,
    table: &[(&str, &str)],
) -> Result<String, AllocError> {
    for (document, line) in table {
        let answer = answer(rt, words, name, document)?;
        let line = format!(in rt.alloc(); "{line}\n")?;
        if answer.err.bytes() != line.as_bytes() {
            return format!(in rt.alloc(); "wrong: {document}");
        }
    }
    Ok(String::new(rt.alloc()))
}

#[test]
fn documents_are_refused(rt: HostRuntime) -> Result<(), AllocError> {
    let wrong = first_wrong(&rt, DOMAIN, "settings.json", &FAULTS)?;
    assert_eq!(rt; wrong.as_str(), "");
    let wrong = first_wrong(&rt, DOMAIN, "crac.json", &TEXTS)?;
    assert_eq!(rt; wrong.as_str(), "");
    let wrong = first_wrong(&rt, REDUCED, "reductions.csv", &REFUSED)?;
    assert_eq!(rt; wrong.as_str(), "");
    Ok(())
}

#[test]
fn reductions_are_taken_off(rt: HostRuntime) -> Result<(), AllocError> {
    for (cva, iva, left) in DECIMALS {
        let document = format!(in rt.alloc();
            "element,direction,cva,iva\nc1,DIRECT,{cva},{iva}\n"
        )?;
        let answer = answer(&rt, REDUCED, "reductions.csv", document.as_str())?;
        let record = format!(in rt.alloc();
            "\n1,c1,preventive,,DIRECT,CERTAIN,KEPT,KEPT,{left},{left},0,0,-1000000000000,,\n"
        )?;
        assert!(rt;
            answer.out.bytes().ends_with(record.as_bytes()),
            "{cva}, {iva}"
        );
    }
    Ok(())
}

#[test]
fn settings_are_taken(rt: HostRuntime) -> Result<(), AllocError> {
    for (document, end) in TAKEN {
        let answer = answer(&rt, DOMAIN, "settings.json", document)?;
        assert!(rt; answer.out.bytes().ends_with(end.as_bytes()), "{document}");
    }
    Ok(())
}

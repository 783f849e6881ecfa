//! GLSK documents by the command `domain`: the first fault of each, and the coefficients that keys make.

use fb_base::MemShelf;
use std::alloc::{AllocError, Global};
use std::thread::Threads;
use test_calls::calls::{Answer, DOMAIN, call};

/// A line from each node to the Dutch one. The first Belgian node has 10 W of load and 30 W produced, the second 5 W of
/// load and a pump of 20 W.
const GRID: &str =
    "##N\n##ZBE\nBBE1AA1  BE1          0 0 380.00 .000010    0.00 -.00003\nBBE2AA1  BE2          0 0 380.00 .000005    0.00 .000020\n##ZNL\nNNL1AA1  NL1          0 3 380.00    0.00    0.00 -.00001\n##ZFR\nFFR1AA1  FR1          0 0 380.00 .000003    0.00    0.00\n##L\nBBE1AA1  NNL1AA1  1 0 0.0000 14.440\nBBE2AA1  NNL1AA1  1 0 0.0000 14.440\nFFR1AA1  NNL1AA1  1 0 0.0000 14.440\n";

const CRAC: &str =
    "{\"type\":\"CRAC\",\"flowCnecs\":[{\"id\":\"c1\",\"networkElementId\":\"BBE1AA1  NNL1AA1  1\",\"instant\":\"preventive\",\"optimized\":true,\"thresholds\":[{\"unit\":\"megawatt\",\"max\":100}]}]}";

const SETTINGS: &str =
    "{\"moment\":\"2024-05-01T10:30:00Z\",\"zones\":[{\"id\":\"BE\",\"min\":-1000,\"max\":1000},{\"id\":\"NL\",\"min\":-1000,\"max\":1000},{\"id\":\"FR\",\"core\":false},{\"id\":\"DE\",\"core\":false}]}";

/// Documents, each check with a fault of the next behind it, and their fault lines without line ends.
const FAULTS: [(&str, &str); 34] = [
    (
        "{\"series\":[{\"zone\":\"BE\",\"from\":\"2024-05-01T00:00:00Z\",\"to\":\"2024-05-02T00:00:00Z\",\"blocks\":[]},{\"zone\":\"NL\",\"from\":\"2024-05-01T00:00:00Z\",\"to\":\"2024-05-02T00:00:00Z\",\"blocks\":[{\"business\":\"GSK\",\"share\":100,\"kind\":\"country\"}]}]}",
        "glsk series[0].blocks: Missing",
    ),
    (
        "{\"series\":[{\"zone\":\"BE\",\"from\":\"2024-05-01T00:00:00Z\",\"to\":\"2024-05-02T00:00:00Z\",\"blocks\":[1,2,3,4,5]},{\"zone\":\"NL\",\"from\":\"2024-05-01T00:00:00Z\",\"to\":\"2024-05-02T00:00:00Z\",\"blocks\":[{\"business\":\"GSK\",\"share\":100,\"kind\":\"country\"}]}]}",
        "glsk series[0].blocks: TooMany",
    ),
    (
        "{\"series\":[{\"zone\":\"BE\",\"from\":\"2024-05-01T00:00:00Z\",\"to\":\"2024-05-02T00:00:00Z\",\"blocks\":[{\"business\":\"gsk\",\"share\":-1}]},{\"zone\":\"NL\",\"from\":\"2024-05-01T00:00:00Z\",\"to\":\"2024-05-02T00:00:00Z\",\"blocks\":[{\"business\":\"GSK\",\"share\":100,\"kind\":\"country\"}]}]}",
        "glsk series[0].blocks[0].business: WrongType",
    ),
    (
        "{\"series\":[{\"zone\":\"BE\",\"from\":\"2024-05-01T00:00:00Z\",\"to\":\"2024-05-02T00:00:00Z\",\"blocks\":[{\"business\":\"GSK\",\"kind\":1}]},{\"zone\":\"NL\",\"from\":\"2024-05-01T00:00:00Z\",\"to\":\"2024-05-02T00:00:00Z\",\"blocks\":[{\"business\":\"GSK\",\"share\":100,\"kind\":\"country\"}]}]}",
        "glsk series[0].blocks[0].share: Missing",
    ),
    (
        "{\"series\":[{\"zone\":\"BE\",\"from\":\"2024-05-01T00:00:00Z\",\"to\":\"2024-05-02T00:00:00Z\",\"blocks\":[{\"business\":\"GSK\",\"share\":-0.000001,\"kind\":1}]},{\"zone\":\"NL\",\"from\":\"2024-05-01T00:00:00Z\",\"to\":\"2024-05-02T00:00:00Z\",\"blocks\":[{\"business\":\"GSK\",\"share\":100,\"kind\":\"country\"}]}]}",
        "glsk series[0].blocks[0].share: NegativeFactor",
    ),
    (
        "{\"series\":[{\"zone\":\"BE\",\"from\":\"2024-05-01T00:00:00Z\",\"to\":\"2024-05-02T00:00:00Z\",\"blocks\":[{\"business\":\"GSK\",\"share\":100.000001,\"kind\":1}]},{\"zone\":\"NL\",\"from\":\"2024-05-01T00:00:00Z\",\"to\":\"2024-05-02T00:00:00Z\",\"blocks\":[{\"business\":\"GSK\",\"share\":100,\"kind\":\"country\"}]}]}",
        "glsk series[0].blocks[0].share: OutOfRange",
    ),
    (
        "{\"series\":[{\"zone\":\"BE\",\"from\":\"2024-05-01T00:00:00Z\",\"to\":\"2024-05-02T00:00:00Z\",\"blocks\":[{\"business\":\"GSK\",\"share\":100,\"kind\":\"merit\"}]},{\"zone\":\"NL\",\"from\":\"2024-05-01T00:00:00Z\",\"to\":\"2024-05-02T00:00:00Z\",\"blocks\":[{\"business\":\"GSK\",\"share\":100,\"kind\":\"country\"}]}]}",
        "glsk series[0].blocks[0].kind: WrongType",
    ),
    (
        "{\"series\":[{\"zone\":\"BE\",\"from\":\"2024-05-01T00:00:00Z\",\"to\":\"2024-05-02T00:00:00Z\",\"blocks\":[{\"business\":\"GSK\",\"share\":100,\"kind\":\"manual\"}]},{\"zone\":\"NL\",\"from\":\"2024-05-01T00:00:00Z\",\"to\":\"2024-05-02T00:00:00Z\",\"blocks\":[{\"business\":\"GSK\",\"share\":100,\"kind\":\"country\"}]}]}",
        "glsk series[0].blocks[0].nodes: Missing",
    ),
    (
        "{\"series\":[{\"zone\":\"BE\",\"from\":\"2024-05-01T00:00:00Z\",\"to\":\"2024-05-02T00:00:00Z\",\"blocks\":[{\"business\":\"GSK\",\"share\":100,\"kind\":\"manual\",\"nodes\":[\"BBE1AA1\"]}]},{\"zone\":\"NL\",\"from\":\"2024-05-01T00:00:00Z\",\"to\":\"2024-05-02T00:00:00Z\",\"blocks\":[{\"business\":\"GSK\",\"share\":100,\"kind\":\"country\"}]}]}",
        "glsk series[0].blocks[0].nodes[0]: WrongType",
    ),
    (
        "{\"series\":[{\"zone\":\"BE\",\"from\":\"2024-05-01T00:00:00Z\",\"to\":\"2024-05-02T00:00:00Z\",\"blocks\":[{\"business\":\"GSK\",\"share\":100,\"kind\":\"manual\",\"nodes\":[{\"node\":\" BBE1AA1\",\"factor\":-1}]}]},{\"zone\":\"NL\",\"from\":\"2024-05-01T00:00:00Z\",\"to\":\"2024-05-02T00:00:00Z\",\"blocks\":[{\"business\":\"GSK\",\"share\":100,\"kind\":\"country\"}]}]}",
        "glsk series[0].blocks[0].nodes[0].node: UnknownNode",
    ),
    (
        "{\"series\":[{\"zone\":\"BE\",\"from\":\"2024-05-01T00:00:00Z\",\"to\":\"2024-05-02T00:00:00Z\",\"blocks\":[{\"business\":\"GSK\",\"share\":100,\"kind\":\"manual\",\"nodes\":[{\"node\":\"NNL1AA1\",\"factor\":-1}]}]},{\"zone\":\"NL\",\"from\":\"2024-05-01T00:00:00Z\",\"to\":\"2024-05-02T00:00:00Z\",\"blocks\":[{\"business\":\"GSK\",\"share\":100,\"kind\":\"country\"}]}]}",
        "glsk series[0].blocks[0].nodes[0].node: WrongZone",
    ),
    (
        "{\"series\":[{\"zone\":\"BE\",\"from\":\"2024-05-01T00:00:00Z\",\"to\":\"2024-05-02T00:00:00Z\",\"blocks\":[{\"business\":\"GSK\",\"share\":100,\"kind\":\"manual\",\"nodes\":[{\"node\":\"BBE1AA1\",\"factor\":-0.000001}]}]},{\"zone\":\"NL\",\"from\":\"2024-05-01T00:00:00Z\",\"to\":\"2024-05-02T00:00:00Z\",\"blocks\":[{\"business\":\"GSK\",\"share\":100,\"kind\":\"country\"}]}]}",
        "glsk series[0].blocks[0].nodes[0].factor: NegativeFactor",
    ),
    (
        "{\"series\":[{\"zone\":\"BE\",\"from\":\"2024-05-01T00:00:00Z\",\"to\":\"2024-05-02T00:00:00Z\",\"blocks\":[{\"business\":\"GSK\",\"share\":100,\"kind\":\"manual\",\"nodes\":[{\"node\":\"BBE1AA1\",\"factor\":1000000.000001}]}]},{\"zone\":\"NL\",\"from\":\"2024-05-01T00:00:00Z\",\"to\":\"2024-05-02T00:00:00Z\",\"blocks\":[{\"business\":\"GSK\",\"share\":100,\"kind\":\"country\"}]}]}",
        "glsk series[0].blocks[0].nodes[0].factor: OutOfRange",
    ),
    (
        "{\"series\":[{\"zone\":\"BE\",\"from\":\"2024-05-01T00:00:00Z\",\"to\":\"2024-05-02T00:00:00Z\",\"blocks\":[{\"business\":\"GSK\",\"share\":100,\"kind\":\"proportional\",\"nodes\":[\"FFR1AA1\"]}]},{\"zone\":\"NL\",\"from\":\"2024-05-01T00:00:00Z\",\"to\":\"2024-05-02T00:00:00Z\",\"blocks\":[{\"business\":\"GSK\",\"share\":100,\"kind\":\"country\"}]}]}",
        "glsk series[0].blocks[0].nodes[0]: WrongZone",
    ),
    (
        "{\"series\":[{\"zone\":\"BE\",\"from\":\"2024-05-01T00:00:00Z\",\"to\":\"2024-05-02T00:00:00Z\",\"blocks\":[{\"business\":\"GSK\",\"share\":1,\"kind\":\"manual\",\"nodes\":[]},1]},{\"zone\":\"NL\",\"from\":\"2024-05-01T00:00:00Z\",\"to\":\"2024-05-02T00:00:00Z\",\"blocks\":[{\"business\":\"GSK\",\"share\":100,\"kind\":\"country\"}]}]}",
        "glsk series[0].blocks[0]: EmptyKey",
    ),
    (
        "{\"series\":[{\"zone\":\"BE\",\"from\":\"2024-05-01T00:00:00Z\",\"to\":\"2024-05-02T00:00:00Z\",\"blocks\":[{\"business\":\"GSK\",\"share\":1,\"kind\":\"proportional\",\"nodes\":[\"BBE2AA1\"]},1]},{\"zone\":\"NL\",\"from\":\"2024-05-01T00:00:00Z\",\"to\":\"2024-05-02T00:00:00Z\",\"blocks\":[{\"business\":\"GSK\",\"share\":100,\"kind\":\"country\"}]}]}",
        "glsk series[0].blocks[0]: EmptyKey",
    ),
    (
        "{\"series\":[{\"zone\":\"BE\",\"from\":\"2024-05-01T00:00:00Z\",\"to\":\"2024-05-02T00:00:00Z\",\"blocks\":[{\"business\":\"GSK\",\"share\":1,\"kind\":\"manual\",\"nodes\":[{\"node\":\"BBE1AA1\",\"factor\":1e6},{\"node\":\"BBE1AA1\",\"factor\":0.000001}]},1]},{\"zone\":\"NL\",\"from\":\"2024-05-01T00:00:00Z\",\"to\":\"2024-05-02T00:00:00Z\",\"blocks\":[{\"business\":\"GSK\",\"share\":100,\"kind\":\"country\"}]}]}",
        "glsk series[0].blocks[0]: OutOfRange",
    ),
    (
        "{\"series\":[{\"zone\":\"BE\",\"from\":\"2024-05-01T00:00:00Z\",\"to\":\"2024-05-02T00:00:00Z\",\"blocks\":[{\"business\":\"GSK\",\"share\":70,\"kind\":\"country\"},1]},{\"zone\":\"NL\",\"from\":\"2024-05-01T00:00:00Z\",\"to\":\"2024-05-02T00:00:00Z\",\"blocks\":[{\"business\":\"GSK\",\"share\":100,\"kind\":\"country\"}]}]}",
        "glsk series[0].blocks[1]: WrongType",
    ),
    (
        "{\"series\":[{\"zone\":\"BE\",\"from\":\"2024-05-01T00:00:00Z\",\"to\":\"2024-05-02T00:00:00Z\",\"blocks\":[{\"business\":\"GSK\",\"share\":70,\"kind\":\"country\"},{\"business\":\"GSK\",\"share\":29,\"kind\":\"country\"}]},{\"zone\":\"NL\",\"from\":\"2024-05-01T00:00:00Z\",\"to\":\"2024-05-02T00:00:00Z\",\"blocks\":[{\"business\":\"GSK\",\"share\":100,\"kind\":\"country\"}]}]}",
        "glsk series[0].blocks: SharesNot100",
    ),
    (
        "{\"series\":[{\"zone\":\"BE\",\"from\":\"2024-05-01T00:00:00Z\",\"to\":\"2024-05-02T00:00:00Z\",\"blocks\":[{\"business\":\"GSK\",\"share\":99.999999,\"kind\":\"country\"}]},{\"zone\":\"NL\",\"from\":\"2024-05-01T00:00:00Z\",\"to\":\"2024-05-02T00:00:00Z\",\"blocks\":[{\"business\":\"GSK\",\"share\":100,\"kind\":\"country\"}]}]}",
        "glsk series[0].blocks: SharesNot100",
    ),
    ("[]", "glsk : WrongType"),
    ("{}", "glsk series: Missing"),
    ("{\"series\":{}}", "glsk series: WrongType"),
    (
        "{\"series\":[{\"zone\":1}]}",
        "glsk series[0].zone: WrongType",
    ),
    (
        "{\"series\":[{\"zone\":\"BE\",\"from\":\"2024-05-01\",\"to\":1}]}",
        "glsk series[0].from: BadTime",
    ),
    (
        "{\"series\":[{\"zone\":\"BE\",\"from\":\"2024-05-01T00:00:00Z\",\"to\":1}]}",
        "glsk series[0].to: WrongType",
    ),
    (
        "{\"series\":[{\"zone\":\"BE\",\"from\":\"2024-05-01T00:00:00Z\",\"to\":\"2024-05-02T00:00:00Z\"}]}",
        "glsk series[0].blocks: Missing",
    ),
    (
        "{\"series\":[{\"zone\":\"be\"}]}",
        "glsk zones[0]: NoSeries",
    ),
    (
        "{\"series\":[{\"zone\":\"BE\",\"from\":\"2024-05-01T00:00:00Z\",\"to\":\"2024-05-01T10:30:00Z\",\"blocks\":1}]}",
        "glsk zones[0]: NoSeries",
    ),
    (
        "{\"series\":[{\"zone\":\"BE\",\"from\":\"2024-05-01T10:30:00.000000001Z\",\"to\":\"2024-05-02T00:00:00Z\",\"blocks\":1}]}",
        "glsk zones[0]: NoSeries",
    ),
    (
        "{\"series\":[{\"zone\":\"BE\",\"from\":\"2024-05-01T12:30:00+02:00\",\"to\":\"2024-05-01T12:30:00.000000001+02\",\"blocks\":1}]}",
        "glsk series[0].blocks: WrongType",
    ),
    (
        "{\"series\":[{\"zone\":\"BE\",\"from\":\"2024-05-01 05:00-05:30\",\"to\":\"20240501T103001Z\",\"blocks\":1}]}",
        "glsk series[0].blocks: WrongType",
    ),
    (
        "{\"series\":[{\"zone\":\"BE\",\"from\":\"2024-05-01T00:00:00Z\",\"to\":\"2024-05-02T00:00:00Z\",\"blocks\":[{\"business\":\"GSK\",\"share\":100,\"kind\":\"country\"}]},{\"zone\":\"BE\",\"from\":\"2024-04-01T00:00:00Z\",\"to\":\"2024-06-02T00:00:00Z\",\"blocks\":1}]}",
        "glsk series[1]: TwoSeries",
    ),
    (
        "{\"series\":[{\"zone\":\"BE\",\"from\":\"2024-05-01T00:00:00Z\",\"to\":\"2024-05-02T00:00:00Z\",\"blocks\":[{\"business\":\"GSK\",\"share\":100,\"kind\":\"country\"}]},{\"zone\":\"BE\",\"from\":\"2024-04-01T00:00:00Z\",\"to\":\"2024-05-01T00:00:00Z\",\"blocks\":1}]}",
        "glsk zones[1]: NoSeries",
    ),
];

/// Documents, and the end of the record of the line from the first Belgian node: what it takes of an export of Belgium.
const KEYS: [(&str, &str); 7] = [
    (
        "{\"series\":[{\"zone\":\"BE\",\"from\":\"2024-05-01T00:00:00Z\",\"to\":\"2024-05-02T00:00:00Z\",\"blocks\":[{\"business\":\"GSK\",\"share\":100,\"kind\":\"country\"}]},{\"zone\":\"NL\",\"from\":\"2024-05-01T00:00:00Z\",\"to\":\"2024-05-02T00:00:00Z\",\"blocks\":[{\"business\":\"GSK\",\"share\":100,\"kind\":\"country\"}]}]}",
        ",500000000000,0,,\n",
    ),
    (
        "{\"series\":[{\"zone\":\"BE\",\"from\":\"2024-05-01T00:00:00Z\",\"to\":\"2024-05-02T00:00:00Z\",\"blocks\":[{\"business\":\"GSK\",\"share\":100,\"kind\":\"proportional\"}]},{\"zone\":\"NL\",\"from\":\"2024-05-01T00:00:00Z\",\"to\":\"2024-05-02T00:00:00Z\",\"blocks\":[{\"business\":\"GSK\",\"share\":100,\"kind\":\"country\"}]}]}",
        ",1000000000000,0,,\n",
    ),
    (
        "{\"series\":[{\"zone\":\"BE\",\"from\":\"2024-05-01T00:00:00Z\",\"to\":\"2024-05-02T00:00:00Z\",\"blocks\":[{\"business\":\"LSK\",\"share\":1e2,\"kind\":\"proportional\"}]},{\"zone\":\"NL\",\"from\":\"2024-05-01T00:00:00Z\",\"to\":\"2024-05-02T00:00:00Z\",\"blocks\":[{\"business\":\"GSK\",\"share\":100,\"kind\":\"country\"}]}]}",
        ",666666666666,0,,\n",
    ),
    (
        "{\"series\":[{\"zone\":\"BE\",\"from\":\"2024-05-01T00:00:00Z\",\"to\":\"2024-05-02T00:00:00Z\",\"blocks\":[{\"business\":\"LSK\",\"share\":100,\"kind\":\"proportional\",\"nodes\":[\"BBE2AA1\",\"BBE2AA1 \"]}]},{\"zone\":\"NL\",\"from\":\"2024-05-01T00:00:00Z\",\"to\":\"2024-05-02T00:00:00Z\",\"blocks\":[{\"business\":\"GSK\",\"share\":100,\"kind\":\"country\"}]}]}",
        ",0,0,,\n",
    ),
    (
        "{\"series\":[{\"zone\":\"BE\",\"from\":\"2024-05-01T00:00:00Z\",\"to\":\"2024-05-02T00:00:00Z\",\"blocks\":[{\"business\":\"GSK\",\"share\":100,\"kind\":\"manual\",\"nodes\":[{\"node\":\"BBE1AA1\",\"factor\":0.25},{\"node\":\"BBE2AA1\",\"factor\":0.5},{\"node\":\"BBE1AA1\",\"factor\":0.25}]}]},{\"zone\":\"NL\",\"from\":\"2024-05-01T00:00:00Z\",\"to\":\"2024-05-02T00:00:00Z\",\"blocks\":[{\"business\":\"GSK\",\"share\":100,\"kind\":\"country\"}]}]}",
        ",500000000000,0,,\n",
    ),
    (
        "{\"series\":[{\"zone\":\"BE\",\"from\":\"2024-05-01T00:00:00Z\",\"to\":\"2024-05-02T00:00:00Z\",\"blocks\":[{\"business\":\"GSK\",\"share\":100,\"kind\":\"manual\",\"nodes\":[{\"node\":\"BBE1AA1\",\"factor\":0.100001},{\"node\":\"BBE2AA1\",\"factor\":0}]}]},{\"zone\":\"NL\",\"from\":\"2024-05-01T00:00:00Z\",\"to\":\"2024-05-02T00:00:00Z\",\"blocks\":[{\"business\":\"GSK\",\"share\":100,\"kind\":\"country\"}]}]}",
        ",1000000000000,0,,\n",
    ),
    (
        "{\"series\":[{\"zone\":\"BE\",\"from\":\"2024-05-01T00:00:00Z\",\"to\":\"2024-05-02T00:00:00Z\",\"blocks\":[{\"business\":\"GSK\",\"share\":70.5,\"kind\":\"country\"},{\"business\":\"LSK\",\"share\":29.5,\"kind\":\"proportional\"}]},{\"zone\":\"NL\",\"from\":\"2024-05-01T00:00:00Z\",\"to\":\"2024-05-02T00:00:00Z\",\"blocks\":[{\"business\":\"GSK\",\"share\":100,\"kind\":\"country\"}]}]}",
        ",549166666666,0,,\n",
    ),
];

/// What `domain` answers with a GLSK document.
fn answer<R: Threads + Sync + AllocGlobal>(rt: &R, document: &str) -> Result<Answer, AllocError> {
    let mut shelf = MemShelf::new(rt.alloc());
    shelf.add("grid.uct", GRID.as_bytes())?;
    shelf.add("crac.json", CRAC.as_bytes())?;
    shelf.add("settings.json", SETTINGS.as_bytes())?;
    shelf.add("glsk.json", document.as_bytes())?;
    call(rt, DOMAIN, &mut shelf)
}

#[test]
fn keys_are_read(rt: HostRuntime) -> Result<(), AllocError> {
    for (document, line) in FAULTS {
        let answer = answer(&rt, document)?;
        let line = format!(in rt.alloc(); "{line}\n")?;
        assert_eq!(rt; answer.outcome.status, 8, "{document}");
        assert_eq!(rt; answer.err.bytes(), line.as_bytes(), "{document}");
    }
    for (document, end) in KEYS {
        let answer = answer(&rt, document)?;
        assert_eq!(rt; answer.outcome.status, 0, "{document}");
        assert!(rt; answer.out.bytes().ends_with(end.as_bytes()), "{document}");
    }
    Ok(())
}

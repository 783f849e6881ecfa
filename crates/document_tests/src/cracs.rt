//! CRAC documents by the command `domain`: the first fault of each, and the limits that thresholds make.

use std::alloc::{AllocError, Global};
use test_calls::calls::{DOMAIN, call};
use test_calls::documents::shelf_of;

/// A tie line, a line, a line with a blank order code, and two open couplers.
const NAMED: &str =
    "##N\n##ZBE\nBBE1AA1  BE1          0 3\n##ZXX\nXBENL11  X1           0 0\n##ZNL\nNNL1AA1  NL1          0 0\n##L\nBBE1AA1  XBENL11  1 0 0.0000 7.2200\nXBENL11  NNL1AA1  1 0 0.0000 7.2200\nBBE1AA1  NNL1AA1  1 0 0.0000 14.440\nBBE1AA1  NNL1AA1    0 0.0000 14.440\nBBE1AA1  NNL1AA1  9 7\nXBENL11  NNL1AA1  9 7\n";

/// A transformer from 380 kV to 220 kV of 10^7 kW/rad, with a current limit of 2000 A.
const TRANSFORMER: &str =
    "##N\n##ZBE\nBBE1AA1  BE1          0 3\n##ZNL\nNNL1AA2  NL1          0 0\n##T\nBBE1AA1  NNL1AA2  1 0 380.0 220.0              14.440                   2000\n";

/// Documents over the named branches, each check with a fault of the next behind it, and their fault lines without line
/// ends.
const FAULTS: [(&str, &str); 44] = [
    ("3", "crac : WrongType"),
    ("[]", "crac : WrongType"),
    ("{\"instants\":3}", "crac type: Missing"),
    ("{\"type\":null}", "crac type: Missing"),
    ("{\"type\":\"crac\",\"instants\":3}", "crac type: WrongType"),
    (
        "{\"type\":\"CRAC\",\"instants\":{},\"contingencies\":3}",
        "crac instants: WrongType",
    ),
    (
        "{\"type\":\"CRAC\",\"instants\":[{\"id\":\"a\",\"kind\":\"AUTO\"},{\"id\":\"a\",\"kind\":3}]}",
        "crac instants[1].id: DuplicateId",
    ),
    (
        "{\"type\":\"CRAC\",\"instants\":[{\"id\":\"a\",\"kind\":\"auto\"}]}",
        "crac instants[0].kind: WrongType",
    ),
    (
        "{\"type\":\"CRAC\",\"contingencies\":[{\"networkElementsIds\":3}]}",
        "crac contingencies[0].id: Missing",
    ),
    (
        "{\"type\":\"CRAC\",\"contingencies\":[{\"id\":\"o\",\"networkElementsIds\":[]},{\"id\":\"o\",\"networkElementsIds\":3}]}",
        "crac contingencies[1].id: DuplicateId",
    ),
    (
        "{\"type\":\"CRAC\",\"contingencies\":[{\"id\":\"o\",\"networkElementsIds\":[\"BBE1AA1  NNL1AA1\",3,\"Z\"]}]}",
        "crac contingencies[0].networkElementsIds[1]: WrongType",
    ),
    (
        "{\"type\":\"CRAC\",\"contingencies\":[{\"id\":\"o\",\"networkElementsIds\":[\"Z\",3]}]}",
        "crac contingencies[0].networkElementsIds[0]: UnknownElement",
    ),
    (
        "{\"type\":\"CRAC\",\"contingencies\":[]}",
        "crac flowCnecs: Missing",
    ),
    (
        "{\"type\":\"CRAC\",\"flowCnecs\":[3]}",
        "crac flowCnecs[0]: WrongType",
    ),
    (
        "{\"type\":3,\"type\":\"CRAC\",\"instants\":null,\"contingencies\":3,\"contingencies\":null,\"flowCnecs\":3}",
        "crac flowCnecs: WrongType",
    ),
    (
        "{\"type\":\"CRAC\",\"contingencies\":[{\"id\":\"o\",\"networkElementsIds\":[\"BBE1AA1  XBENL11  1 +  XBENL11  NNL1AA1  1\"]}]}",
        "crac contingencies[0].networkElementsIds[0]: UnknownElement",
    ),
    (
        "{\"type\":\"CRAC\",\"contingencies\":[{\"id\":\"o\",\"networkElementsIds\":[\"BBE1AA1  NNL1AA1 + BBE1AA1  NNL1AA1  1\"]}]}",
        "crac contingencies[0].networkElementsIds[0]: UnknownElement",
    ),
    (
        "{\"type\":\"CRAC\",\"contingencies\":[{\"id\":\"o\",\"networkElementsIds\":[\"BBE1AA1  NNL1AA1  1 + BBE1AA1  NNL1AA1   \"]}]}",
        "crac contingencies[0].networkElementsIds[0]: UnknownElement",
    ),
    (
        "{\"type\":\"CRAC\",\"contingencies\":[{\"id\":\"o\",\"networkElementsIds\":[\"BBE1AA1  XBENL11  1 + XBENL11  NNL1AA1  9\"]}]}",
        "crac contingencies[0].networkElementsIds[0]: UnknownElement",
    ),
    (
        "{\"type\":\"CRAC\",\"contingencies\":[{\"id\":\"o\",\"networkElementsIds\":[\"BBE1AA1  XBENL11  1 + BBE1AA1  XBENL11  1\"]}]}",
        "crac contingencies[0].networkElementsIds[0]: UnknownElement",
    ),
    (
        "{\"type\":\"CRAC\",\"contingencies\":[{\"id\":\"o\",\"networkElementsIds\":[]}],\"flowCnecs\":[{\"id\":3},{\"optimized\":\"True\"},{\"optimized\":\"true\",\"id\":3,\"networkElementId\":3}]}",
        "crac flowCnecs[2].id: WrongType",
    ),
    (
        "{\"type\":\"CRAC\",\"contingencies\":[{\"id\":\"o\",\"networkElementsIds\":[]}],\"flowCnecs\":[{\"optimized\":true,\"id\":\"e\",\"instant\":3}]}",
        "crac flowCnecs[0].networkElementId: Missing",
    ),
    (
        "{\"type\":\"CRAC\",\"contingencies\":[{\"id\":\"o\",\"networkElementsIds\":[]}],\"flowCnecs\":[{\"optimized\":true,\"id\":\"e\",\"networkElementId\":\"Z\",\"instant\":3}]}",
        "crac flowCnecs[0].networkElementId: UnknownElement",
    ),
    (
        "{\"type\":\"CRAC\",\"contingencies\":[{\"id\":\"o\",\"networkElementsIds\":[]}],\"flowCnecs\":[{\"optimized\":true,\"id\":\"e\",\"networkElementId\":\"BBE1AA1  NNL1AA1  9\",\"instant\":3}]}",
        "crac flowCnecs[0].networkElementId: CouplerMonitored",
    ),
    (
        "{\"type\":\"CRAC\",\"contingencies\":[{\"id\":\"o\",\"networkElementsIds\":[]}],\"flowCnecs\":[{\"optimized\":true,\"id\":\"e\",\"networkElementId\":\"BBE1AA1  NNL1AA1\",\"instant\":\"PREVENTIVE\",\"contingencyId\":3}]}",
        "crac flowCnecs[0].instant: UnknownInstant",
    ),
    (
        "{\"type\":\"CRAC\",\"contingencies\":[{\"id\":\"o\",\"networkElementsIds\":[]}],\"flowCnecs\":[{\"optimized\":true,\"id\":\"e\",\"networkElementId\":\"BBE1AA1  NNL1AA1\",\"instant\":\"preventive\",\"contingencyId\":\"o\",\"frm\":\"x\"}]}",
        "crac flowCnecs[0].contingencyId: WrongType",
    ),
    (
        "{\"type\":\"CRAC\",\"contingencies\":[{\"id\":\"o\",\"networkElementsIds\":[]}],\"flowCnecs\":[{\"optimized\":true,\"id\":\"e\",\"networkElementId\":\"BBE1AA1  NNL1AA1\",\"instant\":\"curative\",\"frm\":\"x\"}]}",
        "crac flowCnecs[0].contingencyId: Missing",
    ),
    (
        "{\"type\":\"CRAC\",\"contingencies\":[{\"id\":\"o\",\"networkElementsIds\":[]}],\"flowCnecs\":[{\"optimized\":true,\"id\":\"e\",\"networkElementId\":\"BBE1AA1  NNL1AA1\",\"instant\":\"outage\",\"contingencyId\":\"p\",\"frm\":\"x\"}]}",
        "crac flowCnecs[0].contingencyId: UnknownContingency",
    ),
    (
        "{\"type\":\"CRAC\",\"contingencies\":[{\"id\":\"o\",\"networkElementsIds\":[]}],\"flowCnecs\":[{\"optimized\":true,\"id\":\"e\",\"networkElementId\":\"BBE1AA1  NNL1AA1\",\"instant\":\"outage\",\"contingencyId\":\"o\",\"frm\":\"x\",\"reliabilityMargin\":\"x\"}]}",
        "crac flowCnecs[0]: BothMargins",
    ),
    (
        "{\"type\":\"CRAC\",\"contingencies\":[{\"id\":\"o\",\"networkElementsIds\":[]}],\"flowCnecs\":[{\"optimized\":true,\"id\":\"e\",\"networkElementId\":\"BBE1AA1  NNL1AA1\",\"instant\":\"preventive\",\"reliabilityMargin\":-0.000001,\"iMax\":\"x\"}]}",
        "crac flowCnecs[0].reliabilityMargin: OutOfRange",
    ),
    (
        "{\"type\":\"CRAC\",\"contingencies\":[{\"id\":\"o\",\"networkElementsIds\":[]}],\"flowCnecs\":[{\"optimized\":true,\"id\":\"e\",\"networkElementId\":\"BBE1AA1  NNL1AA1\",\"instant\":\"preventive\",\"iMax\":[],\"nominalV\":3000}]}",
        "crac flowCnecs[0].iMax: WrongType",
    ),
    (
        "{\"type\":\"CRAC\",\"contingencies\":[{\"id\":\"o\",\"networkElementsIds\":[]}],\"flowCnecs\":[{\"optimized\":true,\"id\":\"e\",\"networkElementId\":\"BBE1AA1  NNL1AA1\",\"instant\":\"preventive\",\"iMax\":[1000000,null]}]}",
        "crac flowCnecs[0].iMax[1]: WrongType",
    ),
    (
        "{\"type\":\"CRAC\",\"contingencies\":[{\"id\":\"o\",\"networkElementsIds\":[]}],\"flowCnecs\":[{\"optimized\":true,\"id\":\"e\",\"networkElementId\":\"BBE1AA1  NNL1AA1\",\"instant\":\"preventive\",\"nominalV\":[1000,1000.000001]}]}",
        "crac flowCnecs[0].nominalV[1]: OutOfRange",
    ),
    (
        "{\"type\":\"CRAC\",\"contingencies\":[{\"id\":\"o\",\"networkElementsIds\":[]}],\"flowCnecs\":[{\"optimized\":true,\"id\":\"e\",\"networkElementId\":\"BBE1AA1  NNL1AA1\",\"instant\":\"preventive\",\"nominalV\":0.000999}]}",
        "crac flowCnecs[0].nominalV: OutOfRange",
    ),
    (
        "{\"type\":\"CRAC\",\"contingencies\":[{\"id\":\"o\",\"networkElementsIds\":[]}],\"flowCnecs\":[{\"optimized\":true,\"id\":\"e\",\"networkElementId\":\"BBE1AA1  NNL1AA1\",\"instant\":\"preventive\"}]}",
        "crac flowCnecs[0].thresholds: Missing",
    ),
    (
        "{\"type\":\"CRAC\",\"contingencies\":[{\"id\":\"o\",\"networkElementsIds\":[]}],\"flowCnecs\":[{\"optimized\":true,\"id\":\"e\",\"networkElementId\":\"BBE1AA1  NNL1AA1\",\"instant\":\"preventive\",\"thresholds\":[{\"unit\":\"megawatt\",\"max\":1.5E3}]},{\"optimized\":true,\"id\":\"e\",\"networkElementId\":3}]}",
        "crac flowCnecs[1].id: DuplicateId",
    ),
    (
        "{\"type\":\"CRAC\",\"contingencies\":[{\"id\":\"o\",\"networkElementsIds\":[]}],\"flowCnecs\":[{\"optimized\":true,\"id\":\"e\",\"networkElementId\":\"BBE1AA1  NNL1AA1\",\"instant\":\"preventive\",\"thresholds\":[{\"side\":3}]}]}",
        "crac flowCnecs[0].thresholds[0].unit: Missing",
    ),
    (
        "{\"type\":\"CRAC\",\"contingencies\":[{\"id\":\"o\",\"networkElementsIds\":[]}],\"flowCnecs\":[{\"optimized\":true,\"id\":\"e\",\"networkElementId\":\"BBE1AA1  NNL1AA1\",\"instant\":\"preventive\",\"thresholds\":[{\"unit\":\"MEGAWATT\",\"side\":3}]}]}",
        "crac flowCnecs[0].thresholds[0].unit: WrongType",
    ),
    (
        "{\"type\":\"CRAC\",\"contingencies\":[{\"id\":\"o\",\"networkElementsIds\":[]}],\"flowCnecs\":[{\"optimized\":true,\"id\":\"e\",\"networkElementId\":\"BBE1AA1  NNL1AA1\",\"instant\":\"preventive\",\"thresholds\":[{\"unit\":\"megawatt\",\"side\":\"1\"}]}]}",
        "crac flowCnecs[0].thresholds[0].side: WrongType",
    ),
    (
        "{\"type\":\"CRAC\",\"contingencies\":[{\"id\":\"o\",\"networkElementsIds\":[]}],\"flowCnecs\":[{\"optimized\":true,\"id\":\"e\",\"networkElementId\":\"BBE1AA1  NNL1AA1\",\"instant\":\"preventive\",\"thresholds\":[{\"unit\":\"megawatt\",\"min\":-1000000000.000001,\"max\":\"x\"}]}]}",
        "crac flowCnecs[0].thresholds[0].min: OutOfRange",
    ),
    (
        "{\"type\":\"CRAC\",\"contingencies\":[{\"id\":\"o\",\"networkElementsIds\":[]}],\"flowCnecs\":[{\"optimized\":true,\"id\":\"e\",\"networkElementId\":\"BBE1AA1  NNL1AA1\",\"instant\":\"preventive\",\"thresholds\":[{\"unit\":\"megawatt\",\"min\":500,\"max\":\"x\"}]}]}",
        "crac flowCnecs[0].thresholds[0].max: WrongType",
    ),
    (
        "{\"type\":\"CRAC\",\"contingencies\":[{\"id\":\"o\",\"networkElementsIds\":[]}],\"flowCnecs\":[{\"optimized\":true,\"id\":\"e\",\"networkElementId\":\"BBE1AA1  NNL1AA1\",\"instant\":\"preventive\",\"thresholds\":[{\"unit\":\"percent_imax\",\"max\":-1}]}]}",
        "crac flowCnecs[0].thresholds[0]: NoCurrent",
    ),
    (
        "{\"type\":\"CRAC\",\"contingencies\":[{\"id\":\"o\",\"networkElementsIds\":[]}],\"flowCnecs\":[{\"optimized\":true,\"id\":\"e\",\"networkElementId\":\"BBE1AA1  NNL1AA1\",\"instant\":\"preventive\",\"thresholds\":[{\"unit\":\"megawatt\",\"max\":0.0000019},{\"unit\":\"megawatt\",\"max\":0.0000009}]}]}",
        "crac flowCnecs[0].thresholds[1]: LimitNotPositive",
    ),
    (
        "{\"type\":\"CRAC\",\"contingencies\":[{\"id\":\"o\",\"networkElementsIds\":[]}],\"flowCnecs\":[{\"optimized\":true,\"id\":\"e\",\"networkElementId\":\"BBE1AA1  NNL1AA1\",\"instant\":\"preventive\",\"thresholds\":[{\"unit\":\"percent_imax\"},{\"unit\":\"ampere\"}]}]}",
        "crac flowCnecs[0]: NoLimit",
    ),
];

/// Members of an element on the transformer, and its limits in watts in the directions DIRECT and OPPOSITE, 0 where
/// there is none.
const LIMITS: [(&str, i64, i64); 12] = [
    (
        "\"thresholds\":[{\"unit\":\"megawatt\",\"max\":1.5E3}]",
        1_500_000_000,
        0,
    ),
    (
        "\"thresholds\":[{\"unit\":\"megawatt\",\"max\":1e9,\"min\":-100000.1}]",
        100_000_000_000,
        100_000_000_000,
    ),
    (
        "\"thresholds\":[{\"unit\":\"megawatt\",\"max\":3,\"min\":-5},{\"unit\":\"megawatt\",\"max\":2,\"min\":-6},{\"unit\":\"megawatt\",\"max\":4}]",
        2_000_000,
        5_000_000,
    ),
    (
        "\"frm\":100,\"thresholds\":[{\"unit\":\"megawatt\",\"max\":1000}]",
        900_000_000,
        0,
    ),
    (
        "\"thresholds\":[{\"unit\":\"ampere\",\"max\":1000,\"side\":1.0},{\"unit\":\"ampere\",\"min\":-1000,\"side\":2e0}]",
        658_179_306,
        381_051_177,
    ),
    (
        "\"thresholds\":[{\"unit\":\"ampere\",\"max\":1000},{\"unit\":\"ampere\",\"min\":-1000,\"side\":\"right\"}]",
        658_179_306,
        381_051_177,
    ),
    (
        "\"nominalV\":[400,225],\"thresholds\":[{\"unit\":\"ampere\",\"max\":1000,\"side\":\"left\"},{\"unit\":\"ampere\",\"min\":-1000,\"side\":2}]",
        692_820_323,
        389_711_431,
    ),
    (
        "\"thresholds\":[{\"unit\":\"ampere\",\"max\":1e9}]",
        100_000_000_000,
        0,
    ),
    (
        "\"nominalV\":0.578,\"thresholds\":[{\"unit\":\"ampere\",\"max\":0.001}]",
        1,
        0,
    ),
    (
        "\"iMax\":1000,\"thresholds\":[{\"unit\":\"percent_imax\",\"max\":0.8,\"min\":-1}]",
        526_543_445,
        658_179_306,
    ),
    (
        "\"thresholds\":[{\"unit\":\"percent_imax\",\"max\":0.8,\"min\":-1}]",
        1_053_086_891,
        1_316_358_613,
    ),
    (
        "\"iMax\":[1000,500],\"thresholds\":[{\"unit\":\"percent_imax\",\"max\":1},{\"unit\":\"percent_imax\",\"min\":-1,\"side\":2}]",
        658_179_306,
        190_525_588,
    ),
];

#[test]
fn cracs_are_refused(rt: HostRuntime) -> Result<(), AllocError> {
    for (document, line) in FAULTS {
        let mut shelf = shelf_of(rt.alloc(), NAMED, document)?;
        let answer = call(&rt, DOMAIN, &mut shelf)?;
        let line = format!(in rt.alloc(); "{line}\n")?;
        assert_eq!(rt; answer.outcome.status, 7, "{document}");
        assert_eq!(rt; answer.err.bytes(), line.as_bytes(), "{document}");
    }
    Ok(())
}

/// What is told of a row in each list, and the multipliers that prove it: a row of 1000 MW or more follows from the
/// box, by the least multiplier of the balance that serves.
fn fate_of(limit: i64, least: &'static str) -> (&'static str, &'static str) {
    if limit >= 1_000_000_000 {
        ("REMOVED", least)
    } else {
        ("KEPT", "")
    }
}

/// The records of an element with these limits.
fn records(alloc: Global, direct: i64, opposite: i64) -> Result<String, AllocError> {
    let mut text = String::from_str(
        alloc,
        "row,element,instant,contingency,direction,class,inner,outer,r_in,r_out,gap,a:BE,a:NL,inner_by,outer_by\n",
    )?;
    let (fate, by) = fate_of(direct, "-1000000000000000000000");
    write!(
        text,
        "1,e,preventive,,DIRECT,CERTAIN,{fate},{fate},{direct},{direct},0,0,-1000000000000,{by},{by}\n"
    )?;
    if opposite > 0 {
        let (fate, by) = fate_of(opposite, "0");
        write!(
            text,
            "2,e,preventive,,OPPOSITE,CERTAIN,{fate},{fate},{opposite},{opposite},0,0,1000000000000,{by},{by}\n"
        )?;
    }
    Ok(text)
}

#[test]
fn thresholds_make_limits(rt: HostRuntime) -> Result<(), AllocError> {
    for (members, direct, opposite) in LIMITS {
        let crac = format!(in rt.alloc();
            "{{\"type\":\"CRAC\",\"flowCnecs\":[{{\"optimized\":true,\"id\":\"e\",\"instant\":\"preventive\",\"networkElementId\":\"BBE1AA1  NNL1AA2  1\",{members}}}]}}"
        )?;
        let mut shelf = shelf_of(rt.alloc(), TRANSFORMER, crac.as_str())?;
        let answer = call(&rt, DOMAIN, &mut shelf)?;
        let text = records(rt.alloc(), direct, opposite)?;
        assert_eq!(rt; answer.out.bytes(), text.as_bytes(), "{members}");
    }
    Ok(())
}

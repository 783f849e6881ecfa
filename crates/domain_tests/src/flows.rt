//! Margins and phase shifts by the command `domain`, worked out by hand.

use fb_base::MemShelf;
use std::alloc::{AllocError, Global};
use std::thread::Threads;
use test_calls::calls::{Answer, DOMAIN, REDUCED, call};

/// The reactance of a transformer and of a line beside it, the regulation of the transformer in columns 41 to 68, and
/// the right sides and the gap of the transformer in both directions. At 0.1444 ohm, 10^9 kW/rad, a shift of 10^-12 rad
/// drives 0.5 W round, and a tenth of that at ten times as much. Of the limit of 500 MW 350 MW are to remain for trade.
/// With one zone each row follows from the box.
const SHIFTS: [(&str, &str, &str, &str); 15] = [
    (
        "0.1444",
        "1.00 90.00 10   5       ASYM",
        "350000000,350000000,0",
        "25479197861,25479197862,1",
    ),
    (
        "0.1444",
        "1.00 90.00 10  -5       ASYM",
        "25479197861,25479197862,1",
        "350000000,350000000,0",
    ),
    (
        "0.1444",
        "-1.0 90.00 10   5       ASYM",
        "25479197861,25479197862,1",
        "350000000,350000000,0",
    ),
    (
        "0.1444",
        "1.00 -90.0 10   5       ASYM",
        "25479197861,25479197862,1",
        "350000000,350000000,0",
    ),
    (
        "0.1444",
        "1.25 60.00 20 -16       ASYM",
        "95562801673,95562801674,1",
        "350000000,350000000,0",
    ),
    (
        "0.1444",
        "1.25 120.0 20  16       ASYM",
        "350000000,350000000,0",
        "95562801673,95562801674,1",
    ),
    (
        "0.1444",
        "70.0 90.00 10   1       ASYM",
        "350000000,350000000,0",
        "305862982194,305862982194,0",
    ),
    (
        "0.1444",
        "100. 90.00 10   1       ASYM",
        "350000000,350000000,0",
        "393199081698,393199081699,1",
    ),
    (
        "1.4440",
        "20.0 100.0 10   7       ASYM",
        "350000000,350000000,0",
        "53936914879,53936914880,1",
    ),
    (
        "0.1444",
        "-2.0     0 20  12       SYMM",
        "119928926019,119928926019,0",
        "350000000,350000000,0",
    ),
    (
        "0.1444",
        "100.     0 10   1       SYMM",
        "350000000,350000000,0",
        "464147609000,464147609000,0",
    ),
    (
        "1.4440",
        "300.     0 10  -1       SYMM",
        "98779372324,98779372325,1",
        "350000000,350000000,0",
    ),
    (
        "1.4440",
        "10.0     x  0 999       SYMM",
        "350000000,350000000,0",
        "155577898081,155577898082,1",
    ),
    (
        "0.1444",
        "1.00   180 10   5       ASYM",
        "500000000,500000000,0",
        "500000000,500000000,0",
    ),
    (
        "0.1444",
        "20.0   180 10           ASYM",
        "500000000,500000000,0",
        "500000000,500000000,0",
    ),
];

/// A shelf with these documents.
fn shelf_of(
    alloc: Global,
    grid: &str,
    crac: &str,
    settings: &str,
    keys: &str,
) -> Result<MemShelf, AllocError> {
    let mut shelf = MemShelf::new(alloc);
    shelf.add("grid.uct", grid.as_bytes())?;
    shelf.add("crac.json", crac.as_bytes())?;
    shelf.add("settings.json", settings.as_bytes())?;
    shelf.add("glsk.json", keys.as_bytes())?;
    Ok(shelf)
}

const CRAC_OF_ONE: &str =
    "{\"type\":\"CRAC\",\"flowCnecs\":[{\"id\":\"c1\",\"networkElementId\":\"BBE1AA1  BBE2AA1  2\",\"instant\":\"preventive\",\"optimized\":true,\"thresholds\":[{\"unit\":\"megawatt\",\"min\":-500,\"max\":500}]}]}";

const ONE: &str =
    "{\"moment\":\"2024-05-01T10:30:00Z\",\"thresholdPermille\":0,\"zones\":[{\"id\":\"BE\",\"min\":-1000,\"max\":1000}]}";

const KEYS_OF_ONE: &str =
    "{\"series\":[{\"zone\":\"BE\",\"from\":\"2024-05-01T00:00:00Z\",\"to\":\"2024-05-02T00:00:00Z\",\"blocks\":[{\"business\":\"GSK\",\"share\":100,\"kind\":\"country\"}]}]}";

#[test]
fn flows_are_driven(rt: HostRuntime) -> Result<(), AllocError> {
    for (reactance, regulation, direct, opposite) in SHIFTS {
        let grid = format!(in rt.alloc();
            "##N\n##ZBE\nBBE1AA1  BE1          0 3\nBBE2AA1  BE2          0 0\n##L\nBBE1AA1  BBE2AA1  1 0 0.0000 {reactance}\n##T\nBBE1AA1  BBE2AA1  2 0 380.0 380.0              {reactance}\n##R\nBBE1AA1  BBE2AA1  2                     {regulation}\n"
        )?;
        let mut shelf = shelf_of(rt.alloc(), grid.as_str(), CRAC_OF_ONE, ONE, KEYS_OF_ONE)?;
        let answer = call(&rt, DOMAIN, &mut shelf)?;
        let records = format!(in rt.alloc();
            "\n1,c1,preventive,,DIRECT,CERTAIN,REMOVED,REMOVED,{direct},-250000000000,-250000000000000000000,-250000000000000000000\n2,c1,preventive,,OPPOSITE,CERTAIN,REMOVED,REMOVED,{opposite},250000000000,250000000000000000000,250000000000000000000\n"
        )?;
        assert!(rt;
            answer.out.bytes().ends_with(records.as_bytes()),
            "{regulation}"
        );
    }
    Ok(())
}

/// What a zone outside Core sends to another through the line, what a node of no zone sends beside it, and both
/// reductions, all in MW; and the right sides and the gap at a limit of 1000 MW and a reliability margin of 50 MW,
/// where angles are exact and where they are not.
const MARGINS: [(&str, &str, &str, [&str; 2]); 4] = [
    (
        "600",
        "0",
        "0,0",
        ["350000000,350000000,0", "349999999,350000001,2"],
    ),
    (
        "600",
        "250",
        "0,0",
        ["200000000,200000000,0", "199999999,200000001,2"],
    ),
    (
        "300",
        "300",
        "0,0",
        ["400000000,400000000,0", "399999999,400000001,2"],
    ),
    (
        "300",
        "300",
        "10,20",
        ["370000000,370000000,0", "369999999,370000001,2"],
    ),
];

const CRAC_OF_TWO: &str =
    "{\"type\":\"CRAC\",\"flowCnecs\":[{\"id\":\"c1\",\"networkElementId\":\"BBE1AA1  NNL1AA1  1\",\"instant\":\"preventive\",\"optimized\":true,\"frm\":50,\"thresholds\":[{\"unit\":\"megawatt\",\"max\":1000}]}]}";

const TWO: &str =
    "{\"moment\":\"2024-05-01T10:30:00Z\",\"zones\":[{\"id\":\"BE\",\"min\":-1000,\"max\":1000},{\"id\":\"NL\",\"min\":-1000,\"max\":1000},{\"id\":\"FR\",\"core\":false},{\"id\":\"DE\",\"core\":false}]}";

const KEYS_OF_TWO: &str =
    "{\"series\":[{\"zone\":\"BE\",\"from\":\"2024-05-01T00:00:00Z\",\"to\":\"2024-05-02T00:00:00Z\",\"blocks\":[{\"business\":\"GSK\",\"share\":100,\"kind\":\"country\"}]},{\"zone\":\"NL\",\"from\":\"2024-05-01T00:00:00Z\",\"to\":\"2024-05-02T00:00:00Z\",\"blocks\":[{\"business\":\"GSK\",\"share\":100,\"kind\":\"country\"}]}]}";

/// What `domain` answers of a line that carries these exchanges.
fn margin<R: Threads + Sync + AllocGlobal>(
    rt: &R,
    outside: &str,
    beside: &str,
    reductions: &str,
) -> Result<Answer, AllocError> {
    let alloc = rt.alloc();
    let grid = format!(in alloc;
        "##N\n##ZBE\nBBE1AA1  BE1          0 3\n##ZNL\nNNL1AA1  NL1          0 0\n##ZFR\nFFR1AA1  FR1          0 0           0.00         -{outside}\n##ZDE\nDDE1AA1  DE1          0 0           {outside}\n##ZGB\nGGB1AA1  GB1          0 0           0.00         -{beside}\nGGB2AA1  GB2          0 0           {beside}\n##L\nFFR1AA1  BBE1AA1  1 0 0.0000 14.440\nGGB1AA1  BBE1AA1  1 0 0.0000 14.440\nBBE1AA1  NNL1AA1  1 0 0.0000 14.440\nNNL1AA1  DDE1AA1  1 0 0.0000 14.440\nNNL1AA1  GGB2AA1  1 0 0.0000 14.440\n"
    )?;
    let mut shelf = shelf_of(alloc, grid.as_str(), CRAC_OF_TWO, TWO, KEYS_OF_TWO)?;
    let document = format!(in alloc; "element,direction,cva,iva\nc1,DIRECT,{reductions}\n")?;
    shelf.add("reductions.csv", document.as_bytes())?;
    call(rt, REDUCED, &mut shelf)
}

#[test]
fn margins_are_adjusted(rt: HostRuntime) -> Result<(), AllocError> {
    for (outside, beside, reductions, sides) in MARGINS {
        let answer = margin(&rt, outside, beside, reductions)?;
        let exact = format!(in rt.alloc(); ",KEPT,{},0,-1000000000000,,\n", sides[0])?;
        let near = format!(in rt.alloc(); ",KEPT,{},0,-1000000000000,,\n", sides[1])?;
        let out = answer.out.bytes();
        assert!(rt;
            out.ends_with(exact.as_bytes()) || out.ends_with(near.as_bytes()),
            "{outside}, {beside}, {reductions}"
        );
    }
    Ok(())
}

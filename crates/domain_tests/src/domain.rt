//! The command `domain`: tables that were worked out by hand, states that are refused, and words.

use fb_base::MemShelf;
use fbcc_core::Fault;
use std::alloc::{AllocError, Global};
use std::test::Fail;
use test_calls::calls::{Answer, DOMAIN, REDUCED, call};
use test_calls::documents::two_nodes;

// ---- Grids: Belgium at the slack node, the Netherlands, and France.

const BE: &str =
    "##C 2007.05.01\n##N\n##ZBE\nBBE1AA1  BE1          0 3 380.00    0.00    0.00    0.00\n";

const BE_TWICE: &str =
    "##C 2007.05.01\n##N\n##ZBE\nBBE1AA1  BE1          0 3 380.00    0.00    0.00    0.00\nBBE1AB1  BE2          0 0 380.00    0.00    0.00    0.00\n";

const NL: &str = "##ZNL\nNNL1AA1  NL1          0 0 380.00    0.00    0.00    0.00\n";

const FR: &str = "##ZFR\nFFR1AA1  FR1          0 0 380.00    0.00    0.00    0.00\n";

const LOADED_FR: &str = "##ZFR\nFFR1AA1  FR1          0 0 380.00   10.00    0.00    0.00\n";

const CROSSING: &str = "##ZXX\nXBENL11  X1           0 0 380.00    0.00    0.00    0.00\n";

/// A line of 10^7 kW/rad, between the first two nodes.
const LINE: &str = "##L\nBBE1AA1  NNL1AA1  1 0 0.0000 14.440 0.000000   2000\n";

const TRIANGLE: &str =
    "##L\nBBE1AA1  NNL1AA1  1 0 0.0000 14.440 0.000000   2000\nBBE1AA1  FFR1AA1  1 0 0.0000 14.440 0.000000   2000\nNNL1AA1  FFR1AA1  1 0 0.0000 14.440 0.000000   2000\n";

const CHAIN: &str =
    "##L\nBBE1AA1  NNL1AA1  1 0 0.0000 14.440 0.000000   2000\nNNL1AA1  FFR1AA1  1 0 0.0000 14.440 0.000000   2000\n";

const COUPLED: &str =
    "##L\nBBE1AA1  BBE1AB1  1 2\nBBE1AA1  NNL1AA1  1 0 0.0000 14.440 0.000000   2000\nBBE1AB1  NNL1AA1  1 0 0.0000 14.440 0.000000   2000\n";

const TIE: &str =
    "##L\nBBE1AA1  XBENL11  1 0 0.0000 7.2200 0.000000   2000\nXBENL11  NNL1AA1  1 0 0.0000 7.2200 0.000000   2000\nBBE1AA1  NNL1AA1  1 0 0.0000 14.440 0.000000   2000\n";

/// A reactance of 0, which is raised to 0.05 ohm: 2,888,000,000 kW/rad.
const FLOORED: &str = "##L\nBBE1AA1  NNL1AA1  1 0 0.0000 0.0000 0.000000   2000\n";

/// Two lines of which the second takes a twentieth: exactly by whole angles, and not.
const TWENTIETH: &str =
    "##L\nBBE1AA1  NNL1AA1  1 0 0.0000 7.6000 0.000000   2000\nBBE1AA1  NNL1AA1  2 0 0.0000 144.40 0.000000   2000\n";

const NEAR_TWENTIETH: &str =
    "##L\nBBE1AA1  NNL1AA1  1 0 0.0000 0.0500 0.000000   2000\nBBE1AA1  NNL1AA1  2 0 0.0000 0.9500 0.000000   2000\n";

/// A line and a transformer side by side, which shifts by 0.049958395723 rad.
const SHIFTED: &str =
    "##L\nBBE1AA1  BBE2AA1  1 0 0.0000 14.440 0.000000   2000\n##T\nBBE1AA1  BBE2AA1  2 0 380.0 380.0 500.0 0.0000 14.440 0.000000 0.0000   2000\n##R\nBBE1AA1  BBE2AA1  2                     1.00 90.00 10   5       ASYM\n";

const SECOND_BE: &str = "BBE2AA1  BE2          0 0 380.00    0.00    0.00    0.00\n";

/// The Dutch and the French node hang on a node that two lines join to Belgium.
const STAR: &str =
    "##ZXX\nXBENL11  X1           0 0 380.00    0.00    0.00    0.00\n##L\nXBENL11  NNL1AA1  1 0 0.0000 14.440 0.000000   2000\nXBENL11  FFR1AA1  1 0 0.0000 14.440 0.000000   2000\nBBE1AA1  XBENL11  1 0 0.0000 14.440 0.000000   2000\nBBE1AA1  XBENL11  2 0 0.0000 14.440 0.000000   2000\n";

/// A ring of Belgium and two further nodes, of 1, 6 and 2 lines. The Dutch node hangs on the first of these, the French
/// and the German one on the second. Of what flows to the first 0.4 come over the single line, of what flows to the
/// second 0.3.
const RING: &str =
    "##ZDE\nDDE1AA1  DE1          0 0 380.00    0.00    0.00    0.00\n##ZXX\nXBENL11  X1           0 0 380.00    0.00    0.00    0.00\nXBEFR11  X2           0 0 380.00    0.00    0.00    0.00\n##L\nXBENL11  NNL1AA1  1 0 0.0000 14.440 0.000000   2000\nXBEFR11  FFR1AA1  1 0 0.0000 14.440 0.000000   2000\nXBEFR11  DDE1AA1  1 0 0.0000 14.440 0.000000   2000\nBBE1AA1  XBENL11  1 0 0.0000 14.440 0.000000   2000\nXBENL11  XBEFR11  1 0 0.0000 14.440 0.000000   2000\nXBENL11  XBEFR11  2 0 0.0000 14.440 0.000000   2000\nXBENL11  XBEFR11  3 0 0.0000 14.440 0.000000   2000\nXBENL11  XBEFR11  4 0 0.0000 14.440 0.000000   2000\nXBENL11  XBEFR11  5 0 0.0000 14.440 0.000000   2000\nXBENL11  XBEFR11  6 0 0.0000 14.440 0.000000   2000\nBBE1AA1  XBEFR11  1 0 0.0000 14.440 0.000000   2000\nBBE1AA1  XBEFR11  2 0 0.0000 14.440 0.000000   2000\n";

// ---- Elements

const BASE: [&str; 3] = [
    "\"contingencies\":[],\"flowCnecs\":[",
    "{\"id\":\"c1\",\"networkElementId\":\"BBE1AA1  NNL1AA1  1\",\"instant\":\"preventive\",\"optimized\":true,\"thresholds\":[{\"unit\":\"megawatt\",\"min\":-500,\"max\":500}]}",
    "]}",
];

const ON_SECOND: [&str; 3] = [
    "\"contingencies\":[],\"flowCnecs\":[",
    "{\"id\":\"c1\",\"networkElementId\":\"BBE1AA1  NNL1AA1  2\",\"instant\":\"preventive\",\"optimized\":true,\"thresholds\":[{\"unit\":\"megawatt\",\"min\":-40,\"max\":40}]}",
    "]}",
];

const ON_BOTH: [&str; 3] = [
    "\"contingencies\":[],\"flowCnecs\":[",
    "{\"id\":\"c1\",\"networkElementId\":\"BBE1AA1  BBE2AA1  1\",\"instant\":\"preventive\",\"optimized\":true,\"thresholds\":[{\"unit\":\"megawatt\",\"min\":-500,\"max\":500}]},{\"id\":\"c2\",\"networkElementId\":\"BBE1AA1  BBE2AA1  2\",\"instant\":\"preventive\",\"optimized\":true,\"thresholds\":[{\"unit\":\"megawatt\",\"min\":-500,\"max\":500}]}",
    "]}",
];

const ON_TIE: [&str; 3] = [
    "\"contingencies\":[],\"flowCnecs\":[",
    "{\"id\":\"c1\",\"networkElementId\":\"BBE1AA1  XBENL11  1 + XBENL11  NNL1AA1  1\",\"instant\":\"preventive\",\"optimized\":true,\"thresholds\":[{\"unit\":\"megawatt\",\"max\":400}]}",
    "]}",
];

const ON_TURNED_TIE: [&str; 3] = [
    "\"contingencies\":[],\"flowCnecs\":[",
    "{\"id\":\"c1\",\"networkElementId\":\"XBENL11  NNL1AA1  1 + BBE1AA1  XBENL11  1\",\"instant\":\"preventive\",\"optimized\":true,\"thresholds\":[{\"unit\":\"megawatt\",\"max\":400}]}",
    "]}",
];

const AFTER_TIE: [&str; 3] = [
    "\"contingencies\":[{\"id\":\"co1\",\"networkElementsIds\":[\"BBE1AA1  XBENL11  1 + XBENL11  NNL1AA1  1\"]}],\"flowCnecs\":[",
    "{\"id\":\"c1\",\"networkElementId\":\"BBE1AA1  NNL1AA1  1\",\"instant\":\"outage\",\"contingencyId\":\"co1\",\"optimized\":true,\"thresholds\":[{\"unit\":\"megawatt\",\"max\":500}]}",
    "]}",
];

/// The first contingency is named by no element, so the second one makes state 1.
const AFTER_FRANCE: [&str; 3] = [
    "\"contingencies\":[{\"id\":\"co0\",\"networkElementsIds\":[\"BBE1AA1  NNL1AA1  1\"]},{\"id\":\"co1\",\"networkElementsIds\":[\"BBE1AA1  FFR1AA1  1\"]}],\"flowCnecs\":[",
    "{\"id\":\"c1\",\"networkElementId\":\"BBE1AA1  NNL1AA1  1\",\"instant\":\"outage\",\"contingencyId\":\"co1\",\"optimized\":true,\"thresholds\":[{\"unit\":\"megawatt\",\"max\":500}]}",
    "]}",
];

const AFTER_COUPLER: [&str; 3] = [
    "\"contingencies\":[{\"id\":\"co1\",\"networkElementsIds\":[\"BBE1AA1  BBE1AB1  1\"]}],\"flowCnecs\":[",
    "{\"id\":\"c1\",\"networkElementId\":\"BBE1AA1  NNL1AA1  1\",\"instant\":\"preventive\",\"optimized\":true,\"thresholds\":[{\"unit\":\"megawatt\",\"max\":400}]},{\"id\":\"c2\",\"networkElementId\":\"BBE1AA1  NNL1AA1  1\",\"instant\":\"outage\",\"contingencyId\":\"co1\",\"optimized\":true,\"thresholds\":[{\"unit\":\"megawatt\",\"max\":400}]}",
    "]}",
];

const AFTER_CHAIN: [&str; 3] = [
    "\"contingencies\":[{\"id\":\"co1\",\"networkElementsIds\":[\"NNL1AA1  FFR1AA1  1\"]}],\"flowCnecs\":[",
    "{\"id\":\"c1\",\"networkElementId\":\"BBE1AA1  NNL1AA1  1\",\"instant\":\"outage\",\"contingencyId\":\"co1\",\"optimized\":true,\"thresholds\":[{\"unit\":\"megawatt\",\"max\":500}]}",
    "]}",
];

const THREE_ON_ONE: [&str; 3] = [
    "\"contingencies\":[],\"flowCnecs\":[",
    "{\"id\":\"c1\",\"networkElementId\":\"BBE1AA1  NNL1AA1  1\",\"instant\":\"preventive\",\"optimized\":true,\"thresholds\":[{\"unit\":\"megawatt\",\"min\":-500,\"max\":500}]},{\"id\":\"c2\",\"networkElementId\":\"BBE1AA1  NNL1AA1  1\",\"instant\":\"preventive\",\"optimized\":true,\"thresholds\":[{\"unit\":\"megawatt\",\"min\":-500,\"max\":500}]},{\"id\":\"c3\",\"networkElementId\":\"BBE1AA1  NNL1AA1  1\",\"instant\":\"preventive\",\"optimized\":true,\"thresholds\":[{\"unit\":\"megawatt\",\"min\":-600,\"max\":600}]}",
    "]}",
];

const ON_STAR: [&str; 3] = [
    "\"contingencies\":[],\"flowCnecs\":[",
    "{\"id\":\"c1\",\"networkElementId\":\"XBENL11  NNL1AA1  1\",\"instant\":\"preventive\",\"optimized\":true,\"thresholds\":[{\"unit\":\"megawatt\",\"max\":100}]},{\"id\":\"c2\",\"networkElementId\":\"XBENL11  FFR1AA1  1\",\"instant\":\"preventive\",\"optimized\":true,\"thresholds\":[{\"unit\":\"megawatt\",\"max\":100}]},{\"id\":\"c3\",\"networkElementId\":\"BBE1AA1  XBENL11  1\",\"instant\":\"preventive\",\"optimized\":true,\"thresholds\":[{\"unit\":\"megawatt\",\"max\":100}]}",
    "]}",
];

const ON_RING: [&str; 3] = [
    "\"contingencies\":[],\"flowCnecs\":[",
    "{\"id\":\"c1\",\"networkElementId\":\"XBENL11  NNL1AA1  1\",\"instant\":\"preventive\",\"optimized\":true,\"thresholds\":[{\"unit\":\"megawatt\",\"max\":100}]},{\"id\":\"c2\",\"networkElementId\":\"XBEFR11  FFR1AA1  1\",\"instant\":\"preventive\",\"optimized\":true,\"thresholds\":[{\"unit\":\"megawatt\",\"max\":100}]},{\"id\":\"c3\",\"networkElementId\":\"XBEFR11  DDE1AA1  1\",\"instant\":\"preventive\",\"optimized\":true,\"thresholds\":[{\"unit\":\"megawatt\",\"max\":100}]},{\"id\":\"c4\",\"networkElementId\":\"BBE1AA1  XBENL11  1\",\"instant\":\"preventive\",\"optimized\":true,\"thresholds\":[{\"unit\":\"megawatt\",\"max\":100}]}",
    "]}",
];

const HEAD_OF_CRAC: &str =
    "{\"type\":\"CRAC\",\"version\":\"2.5\",\"instants\":[{\"id\":\"preventive\",\"kind\":\"PREVENTIVE\"},{\"id\":\"outage\",\"kind\":\"OUTAGE\"}],";

// ---- Zones

const TWO: &str =
    "{\"moment\":\"2024-05-01T10:30:00Z\",\"zones\":[{\"id\":\"BE\",\"min\":-1000,\"max\":1000},{\"id\":\"NL\",\"min\":-1000,\"max\":1000}]}";

const THREE: &str =
    "{\"moment\":\"2024-05-01T10:30:00Z\",\"zones\":[{\"id\":\"BE\",\"min\":-1000,\"max\":1000},{\"id\":\"NL\",\"min\":-1000,\"max\":1000},{\"id\":\"FR\",\"min\":-1000,\"max\":1000}]}";

const FOUR: &str =
    "{\"moment\":\"2024-05-01T10:30:00Z\",\"zones\":[{\"id\":\"BE\",\"min\":-1000,\"max\":1000},{\"id\":\"NL\",\"min\":-1000,\"max\":1000},{\"id\":\"FR\",\"min\":-1000,\"max\":1000},{\"id\":\"DE\",\"min\":-1000,\"max\":1000}]}";

const ONE: &str =
    "{\"moment\":\"2024-05-01T10:30:00Z\",\"thresholdPermille\":0,\"zones\":[{\"id\":\"BE\",\"min\":-1000,\"max\":1000}]}";

const HIGH_THRESHOLD: &str =
    "{\"moment\":\"2024-05-01T10:30:00Z\",\"thresholdPermille\":667,\"zones\":[{\"id\":\"BE\",\"min\":-1000,\"max\":1000},{\"id\":\"NL\",\"min\":-1000,\"max\":1000},{\"id\":\"FR\",\"min\":-1000,\"max\":1000}]}";

const KEYS_OF_ONE: &str =
    "{\"series\":[{\"zone\":\"BE\",\"from\":\"2024-05-01T00:00:00Z\",\"to\":\"2024-05-02T00:00:00Z\",\"blocks\":[{\"business\":\"GSK\",\"share\":100,\"kind\":\"country\"}]}]}";

const KEYS_OF_TWO: &str =
    "{\"series\":[{\"zone\":\"BE\",\"from\":\"2024-05-01T00:00:00Z\",\"to\":\"2024-05-02T00:00:00Z\",\"blocks\":[{\"business\":\"GSK\",\"share\":100,\"kind\":\"country\"}]},{\"zone\":\"NL\",\"from\":\"2024-05-01T00:00:00Z\",\"to\":\"2024-05-02T00:00:00Z\",\"blocks\":[{\"business\":\"GSK\",\"share\":100,\"kind\":\"country\"}]}]}";

const KEYS_OF_THREE: &str =
    "{\"series\":[{\"zone\":\"BE\",\"from\":\"2024-05-01T00:00:00Z\",\"to\":\"2024-05-02T00:00:00Z\",\"blocks\":[{\"business\":\"GSK\",\"share\":100,\"kind\":\"country\"}]},{\"zone\":\"NL\",\"from\":\"2024-05-01T00:00:00Z\",\"to\":\"2024-05-02T00:00:00Z\",\"blocks\":[{\"business\":\"GSK\",\"share\":100,\"kind\":\"country\"}]},{\"zone\":\"FR\",\"from\":\"2024-05-01T00:00:00Z\",\"to\":\"2024-05-02T00:00:00Z\",\"blocks\":[{\"business\":\"GSK\",\"share\":100,\"kind\":\"country\"}]}]}";

const KEYS_OF_FOUR: &str =
    "{\"series\":[{\"zone\":\"BE\",\"from\":\"2024-05-01T00:00:00Z\",\"to\":\"2024-05-02T00:00:00Z\",\"blocks\":[{\"business\":\"GSK\",\"share\":100,\"kind\":\"country\"}]},{\"zone\":\"NL\",\"from\":\"2024-05-01T00:00:00Z\",\"to\":\"2024-05-02T00:00:00Z\",\"blocks\":[{\"business\":\"GSK\",\"share\":100,\"kind\":\"country\"}]},{\"zone\":\"FR\",\"from\":\"2024-05-01T00:00:00Z\",\"to\":\"2024-05-02T00:00:00Z\",\"blocks\":[{\"business\":\"GSK\",\"share\":100,\"kind\":\"country\"}]},{\"zone\":\"DE\",\"from\":\"2024-05-01T00:00:00Z\",\"to\":\"2024-05-02T00:00:00Z\",\"blocks\":[{\"business\":\"GSK\",\"share\":100,\"kind\":\"country\"}]}]}";

// ---- Tables

const HEADER_OF_ONE: &str =
    "row,element,instant,contingency,direction,class,inner,outer,r_in,r_out,gap,a:BE,inner_by,outer_by\n";

const HEADER_OF_TWO: &str =
    "row,element,instant,contingency,direction,class,inner,outer,r_in,r_out,gap,a:BE,a:NL,inner_by,outer_by\n";

const HEADER_OF_THREE: &str =
    "row,element,instant,contingency,direction,class,inner,outer,r_in,r_out,gap,a:BE,a:NL,a:FR,inner_by,outer_by\n";

const HEADER_OF_FOUR: &str =
    "row,element,instant,contingency,direction,class,inner,outer,r_in,r_out,gap,a:BE,a:NL,a:FR,a:DE,inner_by,outer_by\n";

/// A case, and the records of its table. Where the angles of a state may be exact or not, either table is right.
struct Case {
    name: &'static str,
    nodes: [&'static str; 3],
    lines: &'static str,
    elements: [&'static str; 3],
    settings: &'static str,
    keys: &'static str,
    header: &'static str,
    tables: [&'static str; 2],
}

const CASES: [Case; 13] = [
    Case {
        name: "two nodes",
        nodes: [BE, NL, ""],
        lines: LINE,
        elements: BASE,
        settings: TWO,
        keys: KEYS_OF_TWO,
        header: HEADER_OF_TWO,
        tables: [
            "1,c1,preventive,,DIRECT,CERTAIN,KEPT,KEPT,500000000,500000000,0,0,-1000000000000,,\n2,c1,preventive,,OPPOSITE,CERTAIN,KEPT,KEPT,500000000,500000000,0,0,1000000000000,,\n",
            "",
        ],
    },
    Case {
        name: "a triangle",
        nodes: [BE, NL, FR],
        lines: TRIANGLE,
        elements: BASE,
        settings: THREE,
        keys: KEYS_OF_THREE,
        header: HEADER_OF_THREE,
        tables: [
            "1,c1,preventive,,DIRECT,CERTAIN,KEPT,KEPT,499999999,500000001,2,0,-666666666667,-333333333334,,\n2,c1,preventive,,OPPOSITE,CERTAIN,KEPT,KEPT,499999999,500000001,2,0,666666666666,333333333333,,\n",
            "",
        ],
    },
    Case {
        name: "a triangle below the threshold",
        nodes: [BE, NL, FR],
        lines: TRIANGLE,
        elements: BASE,
        settings: HIGH_THRESHOLD,
        keys: KEYS_OF_THREE,
        header: HEADER_OF_THREE,
        tables: [
            "1,c1,preventive,,DIRECT,BELOW,-,-,499999999,500000001,2,0,-666666666667,-333333333334,,\n2,c1,preventive,,OPPOSITE,BELOW,-,-,499999999,500000001,2,0,666666666666,333333333333,,\n",
            "",
        ],
    },
    Case {
        name: "a triangle after an outage",
        nodes: [BE, NL, FR],
        lines: TRIANGLE,
        elements: AFTER_FRANCE,
        settings: THREE,
        keys: KEYS_OF_THREE,
        header: HEADER_OF_THREE,
        tables: [
            "1,c1,outage,co1,DIRECT,CERTAIN,KEPT,KEPT,500000000,500000000,0,0,-1000000000000,-1000000000000,,\n",
            "1,c1,outage,co1,DIRECT,CERTAIN,KEPT,KEPT,499999999,500000001,2,0,-1000000000000,-1000000000000,,\n",
        ],
    },
    Case {
        name: "a coupler, closed and out",
        nodes: [BE_TWICE, NL, ""],
        lines: COUPLED,
        elements: AFTER_COUPLER,
        settings: TWO,
        keys: KEYS_OF_TWO,
        header: HEADER_OF_TWO,
        tables: [
            "1,c1,preventive,,DIRECT,CERTAIN,KEPT,KEPT,400000000,400000000,0,0,-500000000000,,\n2,c2,outage,co1,DIRECT,CERTAIN,REMOVED,REMOVED,400000000,400000000,0,-500000000000,-1000000000000,-500000000000000000000 1:1000000000,-500000000000000000000 1:1000000000\n",
            "1,c1,preventive,,DIRECT,CERTAIN,REMOVED,KEPT,400000000,400000000,0,0,-500000000000,500000000000000000000 2:1000000000,\n2,c2,outage,co1,DIRECT,CERTAIN,KEPT,REMOVED,399999999,400000001,2,-500000000000,-1000000000000,,-500000000000000000000 1:1000000000\n",
        ],
    },
    Case {
        name: "a tie line",
        nodes: [BE, NL, CROSSING],
        lines: TIE,
        elements: ON_TIE,
        settings: TWO,
        keys: KEYS_OF_TWO,
        header: HEADER_OF_TWO,
        tables: [
            "1,c1,preventive,,DIRECT,CERTAIN,KEPT,KEPT,400000000,400000000,0,0,-500000000000,,\n",
            "1,c1,preventive,,DIRECT,CERTAIN,KEPT,KEPT,399999999,400000001,2,0,-500000000000,,\n",
        ],
    },
    Case {
        name: "a tie line the other way round",
        nodes: [BE, NL, CROSSING],
        lines: TIE,
        elements: ON_TURNED_TIE,
        settings: TWO,
        keys: KEYS_OF_TWO,
        header: HEADER_OF_TWO,
        tables: [
            "1,c1,preventive,,DIRECT,CERTAIN,KEPT,KEPT,400000000,400000000,0,0,500000000000,,\n",
            "1,c1,preventive,,DIRECT,CERTAIN,KEPT,KEPT,399999999,400000001,2,0,500000000000,,\n",
        ],
    },
    Case {
        name: "a tie line out",
        nodes: [BE, NL, CROSSING],
        lines: TIE,
        elements: AFTER_TIE,
        settings: TWO,
        keys: KEYS_OF_TWO,
        header: HEADER_OF_TWO,
        tables: [
            "1,c1,outage,co1,DIRECT,CERTAIN,KEPT,KEPT,500000000,500000000,0,0,-1000000000000,,\n",
            "1,c1,outage,co1,DIRECT,CERTAIN,KEPT,KEPT,499999999,500000001,2,0,-1000000000000,,\n",
        ],
    },
    Case {
        name: "a reactance that is raised",
        nodes: [BE, NL, ""],
        lines: FLOORED,
        elements: BASE,
        settings: TWO,
        keys: KEYS_OF_TWO,
        header: HEADER_OF_TWO,
        tables: [
            "1,c1,preventive,,DIRECT,CERTAIN,KEPT,KEPT,499999999,500000001,2,0,-1000000000000,,\n2,c1,preventive,,OPPOSITE,CERTAIN,KEPT,KEPT,499999999,500000001,2,0,999999999999,,\n",
            "",
        ],
    },
    Case {
        name: "exactly at the threshold",
        nodes: [BE, NL, ""],
        lines: TWENTIETH,
        elements: ON_SECOND,
        settings: TWO,
        keys: KEYS_OF_TWO,
        header: HEADER_OF_TWO,
        tables: [
            "1,c1,preventive,,DIRECT,CERTAIN,KEPT,KEPT,40000000,40000000,0,0,-50000000000,,\n2,c1,preventive,,OPPOSITE,CERTAIN,KEPT,KEPT,40000000,40000000,0,0,50000000000,,\n",
            "",
        ],
    },
    Case {
        name: "at the threshold, by enclosed angles",
        nodes: [BE, NL, ""],
        lines: NEAR_TWENTIETH,
        elements: ON_SECOND,
        settings: TWO,
        keys: KEYS_OF_TWO,
        header: HEADER_OF_TWO,
        tables: [
            "1,c1,preventive,,DIRECT,DOUBTFUL,KEPT,-,39999999,40000001,2,0,-50000000000,,\n2,c1,preventive,,OPPOSITE,DOUBTFUL,KEPT,-,39999999,40000001,2,0,50000000000,,\n",
            "",
        ],
    },
    // The shift drives b·φ/2 = 249791978.615 W round: against the line, and along the transformer. What it leaves of
    // 500 MW is below the 350 MW that are to remain for trade. With one zone the only point is 0, so each row follows
    // from the box.
    Case {
        name: "a phase shifter",
        nodes: [BE, SECOND_BE, ""],
        lines: SHIFTED,
        elements: ON_BOTH,
        settings: ONE,
        keys: KEYS_OF_ONE,
        header: HEADER_OF_ONE,
        tables: [
            "1,c1,preventive,,DIRECT,CERTAIN,REMOVED,REMOVED,749791978,749791979,1,-250000000000,-250000000000000000000,-250000000000000000000\n2,c1,preventive,,OPPOSITE,CERTAIN,REMOVED,REMOVED,350000000,350000000,0,250000000000,250000000000000000000,250000000000000000000\n3,c2,preventive,,DIRECT,CERTAIN,REMOVED,REMOVED,350000000,350000000,0,-250000000000,-250000000000000000000,-250000000000000000000\n4,c2,preventive,,OPPOSITE,CERTAIN,REMOVED,REMOVED,749791978,749791979,1,250000000000,250000000000000000000,250000000000000000000\n",
            "",
        ],
    },
    Case {
        name: "a stranded node without load",
        nodes: [BE, NL, FR],
        lines: CHAIN,
        elements: AFTER_CHAIN,
        settings: TWO,
        keys: KEYS_OF_TWO,
        header: HEADER_OF_TWO,
        tables: [
            "1,c1,outage,co1,DIRECT,CERTAIN,KEPT,KEPT,500000000,500000000,0,0,-1000000000000,,\n",
            "",
        ],
    },
];

/// Cases in which rows follow from others.
const REMOVALS: [Case; 3] = [
    Case {
        name: "three elements on a line",
        nodes: [BE, NL, ""],
        lines: LINE,
        elements: THREE_ON_ONE,
        settings: TWO,
        keys: KEYS_OF_TWO,
        header: HEADER_OF_TWO,
        tables: [
            "1,c1,preventive,,DIRECT,CERTAIN,KEPT,KEPT,500000000,500000000,0,0,-1000000000000,,\n2,c1,preventive,,OPPOSITE,CERTAIN,KEPT,KEPT,500000000,500000000,0,0,1000000000000,,\n3,c2,preventive,,DIRECT,CERTAIN,REMOVED,REMOVED,500000000,500000000,0,0,-1000000000000,0 1:1000000000,0 1:1000000000\n4,c2,preventive,,OPPOSITE,CERTAIN,REMOVED,REMOVED,500000000,500000000,0,0,1000000000000,0 2:1000000000,0 2:1000000000\n5,c3,preventive,,DIRECT,CERTAIN,REMOVED,REMOVED,600000000,600000000,0,0,-1000000000000,0 1:1000000000,0 1:1000000000\n6,c3,preventive,,OPPOSITE,CERTAIN,REMOVED,REMOVED,600000000,600000000,0,0,1000000000000,0 2:1000000000,0 2:1000000000\n",
            "",
        ],
    },
    // Half of what each of the two nodes may take in comes over one of the two lines: 100 MW in all.
    Case {
        name: "a row that follows from two",
        nodes: [BE, NL, FR],
        lines: STAR,
        elements: ON_STAR,
        settings: THREE,
        keys: KEYS_OF_THREE,
        header: HEADER_OF_THREE,
        tables: [
            "1,c1,preventive,,DIRECT,CERTAIN,KEPT,KEPT,100000000,100000000,0,0,-1000000000000,0,,\n2,c2,preventive,,DIRECT,CERTAIN,KEPT,KEPT,100000000,100000000,0,0,0,-1000000000000,,\n3,c3,preventive,,DIRECT,CERTAIN,REMOVED,REMOVED,100000000,100000000,0,0,-500000000000,-500000000000,0 1:500000000 2:500000000,0 1:500000000 2:500000000\n",
            "1,c1,preventive,,DIRECT,CERTAIN,KEPT,KEPT,99999999,100000001,2,0,-1000000000000,0,,\n2,c2,preventive,,DIRECT,CERTAIN,KEPT,KEPT,99999999,100000001,2,0,0,-1000000000000,,\n3,c3,preventive,,DIRECT,CERTAIN,REMOVED,REMOVED,99999999,100000001,2,0,-500000000000,-500000000000,0 1:500000000 2:500000000,0 1:500000000 2:500000000\n",
        ],
    },
    Case {
        name: "a row that follows from three",
        nodes: [BE, NL, FR],
        lines: RING,
        elements: ON_RING,
        settings: FOUR,
        keys: KEYS_OF_FOUR,
        header: HEADER_OF_FOUR,
        tables: [
            "1,c1,preventive,,DIRECT,CERTAIN,KEPT,KEPT,100000000,100000000,0,0,-1000000000000,0,0,,\n2,c2,preventive,,DIRECT,CERTAIN,KEPT,KEPT,100000000,100000000,0,0,0,-1000000000000,0,,\n3,c3,preventive,,DIRECT,CERTAIN,KEPT,KEPT,100000000,100000000,0,0,0,0,-1000000000000,,\n4,c4,preventive,,DIRECT,CERTAIN,REMOVED,REMOVED,100000000,100000000,0,0,-400000000000,-300000000000,-300000000000,0 1:400000000 2:300000000 3:300000000,0 1:400000000 2:300000000 3:300000000\n",
            "1,c1,preventive,,DIRECT,CERTAIN,KEPT,KEPT,99999999,100000001,2,0,-1000000000000,0,0,,\n2,c2,preventive,,DIRECT,CERTAIN,KEPT,KEPT,99999999,100000001,2,0,0,-1000000000000,0,,\n3,c3,preventive,,DIRECT,CERTAIN,KEPT,KEPT,99999999,100000001,2,0,0,0,-1000000000000,,\n4,c4,preventive,,DIRECT,CERTAIN,REMOVED,REMOVED,99999999,100000001,2,0,-400000000000,-300000000000,-300000000000,0 1:400000000 2:300000000 3:300000000,0 1:400000000 2:300000000 3:300000000\n",
        ],
    },
];

/// One text of parts.
fn joined(alloc: Global, parts: &[&str]) -> Result<String, AllocError> {
    let mut text = String::new(alloc);
    for part in parts {
        text.push_str(part)?;
    }
    Ok(text)
}

/// A shelf with the documents of a case.
fn shelf_of(
    alloc: Global,
    nodes: &[&str],
    lines: &str,
    elements: &[&str],
    settings: &str,
    keys: &str,
) -> Result<MemShelf, AllocError> {
    let mut grid = joined(alloc, nodes)?;
    grid.push_str(lines)?;
    let mut crac = String::from_str(alloc, HEAD_OF_CRAC)?;
    crac.push_str(joined(alloc, elements)?.as_str())?;
    let mut shelf = MemShelf::new(alloc);
    shelf.add("grid.uct", grid.as_bytes())?;
    shelf.add("crac.json", crac.as_bytes())?;
    shelf.add("settings.json", settings.as_bytes())?;
    shelf.add("glsk.json", keys.as_bytes())?;
    Ok(shelf)
}

/// The documents of a triangle, one of whose elements is watched after the outage of a line.
pub fn after_france(alloc: Global) -> Result<MemShelf, AllocError> {
    shelf_of(
        alloc,
        &[BE, NL, FR],
        TRIANGLE,
        &AFTER_FRANCE,
        THREE,
        KEYS_OF_THREE,
    )
}

/// The documents of a line and a transformer that shifts, side by side.
pub fn shifted(alloc: Global) -> Result<MemShelf, AllocError> {
    shelf_of(alloc, &[BE, SECOND_BE], SHIFTED, &ON_BOTH, ONE, KEYS_OF_ONE)
}

/// Whether the answer is the header with one of the tables.
fn is_table(alloc: Global, answer: &Answer, case: &Case) -> Result<bool, AllocError> {
    let first = joined(alloc, &[case.header, case.tables[0]])?;
    let second = joined(alloc, &[case.header, case.tables[1]])?;
    let out = answer.out.bytes();
    Ok(
        answer.outcome.status == 0
            && answer.err.bytes().is_empty()
            && (out == first.as_bytes()
                || (!case.tables[1].is_empty() && out == second.as_bytes())),
    )
}

#[test]
fn tables_are_printed(rt: HostRuntime) -> Result<(), AllocError> {
    for case in &CASES {
        let mut shelf = shelf_of(
            rt.alloc(),
            &case.nodes,
            case.lines,
            &case.elements,
            case.settings,
            case.keys,
        )?;
        let answer = call(&rt, DOMAIN, &mut shelf)?;
        let is_table = is_table(rt.alloc(), &answer, case)?;
        let name = case.name;
        assert!(rt; is_table, "{name}");
    }
    Ok(())
}

#[test]
fn rows_that_follow_are_removed(rt: HostRuntime) -> Result<(), AllocError> {
    for case in &REMOVALS {
        let mut shelf = shelf_of(
            rt.alloc(),
            &case.nodes,
            case.lines,
            &case.elements,
            case.settings,
            case.keys,
        )?;
        let answer = call(&rt, DOMAIN, &mut shelf)?;
        let is_table = is_table(rt.alloc(), &answer, case)?;
        let name = case.name;
        assert!(rt; is_table, "{name}");
    }
    Ok(())
}

#[test]
fn reductions_lower_a_row(rt: HostRuntime) -> Result<(), AllocError> {
    let mut shelf = two_nodes(rt.alloc())?;
    shelf.add(
        "reductions.csv",
        b"element,direction,cva,iva\nc1,OPPOSITE,100,20.5\n",
    )?;
    let answer = call(&rt, REDUCED, &mut shelf)?;
    let table = joined(
        rt.alloc(),
        &[
            HEADER_OF_TWO,
            "1,c1,preventive,,DIRECT,CERTAIN,KEPT,KEPT,500000000,500000000,0,0,-1000000000000,,\n2,c1,preventive,,OPPOSITE,CERTAIN,KEPT,KEPT,379500000,379500000,0,0,1000000000000,,\n",
        ],
    )?;
    assert_eq!(rt; answer.out.bytes(), table.as_bytes());
    Ok(())
}

#[test]
fn split_grids_are_refused(rt: HostRuntime) -> Result<(), AllocError> {
    let mut shelf = shelf_of(
        rt.alloc(),
        &[BE, NL, LOADED_FR],
        CHAIN,
        &AFTER_CHAIN,
        TWO,
        KEYS_OF_TWO,
    )?;
    let answer = call(&rt, DOMAIN, &mut shelf)?;
    assert_eq!(rt; answer.outcome.status, 12);
    assert_eq!(rt;
        answer.err.bytes(),
        b"split grid in state 1 at node FFR1AA1 \n".as_slice()
    );
    Ok(())
}

/// The node levels 0, 0 and 7 with strong lines from the slack node, and a weak one to the third node.
const STRONG: &str =
    "##N\n##ZBE\nBBE1AA0  BE1          0 3 750.00    0.00    0.00    0.00\n##ZNL\nNNL1AA0  NL1          0 0 750.00    0.00    0.00    0.00\nNNL1AA7  NL2          0 0  27.00    0.00    0.00    0.00\n##L\nNNL1AA7  NNL1AA0  1 0 0.0000 999999 0.000000   2000\nBBE1AA0  NNL1AA0  1 0 0.0000 0.0500 0.000000   2000\n";

const SECOND_STRONG: &str = "BBE1AA0  NNL1AA0  2 0 0.0000 0.0500 0.000000   2000\n";

const ON_STRONG: [&str; 3] = [
    "\"contingencies\":[],\"flowCnecs\":[",
    "{\"id\":\"c1\",\"networkElementId\":\"BBE1AA0  NNL1AA0  1\",\"instant\":\"preventive\",\"optimized\":true,\"thresholds\":[{\"unit\":\"megawatt\",\"max\":500}]}",
    "]}",
];

#[test]
fn numbers_past_range_are_refused(rt: HostRuntime) -> Result<(), AllocError> {
    let mut shelf = shelf_of(
        rt.alloc(),
        &[STRONG],
        SECOND_STRONG,
        &ON_STRONG,
        TWO,
        KEYS_OF_TWO,
    )?;
    let answer = call(&rt, DOMAIN, &mut shelf)?;
    assert_eq!(rt; answer.outcome.status, 13);
    assert_eq!(rt;
        answer.err.bytes(),
        b"numbers past range in state 0\n".as_slice()
    );
    let mut shelf = shelf_of(rt.alloc(), &[STRONG], "", &ON_STRONG, TWO, KEYS_OF_TWO)?;
    let answer = call(&rt, DOMAIN, &mut shelf)?;
    assert_eq!(rt; answer.outcome.status, 0);
    Ok(())
}

#[test]
fn other_words_than_those_of_domain_are_refused(rt: HostRuntime) -> Result<(), Fail> {
    let lines: [&str; 5] = [
        "domain",
        "domain --grid grid.uct",
        "domain --grid g --grid g --crac c --glsk k --settings s",
        "domain --grid g --crac c --glsk k --settings s --workers 65",
        "domain --grid g --crac c --glsk k --settings -s",
    ];
    for line in lines {
        let mut shelf = MemShelf::new(rt.alloc());
        let answer = call(&rt, line, &mut shelf)?;
        assert!(rt; matches!(answer.outcome.fault, Some(Fault::Usage)));
    }
    Ok(())
}

#[test]
fn workers_are_from_1_to_64(rt: HostRuntime) -> Result<(), Fail> {
    let table = [
        ("--workers=1", 0),
        ("--workers=2", 0),
        ("--workers=064", 0),
        ("--workers=0", 2),
        ("--workers=65", 2),
        ("--workers=-1", 2),
        ("--workers=+1", 2),
        ("--workers=1e1", 2),
        ("--workers=1\t", 2),
        ("--workers=", 2),
    ];
    for (workers, status) in table {
        let mut shelf = two_nodes(rt.alloc())?;
        let line = format!(in rt.alloc(); "{DOMAIN} {workers}")?;
        let answer = call(&rt, line.as_str(), &mut shelf)?;
        assert_eq!(rt; answer.outcome.status, status);
    }
    Ok(())
}

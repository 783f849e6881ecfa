//! The documents of a Belgian and a Dutch node and the line between them, which may carry 500 MW either way.

use fb_base::MemShelf;
use std::alloc::{AllocError, Global};

pub const GRID: &str =
    "##C 2007.05.01\n##N\n##ZBE\nBBE1AA1  BE1          0 3 380.00    0.00    0.00    0.00\n##ZNL\nNNL1AA1  NL1          0 0 380.00    0.00    0.00    0.00\n##L\nBBE1AA1  NNL1AA1  1 0 0.0000 14.440 0.000000   2000\n";

pub const CRAC: &str =
    "{\"type\":\"CRAC\",\"version\":\"2.5\",\"instants\":[{\"id\":\"preventive\",\"kind\":\"PREVENTIVE\"}],\"contingencies\":[],\"flowCnecs\":[{\"id\":\"c1\",\"networkElementId\":\"BBE1AA1  NNL1AA1  1\",\"instant\":\"preventive\",\"optimized\":true,\"reliabilityMargin\":0,\"thresholds\":[{\"unit\":\"megawatt\",\"min\":-500,\"max\":500}]}]}";

pub const SETTINGS: &str =
    "{\"moment\":\"2024-05-01T10:30:00Z\",\"zones\":[{\"id\":\"BE\",\"min\":-1000,\"max\":1000},{\"id\":\"NL\",\"min\":-1000,\"max\":1000}]}";

pub const KEYS: &str =
    "{\"series\":[{\"zone\":\"BE\",\"from\":\"2024-05-01T00:00:00Z\",\"to\":\"2024-05-02T00:00:00Z\",\"blocks\":[{\"business\":\"GSK\",\"share\":100,\"kind\":\"country\"}]},{\"zone\":\"NL\",\"from\":\"2024-05-01T00:00:00Z\",\"to\":\"2024-05-02T00:00:00Z\",\"blocks\":[{\"business\":\"GSK\",\"share\":100,\"kind\":\"country\"}]}]}";

/// Reductions that reduce nothing.
pub const NO_REDUCTIONS: &str = "element,direction,cva,iva\n";

/// A shelf with a grid, a CRAC, and the settings and the shift keys of the two zones.
pub fn shelf_of(alloc: Global, grid: &str, crac: &str) -> Result<MemShelf, AllocError> {
    let mut shelf = MemShelf::new(alloc);
    shelf.add("grid.uct", grid.as_bytes())?;
    shelf.add("crac.json", crac.as_bytes())?;
    shelf.add("settings.json", SETTINGS.as_bytes())?;
    shelf.add("glsk.json", KEYS.as_bytes())?;
    Ok(shelf)
}

/// A shelf with the documents of the two nodes, and with reductions that reduce nothing.
pub fn two_nodes(alloc: Global) -> Result<MemShelf, AllocError> {
    let mut shelf = shelf_of(alloc, GRID, CRAC)?;
    shelf.add("reductions.csv", NO_REDUCTIONS.as_bytes())?;
    Ok(shelf)
}

//! The command `net`: the net positions of a grid.

ghost use Rattle.std.specs.Prelude.{◌≢◌, None};
ghost use Rattle.fbcc_core.specs.Commands.{nets, net_work as net_steps};
ghost use Rattle.fbcc_core.specs.Seen.{shelf_seen};
ghost use Rattle.fbcc_core.specs.Words.{names_of};

use crate::answer::{Document, Fault};
use crate::documents::read_grid_document;
use crate::work::Work;
use command_words::Request;
use fb_base::Shelf;
use fb_types::{Grid, Items};
use net_table::net_text;
use std::alloc::Global;

/// Reads the grid that the request names, and adds up the net positions of its two-letter codes.
pub fn net_work<H: Shelf>(
    alloc: Global,
    request: &Request<'_>,
    shelf: &mut H,
) -> Result<Work, Fault>
    requires { names_of request.now Document.Grid ≢ None }
    ensures { net_steps (names_of request.now) (shelf_seen H.tells H.held H.faults H.last_failed shelf.old shelf.new) result }
{
    let grid = read_grid_document(alloc, request, shelf)?;
    net_of(alloc, &grid)
}

/// The net text of the grid.
fn net_of(alloc: Global, grid: &Grid) -> Result<Work, Fault>
    ensures { nets grid.now result }
{
    match net_text(alloc, grid) {
        Ok(text) => Ok(Work {
            text: Items::from_vec(text),
            verdict: None,
        }),
        Err(e) => Err(Fault::Memory(e)),
    }
}

//! The documents of a run, each fetched and then understood.

ghost use Rattle.std.specs.Prelude.{◌≡◌, ◌≢◌, ◌≤◌, IfOk, IfErr, None, Ok, Err, length};
ghost use Rattle.fb_certificate.specs.Whole.{IsCracOver};
ghost use Rattle.fb_json.specs.Spots.{doc_tree};
ghost use Rattle.glsk_keys.specs.Laws.{AreKeys};
ghost use Rattle.run_settings.specs.Laws.{AreSettings};
ghost use Rattle.run_settings.specs.ReductionLaws.{AreReductionsOf};
ghost use Rattle.run_settings.specs.Views.{said};
ghost use Rattle.fbcc_core.specs.NamedDocuments.{AreDomainNames};
ghost use Rattle.fbcc_core.specs.Reading.{grid_read, tree_read, crac_read, settings_read, keys_read, reductions_read, certificate_read, run_documents};
ghost use Rattle.fbcc_core.specs.Seen.{shelf_seen};
ghost use Rattle.fbcc_core.specs.Understood.{AreInOrder};
ghost use Rattle.fbcc_core.specs.Words.{names_of};

use crate::answer::{Document, Fault};
use crate::fetching::fetch_document;
use crate::request::name_for;
use crate::understanding::{
    certificate_in, crac_in, grid_in, keys_in, reductions_in, settings_in, tree_in,
};
use command_words::Request;
use fb_base::Shelf;
use fb_certificate::Certificate;
use fb_json::Doc;
use fb_types::{Crac, Grid, Items};
use glsk_keys::Keys;
use run_settings::{Reduction, Settings};
use std::alloc::Global;

/// The documents of a run.
#[derive(Debug, Drop)]
pub struct RunDocuments {
    pub grid: Grid,
    pub crac: Crac,
    pub settings: Settings,
    pub keys: Keys,
    pub reductions: Items<Reduction>,
}

/// A certificate: the bytes of its document, and what they say.
#[derive(Debug, Drop)]
pub struct CertificateFile {
    pub bytes: Items<u8>,
    pub certificate: Certificate,
}

/// The grid.
pub fn read_grid_document<H: Shelf>(
    alloc: Global,
    request: &Request<'_>,
    shelf: &mut H,
) -> Result<Grid, Fault>
    requires { names_of request.now Document.Grid ≢ None }
    ensures still_tells { H.tells shelf.new ≡ H.tells shelf.old }
    ensures still_held { H.held shelf.new ≡ H.held shelf.old }
    ensures never_falls { H.faults shelf.old ≤ H.faults shelf.new }
    ensures step { grid_read (names_of request.now) (shelf_seen H.tells H.held H.faults H.last_failed shelf.old shelf.new) result }
{
    let bytes = fetch_document(alloc, request, Document::Grid, shelf)?;
    grid_in(alloc, bytes.as_slice())
}

/// The tree of a JSON document.
fn read_tree<H: Shelf>(
    alloc: Global,
    request: &Request<'_>,
    document: Document,
    shelf: &mut H,
) -> Result<Doc, Fault>
    requires { names_of request.now document ≢ None }
    ensures still_tells { H.tells shelf.new ≡ H.tells shelf.old }
    ensures still_held { H.held shelf.new ≡ H.held shelf.old }
    ensures never_falls { H.faults shelf.old ≤ H.faults shelf.new }
    ensures tree { IfOk result (λ doc. tree_read (names_of request.now) (shelf_seen H.tells H.held H.faults H.last_failed shelf.old shelf.new) document (Ok (doc_tree doc))) }
    ensures fault { IfErr result (λ fault. tree_read (names_of request.now) (shelf_seen H.tells H.held H.faults H.last_failed shelf.old shelf.new) document (Err fault)) }
{
    let bytes = fetch_document(alloc, request, document, shelf)?;
    tree_in(alloc, document, bytes.as_slice())
}

/// The CRAC, which speaks of the grid.
pub fn read_crac_document<H: Shelf>(
    alloc: Global,
    request: &Request<'_>,
    grid: &Grid,
    shelf: &mut H,
) -> Result<Crac, Fault>
    requires { names_of request.now Document.Crac ≢ None }
    ensures still_tells { H.tells shelf.new ≡ H.tells shelf.old }
    ensures still_held { H.held shelf.new ≡ H.held shelf.old }
    ensures never_falls { H.faults shelf.old ≤ H.faults shelf.new }
    ensures step { crac_read (names_of request.now) (shelf_seen H.tells H.held H.faults H.last_failed shelf.old shelf.new) grid.now result }
    ensures laws { IfOk result (IsCracOver (length grid.now.branches)) }
{
    let doc = read_tree(alloc, request, Document::Crac, shelf)?;
    crac_in(alloc, &doc, grid)
}

/// The settings, whose slack is a node of the grid.
pub fn read_settings_document<H: Shelf>(
    alloc: Global,
    request: &Request<'_>,
    grid: &Grid,
    shelf: &mut H,
) -> Result<Settings, Fault>
    requires { names_of request.now Document.Settings ≢ None }
    ensures still_tells { H.tells shelf.new ≡ H.tells shelf.old }
    ensures still_held { H.held shelf.new ≡ H.held shelf.old }
    ensures never_falls { H.faults shelf.old ≤ H.faults shelf.new }
    ensures step { settings_read (names_of request.now) (shelf_seen H.tells H.held H.faults H.last_failed shelf.old shelf.new) grid.now result }
    ensures laws { IfOk result (λ settings. AreSettings grid.now.nodes (said settings)) }
{
    let doc = read_tree(alloc, request, Document::Settings, shelf)?;
    settings_in(alloc, &doc, grid)
}

/// The shift keys of the zones of the settings, at their moment.
pub fn read_keys_document<H: Shelf>(
    alloc: Global,
    request: &Request<'_>,
    grid: &Grid,
    settings: &Settings,
    shelf: &mut H,
) -> Result<Keys, Fault>
    requires { names_of request.now Document.Glsk ≢ None }
    ensures still_tells { H.tells shelf.new ≡ H.tells shelf.old }
    ensures still_held { H.held shelf.new ≡ H.held shelf.old }
    ensures never_falls { H.faults shelf.old ≤ H.faults shelf.new }
    ensures step { keys_read (names_of request.now) (shelf_seen H.tells H.held H.faults H.last_failed shelf.old shelf.new) grid.now settings.now result }
    ensures laws { IfOk result (AreKeys grid.now.nodes settings.now.zones) }
{
    let doc = read_tree(alloc, request, Document::Glsk, shelf)?;
    keys_in(alloc, &doc, grid, settings)
}

/// The reductions of elements of the CRAC: none where the request names no document of them.
pub fn read_reductions_document<H: Shelf>(
    alloc: Global,
    request: &Request<'_>,
    crac: &Crac,
    shelf: &mut H,
) -> Result<Items<Reduction>, Fault>
    ensures still_tells { H.tells shelf.new ≡ H.tells shelf.old }
    ensures still_held { H.held shelf.new ≡ H.held shelf.old }
    ensures never_falls { H.faults shelf.old ≤ H.faults shelf.new }
    ensures step { reductions_read (names_of request.now) (shelf_seen H.tells H.held H.faults H.last_failed shelf.old shelf.new) crac.now result }
    ensures laws { IfOk result (AreReductionsOf crac.now.elements) }
{
    if name_for(request, Document::Reductions).is_none() {
        return Ok(Items::new(alloc));
    }
    let bytes = fetch_document(alloc, request, Document::Reductions, shelf)?;
    reductions_in(alloc, bytes.as_slice(), crac)
}

/// The documents of a run, one after another.
pub fn read_run_documents<H: Shelf>(
    alloc: Global,
    request: &Request<'_>,
    shelf: &mut H,
) -> Result<RunDocuments, Fault>
    requires { AreDomainNames (names_of request.now) }
    ensures still_tells { H.tells shelf.new ≡ H.tells shelf.old }
    ensures still_held { H.held shelf.new ≡ H.held shelf.old }
    ensures never_falls { H.faults shelf.old ≤ H.faults shelf.new }
    ensures steps { run_documents (names_of request.now) (shelf_seen H.tells H.held H.faults H.last_failed shelf.old shelf.new) result }
    ensures laws { IfOk result AreInOrder }
{
    let grid = read_grid_document(alloc, request, shelf)?;
    let crac = read_crac_document(alloc, request, &grid, shelf)?;
    let settings = read_settings_document(alloc, request, &grid, shelf)?;
    let keys = read_keys_document(alloc, request, &grid, &settings, shelf)?;
    let reductions = read_reductions_document(alloc, request, &crac, shelf)?;
    Ok(RunDocuments {
        grid,
        crac,
        settings,
        keys,
        reductions,
    })
}

/// The certificate.
pub fn read_certificate_document<H: Shelf>(
    alloc: Global,
    request: &Request<'_>,
    shelf: &mut H,
) -> Result<CertificateFile, Fault>
    requires { names_of request.now Document.Certificate ≢ None }
    ensures still_tells { H.tells shelf.new ≡ H.tells shelf.old }
    ensures still_held { H.held shelf.new ≡ H.held shelf.old }
    ensures never_falls { H.faults shelf.old ≤ H.faults shelf.new }
    ensures step { certificate_read (names_of request.now) (shelf_seen H.tells H.held H.faults H.last_failed shelf.old shelf.new) result }
{
    let bytes = fetch_document(alloc, request, Document::Certificate, shelf)?;
    certificate_in(alloc, bytes)
}

//! Documents from a shelf.

ghost use Rattle.std.specs.Prelude.{◌≡◌, ◌≢◌, ◌≤◌, Some};
ghost use Rattle.fbcc_core.specs.Reading.{fetched};
ghost use Rattle.fbcc_core.specs.Seen.{shelf_seen};
ghost use Rattle.fbcc_core.specs.Statuses.{limit_of};
ghost use Rattle.fbcc_core.specs.Words.{names_of};

use crate::answer::{Document, Fault};
use crate::request::name_for;
use command_words::Request;
use fb_base::{Fetch, Shelf};
use fb_types::Items;
use std::alloc::Global;

/// The greatest length of a document, in bytes.
fn limit(document: Document) -> u64
    ensures { result ≡ limit_of document }
{
    match document {
        Document::Certificate => 536_870_912,
        Document::Grid
        | Document::Crac
        | Document::Settings
        | Document::Glsk
        | Document::Reductions
        | Document::Rows => 67_108_864,
    }
}

/// The bytes of a document that the request names.
pub fn fetch_document<H: Shelf>(
    alloc: Global,
    request: &Request<'_>,
    document: Document,
    shelf: &mut H,
) -> Result<Items<u8>, Fault>
    requires { names_of request.now document ≢ None }
    ensures still_tells { H.tells shelf.new ≡ H.tells shelf.old }
    ensures still_held { H.held shelf.new ≡ H.held shelf.old }
    ensures never_falls { H.faults shelf.old ≤ H.faults shelf.new }
    ensures step { fetched (names_of request.now) (shelf_seen H.tells H.held H.faults H.last_failed shelf.old shelf.new) document result }
{
    let Some(name) = name_for(request, document) else {
        unreachable!()
    };
    match shelf.fetch(alloc, name, limit(document)) {
        Ok(bytes) => Ok(Items::from_vec(bytes)),
        Err(Fetch::Failed) => Err(Fault::ReadFault { document }),
        Err(Fetch::TooLong { limit }) => Err(Fault::TooLong { document, limit }),
        Err(Fetch::Memory(e)) => Err(Fault::Memory(e)),
    }
}

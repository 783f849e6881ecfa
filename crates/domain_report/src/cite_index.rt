//! Cites, found by the number of the row that they remove.

ghost use Rattle.std.specs.Prelude.{◌≡◌, IfOk, map};
ghost use Rattle.std.specs.Option.{option_copied};
ghost use Rattle.domain_report.specs.DomainTexts.{cite_of};
ghost use Rattle.domain_report.specs.Standings.{AreCitesOf, IsCiteIndex, IsIndexFor};

use fb_certificate::{Certificate, Cite};
use place_tables::first_places;
use std::alloc::{AllocError, Global};

/// The cites of a list, and the place of each by the number of its row.
#[derive(Drop)]
pub(crate) struct CiteIndex<'a> {
    cites: &'a [Cite],
    places: Vec<Option<usize>>,
}

/// The cites of both lists of a domain.
#[derive(Drop)]
pub(crate) struct Cites<'a> {
    pub inner: CiteIndex<'a>,
    pub outer: CiteIndex<'a>,
}

/// The number of the row that each cite removes.
fn cited_rows(alloc: Global, cites: &[Cite]) -> Result<Vec<u32>, AllocError>
    ensures { IfOk result (λ rows. rows.items ≡ map (λ cite. cite.row) cites.now) }
{
    let mut rows = Vec::new(alloc);
    for cite in cites {
        rows.push(cite.row)?;
    }
    Ok(rows)
}

impl<'a> CiteIndex<'a> {
    /// An index for rows with numbers below `count`.
    fn new(alloc: Global, count: u32, cites: &'a [Cite]) -> Result<CiteIndex<'a>, AllocError>
        ensures { IfOk result (λ index. IsCiteIndex count cites.now index) }
    {
        let rows = cited_rows(alloc, cites)?;
        let places = first_places(alloc, count, rows.as_slice())?;
        Ok(CiteIndex { cites, places })
    }

    /// The first cite of the row with this number, which is below the count.
    pub(crate) fn cite_of(&self, number: u32) -> Option<&'a Cite>
        requires { IsIndexFor number self.now }
        ensures { option_copied result ≡ cite_of self.now.cites.now number }
    {
        let place = self.places[number as usize]?;
        self.cites.get(place)
    }
}

impl<'a> Cites<'a> {
    /// The cites of a certificate, for rows with numbers below `count`.
    pub(crate) fn new(
        alloc: Global,
        count: u32,
        certificate: &'a Certificate,
    ) -> Result<Cites<'a>, AllocError>
        ensures { IfOk result (λ cites. AreCitesOf count certificate.now cites) }
    {
        Ok(Cites {
            inner: CiteIndex::new(alloc, count, certificate.inner.as_slice())?,
            outer: CiteIndex::new(alloc, count, certificate.outer.as_slice())?,
        })
    }
}

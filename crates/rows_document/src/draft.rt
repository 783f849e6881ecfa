//! A document that is being read, record by record.

ghost use Rattle.std.specs.Prelude.{◌≡◌, OnOk};
ghost use Rattle.rows_document.specs.Drafts.{start, takes, after, finished};

use crate::reader::RowsDocument;
use crate::record::Record;
use fb_types::{Bounds, Half, Items, Mult, Multipliers};
use std::alloc::{AllocError, Global};

/// The records so far.
#[derive(Debug, Drop)]
pub struct Draft {
    pub bounds: Items<Bounds>,
    pub rows: Items<Half>,
    pub target: Option<Half>,
    pub mults: Items<Mult>,
    pub mu: Option<i128>,
}

impl Draft {
    pub fn new(alloc: Global) -> Draft
        ensures { result ≡ start }
    {
        Draft {
            bounds: Items::new(alloc),
            rows: Items::new(alloc),
            target: None,
            mults: Items::new(alloc),
            mu: None,
        }
    }

    /// Whether the record may stand next.
    pub fn takes(&self, next: &Record) -> bool
        ensures { result ≡ takes self.now next.now }
    {
        match next {
            Record::Zone(_) => self.target.is_none()
                && self.rows.len() == 0
                && self.bounds.len() < 64,
            Record::Row(h) => {
                self.target.is_none()
                    && 0 < self.bounds.len()
                    && h.a.len() == self.bounds.len()
                    && self.rows.len() < 40_000
            }
            Record::Target(h) => {
                self.target.is_none() && 0 < self.bounds.len() && h.a.len() == self.bounds.len()
            }
            Record::Cite(_) => self.target.is_some() && self.mu.is_none(),
            Record::Balance(_) => self.target.is_some() && self.mu.is_none(),
        }
    }

    /// Adds the record.
    pub fn take(&mut self, next: Record) -> Result<(), AllocError>
        ensures { OnOk result (self.new ≡ after self.old next) }
    {
        match next {
            Record::Zone(b) => self.bounds.add(b)?,
            Record::Row(h) => self.rows.add(h)?,
            Record::Target(h) => self.target = Some(h),
            Record::Cite(m) => self.mults.add(m)?,
            Record::Balance(mu) => self.mu = Some(mu),
        }
        Ok(())
    }

    /// The document, if it is whole.
    pub fn finish(self) -> Option<RowsDocument>
        ensures { result ≡ finished self }
    {
        let Draft {
            bounds,
            rows,
            target,
            mults,
            mu,
        } = self;
        match (target, mu) {
            (Some(target), Some(mu)) => Some(RowsDocument {
                bounds,
                rows,
                target,
                by: Multipliers { mu, mults },
            }),
            _ => None,
        }
    }
}

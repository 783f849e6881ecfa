//! A certificate that is being read, record by record.

ghost use Rattle.std.specs.Prelude.{◌≡◌, IfOk};
ghost use Rattle.certificate_reader.specs.Drafts.{start, takes, after, finished, closed, closed_at, column_at, ended, with_column};

use crate::record::Record;
use cnec_rows::RowProof;
use fb_certificate::{Certificate, Cite};
use fb_types::{Angles, Items};
use state_proofs::StateProof;
use std::alloc::{AllocError, Global};

/// The kind of the last record, with what is open there.
#[derive(Debug, Drop)]
pub enum Last {
    Nothing,
    Version,
    State,
    Barrier(Items<i128>),
    Column(StateProof),
    Row,
    Inner,
    Outer,
    End,
}

/// The records so far.
#[derive(Debug, Drop)]
pub struct Draft {
    pub last: Last,
    /// The states before the one that is open.
    pub states: Items<StateProof>,
    pub rows: Items<RowProof>,
    pub inner: Items<Cite>,
    pub outer: Items<Cite>,
}

impl Draft {
    pub fn new(alloc: Global) -> Draft
        ensures { result ≡ start }
    {
        Draft {
            last: Last::Nothing,
            states: Items::new(alloc),
            rows: Items::new(alloc),
            inner: Items::new(alloc),
            outer: Items::new(alloc),
        }
    }

    /// Whether the record may stand next.
    pub fn takes(&self, next: &Record) -> bool
        ensures { result ≡ takes self.now next.now }
    {
        match next {
            Record::Version => matches!(self.last, Last::Nothing),
            Record::State(_) => matches!(self.last, Last::Version | Last::Column(_)),
            Record::Barrier(_) => matches!(self.last, Last::State),
            Record::Column(_) => matches!(self.last, Last::Barrier(_) | Last::Column(_)),
            Record::Row(_) => matches!(self.last, Last::Version | Last::Column(_) | Last::Row),
            Record::Inner(_) => {
                matches!(
                    self.last,
                    Last::Version | Last::Column(_) | Last::Row | Last::Inner
                )
            }
            Record::Outer(_) | Record::End => matches!(
                self.last,
                Last::Version | Last::Column(_) | Last::Row | Last::Inner | Last::Outer
            ),
        }
    }

    /// The draft with the record at its end.
    pub fn take(self, alloc: Global, next: Record) -> Result<Draft, AllocError>
        ensures { IfOk result (λ d. d ≡ after self next) }
    {
        match next {
            Record::Version => Ok(self.end_with(Last::Version)),
            Record::State(_named) => self.close(Last::State),
            Record::Barrier(barrier) => Ok(self.end_with(Last::Barrier(barrier.heights))),
            Record::Column(column) => self.take_column(alloc, column.angles),
            Record::Row(row) => {
                let mut draft = self.close(Last::Row)?;
                draft.rows.add(row.proof)?;
                Ok(draft)
            }
            Record::Inner(cite) => {
                let mut draft = self.close(Last::Inner)?;
                draft.inner.add(cite)?;
                Ok(draft)
            }
            Record::Outer(cite) => {
                let mut draft = self.close(Last::Outer)?;
                draft.outer.add(cite)?;
                Ok(draft)
            }
            Record::End => self.close(Last::End),
        }
    }

    /// The draft with `last` at its end.
    fn end_with(self, last: Last) -> Draft
        ensures { result ≡ ended self last }
    {
        let Draft {
            last: _open,
            states,
            rows,
            inner,
            outer,
        } = self;
        Draft {
            last,
            states,
            rows,
            inner,
            outer,
        }
    }

    /// The draft with what was open closed, and `last` at its end.
    fn close(self, last: Last) -> Result<Draft, AllocError>
        ensures { IfOk result (λ d. d ≡ closed_at self last) }
    {
        let Draft {
            last: open,
            states,
            rows,
            inner,
            outer,
        } = self;
        let states = closed(states, open)?;
        Ok(Draft {
            last,
            states,
            rows,
            inner,
            outer,
        })
    }

    /// The draft with a column at its end.
    fn take_column(self, alloc: Global, angles: Angles) -> Result<Draft, AllocError>
        ensures { IfOk result (λ d. d ≡ column_at self angles) }
    {
        let Draft {
            last,
            states,
            rows,
            inner,
            outer,
        } = self;
        let last = with_column(alloc, last, angles)?;
        Ok(Draft {
            last,
            states,
            rows,
            inner,
            outer,
        })
    }

    /// The certificate, if it is whole.
    pub fn finish(self) -> Option<Certificate>
        ensures { result ≡ finished self }
    {
        let Draft {
            last,
            states,
            rows,
            inner,
            outer,
        } = self;
        match last {
            Last::End => Some(Certificate {
                version: 1,
                states,
                rows,
                inner,
                outer,
            }),
            _ => None,
        }
    }
}

/// The states with the one that is open.
fn closed(mut states: Items<StateProof>, last: Last) -> Result<Items<StateProof>, AllocError>
    ensures { IfOk result (λ all. all ≡ closed states last) }
{
    match last {
        Last::Column(open) => {
            states.add(open)?;
            Ok(states)
        }
        _ => Ok(states),
    }
}

/// What is open with one column more: the first column of a state is its reference.
fn with_column(alloc: Global, last: Last, angles: Angles) -> Result<Last, AllocError>
    ensures { IfOk result (λ next. next ≡ with_column last angles) }
{
    match last {
        Last::Barrier(barrier) => Ok(Last::Column(StateProof {
            barrier,
            reference: angles,
            blocks: Items::new(alloc),
        })),
        Last::Column(open) => {
            let StateProof {
                barrier,
                reference,
                mut blocks,
            } = open;
            blocks.add(angles)?;
            Ok(Last::Column(StateProof {
                barrier,
                reference,
                blocks,
            }))
        }
        other => Ok(other),
    }
}

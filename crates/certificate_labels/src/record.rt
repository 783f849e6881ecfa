//! What is due at a record of a certificate's text.

ghost use Rattle.std.specs.Prelude.{◌≡◌, IfOk, option_map, string_bytes};
ghost use Rattle.certificate_labels.specs.Kinds.{id_of, key_of, kind_of};

use std::alloc::{AllocError, Global};

/// A record that is due. States are numbered from 0, and zones, blocks and rows from 1.
#[derive(Clone, Copy, Debug)]
pub(crate) enum Due<'a> {
    Version,
    /// A state, with the id of its contingency.
    State {
        number: usize,
        id: &'a str,
    },
    Barrier {
        state: usize,
    },
    /// The column of a block, or of the reference, whose zone and block are 0.
    Column {
        state: usize,
        zone: usize,
        block: usize,
    },
    Row {
        number: usize,
    },
}

impl<'a> Due<'a> {
    /// The record's kind, its first field.
    pub(crate) fn kind(&self) -> &'static str
        ensures { result.now ≡ kind_of self.now }
    {
        match self {
            Due::Version => "version",
            Due::State { .. } => "state",
            Due::Barrier { .. } => "barrier",
            Due::Column { .. } => "column",
            Due::Row { .. } => "row",
        }
    }

    /// The record's key, its second field.
    pub(crate) fn key(&self, alloc: Global) -> Result<String, AllocError>
        ensures { IfOk result (λ text. string_bytes text ≡ key_of self.now) }
    {
        match self {
            Due::Version => Ok(String::new(alloc)),
            Due::State { number, .. } => format!(in alloc; "{number}"),
            Due::Barrier { state } => format!(in alloc; "{state}"),
            Due::Column { state, zone, block } => format!(in alloc; "{state} {zone} {block}"),
            Due::Row { number } => format!(in alloc; "{number}"),
        }
    }

    /// The id of a state, its third field.
    pub(crate) fn id(&self) -> Option<&'a str>
        ensures { option_map (λ id. id.now) result ≡ id_of self.now }
    {
        match self {
            Due::State { id, .. } => Some(*id),
            _ => None,
        }
    }
}

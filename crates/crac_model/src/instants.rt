//! The instants of a CRAC.

ghost use Rattle.std.specs.Prelude.{◌≡◌, IfOk};
ghost use Rattle.json_reading.specs.Outcome.{Gives, same};
ghost use Rattle.json_reading.specs.Here.{at_of};
ghost use Rattle.crac_model.specs.Words.{instant_kind, is_preventive};
ghost use Rattle.crac_model.specs.Crac.{kinds_of, instant_of, default_kinds, instants_of};

use crate::fault::CracKind;
use crate::names::{note, note_new};
use fb_types::Text;
use json_reading::{Here, ItemReader, ReadError, optional_array};
use name_tables::ValueTable;
use std::alloc::{AllocError, Global};

/// What an instant is.
#[derive(Clone, Copy, Debug, PartialEq, Eq)]
pub enum InstantKind {
    /// Before any contingency.
    Preventive,
    Outage,
    Auto,
    Curative,
}

/// An instant of the document.
#[derive(Debug, Drop)]
pub struct Instant {
    pub id: Text,
    pub kind: InstantKind,
}

fn instant_kind(word: &str) -> Option<InstantKind>
    ensures { result ≡ instant_kind word.now }
{
    match word {
        "PREVENTIVE" => Some(InstantKind::Preventive),
        "OUTAGE" => Some(InstantKind::Outage),
        "AUTO" => Some(InstantKind::Auto),
        "CURATIVE" => Some(InstantKind::Curative),
        _ => None,
    }
}

/// Whether an element of such an instant is monitored in the base state.
pub fn is_preventive(kind: InstantKind) -> bool
    ensures { result ≡ is_preventive kind }
{
    matches!(kind, InstantKind::Preventive)
}

struct InstantReader;

impl ItemReader for InstantReader {
    type Item = Instant;

    type Kind = CracKind;

    type Index = ValueTable<InstantKind>;

    ghost reads = { λ _. instant_of };

    ghost keeps = { λ kinds before. kinds ≡ kinds_of before };

    #[tactic(auto, using(json_reading::proofs::Refused::refused, crate::proofs::TableLaws::push_instant), unfolding(crate::specs::Crac::instant_of))]
    fn read(
        &self,
        alloc: Global,
        index: &mut ValueTable<InstantKind>,
        _before: &[Instant],
        at: &Here<'_, CracKind>,
    ) -> Result<Option<Instant>, ReadError<CracKind>> {
        let id = at.required_text(alloc, "id")?;
        if index.get(id).is_some() {
            return Err(at.fault_in(alloc, "id", CracKind::DuplicateId));
        }
        let word = at.required_text(alloc, "kind")?;
        let kind = at.found_or(alloc, "kind", CracKind::WrongType, instant_kind(word))?;
        note_new(alloc, index, id, kind)?;
        let id = Text::from_text(alloc, id)?;
        Ok(Some(Instant { id, kind }))
    }
}

/// The kinds of the instants that a document has if it lists none.
fn default_kinds(alloc: Global) -> Result<ValueTable<InstantKind>, AllocError>
    ensures { IfOk result (λ kinds. kinds ≡ default_kinds) }
{
    let mut kinds = ValueTable::new(alloc);
    note(alloc, &mut kinds, "preventive", InstantKind::Preventive)?;
    note(alloc, &mut kinds, "outage", InstantKind::Outage)?;
    note(alloc, &mut kinds, "auto", InstantKind::Auto)?;
    note(alloc, &mut kinds, "curative", InstantKind::Curative)?;
    Ok(kinds)
}

/// The kinds of the instants by their ids.
#[tactic(auto, unfolding(crate::specs::Crac::instants_of))]
pub fn read_instants(
    alloc: Global,
    at: &Here<'_, CracKind>,
) -> Result<ValueTable<InstantKind>, ReadError<CracKind>>
    ensures { Gives same result (instants_of (at_of at.now)) }
{
    let mut kinds = ValueTable::new(alloc);
    match optional_array(alloc, &InstantReader, &mut kinds, at, "instants")? {
        Some(_) => Ok(kinds),
        None => {
            let kinds = default_kinds(alloc)?;
            Ok(kinds)
        }
    }
}

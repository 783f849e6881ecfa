//! Lines and transformers.

ghost use Rattle.std.specs.Prelude.{◌≡◌, Some, string_bytes};
ghost use Rattle.ucte_reader.specs.Codes.{id_text as text_of_id};
ghost use Rattle.ucte_reader.specs.Branches.{status_in, branch_of, phase_by};
ghost use Rattle.ucte_reader.specs.Steps.{Makes, end_fault, AreEnds, electrical_fault, names_in, place_in, shift_in};

use crate::block::Form;
use crate::codes::{code_text, id_text, is_code};
use crate::electrical::read_electrical;
use crate::kind::{GridKind, LineError};
use crate::known::{Known, place, shift};
use crate::status::{Status, is_in_operation, kind_of, status_of};
use fb_types::{Branch, Text};
use name_tables::NameTable;
use std::alloc::Global;
use ucte_lines::fields::field;

const MOST_BRANCHES: usize = 16384;

/// The places of a branch's nodes.
#[derive(Clone, Copy)]
pub struct Ends {
    pub from: u32,
    pub to: u32,
}

/// The ends of a line.
fn find_ends(alloc: Global, known: &Known, line: &[char]) -> Result<Ends, LineError>
    ensures { Makes result (end_fault (names_in known.now).is_node line.now) (AreEnds known.now line.now) }
{
    let first = field(line, 1, 8);
    let second = field(line, 10, 17);
    if !is_code(first) || !is_code(second) {
        return Err(LineError::Fault(GridKind::BadCode));
    }
    let first = code_text(alloc, first)?;
    let second = code_text(alloc, second)?;
    match (place(known, first.as_str()), place(known, second.as_str())) {
        (Some(from), Some(to)) => Ok(Ends { from, to }),
        _ => Err(LineError::Fault(GridKind::UnknownNode)),
    }
}

fn phase(known: &Known, form: Form, id: &str) -> i64
    ensures { result ≡ phase_by (shift_in known.now) form id.now }
{
    match form {
        Form::Line => 0,
        Form::Transformer => shift(known, id),
    }
}

/// The branch of a line whose ends and status are known.
fn read_branch(
    alloc: Global,
    known: &Known,
    form: Form,
    status: Status,
    ends: Ends,
    line: &[char],
    id: String,
) -> Result<Branch, LineError>
    requires ends { AreEnds known.now line.now ends }
    requires status { status_in form line.now ≡ Some status }
    requires id { string_bytes id ≡ text_of_id line.now }
    ensures { Makes result (electrical_fault form status line.now) (λ b. b ≡ branch_of (place_in known.now) (shift_in known.now) form line.now) }
{
    let electrical = read_electrical(alloc, form, status, line)?;
    let phi = phase(known, form, id.as_str());
    Ok(Branch {
        id: Text::from_string(id),
        kind: kind_of(form, status),
        from: ends.from,
        to: ends.to,
        in_operation: is_in_operation(status),
        b: electrical.b,
        phi,
        current: electrical.current,
        floored: electrical.floored,
    })
}

/// The branches so far, with their ids.
#[derive(Drop)]
pub struct Branches {
    pub branches: Vec<Branch>,
    pub ids: NameTable,
}

impl Branches {
    ghost use Rattle.std.specs.Prelude.{◌≡◌, ◌++◌, ◌∷◌, [], OnOk};
    ghost use Rattle.ucte_reader.specs.Branches.{branch_of, branch_fault};
    ghost use Rattle.ucte_reader.specs.Steps.{Judges, AreEnds, KeepsBranches, IsBranchNamed, branch_ids, branch_limit_fault, joined_fault, names_in, place_in, shift_in};

    pub fn new(alloc: Global) -> Self
        ensures kept { KeepsBranches result }
        ensures none { result.branches.items ≡ [] }
    {
        Branches {
            branches: Vec::new(alloc),
            ids: NameTable::new(alloc),
        }
    }

    /// Adds a branch whose id is noted already.
    fn push(&mut self, branch: Branch) -> Result<(), LineError>
        requires { IsBranchNamed self.old branch.id }
        ensures kept { OnOk result (KeepsBranches self.new) }
        ensures branch { OnOk result (self.new.branches.items ≡ self.old.branches.items ++ branch ∷ []) }
        ensures fault { Judges result (branch_limit_fault (branch_ids self.old.branches.items)) }
    {
        if self.branches.len() >= MOST_BRANCHES {
            return Err(LineError::Fault(GridKind::TooMany));
        }
        self.branches.push(branch)?;
        Ok(())
    }

    /// Adds the branch of a line whose ends are known.
    fn add_joined(
        &mut self,
        alloc: Global,
        known: &Known,
        form: Form,
        ends: Ends,
        line: &[char],
    ) -> Result<(), LineError>
        requires kept { KeepsBranches self.old }
        requires ends { AreEnds known.now line.now ends }
        ensures kept { OnOk result (KeepsBranches self.new) }
        ensures branch { OnOk result (self.new.branches.items ≡ self.old.branches.items ++ branch_of (place_in known.now) (shift_in known.now) form line.now ∷ []) }
        ensures fault { Judges result (joined_fault (branch_ids self.old.branches.items) form line.now) }
    {
        let Some(status) = status_of(form, field(line, 21, 21)) else {
            return Err(LineError::Fault(GridKind::BadStatus));
        };
        let id = id_text(alloc, line)?;
        if !self.ids.add(id.clone()?)? {
            return Err(LineError::Fault(GridKind::DuplicateBranch));
        }
        let branch = read_branch(alloc, known, form, status, ends, line, id)?;
        self.push(branch)
    }

    /// Adds the branch of a line in a block of lines or of transformers.
    #[tactic(auto, unfolding(crate::specs::Branches::branch_fault))]
    pub fn add(
        &mut self,
        alloc: Global,
        known: &Known,
        form: Form,
        line: &[char],
    ) -> Result<(), LineError>
        requires { KeepsBranches self.old }
        ensures kept { OnOk result (KeepsBranches self.new) }
        ensures branch { OnOk result (self.new.branches.items ≡ self.old.branches.items ++ branch_of (place_in known.now) (shift_in known.now) form line.now ∷ []) }
        ensures fault { Judges result (branch_fault (names_in known.now).is_node (branch_ids self.old.branches.items) form line.now) }
    {
        let ends = find_ends(alloc, known, line)?;
        self.add_joined(alloc, known, form, ends, line)
    }
}

//! Regulation lines.

ghost use Rattle.std.specs.Prelude.{◌≡◌, ◌≤◌, ◌^◌, ◌++◌, ◌∷◌, [], nat_abs, Ok, IfOk, IfSome, OnOk};
ghost use Rattle.ucte_reader.specs.Codes.{id_text as text_of_id};
ghost use Rattle.ucte_reader.specs.Regulations.{type_at, whole_tap as whole_tap_of, tap_in, is_symmetrical as is_symmetrical_kind, shift_of, regulation_fault};
ghost use Rattle.ucte_reader.specs.Steps.{Makes, Judges, judged_angle, setting_number_fault, phase_fault, setting_answer, setting_fault, IsSetting, names_in};

use crate::codes::{id_text, is_code};
use crate::kind::{GridKind, LineError};
use crate::known::{Known, is_transformer};
use name_tables::NameTable;
use phase_rule::{Regulation, shift};
use std::alloc::{AllocError, Global};
use ucte_lines::fields::{field, number, number_or_zero};

/// 180 degrees in millionths of a degree.
const HALF_TURN: u64 = 180_000_000;

/// 999 taps in millionths of a tap.
const MOST_TAPS: u64 = 999_000_000;

/// What a line regulates: the step in millionths of a per cent, the judged angle in millionths of a degree, the present
/// tap, and the type, if it is one.
#[derive(Clone, Copy)]
pub struct Setting {
    pub step: i64,
    pub angle: i64,
    pub tap: i32,
    pub kind: Option<Regulation>,
}

fn regulation(text: &[char]) -> Option<Regulation>
    ensures { result ≡ type_at text.now }
{
    match text {
        [] => Some(Regulation::Asym),
        ['A', 'S', 'Y', 'M'] => Some(Regulation::Asym),
        ['S', 'Y', 'M', 'M'] => Some(Regulation::Symm),
        _ => None,
    }
}

fn is_symmetrical(kind: Option<Regulation>) -> bool
    ensures { result ≡ is_symmetrical_kind kind }
{
    match kind {
        None => false,
        Some(Regulation::Asym) => false,
        Some(Regulation::Symm) => true,
    }
}

fn whole_tap(number: Option<i64>) -> Option<i32>
    ensures value { result ≡ whole_tap_of number }
    ensures small { IfSome result (λ z. nat_abs z ≤ 999) }
{
    match number {
        None => None,
        Some(z) => {
            if z.unsigned_abs() % 1_000_000 == 0 && z.unsigned_abs() <= MOST_TAPS {
                Some((z / 1_000_000) as i32)
            } else {
                None
            }
        }
    }
}

fn tap(alloc: Global, line: &[char]) -> Result<Option<i32>, AllocError>
    ensures value { IfOk result (λ o. o ≡ tap_in line.now) }
    ensures small { IfOk result (λ o. IfSome o (λ z. nat_abs z ≤ 999)) }
{
    let number = number_or_zero(alloc, field(line, 55, 57))?;
    Ok(whole_tap(number))
}

/// The angle, which is judged where the type is not SYMM and the step is not 0, and else counts as 0.
fn angle(
    alloc: Global,
    kind: Option<Regulation>,
    step: i64,
    line: &[char],
) -> Result<Option<i64>, AllocError>
    ensures { IfOk result (λ o. o ≡ judged_angle kind step line.now) }
{
    if is_symmetrical(kind) || step == 0 {
        return Ok(Some(0));
    }
    number(alloc, field(line, 46, 50))
}

fn read_setting(alloc: Global, line: &[char]) -> Result<Setting, LineError>
    ensures { Makes result (setting_number_fault line.now) (IsSetting line.now) }
{
    let kind = regulation(field(line, 65, 68));
    let step = number_or_zero(alloc, field(line, 40, 44))?;
    let angle = angle(alloc, kind, step.unwrap_or(0), line)?;
    let tap = tap(alloc, line)?;
    let (Some(step), Some(angle), Some(tap)) = (step, angle, tap) else {
        return Err(LineError::Fault(GridKind::BadNumber));
    };
    Ok(Setting {
        step,
        angle,
        tap,
        kind,
    })
}

/// The phase shift of a setting.
fn phase(setting: Setting) -> Result<i64, LineError>
    requires step { nat_abs setting.step ≤ 10 ^ 17 }
    requires tap { nat_abs setting.tap ≤ 999 }
    ensures { Makes result (phase_fault setting) (λ phi. setting_answer setting ≡ Ok phi) }
{
    let Some(kind) = setting.kind else {
        return Err(LineError::Fault(GridKind::BadPhase));
    };
    if setting.angle.unsigned_abs() > HALF_TURN {
        return Err(LineError::Fault(GridKind::BadPhase));
    }
    match shift(setting.step, setting.angle, setting.tap, kind) {
        Ok(phi) => Ok(phi),
        Err(_) => Err(LineError::Fault(GridKind::BadPhase)),
    }
}

/// The phase shift of a line, in 10^-12 rad.
fn read_shift(alloc: Global, line: &[char]) -> Result<i64, LineError>
    ensures { Makes result (setting_fault line.now) (λ phi. phi ≡ shift_of line.now) }
{
    let setting = read_setting(alloc, line)?;
    phase(setting)
}

/// The phase shift of a line, and 0 where its setting has a fault.
#[tactic(auto, unfolding(crate::specs::Regulations::shift_of))]
pub fn shift_or_zero(alloc: Global, line: &[char]) -> Result<i64, AllocError>
    ensures { IfOk result (λ phi. phi ≡ shift_of line.now) }
{
    match read_shift(alloc, line) {
        Ok(phi) => Ok(phi),
        Err(LineError::Fault(_)) => Ok(0),
        Err(LineError::Memory(e)) => Err(e),
    }
}

/// Judges a regulation line, knowing the transformers of the file and the ids of the regulations before it.
#[tactic(auto, unfolding(crate::specs::Regulations::regulation_fault))]
pub fn judge_regulation(
    alloc: Global,
    known: &Known,
    regulated: &mut NameTable,
    line: &[char],
) -> Result<(), LineError>
    ensures regulated { OnOk result (regulated.new ≡ regulated.old ++ text_of_id line.now ∷ []) }
    ensures fault { Judges result (regulation_fault (names_in known.now).is_transformer regulated.old line.now) }
{
    if !is_code(field(line, 1, 8)) || !is_code(field(line, 10, 17)) {
        return Err(LineError::Fault(GridKind::BadCode));
    }
    let id = id_text(alloc, line)?;
    if !is_transformer(known, id.as_str()) {
        return Err(LineError::Fault(GridKind::UnknownBranch));
    }
    if !regulated.add(id)? {
        return Err(LineError::Fault(GridKind::DuplicateBranch));
    }
    read_shift(alloc, line)?;
    Ok(())
}

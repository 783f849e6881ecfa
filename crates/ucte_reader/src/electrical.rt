//! The numbers of lines and transformers.

ghost use Rattle.std.specs.Prelude.{◌≡◌, ◌≤◌, ◌^◌, pos, nat_abs, IfOk, IfSome, IsTrue};
ghost use Rattle.ucte_reader.specs.Codes.{first_code, is_code};
ghost use Rattle.ucte_reader.specs.Branches.{reactance_in, level_voltage, rated_voltage as rated_voltage_of, voltage_in, current_limit_at, current_limit_of, current_limit_in, raised as raised_of, susceptance_of};
ghost use Rattle.ucte_reader.specs.Steps.{Makes, number_fault, AreNumbers, running_fault, electrical_fault, IsElectrical};

use crate::block::Form;
use crate::codes::level_of;
use crate::kind::{GridKind, LineError};
use crate::status::{Status, is_coupler, is_running};
use std::alloc::{AllocError, Global};
use ucte_lines::fields::{field, number};

/// The voltages of the levels, in kV.
const LEVELS: [u32; 10] = [750, 380, 220, 150, 120, 110, 70, 27, 330, 500];

/// 1000 kV in millionths of a kilovolt.
const GREATEST_VOLTAGE: u64 = 1_000_000_000;

/// 0.05 ohm in millionths of an ohm.
const LEAST_REACTANCE: u64 = 50_000;

/// 10^11 kW/rad.
const GREATEST_SUSCEPTANCE: u128 = 100_000_000_000;

/// The numbers of a line: the reactance in millionths of an ohm, 0 if it has none, the voltage in millionths of a kilovolt,
/// and the current limit in mA, if there is one.
#[derive(Clone, Copy)]
pub struct Numbers {
    pub reactance: i64,
    pub voltage: u32,
    pub current: Option<i64>,
}

/// What the numbers of a line give its branch.
#[derive(Clone, Copy)]
pub struct Electrical {
    pub b: i64,
    pub current: Option<i64>,
    pub floored: bool,
}

fn reactance(alloc: Global, form: Form, line: &[char]) -> Result<Option<i64>, AllocError>
    ensures value { IfOk result (λ o. o ≡ reactance_in form line.now) }
    ensures small { IfOk result (λ o. IfSome o (λ z. nat_abs z ≤ 10 ^ 17)) }
{
    match form {
        Form::Line => number(alloc, field(line, 30, 35)),
        Form::Transformer => number(alloc, field(line, 48, 53)),
    }
}

fn voltage_of_level(level: u8) -> u32
    requires { level ≤ 9 }
    ensures value { result ≡ level_voltage level }
    ensures small { result ≤ 10 ^ 9 }
{
    LEVELS[level as usize] * 1_000_000
}

fn rated_voltage(number: Option<i64>) -> Option<u32>
    ensures value { result ≡ rated_voltage_of number }
    ensures small { IfSome result (λ n. n ≤ 10 ^ 9) }
{
    match number {
        None => None,
        Some(z) => {
            if z > 0 && z.unsigned_abs() <= GREATEST_VOLTAGE {
                Some(z.unsigned_abs() as u32)
            } else {
                None
            }
        }
    }
}

fn voltage(alloc: Global, form: Form, line: &[char]) -> Result<Option<u32>, AllocError>
    requires { IsTrue (is_code (first_code line.now)) }
    ensures value { IfOk result (λ o. o ≡ voltage_in form line.now) }
    ensures small { IfOk result (λ o. IfSome o (λ n. n ≤ 10 ^ 9)) }
{
    match form {
        Form::Line => Ok(Some(voltage_of_level(level_of(field(line, 1, 8))))),
        Form::Transformer => {
            let number = number(alloc, field(line, 23, 27))?;
            Ok(rated_voltage(number))
        }
    }
}

fn limit_from(number: Option<i64>) -> Option<Option<i64>>
    ensures { result ≡ current_limit_at number }
{
    match number {
        None => None,
        Some(z) => {
            if z < 0 {
                None
            } else if z == 0 {
                Some(None)
            } else {
                Some(Some(z / 1000))
            }
        }
    }
}

#[tactic(auto, unfolding(crate::specs::Branches::current_limit_of))]
fn limit(alloc: Global, text: &[char]) -> Result<Option<Option<i64>>, AllocError>
    ensures { IfOk result (λ o. o ≡ current_limit_of text.now) }
{
    if text.is_empty() {
        return Ok(Some(None));
    }
    let number = number(alloc, text)?;
    Ok(limit_from(number))
}

fn current_limit(
    alloc: Global,
    form: Form,
    line: &[char],
) -> Result<Option<Option<i64>>, AllocError>
    ensures { IfOk result (λ o. o ≡ current_limit_in form line.now) }
{
    match form {
        Form::Line => limit(alloc, field(line, 46, 51)),
        Form::Transformer => limit(alloc, field(line, 71, 76)),
    }
}

/// The numbers of a line whose first code is good.
fn read_numbers(
    alloc: Global,
    form: Form,
    needs_reactance: bool,
    line: &[char],
) -> Result<Numbers, LineError>
    requires { IsTrue (is_code (first_code line.now)) }
    ensures { Makes result (number_fault form needs_reactance line.now) (AreNumbers form line.now) }
{
    let reactance = reactance(alloc, form, line)?;
    let voltage = voltage(alloc, form, line)?;
    let limit = current_limit(alloc, form, line)?;
    let (Some(voltage), Some(current)) = (voltage, limit) else {
        return Err(LineError::Fault(GridKind::BadNumber));
    };
    match reactance {
        Some(reactance) => Ok(Numbers {
            reactance,
            voltage,
            current,
        }),
        None => {
            if needs_reactance {
                return Err(LineError::Fault(GridKind::BadNumber));
            }
            Ok(Numbers {
                reactance: 0,
                voltage,
                current,
            })
        }
    }
}

fn raised(reactance: u64) -> u64
    ensures { result ≡ raised_of reactance }
{
    if reactance < LEAST_REACTANCE {
        LEAST_REACTANCE
    } else {
        reactance
    }
}

/// voltage^2 / reactance, rounded to the next whole number.
#[tactic(auto, unfolding(crate::specs::Branches::susceptance_of))]
fn susceptance(voltage: u32, reactance: u64) -> u128
    requires some { 50000 ≤ reactance }
    requires voltage { voltage ≤ 10 ^ 9 }
    ensures { result ≡ susceptance_of voltage reactance }
{
    let voltage = voltage as u128;
    let reactance = reactance as u128;
    (2 * voltage.pow(2) + 1000 * reactance) / (2000 * reactance)
}

/// The susceptance of a branch in operation, in kW/rad.
fn running(voltage: u32, reactance: i64) -> Result<i64, LineError>
    requires { voltage ≤ 10 ^ 9 }
    ensures { Makes result (running_fault voltage reactance) (λ b. b ≡ pos (susceptance_of voltage (raised_of (nat_abs reactance)))) }
{
    if reactance < 0 {
        return Err(LineError::Fault(GridKind::NegativeReactance));
    }
    let b = susceptance(voltage, raised(reactance.unsigned_abs()));
    if b < 1 || GREATEST_SUSCEPTANCE < b {
        return Err(LineError::Fault(GridKind::SusceptanceOutOfRange));
    }
    Ok(b as i64)
}

/// What the numbers of a line give its branch; its first code is good.
pub fn read_electrical(
    alloc: Global,
    form: Form,
    status: Status,
    line: &[char],
) -> Result<Electrical, LineError>
    requires { IsTrue (is_code (first_code line.now)) }
    ensures { Makes result (electrical_fault form status line.now) (IsElectrical form status line.now) }
{
    let numbers = read_numbers(alloc, form, !is_coupler(status), line)?;
    if !is_running(status) {
        return Ok(Electrical {
            b: 0,
            current: numbers.current,
            floored: false,
        });
    }
    let b = running(numbers.voltage, numbers.reactance)?;
    Ok(Electrical {
        b,
        current: numbers.current,
        floored: numbers.reactance.unsigned_abs() < LEAST_REACTANCE,
    })
}

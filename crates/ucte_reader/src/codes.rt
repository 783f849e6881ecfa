//! Node codes and the ids of branches.

ghost use Rattle.std.specs.Prelude.{◌≡◌, ◌≤◌, IfOk, IsTrue, string_bytes};
ghost use Rattle.ucte_reader.specs.Codes.{is_code as is_code_text, level_of as level_of_code, code_text as text_of_code, id_text as text_of_id};

use std::alloc::{AllocError, Global};
use ucte_lines::fields::{field, put_padded, text_of};

/// Whether the field is a node code: it has at least 7 characters, of which the seventh is a digit.
#[tactic(auto, unfolding(crate::specs::Codes::is_code))]
pub fn is_code(code: &[char]) -> bool
    ensures { result ≡ is_code_text code.now }
{
    code.len() >= 7 && code[6].is_ascii_digit()
}

/// The digit of the voltage level.
#[tactic(auto, unfolding(crate::specs::Codes::is_code, crate::specs::Codes::level_of))]
pub fn level_of(code: &[char]) -> u8
    requires { IsTrue (is_code_text code.now) }
    ensures digit { result ≡ level_of_code code.now }
    ensures small { result ≤ 9 }
{
    (code[6] as u32 - 48) as u8
}

/// The code with 8 characters.
#[tactic(auto, unfolding(crate::specs::Codes::code_text))]
pub fn code_text(alloc: Global, code: &[char]) -> Result<String, AllocError>
    ensures { IfOk result (λ text. string_bytes text ≡ text_of_code code.now) }
{
    let mut characters = Vec::new(alloc);
    put_padded(&mut characters, code, 8)?;
    text_of(alloc, &characters)
}

/// The id of the branch that the line names: 19 characters.
#[tactic(auto, unfolding(crate::specs::Codes::id_text))]
pub fn id_text(alloc: Global, line: &[char]) -> Result<String, AllocError>
    ensures { IfOk result (λ text. string_bytes text ≡ text_of_id line.now) }
{
    let mut id = Vec::new(alloc);
    put_padded(&mut id, field(line, 1, 8), 8)?;
    id.push(' ')?;
    put_padded(&mut id, field(line, 10, 17), 8)?;
    id.push(' ')?;
    put_padded(&mut id, field(line, 19, 19), 1)?;
    text_of(alloc, &id)
}

//! The lines of a file.

ghost use Rattle.std.specs.Prelude.{◌≡◌, ◌∷◌, ◌≤◌, ◌<◌, ◌+◌, length, map, IfOk, IsTrue};
ghost use Rattle.std.specs.List.{before_first};
ghost use Rattle.std.specs.Str.{chars};
ghost use Rattle.ucte_lines.specs.Lines.{characters_of, pieces_of, without_return as without_return_of, is_blank as is_blank_code, is_blank_line as is_blank_text, is_heading as begins_with_marks, key_of};

use std::alloc::{AllocError, Global};

fn text_characters(alloc: Global, text: &str) -> Result<Vec<char>, AllocError>
    ensures { IfOk result (λ v. v.items ≡ chars text.now) }
{
    text.chars().collect(alloc)
}

fn byte_characters(alloc: Global, bytes: &[u8]) -> Result<Vec<char>, AllocError>
    ensures { IfOk result (λ v. v.items ≡ map (λ b. b) bytes.now) }
{
    bytes.iter().map(|byte| char::from(*byte)).collect(alloc)
}

/// The characters of UTF-8 text, or of ISO 8859-1 where the bytes are no UTF-8.
pub fn characters(alloc: Global, bytes: &[u8]) -> Result<Vec<char>, AllocError>
    ensures { IfOk result (λ v. v.items ≡ characters_of bytes.now) }
{
    match str::from_utf8(bytes) {
        Ok(text) => text_characters(alloc, text),
        Err(_) => byte_characters(alloc, bytes),
    }
}

/// What stands before the first line feed, and what follows it.
pub fn split_line(text: &[char]) -> (&[char], &[char])
    requires { 0 < length text.now }
    ensures lines { pieces_of text.now ≡ result.0.now ∷ pieces_of result.1.now }
    ensures shorter { length result.1.now + 1 ≤ length text.now }
{
    for (at, c) in text.iter().enumerate() {
        if *c == '\n' {
            return (&text[..at], &text[at + 1..]);
        }
    }
    (text, &text[text.len()..])
}

/// The line without one carriage return at its end.
pub fn without_return(line: &[char]) -> &[char]
    ensures { result.now ≡ without_return_of line.now }
{
    if !line.is_empty() && line[line.len() - 1] == '\r' {
        return &line[..line.len() - 1];
    }
    line
}

/// Whether the character is the space.
pub(crate) fn is_blank(c: char) -> bool
    ensures { result ≡ is_blank_code c }
{
    c == ' '
}

/// Whether the line has blanks alone, or nothing.
pub fn is_blank_line(line: &[char]) -> bool
    ensures { result ≡ is_blank_text line.now }
{
    line.iter().all(|c| *c == ' ')
}

/// Whether the line begins with `##`.
pub fn is_heading(line: &[char]) -> bool
    ensures { result ≡ begins_with_marks line.now }
{
    match line {
        [first, second, ..] => *first == '#' && *second == '#',
        _ => false,
    }
}

fn before_blank(text: &[char]) -> &[char]
    ensures { result.now ≡ before_first is_blank_code text.now }
{
    for (at, c) in text.iter().enumerate() {
        if is_blank(*c) {
            return &text[..at];
        }
    }
    text
}

/// What follows `##` up to the first blank.
pub fn key(line: &[char]) -> &[char]
    requires { IsTrue (begins_with_marks line.now) }
    ensures { result.now ≡ key_of line.now }
{
    match line {
        [_, _, rest @ ..] => before_blank(rest),
        _ => line,
    }
}

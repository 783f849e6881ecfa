//! Marking: numbers become texts that begin with `n`, and other texts begin with `s`.

ghost use Rattle.std.specs.Prelude.{◌≡◌, ◌≢◌, ◌<◌, ◌≤◌, true, List, ℕ, [], ◌∷◌, ◌++◌, IfOk, length, take, drop};
ghost use Rattle.fb_json.specs.Marking.{quote, text_mark, is_of_run, begins_run, begins_with, without_byte_order_mark, IsRun, IsMarked};
ghost use Rattle.fb_json.specs.Machine.{spelled, outside, in_text};

use crate::number::is_number;
use std::alloc::{AllocError, Global};

fn is_of_run(byte: u8) -> bool
    ensures { result ≡ is_of_run byte }
{
    matches!(byte, b'0'..=b'9' | b'+' | b'-' | b'.' | b'e' | b'E')
}

fn begins_run(byte: u8) -> bool
    ensures { result ≡ begins_run byte }
{
    matches!(byte, b'0'..=b'9' | b'-')
}

/// How many bytes the run at the front has.
fn run_len(bytes: &[u8]) -> usize
    requires { begins_with begins_run bytes.now ≡ true }
    ensures within { result ≤ length bytes.now }
    ensures run { IsRun (take result bytes.now) (drop result bytes.now) }
{
    for (at, byte) in bytes.iter().enumerate() {
        if !is_of_run(*byte) {
            return at;
        }
    }
    bytes.len()
}

/// How many bytes a string has behind its opening quotation mark, the closing one with them: all where none closes it.
fn string_len(bytes: &[u8]) -> usize
    ensures within { result ≤ length bytes.now }
    ensures string { in_text bytes.now ≡ take result bytes.now ++ outside (drop result bytes.now) }
{
    let mut is_escaped = false;
    for (at, byte) in bytes.iter().enumerate() {
        if is_escaped {
            is_escaped = false;
        } else if *byte == b'"' {
            return at + 1;
        } else {
            is_escaped = *byte == b'\\';
        }
    }
    bytes.len()
}

fn put_run(out: &mut Vec<u8>, run: &[u8]) -> Result<(), AllocError>
    ensures { IfOk result (λ _. out.new.items ≡ out.old.items ++ spelled run.now) }
{
    if is_number(run) {
        out.extend_from_slice(b"\"n")?;
        out.extend_from_slice(run)?;
        out.push(b'"')?;
    } else {
        out.push(b'!')?;
    }
    Ok(())
}

/// Puts the run at the front, and gives what stands behind it.
fn mark_run<'a>(out: &mut Vec<u8>, bytes: &'a [u8]) -> Result<&'a [u8], AllocError>
    requires { begins_with begins_run bytes.now ≡ true }
    ensures marks { IfOk result (λ rest. out.new.items ++ outside rest.now ≡ out.old.items ++ outside bytes.now) }
    ensures shorter { IfOk result (λ rest. length rest.now < length bytes.now) }
{
    let (run, rest) = bytes.split_at(run_len(bytes));
    put_run(out, run)?;
    Ok(rest)
}

/// Puts the string whose opening quotation mark stands before the bytes, and gives what stands behind it.
fn mark_string<'a>(out: &mut Vec<u8>, bytes: &'a [u8]) -> Result<&'a [u8], AllocError>
    ensures marks { IfOk result (λ rest. out.new.items ++ outside rest.now ≡ out.old.items ++ quote ∷ text_mark ∷ in_text bytes.now) }
    ensures shorter { IfOk result (λ rest. length rest.now ≤ length bytes.now) }
{
    let (string, rest) = bytes.split_at(string_len(bytes));
    out.extend_from_slice(b"\"s")?;
    out.extend_from_slice(string)?;
    Ok(rest)
}

/// Puts what stands at the front of the bytes, and gives what stands behind it.
fn mark_front<'a>(out: &mut Vec<u8>, bytes: &'a [u8]) -> Result<&'a [u8], AllocError>
    requires { bytes.now ≢ [] }
    ensures marks { IfOk result (λ rest. out.new.items ++ outside rest.now ≡ out.old.items ++ outside bytes.now) }
    ensures shorter { IfOk result (λ rest. length rest.now < length bytes.now) }
{
    let behind = &bytes[1..];
    if begins_run(bytes[0]) {
        return mark_run(out, bytes);
    }
    if bytes[0] == b'"' {
        return mark_string(out, behind);
    }
    out.push(bytes[0])?;
    Ok(behind)
}

fn without_byte_order_mark(bytes: &[u8]) -> &[u8]
    ensures { result.now ≡ without_byte_order_mark bytes.now }
{
    match bytes {
        [0xEF, 0xBB, 0xBF, rest @ ..] => rest,
        _ => bytes,
    }
}

/// How many bytes are put for a run.
fn run_room(run: &[u8]) -> usize {
    if is_number(run) { run.len() + 3 } else { 1 }
}

/// How many bytes are put for what stands at the front of the bytes, and what stands behind it.
fn front_room(bytes: &[u8]) -> (usize, &[u8])
    requires { bytes.now ≢ [] }
    ensures { length result.1.now < length bytes.now }
{
    let behind = &bytes[1..];
    if begins_run(bytes[0]) {
        let (run, rest) = bytes.split_at(run_len(bytes));
        return (run_room(run), rest);
    }
    if bytes[0] == b'"' {
        let (string, rest) = behind.split_at(string_len(behind));
        return (string.len() + 2, rest);
    }
    (1, behind)
}

/// How many bytes the marking has, so that its buffer is made once.
fn room(bytes: &[u8]) -> usize {
    let mut room: usize = 0;
    let mut rest = bytes;
    while !rest.is_empty() {
        let (front, behind) = front_room(rest);
        room = room.saturating_add(front);
        rest = behind;
    }
    room
}

fn mark_all(alloc: Global, bytes: &[u8]) -> Result<Vec<u8>, AllocError>
    ensures { IfOk result (λ v. v.items ≡ outside bytes.now) }
{
    let mut out = Vec::with_capacity(alloc, room(bytes))?;
    let mut rest = bytes;
    while !rest.is_empty() {
        rest = mark_front(&mut out, rest)?;
    }
    Ok(out)
}

/// The bytes with each number as a text behind `n`, and an `s` before each other text.
pub fn mark(alloc: Global, bytes: &[u8]) -> Result<Vec<u8>, AllocError>
    ensures marks { IfOk result (λ v. IsMarked bytes.now v.items) }

    // Each document has one marking.
    ensures some { (one : List ℕ) × IsMarked bytes.now one }
    ensures only { (one two : List ℕ) → IsMarked bytes.now one → IsMarked bytes.now two → one ≡ two }
{
    mark_all(alloc, without_byte_order_mark(bytes))
}

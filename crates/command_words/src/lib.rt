//! The words of a call of the program. One simple command of `clap` takes them: one word is the command, and options,
//! each with one value, stand before or after it as `--name value` or `--name=value`, each at most once. Then the
//! options are those that the command needs or may have, and numbers are digits alone and within their ranges.
#![tactic(auto)]

mod numbers;
mod request;
mod taking;
#[cfg(test)]
mod tests;

ghost use Rattle.std.specs.Prelude.{◌≡◌, IfErr, IfOk, map, string_bytes};
ghost use Rattle.command_words.specs.Words.{Asks};

pub use request::{Command, Request};
use std::alloc::{AllocError, Global};

/// Why there is no request.
#[derive(Debug, Drop)]
pub enum WordsError {
    /// The words are not taken.
    Usage,
    /// There was no memory to read them.
    Memory(AllocError),
}

/// Reads the words of a call, those after the program's name.
///
/// # Errors
///
/// `Usage` exactly where `clap` does not take the words or the needs of the command are not met: an option that it
/// needs is missing, one that it may not have is there, or a number is not of its form or out of range.
pub fn read_words<'a>(alloc: Global, words: &'a [String]) -> Result<Request<'a>, WordsError>
    ensures ok { IfOk result (Asks (map string_bytes words.now)) }
    ensures usage { IfErr result (λ e. e ≡ WordsError.Usage
        → (request : Request) → ¬ Asks (map string_bytes words.now) request) }
{
    let matches = taking::take(alloc, words)?;
    request::requested(&matches)
}

//! Numbers in words.

ghost use Rattle.std.specs.Prelude.{◌≡◌, ◌==◌, ℕ, Option, slice_index, MatchOption, MatchResult};
ghost use Rattle.std.specs.Option.{option_copied};
ghost use Rattle.command_words.specs.Words.{IsNumber, IsNumberIfGiven, IsWorkers};

use crate::WordsError;

/// The number from `least` to `most` that the text is in digits alone.
fn number(text: &str, least: u64, most: u64) -> Option<u64>
    ensures { MatchOption result ((n : ℕ) → ¬ IsNumber least most text.now n) (IsNumber least most text.now) }
{
    if has_plus(text) {
        return None;
    }
    let Ok(value) = text.parse::<u64>() else {
        return None;
    };
    if least <= value && value <= most {
        Some(value)
    } else {
        None
    }
}

/// Whether the text begins with a plus, which `parse` takes.
fn has_plus(text: &str) -> bool
    ensures { result ≡ (slice_index text.now 0 == 43) }
{
    match text.as_bytes().first() {
        None => false,
        Some(first) => *first == b'+',
    }
}

/// The number that an option's value is, if the option is given.
pub fn number_if_given(text: Option<&str>, least: u64, most: u64) -> Result<Option<u64>, WordsError>
    ensures { MatchResult result (IsNumberIfGiven least most (option_copied text.entry))
        (λ e. (n : Option ℕ) → ¬ IsNumberIfGiven least most (option_copied text.entry) n) }
{
    let Some(text) = text else {
        return Ok(None);
    };
    match number(text, least, most) {
        Some(value) => Ok(Some(value)),
        None => Err(WordsError::Usage),
    }
}

/// How many workers are asked for.
pub fn workers(text: Option<&str>) -> Result<u8, WordsError>
    ensures { MatchResult result (IsWorkers (option_copied text.entry))
        (λ e. (n : ℕ) → ¬ IsWorkers (option_copied text.entry) n) }
{
    let Some(text) = text else {
        return Ok(1);
    };
    match number(text, 1, 64) {
        Some(value) => Ok(value as u8),
        None => Err(WordsError::Usage),
    }
}

//! Instants.

ghost use Rattle.std.specs.Prelude.{◌≡◌};
ghost use Rattle.std.specs.Option.{option_map};
ghost use Rattle.json_reading.specs.Here.{at_of};
ghost use Rattle.json_reading.specs.Outcome.{Gives};
ghost use Rattle.run_settings.specs.Times.{instant_in, moment_of};

use jiff::Timestamp;
use json_reading::{Here, ReadError};
use std::alloc::Global;

/// The instant that a text names: a date and a time of day with an offset from UTC, as `jiff` reads them. None where it
/// names none.
#[tactic(auto, unfolding(crate::specs::Times::instant_in))]
pub fn instant(text: &str) -> Option<Timestamp>
    ensures { option_map (λ t. t.nanosecond) result ≡ instant_in text.now }
{
    match text.parse::<Timestamp>() {
        Ok(moment) => Some(moment),
        Err(_) => None,
    }
}

/// The instant that a member names, which must be there. A text that names none is a fault of the kind `bad_time`.
#[tactic(auto, using(json_reading::proofs::Refused::refused), unfolding(crate::specs::Times::moment_of))]
pub fn moment_of<K: Copy>(
    alloc: Global,
    bad_time: K,
    name: &str,
    at: &Here<'_, K>,
) -> Result<Timestamp, ReadError<K>>
    ensures { Gives (λ t. t.nanosecond) result (moment_of bad_time name.now (at_of at.now)) }
{
    let text = at.required_text(alloc, name)?;
    match instant(text) {
        Some(moment) => Ok(moment),
        None => Err(at.fault_in(alloc, name, bad_time)),
    }
}

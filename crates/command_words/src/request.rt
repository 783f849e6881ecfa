//! What the words ask for, once `clap` has taken them.

ghost use Rattle.std.specs.Prelude.{◌≡◌, None, Some, MatchResult};
ghost use Rattle.std.specs.List.{list_all};
ghost use Rattle.std.specs.Option.{option_copied};
ghost use Rattle.clap.specs.Walk.{texts};
ghost use Rattle.clap.specs.Words.{first_of, found_of, rows_of};
ghost use Rattle.command_words.specs.Words.{IsRequest, command_in, command_of, has_only, is_among, is_given, is_own};
ghost use Rattle.command_words.specs.Words.{needed_by, optional_for};

use crate::WordsError;
use crate::numbers::{number_if_given, workers};
use crate::taking::option_names;
use clap::ArgMatches;

/// A command of the program.
#[derive(Clone, Copy, Debug, PartialEq, Eq)]
pub enum Command {
    Rows,
    Net,
    Domain,
    Certify,
    Check,
    Report,
    Selftest,
}

/// What a call asks for. A document is named by its option's value, as it stands in the words.
#[derive(Clone, Copy, Debug, PartialEq, Eq)]
pub struct Request<'a> {
    pub command: Command,
    pub grid: Option<&'a str>,
    pub crac: Option<&'a str>,
    pub settings: Option<&'a str>,
    pub glsk: Option<&'a str>,
    pub reductions: Option<&'a str>,
    pub rows: Option<&'a str>,
    pub certificate: Option<&'a str>,
    /// From 1 to 64; 1 where the words do not say.
    pub workers: u8,
    /// The number of a generated case.
    pub case: Option<u64>,
    /// The nodes of a generated case, from 48 to 4096.
    pub nodes: Option<u64>,
}

impl Command {
    /// The options that the command needs.
    fn needed(self) -> &'static [&'static str]
        ensures { texts result.now ≡ needed_by self }
    {
        match self {
            Command::Rows => &["rows"],
            Command::Net => &["grid"],
            Command::Domain | Command::Certify | Command::Report => &[
                "grid", "crac", "glsk", "settings",
            ],
            Command::Check => &["certificate", "grid", "crac", "glsk", "settings"],
            Command::Selftest => &["case", "nodes"],
        }
    }

    /// The options that it may have beside them.
    fn optional(self) -> &'static [&'static str]
        ensures { texts result.now ≡ optional_for self }
    {
        match self {
            Command::Rows | Command::Net => &[],
            Command::Selftest => &["workers"],
            _ => &["reductions", "workers"],
        }
    }
}

/// The command of this word, if there is one.
fn command_named(word: &str) -> Option<Command>
    ensures { result ≡ command_of word.now }
{
    match word {
        "rows" => Some(Command::Rows),
        "net" => Some(Command::Net),
        "domain" => Some(Command::Domain),
        "certify" => Some(Command::Certify),
        "check" => Some(Command::Check),
        "report" => Some(Command::Report),
        "selftest" => Some(Command::Selftest),
        _ => None,
    }
}

/// The request that these matches are.
pub fn requested<'a>(matches: &ArgMatches<'a>) -> Result<Request<'a>, WordsError>
    ensures { MatchResult result (IsRequest (rows_of (found_of matches.now)))
        (λ e. (request : Request) → ¬ IsRequest (rows_of (found_of matches.now)) request) }
{
    let command = asked_command(matches)?;
    if !are_given(matches, command.needed()) {
        return Err(WordsError::Usage);
    }
    if !has_only(matches, command.needed(), command.optional()) {
        return Err(WordsError::Usage);
    }
    let workers = workers(value(matches, "workers"))?;
    let case = number_if_given(value(matches, "case"), 0, u64::MAX)?;
    let nodes = number_if_given(value(matches, "nodes"), 48, 4096)?;
    Ok(Request {
        command,
        grid: value(matches, "grid"),
        crac: value(matches, "crac"),
        settings: value(matches, "settings"),
        glsk: value(matches, "glsk"),
        reductions: value(matches, "reductions"),
        rows: value(matches, "rows"),
        certificate: value(matches, "certificate"),
        workers,
        case,
        nodes,
    })
}

/// The command that is found.
fn asked_command(matches: &ArgMatches<'_>) -> Result<Command, WordsError>
    ensures { MatchResult result (λ command. command_in (rows_of (found_of matches.now)) ≡ Some command)
        (λ e. command_in (rows_of (found_of matches.now)) ≡ None) }
{
    let Some(word) = value(matches, "command") else {
        return Err(WordsError::Usage);
    };
    match command_named(word) {
        Some(command) => Ok(command),
        None => Err(WordsError::Usage),
    }
}

/// The value that is found under this name.
fn value<'a>(matches: &ArgMatches<'a>, name: &str) -> Option<&'a str>
    ensures { option_copied result ≡ first_of name.now (rows_of (found_of matches.now)) }
{
    matches.get_str(name)
}

/// Whether each of these options is given.
fn are_given(matches: &ArgMatches<'_>, names: &[&str]) -> bool
    ensures { result ≡ list_all (is_given (rows_of (found_of matches.now))) (texts names.now) }
{
    for name in names {
        if value(matches, name).is_none() {
            return false;
        }
    }
    true
}

/// Whether each option that is given is one of these.
fn has_only(matches: &ArgMatches<'_>, needed: &[&str], optional: &[&str]) -> bool
    ensures { result ≡ has_only (rows_of (found_of matches.now)) (texts needed.now) (texts optional.now) }
{
    for name in option_names() {
        if !is_own(matches, needed, optional, name) {
            return false;
        }
    }
    true
}

/// Whether the option is not given, or is one of these.
fn is_own(matches: &ArgMatches<'_>, needed: &[&str], optional: &[&str], name: &str) -> bool
    ensures { result ≡ is_own (rows_of (found_of matches.now)) (texts needed.now) (texts optional.now) name.now }
{
    value(matches, name).is_none() || is_among(needed, name) || is_among(optional, name)
}

/// Whether the name is one of these.
fn is_among(names: &[&str], name: &str) -> bool
    ensures { result ≡ is_among (texts names.now) name.now }
{
    for other in names {
        if name == *other {
            return true;
        }
    }
    false
}

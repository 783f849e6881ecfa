//! How `clap` takes the words.

ghost use Rattle.std.specs.Prelude.{◌≡◌, ◌≢◌, [], false, IfErr, IfOk, map, string_bytes};
ghost use Rattle.clap.specs.Walk.{texts};
ghost use Rattle.clap.specs.Words.{app_of, fault_of, found_of, matches_of, rows_of, rule_of, with_rule};
ghost use Rattle.command_words.specs.Words.{bare_app, command_rule, fbcc_app, option_names, option_rule};

use crate::WordsError;
use clap::error::ErrorKind;
use clap::{Arg, ArgAction, ArgMatches, Command};
use std::alloc::{AllocError, Global};

static OPTIONS: [&str; 10] = [
    "grid",
    "crac",
    "settings",
    "glsk",
    "reductions",
    "rows",
    "certificate",
    "workers",
    "case",
    "nodes",
];

/// The options of all commands, without their hyphens.
pub fn option_names<'a>() -> &'a [&'a str]
    ensures { texts result.now ≡ option_names }
{
    OPTIONS.as_slice()
}

/// What `clap` finds in the words.
pub fn take<'a>(alloc: Global, words: &'a [String]) -> Result<ArgMatches<'a>, WordsError>
    ensures taken { IfOk result (λ _. fault_of fbcc_app (map string_bytes words.now) ≡ []) }
    ensures rows { IfOk result (λ m. rows_of (found_of m) ≡ matches_of fbcc_app (map string_bytes words.now)) }
    ensures usage { IfErr result (λ e. e ≡ WordsError.Usage → fault_of fbcc_app (map string_bytes words.now) ≢ []) }
{
    let Ok(command) = program(alloc) else {
        return Err(WordsError::Memory(AllocError));
    };
    match command.try_get_matches_from(words) {
        Ok(matches) => Ok(matches),
        Err(e) => match e.kind() {
            ErrorKind::OutOfMemory => Err(WordsError::Memory(AllocError)),
            _ => Err(WordsError::Usage),
        },
    }
}

/// The one command of `clap` for all commands of the program.
fn program<'a>(alloc: Global) -> Result<Command<'a>, AllocError>
    ensures { IfOk result (λ c. app_of c ≡ fbcc_app) }
{
    let mut program = bare(alloc).arg(command(alloc))?;
    for name in option_names() {
        program = program.arg(option(alloc, name))?;
    }
    Ok(program)
}

/// The program, with no options for help and the version. Its name is not among the words.
fn bare<'a>(alloc: Global) -> Command<'a>
    ensures { app_of result ≡ bare_app }
{
    Command::new(alloc, "fbcc")
        .no_binary_name(true)
        .disable_help_flag(true)
        .disable_version_flag(true)
}

/// The word of the command.
fn command<'a>(alloc: Global) -> Arg<'a>
    ensures rule { rule_of result ≡ command_rule }
    ensures local { result.global ≡ false }
{
    Arg::new(alloc, "command")
        .required(true)
        .action(ArgAction::Set)
}

/// The option of this name, with one value.
fn option<'a>(alloc: Global, name: &'a str) -> Arg<'a>
    ensures rule { rule_of result ≡ option_rule name.entry.now }
    ensures local { result.global ≡ false }
{
    Arg::new(alloc, name).long(name).action(ArgAction::Set)
}

//! What is asked for: a command that the program does, and the names of the documents.

ghost use Rattle.std.specs.Prelude.{◌≡◌};
ghost use Rattle.std.specs.Option.{option_copied};
ghost use Rattle.fbcc_core.specs.Words.{command_in, names_of};

use crate::answer::Document;
use command_words::Request;

/// A command that the program does.
#[derive(Clone, Copy, Debug, PartialEq, Eq)]
pub enum Command {
    Rows,
    Net,
    Domain,
    Certify,
    Check,
    Report,
    /// The work of `domain` and of `check` on a generated case, by its number and the count of its nodes.
    Selftest { case: u64, nodes: u64 },
}

/// The command that is asked for. A request for a generated case has its number and the count of its nodes.
pub fn command_in(request: &Request<'_>) -> Option<Command>
    ensures { result ≡ command_in request.now }
{
    match request.command {
        command_words::Command::Rows => Some(Command::Rows),
        command_words::Command::Net => Some(Command::Net),
        command_words::Command::Domain => Some(Command::Domain),
        command_words::Command::Certify => Some(Command::Certify),
        command_words::Command::Check => Some(Command::Check),
        command_words::Command::Report => Some(Command::Report),
        command_words::Command::Selftest => {
            let case = request.case?;
            let nodes = request.nodes?;
            Some(Command::Selftest { case, nodes })
        }
    }
}

/// The name of a document in the request, if it has one.
pub fn name_for<'a>(request: &Request<'a>, document: Document) -> Option<&'a str>
    ensures { option_copied result ≡ names_of request.now document }
{
    match document {
        Document::Grid => request.grid,
        Document::Crac => request.crac,
        Document::Settings => request.settings,
        Document::Glsk => request.glsk,
        Document::Reductions => request.reductions,
        Document::Certificate => request.certificate,
        Document::Rows => request.rows,
    }
}

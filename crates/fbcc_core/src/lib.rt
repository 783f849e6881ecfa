//! The call of the program: words, documents from a shelf, the work, and what is put to the output and to the error
//! output.
#![tactic(auto)]

mod answer;
mod call;
mod check_command;
mod documents;
mod domain_command;
mod fetching;
mod inputs;
mod kinds;
mod net_command;
mod output;
mod paper;
mod request;
mod rows_command;
mod selftest_command;
mod telling;
mod understanding;
mod verdicts;
mod work;

pub use answer::{Document, Fault, Outcome};
pub use call::fbcc;
pub use certificate_check::Reason;

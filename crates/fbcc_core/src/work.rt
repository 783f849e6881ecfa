//! The work of a command, done.

use crate::answer::Fault;
use fb_types::Items;

/// What a command that did its work puts to the output, and what the call then answers: no fault, or the verdict no.
#[derive(Debug, Drop)]
pub struct Work {
    pub text: Items<u8>,
    pub verdict: Option<Fault>,
}

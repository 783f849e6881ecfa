//! The program: the files of the machine, standard output and standard error, and the call.
#![tactic(auto)]

use fan_out::OpenGate;
use fb_base::{DirShelf, StdSink};
use fbcc_core::fbcc;
use std::process::ExitCode;
use std::rt::Env;
use std::{env, io};

/// The status where there is no memory for the words.
const OUT_OF_MEMORY: u8 = 16;

/// The status where the runtime refuses the words.
const NO_WORDS: u8 = 19;

fn main(rt: HostRuntime) -> ExitCode {
    let words = match words_of(&rt) {
        Ok(words) => words,
        Err(e) if e.kind() == io::ErrorKind::OutOfMemory => {
            return ExitCode::from(OUT_OF_MEMORY);
        }
        Err(_) => return ExitCode::from(NO_WORDS),
    };
    let mut shelf = DirShelf::new(&rt);
    let mut out = StdSink::new(rt.stdout());
    let mut err = StdSink::new(rt.stderr());
    let outcome = fbcc(
        &rt,
        rt.alloc(),
        words.as_slice(),
        &mut shelf,
        &mut out,
        &mut err,
        &OpenGate,
    );
    ExitCode::from(outcome.status)
}

/// The words after the program's name.
fn words_of<R: Env + AllocGlobal>(rt: &R) -> io::Result<Vec<String>> {
    let mut words = Vec::new(rt.alloc());
    for word in env::args(rt)?.skip(1) {
        words.push(word)?;
    }
    Ok(words)
}

//! The program `ordup`. It does the job that the words on the command line ask for, from standard input to standard output, and ends with
//! an exit status. `act.rt` has the job done and answers the status. `jobs.rt` calls the crate that does it; `threads` alone is done here
//! (`plans.rt`).
//!
//! It has no tests of its own: `checks/rows` and `checks/outside` try the built program.
#![tactic(auto)]

mod act;
mod jobs;
mod plans;
mod promises;

pub use act::act;
use ordup_faults::{Fault, WRONG_WORDS, tell};
use std::alloc::{AllocError, Global};
use std::io::{self, ErrorKind, Write};
use std::process::ExitCode;
use std::rt::Env;

fn main(rt: HostRuntime) -> ExitCode {
    let alloc = rt.alloc();
    let mut input = rt.stdin();
    let mut output = rt.stdout();
    let mut faults = rt.stderr();
    let words = match arguments(&rt, alloc) {
        Ok(words) => words,
        Err(error) => return ExitCode::from(tell_lost_words(&mut faults, error.kind())),
    };
    let Ok(words) = texts(alloc, words.as_slice()) else {
        return ExitCode::from(tell(&mut faults, Fault::NoMemory));
    };
    ExitCode::from(promises::act(
        &rt,
        alloc,
        words.as_slice(),
        &mut input,
        &mut output,
        &mut faults,
    ))
}

/// The words that the program was started with. It is an error where one of them is no text.
fn arguments<R: Env + AllocGlobal>(rt: &R, alloc: Global) -> io::Result<Vec<String>> {
    let mut words = Vec::new(alloc);
    for word in std::env::args(rt)? {
        words.push(word)?;
    }
    Ok(words)
}

/// The words as texts.
fn texts<'a>(alloc: Global, words: &'a [String]) -> Result<Vec<&'a str>, AllocError> {
    let mut texts = Vec::with_capacity(alloc, words.len())?;
    for word in words {
        texts.push(word.as_str())?;
    }
    Ok(texts)
}

/// Tells why the words could not be read, and answers the exit status: there was no memory, or one of them is no text.
fn tell_lost_words<E: Write>(faults: &mut E, why: ErrorKind) -> u8 {
    if why == ErrorKind::OutOfMemory {
        return tell(faults, Fault::NoMemory);
    }
    let _ = faults.write_all(b"an argument is no text\n");
    WRONG_WORDS
}

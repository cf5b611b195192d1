//! Transcripts, in the form of README: a line that begins with `> ` is one of a script, any other is what it is answered.
use std::alloc::{AllocError, Global};

/// The first run: a script of 64 bytes, and its 123 bytes of answers.
pub const FIRST_RUN: &str = "\
> object x 0
ok object x
> site a 4
ok site a
> start
ok start
> propose add:x:5
ok proposed 1
> send a
ok sent a 1
> apply a
ok applied a 1
> show a
ok show a sent 1 applied 1 reported 0 rounds 0 x=5
";

/// Adds a line to a text.
fn push_line(text: &mut Vec<u8>, line: &str) -> Result<(), AllocError> {
    text.extend_from_slice(line.as_bytes())?;
    text.extend_from_slice(b"\n")
}

/// The script of a transcript, and the answers to it.
pub fn parts(alloc: Global, transcript: &str) -> Result<(Vec<u8>, Vec<u8>), AllocError> {
    let mut script = Vec::new(alloc);
    let mut answers = Vec::new(alloc);
    for line in transcript.lines() {
        match line.strip_prefix("> ") {
            Some(line) => push_line(&mut script, line)?,
            None => push_line(&mut answers, line)?,
        }
    }
    Ok((script, answers))
}

//! Readers and writers that fail, and scripts that are too long: over the first run, and over lines that each session answers
//! alike.
use ordup_script::{ScriptFault, run_script, run_script_within};
use std::alloc::{AllocError, Global};
use std::io::{self, ErrorKind, Write};
use std::test::Fail;
use test_fixtures::expect;
use test_fixtures::readers::{EndlessReader, PieceReader};
use test_fixtures::transcripts::{FIRST_RUN, parts};

/// How a writer is full.
#[derive(Clone, Copy, Debug)]
enum Full {
    /// Each write fails by this kind of error.
    Fails(ErrorKind),
    /// Each write takes nothing.
    TakesNothing,
}

/// Takes this count of bytes, a few a call, and then is full.
#[derive(Drop)]
struct FullWriter {
    taken: Vec<u8>,
    spare: usize,
    full: Full,
}

impl Write for FullWriter {
    fn write(&mut self, bytes: &[u8]) -> io::Result<usize> {
        if self.spare == 0 {
            return match self.full {
                Full::Fails(kind) => Err(io::Error::from(kind)),
                Full::TakesNothing => Ok(0),
            };
        }
        let count = bytes.len().min(self.spare).min(5);
        self.taken.extend_from_slice(&bytes[..count])?;
        self.spare -= count;
        Ok(count)
    }

    fn flush(&mut self) -> io::Result<()> {
        Ok(())
    }
}

/// Adds a comment, an ended line that is too long, one that may just be as long, and one that is too long and not ended.
fn push_script(script: &mut Vec<u8>) -> Result<(), AllocError> {
    script.extend_from_slice(b"# a comment\n")?;
    script.resize(12 + 4097, b'a')?;
    script.extend_from_slice(b"\n#")?;
    script.resize(12 + 4098 + 4096, b'b')?;
    script.extend_from_slice(b"\n")?;
    script.resize(12 + 4098 + 4097 + 9000, b'c')
}

/// The script of these lines.
fn script(alloc: Global) -> Result<Vec<u8>, AllocError> {
    let mut script = Vec::new(alloc);
    push_script(&mut script)?;
    Ok(script)
}

const ANSWERS: &[u8] = b"refused 1 Syntax\nrefused 1 Syntax\n";

/// What a writer took of the answers to a script that is read in pieces, and why the script did not end, if it did not.
fn run_into(
    script: &[u8],
    at_once: usize,
    mut output: FullWriter,
    alloc: Global,
) -> (Vec<u8>, Option<ScriptFault>) {
    let mut input = PieceReader::new(script, at_once, usize::MAX);
    let fault = run_script(alloc, &mut input, &mut output).err();
    (output.taken, fault)
}

/// Writes to a writer that is full after each count of bytes.
// shows: run_script Runs.Write; streams
#[test]
fn a_full_writer_has_got_a_front_of_the_answers(rt: HostRuntime) -> Result<(), Fail> {
    let script = script(rt.alloc())?;
    let (first_run, first_answers) = parts(rt.alloc(), FIRST_RUN)?;
    let runs = [
        (script.as_slice(), 7, ANSWERS),
        (first_run.as_slice(), 64, first_answers.as_slice()),
    ];
    let fulls = [
        Full::Fails(ErrorKind::Other),
        Full::Fails(ErrorKind::Interrupted),
        Full::TakesNothing,
    ];
    for (script, at_once, answers) in runs {
        for spare in 0..answers.len() {
            for full in fulls {
                let output = FullWriter {
                    taken: Vec::new(rt.alloc()),
                    spare,
                    full,
                };
                let (taken, fault) = run_into(script, at_once, output, rt.alloc());
                let is_front = taken.as_slice() == &answers[..spare];
                expect!(&rt; is_front && fault == Some(ScriptFault::Write), (full, spare));
            }
        }
    }
    Ok(())
}

/// What is written of the answers to a script whose reader fails after this count of bytes, and why the script did not end.
fn run_failing(
    alloc: Global,
    script: &[u8],
    given: usize,
    kind: ErrorKind,
) -> (Vec<u8>, Option<ScriptFault>) {
    let mut input = PieceReader::failing(script, given, kind);
    let mut output: Vec<u8> = Vec::new(alloc);
    let fault = run_script(alloc, &mut input, &mut output).err();
    (output, fault)
}

/// Reads a script from a reader that fails.
// shows: run_script Runs.Read; streams
#[test]
fn a_read_that_fails_is_not_tried_again(rt: HostRuntime) -> Result<(), Fail> {
    let (script, answers) = parts(rt.alloc(), FIRST_RUN)?;
    // The first two lines have 11 + 9 bytes, and their answers 12 + 10; the third has 6, and its answer 9.
    for (given, written) in [(0, 0), (25, 22), (26, 31), (64, 123)] {
        expect!(&rt; written <= answers.len());
        for kind in [ErrorKind::Other, ErrorKind::Interrupted] {
            let (output, fault) = run_failing(rt.alloc(), &script, given, kind);
            let is_front = output.as_slice() == &answers[..written];
            expect!(&rt; is_front && fault == Some(ScriptFault::Read), (kind, given));
        }
    }
    Ok(())
}

/// What is written of the answers to a script of at most this count of bytes, and why it did not end, if it did not.
fn run_limited(alloc: Global, script: &[u8], limit: u64) -> (Vec<u8>, Option<ScriptFault>) {
    let mut input = script;
    let mut output: Vec<u8> = Vec::new(alloc);
    let fault = run_script_within(alloc, &mut input, &mut output, limit).err();
    (output, fault)
}

/// Runs scripts at their limit of bytes, and over it.
// shows: run_script_within Runs.TooLong
#[test]
fn a_script_ends_at_its_limit_of_bytes(rt: HostRuntime) -> Result<(), Fail> {
    let script = script(rt.alloc())?;
    let script = script.as_slice();
    let (first_run, first_answers) = parts(rt.alloc(), FIRST_RUN)?;
    let (first_run, first_answers) = (first_run.as_slice(), first_answers.as_slice());
    for (script, answers, limit, written, wanted) in [
        (script, ANSWERS, 0, 0, Some(ScriptFault::TooLong)),
        (script, ANSWERS, 4109, 0, Some(ScriptFault::TooLong)),
        (script, ANSWERS, 4110, 17, Some(ScriptFault::TooLong)),
        (script, ANSWERS, 17206, 17, Some(ScriptFault::TooLong)),
        (script, ANSWERS, 17207, 34, None),
        // All lines but the last: 123 bytes of answers, less its 51.
        (first_run, first_answers, 63, 72, Some(ScriptFault::TooLong)),
        (first_run, first_answers, 64, 123, None),
    ] {
        let (output, fault) = run_limited(rt.alloc(), script, limit);
        expect!(&rt; written <= answers.len());
        let front = &answers[..written];
        expect!(&rt; output.as_slice() == front && fault == wanted, limit);
    }
    Ok(())
}

/// Reads a comment that has no end.
// shows: run_script_within Runs.TooLong
#[test]
fn a_comment_without_an_end_is_too_long(rt: HostRuntime) {
    let mut output: Vec<u8> = Vec::new(rt.alloc());
    let fault = run_script_within(
        rt.alloc(),
        &mut EndlessReader { byte: b'#' },
        &mut output,
        64,
    )
    .err();
    expect!(&rt; fault == Some(ScriptFault::TooLong));
    expect!(&rt; output.is_empty());
}

//! Runs a script: its lines come from a reader, and their answers go to a writer.
ghost use Rattle.std.specs.Prelude.{◌≡◌, ◌+◌, []};
ghost use Rattle.ordup_answers.specs.ScriptStates.{Stands, first_state};
ghost use Rattle.ordup_script.specs.Answerers.{HasAnswered, HasStopped};
ghost use Rattle.ordup_script.specs.Readings.{Takes};
ghost use Rattle.ordup_script.specs.Runs.{Runs, RunsIn};
ghost use Rattle.ordup_script.specs.Streams.{most_counted};

use crate::line_reader::{Extent, LineTaker, read_lines};
use crate::sizes::{MOST_SCRIPT_BYTES, PIECE};
use ordup_answers::{Answering, ScriptEnd};
use ordup_grammar::LinePart;
use ordup_objects::or_give_up;
use ordup_text::{TextBuffer, send};
use std::alloc::{Allocator, Global};
use std::io::{Read, Write};

/// Why a script was not run to its end.
#[derive(Clone, Copy, Debug, PartialEq, Eq)]
pub enum ScriptFault {
    /// A read failed. The lines that a line feed ended before were answered.
    Read,
    /// The script has more bytes than it may. The lines that a line feed ended within them were answered.
    TooLong,
    /// A write or a flush failed, or a write took nothing. A prefix of the answers was written.
    Write,
    /// An allocation was refused. A prefix of the answers was written.
    NoMemory,
}

/// Answers the lines of a script. It keeps the answers that were not written yet.
// It owns no memory: of a value that does, a proof does not know what it leaves behind the references in it.
#[derive(Drop)]
pub(crate) struct Answerer<'a, W, A: Allocator + Copy = Global> {
    script: &'a mut Answering<A>,
    answers: &'a mut TextBuffer<A>,
    output: &'a mut W,
}

impl<W: Write, A: Allocator + Copy> LineTaker for Answerer<'_, W, A> {
    type Fault = ScriptFault;

    ghost took = { HasAnswered W.contents };

    ghost stopped = { HasStopped W.contents };

    ghost is_clear = { λ answerer. answerer.answers.now.text ≡ [] };

    // One more than any limit.
    ghost lines_left = { λ _. most_counted + 1 };

    #[inline(always)]
    fn take(&mut self, line: &LinePart<'_>) -> Result<(), ScriptFault> {
        let alloc = *self.answers.allocator();
        match self.script.answer(alloc, line, self.answers) {
            Ok(()) => self.hand_out_many(),
            Err(_) => Err(ScriptFault::NoMemory),
        }
    }

    fn hand_out(&mut self) -> Result<(), ScriptFault> {
        match send(self.output, self.answers.as_slice()) {
            Ok(()) => {
                self.answers.clear();
                Ok(())
            }
            Err(_) => Err(ScriptFault::Write),
        }
    }
}

impl<W: Write, A: Allocator + Copy> Answerer<'_, W, A> {
    /// Hands the answers out once they have as many bytes as a piece.
    ///
    /// The same lines were answered as before, or the taker stopped.
    fn hand_out_many(&mut self) -> Result<(), ScriptFault>
        ensures { Takes (HasAnswered W.contents) (HasStopped W.contents) self.old self.new [] result }
    {
        if self.answers.len() < PIECE {
            return Ok(());
        }
        self.hand_out()
    }
}

/// Runs a script of at most `limit` bytes, of which no line was answered yet.
fn run_in<A: Allocator + Copy, R: Read, W: Write>(
    script: &mut Answering<A>,
    answers: &mut TextBuffer<A>,
    input: &mut R,
    output: &mut W,
    limit: u64,
) -> Result<(), ScriptFault>
    requires script { Stands script.old first_state }
    requires answers { answers.old.text ≡ [] }
    ensures { RunsIn (record {
      had = R.remaining input.old;
      has = R.remaining input.new;
      old = W.contents output.old;
      new = W.contents output.new;
    }) limit script.new result }
{
    let mut answerer = Answerer {
        script,
        answers,
        output,
    };
    match read_lines(&mut answerer, input, limit)? {
        Extent::Whole => match answerer.output.flush() {
            Ok(()) => Ok(()),
            Err(_) => Err(ScriptFault::Write),
        },
        Extent::BeforeFailure => Err(ScriptFault::Read),
        Extent::UpToLimit => Err(ScriptFault::TooLong),
    }
}

// promise Runs.Ok: as run_script Runs.Ok
// promise Runs.Read Runs.TooLong: as run_script Runs.Read
// promise Runs.Write Runs.NoMemory: as run_script Runs.Write
/// Runs a script of at most `limit` bytes: reads it to its end, answers each line, and writes the answers.
///
/// - `Ok`: the reader was read to its end and had at most `limit` bytes. The answers to all lines were written, and nothing else.
///   The script stands where its last line leaves it.
/// - `Read`: a read failed. The answers to the lines that a line feed ended before were written.
/// - `TooLong`: there are more bytes. The answers to the lines that a line feed ended within the limit were written.
/// - `Write`: a write or a flush failed, or a write took nothing. A prefix of the answers to all that the reader had was written.
/// - `NoMemory`: an allocation was refused. Such a prefix was written too.
pub fn run_script_within<A: Allocator + Copy, R: Read, W: Write>(
    alloc: A,
    input: &mut R,
    output: &mut W,
    limit: u64,
) -> Result<ScriptEnd<A>, ScriptFault>
    ensures { Runs (record {
      had = R.remaining input.old;
      has = R.remaining input.new;
      old = W.contents output.old;
      new = W.contents output.new;
    }) limit result }
{
    let mut script = Answering::new(alloc);
    let mut answers = TextBuffer::new(alloc);
    let ran = run_in(&mut script, &mut answers, input, output, limit);
    drop(answers);
    let end = script.into_end();
    or_give_up!(ran, end);
    Ok(end)
}

// promise Runs.Ok: a run that succeeds read all, wrote exactly the answers, and ends as its last line leaves it
// promise Runs.Read Runs.TooLong: a failed read, or too long a script, leaves the answers to the ended lines
// promise Runs.Write Runs.NoMemory: a failed write, or want of memory, leaves a prefix of the answers; no wrong body: all is written by
// `send`
/// Runs a script. It answers as `run_script_within` does with the limit `MOST_SCRIPT_BYTES`.
pub fn run_script<A: Allocator + Copy, R: Read, W: Write>(
    alloc: A,
    input: &mut R,
    output: &mut W,
) -> Result<ScriptEnd<A>, ScriptFault>
    ensures { Runs (record {
      had = R.remaining input.old;
      has = R.remaining input.new;
      old = W.contents output.old;
      new = W.contents output.new;
    }) MOST_SCRIPT_BYTES result }
{
    run_script_within(alloc, input, output, MOST_SCRIPT_BYTES)
}

//! Runs a script as `stream.rt` does, and notes beside it each line that is refused, with the reason.
ghost use Rattle.std.specs.Prelude.{◌≡◌, false, ◌<◌, ◌-◌, ◌≤◌, ◌||◌, ◌++◌, [], IfOk, OnOk, List, ℕ};
ghost use Rattle.ordup_answers.specs.ScriptStates.{Stands, first_state};
ghost use Rattle.ordup_script.specs.Answerers.{IsLater};
ghost use Rattle.ordup_script.specs.Explainers.{HasExplained, HasStoppedExplaining, answerer_of};
ghost use Rattle.ordup_script.specs.Explanations.{AreNotes, Explains, end_in, ended_so, is_refusal, note_text, refused_at, refused_in};
ghost use Rattle.ordup_script.specs.Readings.{Takes};
ghost use Rattle.ordup_script.specs.Runs.{Runs, RunsIn};
ghost use Rattle.ordup_script.specs.Streams.{most_counted};

use crate::line_reader::{Extent, LineTaker, read_lines};
use crate::sizes::{MOST_SCRIPT_BYTES, PIECE};
use crate::stream::ScriptFault;
use ordup_answers::{Answering, ScriptEnd};
use ordup_grammar::LinePart;
use ordup_objects::or_give_up;
use ordup_reasons::push_reason;
use ordup_text::{TextBuffer, send};
use std::alloc::{AllocError, Allocator, Global};
use std::io::{Read, Write};

/// Answers the lines of a script, and notes those that are refused. It keeps the answers and the notes that were not written yet.
// As an `Answerer` it owns no memory.
#[derive(Drop)]
struct Explainer<'a, 'e, W, E, A: Allocator + Copy = Global> {
    script: &'a mut Answering<A>,
    answers: &'a mut TextBuffer<A>,
    output: &'a mut W,
    notes: &'a mut TextBuffer<A>,
    // Room for one answer, and for one reason.
    answer: &'a mut TextBuffer<A>,
    reason: &'a mut TextBuffer<A>,
    // With a lifetime of its own, since the prover covers no two references to values of unknown types at one.
    faults: &'e mut E,
    tally: &'a mut Tally,
}

/// What is counted of the lines.
#[derive(Clone, Copy)]
struct Tally {
    /// How many there were.
    lines: u64,
    /// Whether one of them was refused.
    is_refused: bool,
}

impl<W: Write, E: Write, A: Allocator + Copy> LineTaker for Explainer<'_, '_, W, E, A> {
    type Fault = ScriptFault;

    ghost took = { HasExplained W.contents E.contents };

    ghost stopped = { HasStoppedExplaining W.contents E.contents };

    ghost is_clear = { λ explainer. (explainer.answers.now.text ≡ []) × (explainer.notes.now.text ≡ []) };

    ghost lines_left = { λ explainer. most_counted - explainer.tally.now.lines };

    fn take(&mut self, line: &LinePart<'_>) -> Result<(), ScriptFault> {
        let alloc = *self.answers.allocator();
        self.tally.lines += 1;
        self.answer.clear();
        let Ok(()) = self.script.answer(alloc, line, self.answer) else {
            return Err(ScriptFault::NoMemory);
        };
        let answer = self.answer.as_slice();
        let Ok(()) = self.answers.push(answer) else {
            return Err(ScriptFault::NoMemory);
        };
        match note_if_refused(
            self.notes,
            self.reason,
            self.tally.is_refused,
            self.tally.lines,
            answer,
            line.as_bytes(),
        ) {
            Ok(is_refused) => {
                self.tally.is_refused = is_refused;
                self.hand_out_many()
            }
            Err(_) => Err(ScriptFault::NoMemory),
        }
    }

    fn hand_out(&mut self) -> Result<(), ScriptFault> {
        let Ok(()) = send(self.output, self.answers.as_slice()) else {
            return Err(ScriptFault::Write);
        };
        let Ok(()) = send(self.faults, self.notes.as_slice()) else {
            return Err(ScriptFault::Write);
        };
        self.answers.clear();
        self.notes.clear();
        Ok(())
    }
}

impl<W: Write, E: Write, A: Allocator + Copy> Explainer<'_, '_, W, E, A> {
    /// Hands the answers and the notes out once either have as many bytes as a piece.
    ///
    /// The same lines were explained as before, or the taker stopped.
    fn hand_out_many(&mut self) -> Result<(), ScriptFault>
        ensures lines { Takes (HasExplained W.contents E.contents) (HasStoppedExplaining W.contents E.contents) self.old self.new [] result }
        ensures lines_left { OnOk result (most_counted - self.old.tally.now.lines ≤ most_counted - self.new.tally.now.lines) }
    {
        let most = self.answers.len().max(self.notes.len());
        if most < PIECE {
            return Ok(());
        }
        self.hand_out()
    }
}

/// Adds a note for a line where its answer is a refusal, and answers whether it is, or one was before.
fn note_if_refused<A: Allocator + Copy>(
    notes: &mut TextBuffer<A>,
    reason: &mut TextBuffer<A>,
    was_refused: bool,
    number: u64,
    answer: &[u8],
    line: &[u8],
) -> Result<bool, AllocError>
    ensures refusal { IfOk result (λ refused. refused ≡ (was_refused || is_refusal answer.now)) }
    ensures notes { OnOk result ((more : List ℕ) × AreNotes (refused_at number answer.now) more × (notes.new.text ≡ notes.old.text ++ more)) }
{
    if !is_refusal(answer) {
        return Ok(was_refused);
    }
    reason.clear();
    push_reason(reason, answer, line)?;
    push_note(notes, number, answer, reason.as_slice())?;
    Ok(true)
}

/// Whether an answer is a refusal.
fn is_refusal(answer: &[u8]) -> bool
    ensures { result ≡ is_refusal answer.now }
{
    match answer {
        [byte, ..] => *byte == b'r',
        [] => false,
    }
}

/// Adds a note: the number of a line, its answer and the reason.
fn push_note<A: Allocator + Copy>(
    notes: &mut TextBuffer<A>,
    number: u64,
    answer: &[u8],
    reason: &[u8],
) -> Result<(), AllocError>
    ensures { OnOk result (notes.new.text ≡ notes.old.text ++ note_text number answer.now reason.now) }
{
    notes.push(b"line ")?;
    notes.push_number(number)?;
    notes.push(b": ")?;
    notes.push(&answer[..answer.len().saturating_sub(1)])?;
    notes.push(b": ")?;
    notes.push(reason)?;
    notes.push(b"\n")
}

/// Reads a script to its end, and answers and notes its lines. It tells whether one of them was refused.
fn explain_in<A: Allocator + Copy, R: Read, W: Write, E: Write>(
    explainer: &mut Explainer<'_, '_, W, E, A>,
    input: &mut R,
) -> Result<bool, ScriptFault>
    requires start { HasExplained W.contents E.contents explainer.old explainer.old [] }
    requires clear { (explainer.old.answers.now.text ≡ []) × (explainer.old.notes.now.text ≡ []) }
    requires lines_left { MOST_SCRIPT_BYTES < most_counted - explainer.old.tally.now.lines }
    ensures later { IsLater (answerer_of explainer.old) (answerer_of explainer.new) }
    ensures faults { explainer.new.faults.ghost_name ≡ explainer.old.faults.ghost_name }
    ensures runs { RunsIn (record {
      had = R.remaining input.old;
      has = R.remaining input.new;
      old = W.contents explainer.old.output.now;
      new = W.contents explainer.new.output.now;
    }) MOST_SCRIPT_BYTES explainer.new.script.now (ended_so result) }
    ensures explains { Explains A (record {
      had = R.remaining input.old;
      has = R.remaining input.new;
      old = E.contents explainer.old.faults.now;
      new = E.contents explainer.new.faults.now;
    }) MOST_SCRIPT_BYTES result }
{
    match read_lines(explainer, input, MOST_SCRIPT_BYTES)? {
        Extent::Whole => match explainer.output.flush() {
            Ok(()) => Ok(explainer.tally.is_refused),
            Err(_) => Err(ScriptFault::Write),
        },
        Extent::BeforeFailure => Err(ScriptFault::Read),
        Extent::UpToLimit => Err(ScriptFault::TooLong),
    }
}

/// Explains a script, of which no line was answered yet.
fn explain_over<A: Allocator + Copy, R: Read, W: Write, E: Write>(
    script: &mut Answering<A>,
    answers: &mut TextBuffer<A>,
    answer: &mut TextBuffer<A>,
    reason: &mut TextBuffer<A>,
    notes: &mut TextBuffer<A>,
    tally: &mut Tally,
    input: &mut R,
    output: &mut W,
    faults: &mut E,
) -> Result<bool, ScriptFault>
    requires script { Stands script.old first_state }
    requires answers { answers.old.text ≡ [] }
    requires notes { notes.old.text ≡ [] }
    requires tally { (tally.old.lines ≡ 0) × (tally.old.is_refused ≡ false) }
    ensures runs { RunsIn (record {
      had = R.remaining input.old;
      has = R.remaining input.new;
      old = W.contents output.old;
      new = W.contents output.new;
    }) MOST_SCRIPT_BYTES script.new (ended_so result) }
    ensures explains { Explains A (record {
      had = R.remaining input.old;
      has = R.remaining input.new;
      old = E.contents faults.old;
      new = E.contents faults.new;
    }) MOST_SCRIPT_BYTES result }
{
    let mut explainer = Explainer {
        script,
        answers,
        output,
        answer,
        reason,
        notes,
        faults,
        tally,
    };
    explain_in(&mut explainer, input)
}

// promise runs: an explained run answers as `run_script` does
// promise explains: it tells whether a line was refused, and notes each that was, in order
/// Runs a script as `run_script` does, and writes a note on each line that is refused.
///
/// What is read and written for the answers is the same, and so is the fault. Besides:
///
/// - `Ok`: the second value tells whether a line was refused. A note on each line that was refused was written to `faults`, in order.
/// - `Read`, `TooLong`: the notes on the lines that were answered were written.
/// - `Write`: a write failed, also one of a note, or a flush of the answers. A prefix of the notes on the first lines was written.
/// - `NoMemory`: an allocation was refused. Such a prefix was written too.
pub fn run_script_explained<A: Allocator + Copy, R: Read, W: Write, E: Write>(
    alloc: A,
    input: &mut R,
    output: &mut W,
    faults: &mut E,
) -> Result<(ScriptEnd<A>, bool), ScriptFault>
    ensures runs { Runs (record {
      had = R.remaining input.old;
      has = R.remaining input.new;
      old = W.contents output.old;
      new = W.contents output.new;
    }) MOST_SCRIPT_BYTES (end_in result) }
    ensures explains { Explains A (record {
      had = R.remaining input.old;
      has = R.remaining input.new;
      old = E.contents faults.old;
      new = E.contents faults.new;
    }) MOST_SCRIPT_BYTES (refused_in result) }
{
    let mut script = Answering::new(alloc);
    let mut answers = TextBuffer::new(alloc);
    let mut answer = TextBuffer::new(alloc);
    let mut reason = TextBuffer::new(alloc);
    let mut notes = TextBuffer::new(alloc);
    let mut tally = Tally {
        lines: 0,
        is_refused: false,
    };
    let ran = explain_over(
        &mut script,
        &mut answers,
        &mut answer,
        &mut reason,
        &mut notes,
        &mut tally,
        input,
        output,
        faults,
    );
    drop(answers);
    drop(answer);
    drop(reason);
    drop(notes);
    let end = script.into_end();
    let is_refused = or_give_up!(ran, end);
    Ok((end, is_refused))
}

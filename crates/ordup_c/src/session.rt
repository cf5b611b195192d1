//! A script that is run a text at a time.
ghost use Rattle.std.specs.Prelude.{◌≡◌, ◌<◌, ◌≤◌, ◌∷◌, [], OnErr, OnOk, drop, length, min, take};
ghost use Rattle.ordup_grammar.specs.Lines.{cut};
ghost use Rattle.ordup_c.specs.Sessions.{Answers, Begins, Follows, Gives, AreWholeLines, Stays, TakesWholeLines, kept};

use ordup_answers::Answering;
use ordup_grammar::{LinePart, split_line};
use ordup_text::TextBuffer;
use std::alloc::{AllocError, Global};

/// Where a script stands, and the answers that were not given yet.
#[derive(Drop)]
pub struct Session {
    pub(crate) script: Answering,
    /// Answers, of which the first `given` bytes were given.
    pub(crate) answers: TextBuffer,
    pub(crate) given: usize,
}

impl Session {
    /// Before the first line.
    pub(crate) fn new(alloc: Global) -> Self
        ensures { Begins result }
    {
        Session {
            script: Answering::new(alloc),
            answers: TextBuffer::new(alloc),
            given: 0,
        }
    }

    /// Answers the lines of a text, the last of which needs no line feed, and says how many of its bytes were taken.
    ///
    /// These are whole lines. All of them were taken, unless memory was refused.
    pub(crate) fn run(&mut self, alloc: Global, text: &[u8]) -> usize
        ensures taken { AreWholeLines result text.now }
        ensures answers { Answers self.old self.new (take result text.now) }
    {
        self.forget_given();
        self.answer_lines(alloc, text)
    }

    /// Forgets the answers where all of them were given.
    fn forget_given(&mut self)
        ensures script { self.new.script ≡ self.old.script }
        ensures kept { kept self.new ≡ kept self.old }
        ensures given { self.new.given ≤ length self.new.answers.text }
    {
        if self.given >= self.answers.len() {
            self.answers.clear();
            self.given = 0;
        }
    }

    /// Answers the lines of a text, the last of which needs no line feed, and says how many of its bytes were taken.
    fn answer_lines(&mut self, alloc: Global, text: &[u8]) -> usize
        ensures taken { TakesWholeLines self.old self.new text.now result }
        ensures given { self.new.given ≡ self.old.given }
    {
        let mut rest = text;
        while let Some((part, more)) = split_line(rest) {
            let Ok(()) = self.answer_line(alloc, &part) else {
                return text.len() - rest.len();
            };
            rest = more;
        }
        if rest.is_empty() {
            return text.len();
        }
        match self.answer_line(alloc, &LinePart::new(rest)) {
            Ok(()) => text.len(),
            Err(_) => text.len() - rest.len(),
        }
    }

    /// Answers a line. Where memory is refused it was not taken.
    fn answer_line(&mut self, alloc: Global, line: &LinePart<'_>) -> Result<(), AllocError>
        ensures line { OnOk result (Follows self.old self.new (cut line.now ∷ [])) }
        ensures kept { OnErr result (Stays self.old self.new) }
        ensures given { self.new.given ≡ self.old.given }
    {
        self.script.answer(alloc, line, &mut self.answers)
    }

    /// The answers that were not given yet.
    pub(crate) fn kept(&self) -> &[u8]
        ensures { result.now ≡ kept self.now }
    {
        let answers = self.answers.as_slice();
        &answers[self.given.min(answers.len())..]
    }

    /// Gives the next of the answers: as many bytes as fit into the buffer.
    pub(crate) fn give(&mut self, out: &mut [u8]) -> usize
        ensures count { result ≡ min (length (kept self.old)) (length out.old) }
        ensures gives { Gives self.old self.new (take result out.new) }
        ensures full { 0 < length (kept self.new) → result ≡ length out.old }
        ensures rest { drop result out.new ≡ drop result out.old }
        ensures len { length out.new ≡ length out.old }
    {
        self.forget_given();
        // For the proof: a list has few bytes.
        let _len = self.answers.len();
        let kept = self.kept();
        let count = kept.len().min(out.len());
        out[..count].copy_from_slice(&kept[..count]);
        self.given += count;
        count
    }
}

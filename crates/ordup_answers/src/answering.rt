//! A script that is answered line by line.
//!
//! Most lines of a script are one of a few: `settle`, and `send S`, `apply S` and `report S` of each site. The first is known as it
//! stands. A line of a site is looked for among those that came before, by its bytes. Of all other lines the words are looked at, and
//! a line of a site is kept then.
ghost use Rattle.std.specs.Prelude.{◌≡◌};
ghost use Rattle.ordup_grammar.specs.Lines.{cut};
ghost use Rattle.ordup_grammar.specs.Requests.{request_of};
ghost use Rattle.ordup_answers.specs.Answers.{Replies, StaysPut};
ghost use Rattle.ordup_answers.specs.KnownLines.{StandsKnowing, StaysKnown};
ghost use Rattle.ordup_answers.specs.Replies.{request_reply};
ghost use Rattle.ordup_answers.specs.ScriptStates.{Stands, first_state};

use crate::answers::answer_by_words;
use crate::events::settle;
use crate::known_answers::answer_known;
use crate::known_lines::KnownLines;
use crate::script_end::ScriptEnd;
use crate::taker::AnswerTaker;
use ordup_grammar::LinePart;
use std::alloc::{AllocError, Allocator, Global};
use std::marker::Model;

/// A script that is answered line by line: where it stands, and what is known of lines that came before.
#[derive(Drop)]
pub struct Answering<A: Allocator + Copy = Global> {
    end: ScriptEnd<A>,
    known: KnownLines,
}

impl<A: Allocator + Copy> Model for Answering<A> {
    ghost use Rattle.ordup_answers.specs.KnownLines.{IsAnswering};
    ghost use Rattle.ordup_answers.specs.declared.script_end.ScriptEnd.{ScriptEnd};

    ghost Value = { ScriptEnd A };

    ghost view = { λ a. a.end };

    ghost invariant = { λ a. IsAnswering a.end a.known };
}

impl<A: Allocator + Copy> Answering<A> {
    // promise: as Answering::answer reply
    /// Before the first line.
    pub fn new(alloc: A) -> Self
        ensures { Stands result first_state }
    {
        Answering {
            end: ScriptEnd::new(alloc),
            known: KnownLines::new(),
        }
    }

    // promise: as Answering::answer reply
    /// Where the script stands.
    pub fn end(&self) -> &ScriptEnd<A>
        ensures { result.now ≡ self.now }
    {
        &self.end
    }

    // promise: as Answering::answer reply
    /// Where the script stands in the end.
    pub fn into_end(self) -> ScriptEnd<A>
        ensures { result ≡ self }
    {
        self.end
    }

    // promise reply: a line is answered as the reply says, and leaves its state
    // promise kept: a line for which memory is refused did not happen, and added no text
    // promise Certify: `certify` shows the rounds and windows that `check` would find
    /// Answers a line.
    ///
    /// Where it succeeds: if the script was in a state, it is afterwards in the state that the reply to the line leaves, and `out`
    /// took the text of the reply. It fails only where an allocation was refused, and then nothing happened: the script stands where
    /// it stood, and `out` took nothing.
    // Inlined into the loop over lines, so that one call answers a line that is known.
    #[inline(always)]
    pub fn answer<O: AnswerTaker<A>>(
        &mut self,
        alloc: A,
        line: &LinePart<'_>,
        out: &mut O,
    ) -> Result<(), AllocError>
        ensures reply { Replies (Stands self.old) (Stands self.new) (O.took out.old out.new) (λ s. request_reply s (request_of (cut line.now))) result }
        ensures kept { StaysPut self.old self.new (O.took out.old out.new) result }
    {
        answer_line(alloc, &mut self.end, &mut self.known, line, out)
    }
}

/// Answers a line, and may keep what it asks for.
#[inline(always)]
fn answer_line<A: Allocator + Copy, O: AnswerTaker<A>>(
    alloc: A,
    store: &mut ScriptEnd<A>,
    known: &mut KnownLines,
    line: &LinePart<'_>,
    out: &mut O,
) -> Result<(), AllocError>
    ensures reply { Replies (StandsKnowing store.old known.old) (StandsKnowing store.new known.new) (O.took out.old out.new) (λ s. request_reply s (request_of (cut line.now))) result }
    ensures kept { StaysPut store.old store.new (O.took out.old out.new) result }
    ensures known { StaysKnown store.old known.old known.new }
{
    if line.is_settle() {
        return settle(store, out);
    }
    if let Some(known) = known.find(line.as_bytes()) {
        return answer_known(store, known, out);
    }
    answer_by_words(alloc, store, known, line, out)
}

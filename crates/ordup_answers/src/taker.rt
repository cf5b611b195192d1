//! What takes the answers to the lines of a script: a buffer takes their texts, and `Unanswered` takes none.
ghost use Rattle.std.specs.Prelude.{◌≡◌, ◌+◌, ◌≤◌, ◌++◌, ℕ, List, [], OnOk, IfErr, length, take};
ghost use Rattle.ordup_answers.specs.Replies.{declared_name, declared_text};
ghost use Rattle.ordup_answers.specs.Texts.{answer_text, certified_text, placed_text, refused_text, started_text};
ghost use Rattle.ordup_answers.specs.declared.text.TheConstants.{MOST_ANSWER_BYTES};

use crate::text::{
    push_certified, push_refused, put_answer, put_declared, put_placed, put_started, reserve_answer,
};
use ordup_grammar::{Declaration, SiteAction};
use ordup_objects::Refusal;
use ordup_objects::sizes::MOST_NAME_BYTES;
use ordup_primary::Window;
use ordup_text::TextBuffer;
use ordup_world::{Answer, Setup};
use std::alloc::{AllocError, Allocator};

// promise: as push_answer
/// Takes the answers to the lines of a script, one after another. A call fails only for want of memory, and then it took nothing.
///
/// Spare capacity for the answer to what changes the store is reserved before the change, and the answer is taken after it.
pub trait AnswerTaker<A: Allocator + Copy> {
    // What was `old` took an answer of this text, and is `new` now.
    ghost took: { Self → Self → List ℕ → Type 0 };

    // It has spare capacity for an answer whose line has names of this many bytes.
    ghost has_spare: { Self → ℕ → Type 0 };

    /// Reserves spare capacity for an answer whose line has names of this many bytes. What is taken after it is taken as before it.
    fn reserve(&mut self, names: usize) -> Result<(), AllocError>
        ensures spare { OnOk result (has_spare self.new names) }
        ensures same { (later : Self) (text : List ℕ) → took self.new later text → took self.old later text }
        ensures nothing { took self.old self.new [] };

    /// Takes that a line has no answer.
    fn nothing(&mut self)
        ensures { took self.old self.new [] };

    /// Takes the answer to what was refused. Want of memory has none.
    fn refused(&mut self, refusal: Refusal) -> Result<(), AllocError>
        ensures text { OnOk result ((refusal ≡ Refusal.NoMemory → ⊥) × took self.old self.new (refused_text refusal)) }
        ensures kept { IfErr result (λ _. took self.old self.new []) };

    /// Takes the answer to a declaration.
    fn declared(&mut self, declaration: &Declaration<'_>)
        requires { has_spare self.old (length (declared_name declaration.now)) }
        ensures { took self.old self.new (declared_text declaration.now) };

    /// Takes the answer to the start.
    fn started(&mut self)
        requires { has_spare self.old 0 }
        ensures { took self.old self.new started_text };

    /// Takes the answer to an event. The subject is the site or the query that the event names, and the object the one that it
    /// names. Want of memory has no answer, and is the one that the call fails for.
    fn stepped(
        &mut self,
        setup: &Setup<A>,
        subject: &[u8],
        object: &[u8],
        answer: &Answer<A>,
    ) -> Result<(), AllocError>
        requires { has_spare self.old (length subject.now + length object.now) }
        ensures text { OnOk result ((answer.now ≡ Answer.Refused Refusal.NoMemory → ⊥) × took self.old self.new (answer_text setup.now subject.now object.now answer.now)) }
        ensures kept { IfErr result (λ _. (answer.now ≡ Answer.Refused Refusal.NoMemory) × took self.old self.new []) };

    /// Takes the answer to an action at a site: the name is the first `len` bytes of an array.
    fn placed(&mut self, action: SiteAction, name: &[u8; MOST_NAME_BYTES], len: usize, place: u64)
        requires { (len ≤ 16) × has_spare self.old len }
        ensures { took self.old self.new (placed_text action (take len name.now) place) };

    /// Takes how many rounds a site has at least, and its windows.
    fn certified(&mut self, site: &[u8], rounds: u64, windows: &[Window]) -> Result<(), AllocError>
        ensures text { OnOk result (took self.old self.new (certified_text site.now rounds windows.now)) }
        ensures kept { IfErr result (λ _. took self.old self.new []) };
}

impl<A: Allocator + Copy> AnswerTaker<A> for TextBuffer<A> {
    ghost took = { λ old new text. new.text ≡ old.text ++ text };

    ghost has_spare = { λ out names. names + MOST_ANSWER_BYTES ≤ out.spare };

    #[inline(always)]
    fn reserve(&mut self, names: usize) -> Result<(), AllocError> {
        reserve_answer(self, names)
    }

    #[inline(always)]
    fn nothing(&mut self) {}

    #[inline(always)]
    fn refused(&mut self, refusal: Refusal) -> Result<(), AllocError> {
        push_refused(self, refusal)
    }

    #[inline(always)]
    fn declared(&mut self, declaration: &Declaration<'_>) {
        put_declared(self, declaration);
    }

    #[inline(always)]
    fn started(&mut self) {
        put_started(self);
    }

    #[inline(always)]
    fn stepped(
        &mut self,
        setup: &Setup<A>,
        subject: &[u8],
        object: &[u8],
        answer: &Answer<A>,
    ) -> Result<(), AllocError> {
        put_answer(self, setup, subject, object, answer)
    }

    #[inline(always)]
    fn placed(&mut self, action: SiteAction, name: &[u8; MOST_NAME_BYTES], len: usize, place: u64) {
        put_placed(self, action, name, len, place);
    }

    #[inline(always)]
    fn certified(
        &mut self,
        site: &[u8],
        rounds: u64,
        windows: &[Window],
    ) -> Result<(), AllocError> {
        push_certified(self, site, rounds, windows)
    }
}

// promise: as push_answer
/// Takes no answers: of a script that is run for what it leaves alone.
#[derive(Clone, Copy)]
pub struct Unanswered;

impl<A: Allocator + Copy> AnswerTaker<A> for Unanswered {
    ghost took = { λ old new text. Unit {0} };

    ghost has_spare = { λ taker names. Unit {0} };

    fn reserve(&mut self, _: usize) -> Result<(), AllocError> {
        Ok(())
    }

    fn nothing(&mut self) {}

    fn refused(&mut self, refusal: Refusal) -> Result<(), AllocError> {
        match refusal {
            Refusal::NoMemory => Err(AllocError),
            _ => Ok(()),
        }
    }

    fn declared(&mut self, _: &Declaration<'_>) {}

    fn started(&mut self) {}

    fn stepped(
        &mut self,
        _: &Setup<A>,
        _: &[u8],
        _: &[u8],
        answer: &Answer<A>,
    ) -> Result<(), AllocError> {
        match answer {
            Answer::Refused(Refusal::NoMemory) => Err(AllocError),
            _ => Ok(()),
        }
    }

    fn placed(&mut self, _: SiteAction, _: &[u8; MOST_NAME_BYTES], _: usize, _: u64) {}

    fn certified(&mut self, _: &[u8], _: u64, _: &[Window]) -> Result<(), AllocError> {
        Ok(())
    }
}

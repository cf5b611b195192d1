//! The answer to a line: what its command does to the setup or to the world, and the text that says so.
ghost use Rattle.std.specs.Prelude.{◌≡◌, [], None, Some, IfOk, IfErr, length, option_map};
ghost use Rattle.ordup_grammar.specs.Commands.{Certify, Declare, Start, command_by, command_of};
ghost use Rattle.ordup_grammar.specs.Declarations.{declaration_of};
ghost use Rattle.ordup_grammar.specs.Lines.{cut};
ghost use Rattle.ordup_grammar.specs.Requests.{request_by, request_of};
ghost use Rattle.ordup_grammar.specs.declared.keyword.Keyword.{Keyword};
ghost use Rattle.ordup_answers.specs.ScriptStates.{ScriptState, Declares, IsWorldOf, Stands};
ghost use Rattle.ordup_answers.specs.Replies.{declared_name, request_reply, words_reply, command_reply, reply_or_refusal};
ghost use Rattle.ordup_answers.specs.ScriptStates.{running};
ghost use Rattle.ordup_primary.specs.Declarations.{Declared, start_refusal};
ghost use Rattle.ordup_answers.specs.Answers.{Replies, StaysPut};
ghost use Rattle.ordup_answers.specs.KnownLines.{StaysKnown};

use crate::declaring::declare;
use crate::events::{
    answer_abandon, answer_begin, answer_end, answer_propose, answer_read, answer_relimit,
    answer_settle, answer_show, answer_words_at_site,
};
use crate::known_lines::KnownLines;
use crate::names::find_site;
use crate::script_end::ScriptEnd;
use crate::taker::AnswerTaker;
use ordup_grammar::{Declaration, Keyword, LinePart, ScriptLine, SiteAction, Word, Words};
use ordup_objects::Refusal;
use ordup_world::{Setup, World};
use std::alloc::{AllocError, Allocator};

/// Answers a line by its words, and keeps it where it is one of a site.
// A call: with it inlined, the answering of a line would grow so large that the compiler would leave all of that a call, and say nothing.
#[inline(never)]
pub(crate) fn answer_by_words<A: Allocator + Copy, O: AnswerTaker<A>>(
    alloc: A,
    store: &mut ScriptEnd<A>,
    known: &mut KnownLines,
    line: &LinePart<'_>,
    out: &mut O,
) -> Result<(), AllocError>
    ensures reply { Replies (Stands store.old) (Stands store.new) (O.took out.old out.new) (λ s. request_reply s (request_of (cut line.now))) result }
    ensures kept { StaysPut store.old store.new (O.took out.old out.new) result }
    ensures known { StaysKnown store.old known.old known.new }
{
    match ScriptLine::of(line) {
        ScriptLine::Nothing => {
            out.nothing();
            Ok(())
        }
        ScriptLine::NoCommand => out.refused(Refusal::Syntax),
        ScriptLine::Words(first, rest) => answer_words(
            alloc, store, known, line, &first, &rest, out,
        ),
    }
}

/// Answers what a first word and the words after it ask for.
// Each keyword is answered where it is found, so that no command is made that has to be matched again.
#[inline(always)]
fn answer_words<A: Allocator + Copy, O: AnswerTaker<A>>(
    alloc: A,
    store: &mut ScriptEnd<A>,
    known: &mut KnownLines,
    line: &LinePart<'_>,
    first: &Word<'_>,
    rest: &Words<'_>,
    out: &mut O,
) -> Result<(), AllocError>
    requires { request_of (cut line.now) ≡ request_by (command_of first.now rest.now) }
    ensures reply { Replies (Stands store.old) (Stands store.new) (O.took out.old out.new) (λ s. words_reply s (command_of first.now rest.now)) result }
    ensures kept { StaysPut store.old store.new (O.took out.old out.new) result }
    ensures known { StaysKnown store.old known.old known.new }
{
    let Some(keyword) = Keyword::of(first) else {
        return answer_declaration(alloc, store, first, rest, out);
    };
    match keyword {
        Keyword::Start => answer_start(alloc, store, rest, out),
        Keyword::Certify => answer_certify(store, rest, out),
        Keyword::Propose => answer_propose(alloc, store, rest, out),
        Keyword::Send => answer_words_at_site(store, known, line, SiteAction::Send, rest, out),
        Keyword::Apply => answer_words_at_site(store, known, line, SiteAction::Apply, rest, out),
        Keyword::Report => answer_words_at_site(store, known, line, SiteAction::Report, rest, out),
        Keyword::Settle => answer_settle(store, rest, out),
        Keyword::Begin => answer_begin(store, rest, out),
        Keyword::Read => answer_read(store, rest, out),
        Keyword::End => answer_end(store, rest, out),
        Keyword::Abandon => answer_abandon(store, rest, out),
        Keyword::Show => answer_show(store, rest, out),
        Keyword::Relimit => answer_relimit(store, rest, out),
    }
}

/// Declares what words say, and answers that.
fn answer_declaration<A: Allocator + Copy, O: AnswerTaker<A>>(
    alloc: A,
    store: &mut ScriptEnd<A>,
    first: &Word<'_>,
    rest: &Words<'_>,
    out: &mut O,
) -> Result<(), AllocError>
    ensures reply { Replies (Stands store.old) (Stands store.new) (O.took out.old out.new) (λ s. words_reply s (option_map (λ d. Declare d) (declaration_of first.now rest.now))) result }
    ensures kept { StaysPut store.old store.new (O.took out.old out.new) result }
{
    let Some(declaration) = Declaration::parse(first, rest) else {
        return out.refused(Refusal::Syntax);
    };
    match store {
        ScriptEnd::Declared(setup) => carry_out(alloc, setup, &declaration, out),
        ScriptEnd::Running(_) => out.refused(Refusal::AlreadyStarted),
    }
}

/// Declares what a declaration says, and answers it. Spare capacity for the answer is reserved first.
fn carry_out<A: Allocator + Copy, O: AnswerTaker<A>>(
    alloc: A,
    setup: &mut Setup<A>,
    declaration: &Declaration<'_>,
    out: &mut O,
) -> Result<(), AllocError>
    ensures reply { Replies {A = A} (Declares setup.old) (Declares setup.new) (O.took out.old out.new) (λ s. reply_or_refusal s (command_reply s (Declare declaration.now))) result }
    ensures kept { StaysPut setup.old setup.new (O.took out.old out.new) result }
{
    out.reserve(declared_len(declaration))?;
    match declare(alloc, setup, declaration) {
        Ok(()) => {
            out.declared(declaration);
            Ok(())
        }
        Err(refusal) => out.refused(refusal),
    }
}

/// How many bytes the name has that the answer to a declaration tells.
fn declared_len(declaration: &Declaration<'_>) -> usize
    ensures { result ≡ length (declared_name declaration.now) }
{
    match declaration {
        Declaration::Object { name, .. } => name.as_bytes().len(),
        Declaration::Group { name, .. } => name.as_bytes().len(),
        Declaration::Site { name, .. } => name.as_bytes().len(),
        Declaration::Limit { site, .. } => site.as_bytes().len(),
    }
}

/// Answers `start`.
fn answer_start<A: Allocator + Copy, O: AnswerTaker<A>>(
    alloc: A,
    store: &mut ScriptEnd<A>,
    rest: &Words<'_>,
    out: &mut O,
) -> Result<(), AllocError>
    ensures reply { Replies (Stands store.old) (Stands store.new) (O.took out.old out.new) (λ s. words_reply s (command_by Keyword.Start rest.now)) result }
    ensures kept { StaysPut store.old store.new (O.took out.old out.new) result }
{
    if !rest.is_empty() {
        return out.refused(Refusal::Syntax);
    }
    start_store(alloc, store, out)
}

/// Starts the store with what is declared, where it is not started yet, and answers that.
fn start_store<A: Allocator + Copy, O: AnswerTaker<A>>(
    alloc: A,
    store: &mut ScriptEnd<A>,
    out: &mut O,
) -> Result<(), AllocError>
    ensures reply { Replies (Stands store.old) (Stands store.new) (O.took out.old out.new) (λ s. reply_or_refusal s (command_reply s Start)) result }
    ensures kept { StaysPut store.old store.new (O.took out.old out.new) result }
{
    let ScriptEnd::Declared(setup) = store else {
        return out.refused(Refusal::AlreadyStarted);
    };
    out.reserve(0)?;
    match start(alloc, setup) {
        Ok(world) => {
            store.run(world);
            out.started();
            Ok(())
        }
        Err(refusal) => out.refused(refusal),
    }
}

/// The store that starts with what is declared.
///
/// Where it starts, nothing refuses the start, and its world is that of the declarations and of no event. Where it is refused, it
/// is for the reason that the start has, or for want of memory.
// The store takes a copy of the declarations, so that they stay where memory is refused.
fn start<A: Allocator + Copy>(alloc: A, setup: &Setup<A>) -> Result<World<A>, Refusal>
    ensures started { IfOk result (λ w. (start_refusal setup.now ≡ None) × IsWorldOf {A = A} w (running setup.now [])) }
    ensures refused { IfErr result (λ e. (e ≡ Refusal.NoMemory → ⊥) → start_refusal setup.now ≡ Some e) }
{
    if !setup.is_ready() {
        return Err(Refusal::Empty);
    }
    World::start(alloc, setup.copy(alloc)?)
}

/// Answers `certify S`.
fn answer_certify<A: Allocator + Copy, O: AnswerTaker<A>>(
    store: &mut ScriptEnd<A>,
    rest: &Words<'_>,
    out: &mut O,
) -> Result<(), AllocError>
    ensures reply { Replies (Stands store.old) (Stands store.new) (O.took out.old out.new) (λ s. words_reply s (command_by Keyword.Certify rest.now)) result }
    ensures kept { StaysPut store.old store.new (O.took out.old out.new) result }
{
    let Some(site) = rest.only_word() else {
        return out.refused(Refusal::Syntax);
    };
    match store {
        ScriptEnd::Declared(_) => out.refused(Refusal::NotStarted),
        ScriptEnd::Running(world) => certify(world, &site, out),
    }
}

/// Answers how many rounds a site has, which are the fewest, and the windows that show it.
///
/// The check of the site's record would answer the same number, so no record is formed: each record of a primary is valid, and of a
/// valid record the check answers the number of its rounds.
fn certify<A: Allocator + Copy, O: AnswerTaker<A>>(
    world: &World<A>,
    name: &Word<'_>,
    out: &mut O,
) -> Result<(), AllocError>
    ensures reply { Replies {A = A} (IsWorldOf world.now) (IsWorldOf world.now) (O.took out.old out.new) (λ s. reply_or_refusal s (command_reply s (Certify name.now))) result }
    ensures kept { IfErr result (λ _. O.took out.old out.new []) }
{
    let primary = world.primary();
    let setup = primary.setup();
    let site = find_site(setup, name);
    if site.index() >= setup.sites() {
        return out.refused(Refusal::UnknownSite);
    }
    let rounds = primary.rounds(site).len() as u64;
    out.certified(name.as_bytes(), rounds, primary.windows(site))
}

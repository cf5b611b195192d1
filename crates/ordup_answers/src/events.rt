//! Answers the actions of a script: each keyword has a function, which makes an event of the words after it, and answers what the
//! world does with it. Words that spell no command are refused first, and then a command before the start.
//!
//! Where a function fails, memory was refused, and all is as it was.
//!
//! Each function stays a call. A function clears the memory of its values where it begins, so a line has only the values of its own
//! keyword cleared.
ghost use Rattle.std.specs.Prelude.{◌≡◌, [], Some};
ghost use Rattle.ordup_primary.specs.Declarations.{Declared};
ghost use Rattle.ordup_world.specs.Events.{Past};
ghost use Rattle.ordup_world.specs.Worlds.{StandsFor};
ghost use Rattle.ordup_world.specs.declared.event.Event.{Event};
ghost use Rattle.ordup_grammar.specs.Actions.{Settle};
ghost use Rattle.ordup_grammar.specs.Commands.{Act, command_by};
ghost use Rattle.ordup_grammar.specs.Lines.{cut};
ghost use Rattle.ordup_grammar.specs.Requests.{request_by, request_of};
ghost use Rattle.ordup_grammar.specs.SiteLines.{action_at};
ghost use Rattle.ordup_grammar.specs.declared.keyword.Keyword.{Keyword};
ghost use Rattle.ordup_answers.specs.Answers.{Replies, StaysPut, Steps};
ghost use Rattle.ordup_answers.specs.Events.{asked_at, query_name};
ghost use Rattle.ordup_answers.specs.KnownLines.{StaysKnown};
ghost use Rattle.ordup_answers.specs.Refusals.{Gives};
ghost use Rattle.ordup_answers.specs.Replies.{event_reply, words_reply};
ghost use Rattle.ordup_answers.specs.ScriptStates.{ScriptState, IsWorldOf, Stands};

use crate::changes::{set_in, syntax_or};
use crate::known_lines::KnownLines;
use crate::names::{find_object, find_scope, find_site};
use crate::script_end::ScriptEnd;
use crate::taker::AnswerTaker;
use ordup_grammar::{LinePart, ScopeWord, SiteAction, Word, Words};
use ordup_objects::{Name, ObjectId, Refusal, or_give_up};
use ordup_world::{Event, World};
use std::alloc::{AllocError, Allocator};

/// Answers the action of words after a keyword: `send S`, `apply S` or `report S`. The line is kept first, so that it need not be
/// looked at by its words again.
#[inline(never)]
pub(crate) fn answer_words_at_site<A: Allocator + Copy, O: AnswerTaker<A>>(
    store: &mut ScriptEnd<A>,
    known: &mut KnownLines,
    line: &LinePart<'_>,
    action: SiteAction,
    rest: &Words<'_>,
    out: &mut O,
) -> Result<(), AllocError>
    requires { request_of (cut line.now) ≡ request_by (asked_at action rest.now) }
    ensures reply { Replies (Stands store.old) (Stands store.new) (O.took out.old out.new) (λ s. words_reply s (asked_at action rest.now)) result }
    ensures kept { StaysPut store.old store.new (O.took out.old out.new) result }
    ensures known { StaysKnown store.old known.old known.new }
{
    match rest.only_word() {
        Some(site) => {
            known.keep(store, line, action, &site);
            answer_at_site(store, action, &site, out)
        }
        None => out.refused(Refusal::Syntax),
    }
}

/// Answers an action at a site.
#[inline(always)]
fn answer_at_site<A: Allocator + Copy, O: AnswerTaker<A>>(
    store: &mut ScriptEnd<A>,
    action: SiteAction,
    site: &Word<'_>,
    out: &mut O,
) -> Result<(), AllocError>
    ensures reply { Replies (Stands store.old) (Stands store.new) (O.took out.old out.new) (λ s. words_reply s (Some (Act (action_at action site.now)))) result }
    ensures kept { StaysPut store.old store.new (O.took out.old out.new) result }
{
    let ScriptEnd::Running(world) = store else {
        return out.refused(Refusal::NotStarted);
    };
    let name = site.as_bytes();
    let site = find_site(world.primary().setup(), site);
    match action {
        SiteAction::Send => answer_event(world, Event::Send(site), name, &[], out),
        SiteAction::Apply => answer_event(world, Event::Apply(site), name, &[], out),
        SiteAction::Report => answer_event(world, Event::Report(site), name, &[], out),
    }
}

/// Answers `show S`.
pub(crate) fn answer_show<A: Allocator + Copy, O: AnswerTaker<A>>(
    store: &mut ScriptEnd<A>,
    rest: &Words<'_>,
    out: &mut O,
) -> Result<(), AllocError>
    ensures reply { Replies (Stands store.old) (Stands store.new) (O.took out.old out.new) (λ s. words_reply s (command_by Keyword.Show rest.now)) result }
    ensures kept { StaysPut store.old store.new (O.took out.old out.new) result }
{
    let Some(site) = rest.only_word() else {
        return out.refused(Refusal::Syntax);
    };
    let ScriptEnd::Running(world) = store else {
        return out.refused(Refusal::NotStarted);
    };
    let event = Event::Show(find_site(world.primary().setup(), &site));
    answer_event(world, event, site.as_bytes(), &[], out)
}

/// Answers `settle`.
pub(crate) fn answer_settle<A: Allocator + Copy, O: AnswerTaker<A>>(
    store: &mut ScriptEnd<A>,
    rest: &Words<'_>,
    out: &mut O,
) -> Result<(), AllocError>
    ensures reply { Replies (Stands store.old) (Stands store.new) (O.took out.old out.new) (λ s. words_reply s (command_by Keyword.Settle rest.now)) result }
    ensures kept { StaysPut store.old store.new (O.took out.old out.new) result }
{
    if !rest.is_empty() {
        return out.refused(Refusal::Syntax);
    }
    settle(store, out)
}

/// Answers the line `settle`.
#[inline(never)]
pub(crate) fn settle<A: Allocator + Copy, O: AnswerTaker<A>>(
    store: &mut ScriptEnd<A>,
    out: &mut O,
) -> Result<(), AllocError>
    ensures reply { Replies (Stands store.old) (Stands store.new) (O.took out.old out.new) (λ s. words_reply s (Some (Act Settle))) result }
    ensures kept { StaysPut store.old store.new (O.took out.old out.new) result }
{
    let ScriptEnd::Running(world) = store else {
        return out.refused(Refusal::NotStarted);
    };
    answer_event(world, Event::Settle, &[], &[], out)
}

/// Answers `propose C..`.
pub(crate) fn answer_propose<A: Allocator + Copy, O: AnswerTaker<A>>(
    alloc: A,
    store: &mut ScriptEnd<A>,
    rest: &Words<'_>,
    out: &mut O,
) -> Result<(), AllocError>
    ensures reply { Replies (Stands store.old) (Stands store.new) (O.took out.old out.new) (λ s. words_reply s (command_by Keyword.Propose rest.now)) result }
    ensures kept { StaysPut store.old store.new (O.took out.old out.new) result }
{
    let ScriptEnd::Running(world) = store else {
        return out.refused(syntax_or(rest, Refusal::NotStarted));
    };
    match set_in(alloc, world.primary().setup().objects(), rest) {
        Ok(set) => answer_event(world, Event::Propose(set), &[], &[], out),
        Err(refusal) => out.refused(refusal),
    }
}

/// Answers `begin Q S LIMIT`.
pub(crate) fn answer_begin<A: Allocator + Copy, O: AnswerTaker<A>>(
    store: &mut ScriptEnd<A>,
    rest: &Words<'_>,
    out: &mut O,
) -> Result<(), AllocError>
    ensures reply { Replies (Stands store.old) (Stands store.new) (O.took out.old out.new) (λ s. words_reply s (command_by Keyword.Begin rest.now)) result }
    ensures kept { StaysPut store.old store.new (O.took out.old out.new) result }
{
    let Some((query, rest)) = rest.split_first() else {
        return out.refused(Refusal::Syntax);
    };
    let Some((site, limit)) = rest.name_and_number() else {
        return out.refused(Refusal::Syntax);
    };
    let ScriptEnd::Running(world) = store else {
        return out.refused(Refusal::NotStarted);
    };
    match Name::new(query.as_bytes()) {
        Ok(name) => {
            let event = Event::Begin {
                query: name,
                site: find_site(world.primary().setup(), &site),
                limit: limit.amount(),
            };
            answer_event(world, event, query.as_bytes(), &[], out)
        }
        Err(refusal) => out.refused(refusal),
    }
}

/// Answers `read Q X`.
pub(crate) fn answer_read<A: Allocator + Copy, O: AnswerTaker<A>>(
    store: &mut ScriptEnd<A>,
    rest: &Words<'_>,
    out: &mut O,
) -> Result<(), AllocError>
    ensures reply { Replies (Stands store.old) (Stands store.new) (O.took out.old out.new) (λ s. words_reply s (command_by Keyword.Read rest.now)) result }
    ensures kept { StaysPut store.old store.new (O.took out.old out.new) result }
{
    let Some((query, object)) = rest.two_words() else {
        return out.refused(Refusal::Syntax);
    };
    let ScriptEnd::Running(world) = store else {
        return out.refused(Refusal::NotStarted);
    };
    let id = find_object(world.primary().setup().objects(), &object);
    read_out(world, query.as_bytes(), object.as_bytes(), id, out)
}

/// Reads an object by the query of this name, and answers that. Spare capacity for the answer is reserved first.
#[inline(always)]
fn read_out<A: Allocator + Copy, O: AnswerTaker<A>>(
    world: &mut World<A>,
    query: &[u8],
    object: &[u8],
    id: ObjectId,
    out: &mut O,
) -> Result<(), AllocError>
    ensures reply { Steps {A = A} world.old world.new (O.took out.old out.new) (query.now, object.now) (Event.Read query.now id) result }
    ensures kept { StaysPut world.old world.new (O.took out.old out.new) result }
{
    out.reserve(query.len() + object.len())?;
    let answer = world.read(query, id);
    out.stepped(world.primary().setup(), query, object, &answer)
}

/// Answers `end Q`.
pub(crate) fn answer_end<A: Allocator + Copy, O: AnswerTaker<A>>(
    store: &mut ScriptEnd<A>,
    rest: &Words<'_>,
    out: &mut O,
) -> Result<(), AllocError>
    ensures reply { Replies (Stands store.old) (Stands store.new) (O.took out.old out.new) (λ s. words_reply s (command_by Keyword.End rest.now)) result }
    ensures kept { StaysPut store.old store.new (O.took out.old out.new) result }
{
    let Some(query) = rest.only_word() else {
        return out.refused(Refusal::Syntax);
    };
    let ScriptEnd::Running(world) = store else {
        return out.refused(Refusal::NotStarted);
    };
    match query_name(&query) {
        Ok(name) => answer_event(world, Event::End(name), query.as_bytes(), &[], out),
        Err(refusal) => out.refused(refusal),
    }
}

/// Answers `abandon Q`.
pub(crate) fn answer_abandon<A: Allocator + Copy, O: AnswerTaker<A>>(
    store: &mut ScriptEnd<A>,
    rest: &Words<'_>,
    out: &mut O,
) -> Result<(), AllocError>
    ensures reply { Replies (Stands store.old) (Stands store.new) (O.took out.old out.new) (λ s. words_reply s (command_by Keyword.Abandon rest.now)) result }
    ensures kept { StaysPut store.old store.new (O.took out.old out.new) result }
{
    let Some(query) = rest.only_word() else {
        return out.refused(Refusal::Syntax);
    };
    let ScriptEnd::Running(world) = store else {
        return out.refused(Refusal::NotStarted);
    };
    match query_name(&query) {
        Ok(name) => answer_event(world, Event::Abandon(name), query.as_bytes(), &[], out),
        Err(refusal) => out.refused(refusal),
    }
}

/// Answers `relimit S .. N`.
pub(crate) fn answer_relimit<A: Allocator + Copy, O: AnswerTaker<A>>(
    store: &mut ScriptEnd<A>,
    rest: &Words<'_>,
    out: &mut O,
) -> Result<(), AllocError>
    ensures reply { Replies (Stands store.old) (Stands store.new) (O.took out.old out.new) (λ s. words_reply s (command_by Keyword.Relimit rest.now)) result }
    ensures kept { StaysPut store.old store.new (O.took out.old out.new) result }
{
    let Some((site, scope, amount)) = ScopeWord::parse_limit(rest) else {
        return out.refused(Refusal::Syntax);
    };
    let ScriptEnd::Running(world) = store else {
        return out.refused(Refusal::NotStarted);
    };
    let setup = world.primary().setup();
    let event = Event::Relimit {
        site: find_site(setup, &site),
        scope: find_scope(setup, &scope),
        amount: amount.amount(),
    };
    answer_event(world, event, site.as_bytes(), &[], out)
}

/// Steps the world by an event, and answers it. The subject is the site or the query that it names, if it names one.
///
/// Spare capacity for the answer is reserved first, so that an event whose answer finds no memory does not happen.
// Inlined, with the steps, so that an event is not moved where it is known.
#[inline(always)]
fn answer_event<A: Allocator + Copy, O: AnswerTaker<A>>(
    world: &mut World<A>,
    event: Event<A>,
    subject: &[u8],
    object: &[u8],
    out: &mut O,
) -> Result<(), AllocError>
    ensures reply { Steps {A = A} world.old world.new (O.took out.old out.new) (subject.now, object.now) event result }
    ensures kept { StaysPut world.old world.new (O.took out.old out.new) result }
{
    or_give_up!(out.reserve(subject.len() + object.len()), event);
    let answer = world.step(event);
    out.stepped(world.primary().setup(), subject, object, &answer)
}

/// The name of a query. Where the word is no name, no query is open by it.
#[inline(always)]
fn query_name(query: &Word<'_>) -> Result<Name, Refusal>
    ensures { Gives (query_name query.now) result }
{
    match Name::new(query.as_bytes()) {
        Ok(name) => Ok(name),
        Err(_) => Err(Refusal::UnknownQuery),
    }
}

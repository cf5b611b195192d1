//! The answer to a line that came before.
ghost use Rattle.std.specs.Prelude.{◌≡◌, ℕ, List, [], Some, IfSome};
ghost use Rattle.ordup_primary.specs.Declarations.{Declared};
ghost use Rattle.ordup_world.specs.declared.event.Event.{Event};
ghost use Rattle.ordup_answers.specs.Answers.{Replies, StaysPut, Steps};
ghost use Rattle.ordup_answers.specs.KnownLines.{StandsTelling, command_at, name_of};
ghost use Rattle.ordup_answers.specs.Replies.{words_reply};
ghost use Rattle.ordup_answers.specs.ScriptStates.{Stands};
ghost use Rattle.ordup_answers.specs.Texts.{answer_text, placed_text};

use crate::known_line::KnownLine;
use crate::script_end::ScriptEnd;
use crate::taker::AnswerTaker;
use ordup_grammar::SiteAction;
use ordup_objects::{Refusal, or_give_up};
use ordup_world::{Answer, Event, World};
use std::alloc::{AllocError, Allocator};

/// Answers a line that is kept.
#[inline(never)]
pub(crate) fn answer_known<A: Allocator + Copy, O: AnswerTaker<A>>(
    store: &mut ScriptEnd<A>,
    line: &KnownLine,
    out: &mut O,
) -> Result<(), AllocError>
    ensures reply { Replies (StandsTelling store.old line.now) (Stands store.new) (O.took out.old out.new) (λ s. words_reply s (Some (command_at line.now))) result }
    ensures kept { StaysPut store.old store.new (O.took out.old out.new) result }
{
    let ScriptEnd::Running(world) = store else {
        return out.refused(Refusal::NotStarted);
    };
    let site = line.site;
    match line.action {
        SiteAction::Send => answer_at(world, SiteAction::Send, Event::Send(site), line, out),
        SiteAction::Apply => answer_at(world, SiteAction::Apply, Event::Apply(site), line, out),
        SiteAction::Report => answer_at(world, SiteAction::Report, Event::Report(site), line, out),
    }
}

/// Steps the world by the event of a line that is kept, and answers it. Spare capacity for the answer is reserved first.
// Inlined, so that the event and its answer are known where they are used.
#[inline(always)]
fn answer_at<A: Allocator + Copy, O: AnswerTaker<A>>(
    world: &mut World<A>,
    action: SiteAction,
    event: Event<A>,
    line: &KnownLine,
    out: &mut O,
) -> Result<(), AllocError>
    ensures reply { Steps {A = A} world.old world.new (O.took out.old out.new) (name_of line.now, []) event result }
    ensures kept { StaysPut world.old world.new (O.took out.old out.new) result }
{
    let name = line.name();
    or_give_up!(out.reserve(name.len()), event);
    let answer = world.step(event);
    match place_in(action, &answer) {
        Some(place) => {
            out.placed(action, line.padded_name(), name.len(), place);
            Ok(())
        }
        None => out.stepped(world.primary().setup(), name, &[], &answer),
    }
}

/// The place in an answer, where it is that of this action.
#[inline(always)]
fn place_in<A: Allocator + Copy>(action: SiteAction, answer: &Answer<A>) -> Option<u64>
    ensures text { (setup : Declared) (subject object : List ℕ) → IfSome result (λ place. answer_text setup subject object answer.now ≡ placed_text action subject place) }
    ensures other { IfSome result (λ _. answer.now ≡ Answer.Refused Refusal.NoMemory → ⊥) }
{
    match action {
        SiteAction::Send => match answer {
            Answer::Sent { number, .. } => Some(*number),
            _ => None,
        },
        SiteAction::Apply => match answer {
            Answer::Applied { number, .. } => Some(*number),
            _ => None,
        },
        SiteAction::Report => match answer {
            Answer::Reported { place, .. } => Some(*place),
            _ => None,
        },
    }
}

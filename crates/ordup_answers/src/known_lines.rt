//! Lines of a keyword and a site that came before, each with the site and its name as they are needed for the event and the answer.
//!
//! Each line has one slot, which its bytes pick. A slot keeps the first line that comes to it, and no later one takes its place. A
//! script with 16 sites has 48 such lines, so few of them find their slot taken. Only a line whose site is declared is kept, and
//! only after the start, so what is kept stays true.
ghost use Rattle.std.specs.Prelude.{◌≡◌, IfSome};
ghost use Rattle.ordup_primary.specs.Declarations.{Declared};
ghost use Rattle.ordup_grammar.specs.Commands.{Act};
ghost use Rattle.ordup_grammar.specs.Lines.{cut};
ghost use Rattle.ordup_grammar.specs.Requests.{Command, request_of};
ghost use Rattle.ordup_grammar.specs.SiteLines.{action_at};
ghost use Rattle.ordup_answers.specs.KnownLines.{AreKnown, StaysKnown, Tells, line_of};

use crate::known_line::{FEWEST_KEPT_BYTES, KnownLine, MOST_KEPT_BYTES};
use crate::names::find_site;
use crate::script_end::ScriptEnd;
use ordup_grammar::{LinePart, SiteAction, Word};
use ordup_objects::sizes::MOST_NAME_BYTES;
use ordup_objects::slot_of;
use ordup_world::Setup;
use std::alloc::Allocator;

/// How many lines can be kept.
const SLOTS: usize = 256;

/// Lines that came before, each in a slot that its bytes pick.
#[derive(Drop)]
pub(crate) struct KnownLines {
    lines: [Option<KnownLine>; SLOTS],
}

impl KnownLines {
    /// No line came yet.
    pub(crate) fn new() -> Self
        ensures { (d : Declared) → AreKnown d result }
    {
        KnownLines {
            lines: [None; SLOTS],
        }
    }

    /// The line of these bytes, if it is kept.
    #[inline(always)]
    pub(crate) fn find(&self, line: &[u8]) -> Option<&KnownLine>
        ensures line { IfSome result (λ known. line.now ≡ line_of known.now) }
        ensures tells { (d : Declared) → AreKnown d self.now → IfSome result (λ known. Tells d known.now) }
    {
        let Some(known) = &self.lines[slot_of(line) as usize] else {
            return None;
        };
        if !known.is(line) {
            return None;
        }
        Some(known)
    }

    /// Keeps a line in a slot, where its site is declared.
    #[inline(never)]
    fn note<A: Allocator + Copy>(
        &mut self,
        setup: &Setup<A>,
        slot: u8,
        line: &[u8],
        action: SiteAction,
        site: &Word<'_>,
    )
        requires { request_of (cut line.now) ≡ Command (Act (action_at action site.now)) }
        ensures { AreKnown setup.now self.old → AreKnown setup.now self.new }
    {
        let name = site.as_bytes();
        let site = find_site(setup, site);
        if site.index() >= setup.sites() || name.len() > MOST_NAME_BYTES {
            return;
        }
        if line.len() < FEWEST_KEPT_BYTES || line.len() > MOST_KEPT_BYTES {
            return;
        }
        self.lines[slot as usize] = Some(KnownLine::new(line, name, action, site));
    }

    /// Keeps a line that asks for an action at a site, after the start, where its slot is free.
    pub(crate) fn keep<A: Allocator + Copy>(
        &mut self,
        store: &ScriptEnd<A>,
        part: &LinePart<'_>,
        action: SiteAction,
        site: &Word<'_>,
    )
        requires { request_of (cut part.now) ≡ Command (Act (action_at action site.now)) }
        ensures { StaysKnown store.now self.old self.new }
    {
        let ScriptEnd::Running(world) = store else {
            return;
        };
        let slot = slot_of(part.as_bytes());
        if self.lines[slot as usize].is_none() {
            self.note(world.primary().setup(), slot, part.as_bytes(), action, site);
        }
    }
}

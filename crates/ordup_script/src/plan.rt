ghost use Rattle.std.specs.Prelude.{◌≡◌, ◌+◌, ◌-◌, ◌<◌, ◌≤◌, true, false, [], ◌∷◌, ◌++◌, OnOk, option_map};
ghost use Rattle.ordup_grammar.specs.Commands.{Declare, command_by, command_of};
ghost use Rattle.ordup_grammar.specs.Declarations.{declaration_of};
ghost use Rattle.ordup_grammar.specs.Requests.{asked};
ghost use Rattle.ordup_grammar.specs.declared.keyword.Keyword.{Keyword};
ghost use Rattle.ordup_script.specs.Plans.{request_in, plan_result, planning, malformed};
ghost use Rattle.ordup_script.specs.Plannings.{Tells, HasPlanned, HasRefused, LeadsTo, follows, plan_state};
ghost use Rattle.ordup_script.specs.Streams.{most_counted};

use crate::line_reader::LineTaker;
use ordup_answers::{declare, set_in};
use ordup_grammar::{Declaration, Keyword, LinePart, ScriptLine, Word, Words};
use ordup_objects::{MessageSet, Refusal};
use ordup_world::Setup;
use std::alloc::{Allocator, Global};

/// What is declared, and the message sets to propose, in their order.
#[derive(Drop)]
pub struct Plan<A: Allocator + Copy = Global> {
    /// The declarations, which are complete.
    pub setup: Setup<A>,
    /// The sets, each of them over the objects of the setup. No test has been made whether they are legal one after the other.
    pub sets: Vec<MessageSet<A>, A>,
}

/// Why a plan was not read to its end.
#[derive(Clone, Copy, Debug, PartialEq, Eq)]
pub enum PlanFault {
    /// A read failed. Each line before that a line feed ended belongs.
    Read,
    /// The plan has more bytes than it may. Each line that a line feed ended within them belongs.
    TooLong,
    /// This is the first line that does not belong. All lines are counted, from 1. Where there is no `start` it is the line after
    /// the last.
    Malformed { line: u64 },
    /// An allocation was refused.
    NoMemory,
}

/// Where a plan stands after some of its lines, each of which belongs.
#[derive(Drop)]
pub(crate) struct Planning<A: Allocator + Copy = Global> {
    alloc: A,
    pub(crate) plan: Plan<A>,
    pub(crate) is_started: bool,
    // How many lines there were.
    pub(crate) lines: u64,
}

impl<A: Allocator + Copy> LineTaker for Planning<A> {
    type Fault = PlanFault;

    ghost took = { λ first now lines. HasPlanned now lines };

    ghost stopped = { λ first now lines fault. HasRefused lines fault };

    ghost is_clear = { λ planning. Unit {0} };

    ghost lines_left = { λ planning. most_counted - planning.lines };

    fn take(&mut self, line: &LinePart<'_>) -> Result<(), PlanFault> {
        self.take_line(&ScriptLine::of(line))
    }

    fn hand_out(&mut self) -> Result<(), PlanFault> {
        Ok(())
    }
}

impl<A: Allocator + Copy> Planning<A> {
    /// Before the first line.
    pub(crate) fn new(alloc: A) -> Self
        ensures plan { HasPlanned result [] }
        ensures lines { result.lines ≡ 0 }
    {
        let plan = Plan {
            setup: Setup::new(alloc),
            sets: Vec::new(alloc),
        };
        Planning {
            alloc,
            plan,
            is_started: false,
            lines: 0,
        }
    }

    /// Takes the next line.
    ///
    /// The plan stands as that leaves it, or the line is the first that does not belong. One line more is counted.
    fn take_line(&mut self, line: &ScriptLine<'_>) -> Result<(), PlanFault>
        requires { self.old.lines < most_counted }
        ensures plan { LeadsTo self.new (request_in (plan_state self.old) (asked line.now)) result }
        ensures lines { self.new.lines ≡ self.old.lines + 1 }
    {
        self.lines += 1;
        match line {
            ScriptLine::Nothing => Ok(()),
            ScriptLine::NoCommand => self.refuse(),
            ScriptLine::Words(first, rest) => self.follow(first, rest),
        }
    }

    /// Ends the plan: it is what its lines come to. Without a start the line after the last does not belong.
    pub(crate) fn end(&self) -> Result<(), PlanFault>
        requires { self.now.lines < most_counted }
        ensures { Tells (plan_result (plan_state self.now)) self.now.plan result }
    {
        if self.is_started {
            return Ok(());
        }
        Err(PlanFault::Malformed {
            line: self.lines + 1,
        })
    }

    /// The line does not belong.
    fn refuse(&self) -> Result<(), PlanFault>
        ensures { LeadsTo self.now (malformed self.now.lines) result }
    {
        Err(PlanFault::Malformed { line: self.lines })
    }

    /// Follows the command that a first word and the words after it spell, where it belongs.
    fn follow(&mut self, first: &Word<'_>, rest: &Words<'_>) -> Result<(), PlanFault>
        ensures plan { LeadsTo self.new (follows self.old (command_of first.now rest.now)) result }
        ensures lines { self.new.lines ≡ self.old.lines }
    {
        match Keyword::of(first) {
            Some(Keyword::Propose) => self.propose(rest),
            Some(Keyword::Start) => self.start(rest),
            Some(_) => self.refuse(),
            None => self.declare(first, rest),
        }
    }

    /// Follows a declaration, before the start.
    fn declare(&mut self, first: &Word<'_>, rest: &Words<'_>) -> Result<(), PlanFault>
        ensures plan { LeadsTo self.new (follows self.old (option_map (λ d. Declare d) (declaration_of first.now rest.now))) result }
        ensures lines { self.new.lines ≡ self.old.lines }
    {
        let Some(declaration) = Declaration::parse(first, rest) else {
            return self.refuse();
        };
        if self.is_started {
            return self.refuse();
        }
        match declare(self.alloc, &mut self.plan.setup, &declaration) {
            Ok(()) => Ok(()),
            Err(Refusal::NoMemory) => Err(PlanFault::NoMemory),
            Err(_) => self.refuse(),
        }
    }

    /// Follows the start, where there is none yet.
    fn start(&mut self, rest: &Words<'_>) -> Result<(), PlanFault>
        ensures plan { LeadsTo self.new (follows self.old (command_by Keyword.Start rest.now)) result }
        ensures lines { self.new.lines ≡ self.old.lines }
    {
        if !rest.is_empty() || self.is_started || !self.plan.setup.is_ready() {
            return self.refuse();
        }
        self.is_started = true;
        Ok(())
    }

    /// Follows a proposal, after the start.
    fn propose(&mut self, words: &Words<'_>) -> Result<(), PlanFault>
        ensures plan { LeadsTo self.new (follows self.old (command_by Keyword.Propose words.now)) result }
        ensures lines { self.new.lines ≡ self.old.lines }
    {
        if !self.is_started {
            return self.refuse();
        }
        match set_in(self.alloc, self.plan.setup.objects(), words) {
            Ok(set) => self.add(set),
            Err(Refusal::NoMemory) => Err(PlanFault::NoMemory),
            Err(_) => self.refuse(),
        }
    }

    /// Adds a set.
    fn add(&mut self, set: MessageSet<A>) -> Result<(), PlanFault>
        ensures plan { LeadsTo self.new (planning self.old.plan.setup self.old.is_started (self.old.plan.sets.items ++ set ∷ []) self.old.lines) result }
        ensures lines { self.new.lines ≡ self.old.lines }
    {
        match self.plan.sets.push(set) {
            Ok(()) => Ok(()),
            Err(_) => Err(PlanFault::NoMemory),
        }
    }
}

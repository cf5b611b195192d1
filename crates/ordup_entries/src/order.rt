//! Which steps may follow which.
ghost use Rattle.std.specs.Prelude.{◌≡◌};
ghost use Rattle.ordup_entries.specs.Orders.{may_stand, may_be_next, part_behind, counted};

use crate::step::Step;

/// What a part of an entry is, by the step before.
#[derive(Clone, Copy)]
pub enum Part {
    /// There is no step before.
    Start,
    /// Behind a beginning and what it declares.
    Beginning,
    /// Behind a wish and what it wants.
    Wishing,
    /// Behind another step.
    Running,
    /// Behind an answer.
    Answering,
}

impl Part {
    /// Whether the step may be next, where there is so much room.
    pub(crate) fn may_be_next(self, room: u64, step: &Step<'_>) -> bool
        ensures { result ≡ may_be_next self room step.now }
    {
        self.may_stand(step) && step.counted() <= room
    }

    /// Whether the step may stand in this part.
    fn may_stand(self, step: &Step<'_>) -> bool
        ensures { result ≡ may_stand self step.now }
    {
        match step {
            Step::Begin(_) => matches!(self, Part::Start),
            Step::Declare(_) => matches!(self, Part::Beginning),
            Step::Want(_) => matches!(self, Part::Wishing),
            Step::Answered { .. } => true,
            _ => !matches!(self, Part::Answering),
        }
    }

    /// The part behind a step.
    pub(crate) fn behind(step: &Step<'_>) -> Part
        ensures { result ≡ part_behind step.now }
    {
        match step {
            Step::Begin(_) | Step::Declare(_) => Part::Beginning,
            Step::Wish(_) | Step::Want(_) => Part::Wishing,
            Step::Answered { .. } => Part::Answering,
            _ => Part::Running,
        }
    }
}

impl<'a> Step<'a> {
    /// How much of the room of an entry the step takes.
    pub(crate) fn counted(&self) -> u64
        ensures { result ≡ counted self.now }
    {
        match self {
            Step::Tell { count, .. } | Step::Gone { count, .. } | Step::Settle { count } => *count,
            _ => 0,
        }
    }
}

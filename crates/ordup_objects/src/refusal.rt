ghost use Rattle.std.specs.Prelude.{◌≡◌};

use crate::ids::SiteId;
use std::alloc::{AllocError, AllocFailed};
use thiserror::Error;

/// Why a call was refused. A refused call leaves everything as it was, but for the calls that FAULTS in `docs/` names.
///
/// Answers show a refusal by its number and its name. As an error it is its name, and what it tells.
#[derive(Clone, Copy, Debug, PartialEq, Eq, Error)]
#[error("{}", self.name())]
pub enum Refusal {
    /// The line is no command.
    Syntax,
    /// The store has not been started.
    NotStarted,
    /// The store was started before.
    AlreadyStarted,
    /// A name is not 1 to 16 bytes of a to z, 0 to 9 and `_` that begin with a letter.
    BadName,
    /// The name is declared already.
    NameTaken,
    /// There is no such object.
    UnknownObject,
    /// There is no such group.
    UnknownGroup,
    /// There is no such site.
    UnknownSite,
    /// A number, or the result of a change, is out of range.
    OutOfRange,
    /// A size would be exceeded.
    TooMany,
    /// Something that must have a member has none.
    Empty,
    /// Something is given twice.
    Repeated,
    /// The log has all the updates that it may have.
    LogFull,
    /// All updates were sent to the site.
    NothingToSend,
    /// The site's feed is full.
    FeedFull,
    /// The site's feed is empty.
    NothingToApply,
    /// All updates are acknowledged.
    NothingToSettle,
    /// There is no open query of this name.
    UnknownQuery,
    /// A query of this name is open.
    QueryOpen,
    /// The read would bring the query over its import limit.
    OverImport,
    /// The site has applied only this many updates, fewer than the session has seen.
    #[error("{} {applied}", self.name())]
    Behind { applied: u64 },
    /// The update with this number is not acknowledged yet.
    #[error("{} {number}", self.name())]
    NotYet { number: u64 },
    /// The store was stopped.
    Stopped,
    /// The head is decided and not acknowledged.
    HeadPending,
    /// What the site has not reported weighs more than the new limit.
    LagOver,
    /// Memory was refused.
    NoMemory,
    /// The site does not hold what its log says.
    #[error("{} {}", self.name(), .site.index())]
    Mixed { site: SiteId },
}

impl From<AllocError> for Refusal {
    ghost use Rattle.ordup_objects.specs.declared.refusal.Refusal.TheVariants.{NoMemory};

    ghost from_gives = { λ _ refusal. refusal ≡ NoMemory };

    fn from(_error: AllocError) -> Refusal {
        Refusal::NoMemory
    }
}

impl<T: Drop> From<AllocFailed<T>> for Refusal {
    ghost use Rattle.ordup_objects.specs.declared.refusal.Refusal.TheVariants.{NoMemory};

    ghost from_gives = { λ _ refusal. refusal ≡ NoMemory };

    fn from(_failed: AllocFailed<T>) -> Refusal {
        Refusal::NoMemory
    }
}

impl Refusal {
    ghost use Rattle.ordup_objects.specs.Refusals.{refusal_number, refusal_name};

    // promise: each refusal has its number and its name
    /// The number of the refusal in answers, from 1 to 27.
    pub fn number(&self) -> u8
        ensures { result ≡ refusal_number self.now }
    {
        match self {
            Refusal::Syntax => 1,
            Refusal::NotStarted => 2,
            Refusal::AlreadyStarted => 3,
            Refusal::BadName => 4,
            Refusal::NameTaken => 5,
            Refusal::UnknownObject => 6,
            Refusal::UnknownGroup => 7,
            Refusal::UnknownSite => 8,
            Refusal::OutOfRange => 9,
            Refusal::TooMany => 10,
            Refusal::Empty => 11,
            Refusal::Repeated => 12,
            Refusal::LogFull => 13,
            Refusal::NothingToSend => 14,
            Refusal::FeedFull => 15,
            Refusal::NothingToApply => 16,
            Refusal::NothingToSettle => 17,
            Refusal::UnknownQuery => 18,
            Refusal::QueryOpen => 19,
            Refusal::OverImport => 20,
            Refusal::Behind { .. } => 21,
            Refusal::NotYet { .. } => 22,
            Refusal::Stopped => 23,
            Refusal::HeadPending => 24,
            Refusal::LagOver => 25,
            Refusal::NoMemory => 26,
            Refusal::Mixed { .. } => 27,
        }
    }

    // promise: as Refusal::number
    /// The name of the refusal in answers.
    pub fn name(&self) -> &'static str
        ensures { result.now ≡ refusal_name self.now }
    {
        match self {
            Refusal::Syntax => "Syntax",
            Refusal::NotStarted => "NotStarted",
            Refusal::AlreadyStarted => "AlreadyStarted",
            Refusal::BadName => "BadName",
            Refusal::NameTaken => "NameTaken",
            Refusal::UnknownObject => "UnknownObject",
            Refusal::UnknownGroup => "UnknownGroup",
            Refusal::UnknownSite => "UnknownSite",
            Refusal::OutOfRange => "OutOfRange",
            Refusal::TooMany => "TooMany",
            Refusal::Empty => "Empty",
            Refusal::Repeated => "Repeated",
            Refusal::LogFull => "LogFull",
            Refusal::NothingToSend => "NothingToSend",
            Refusal::FeedFull => "FeedFull",
            Refusal::NothingToApply => "NothingToApply",
            Refusal::NothingToSettle => "NothingToSettle",
            Refusal::UnknownQuery => "UnknownQuery",
            Refusal::QueryOpen => "QueryOpen",
            Refusal::OverImport => "OverImport",
            Refusal::Behind { .. } => "Behind",
            Refusal::NotYet { .. } => "NotYet",
            Refusal::Stopped => "Stopped",
            Refusal::HeadPending => "HeadPending",
            Refusal::LagOver => "LagOver",
            Refusal::NoMemory => "NoMemory",
            Refusal::Mixed { .. } => "Mixed",
        }
    }
}

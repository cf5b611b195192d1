use ordup_audit::Reason;

/// Why a record does not go with those before it: on a series, or with the records of other sites.
#[derive(Clone, Copy, Debug, PartialEq, Eq)]
pub enum SeriesReason {
    /// The site, the objects, their initial values, the groups or their members are not those that the record before ended with.
    NotNext,
    /// The objects, their initial values, the groups or their members are not those of the records of other sites before it; or none of
    /// its updates and theirs are the first of the others. A series has no such reason.
    NotSame,
    /// The record alone is not valid.
    OfRecord(Reason),
}

impl SeriesReason {
    ghost use Rattle.std.specs.Prelude.{◌≡◌};
    ghost use Rattle.ordup_series.specs.Reasons.{series_reason_name};

    // promise: as SeriesAudit::places
    /// The name by which verdicts show the reason.
    pub fn name(self) -> &'static str
        ensures { result.now ≡ series_reason_name self }
    {
        match self {
            SeriesReason::NotNext => "NotNext",
            SeriesReason::NotSame => "NotSame",
            SeriesReason::OfRecord(reason) => reason.name(),
        }
    }
}

/// What the audit of a series, or of the records of several sites, answers.
#[derive(Clone, Copy, Debug, PartialEq, Eq)]
pub enum SeriesVerdict {
    /// All records are valid and go together, and have so many rounds. No schedule that keeps the limits has fewer: of a series none of
    /// the whole, and of several sites none of each.
    Fewest(u64),
    /// There is a reason against a record.
    No {
        /// The record, counted from 1: the first against which there is a reason.
        record: u64,
        /// The row of this record, counted from 1, at which the reason is met first.
        row: u64,
        /// The first reason.
        reason: SeriesReason,
    },
}

impl SeriesVerdict {
    ghost use Rattle.std.specs.Prelude.{◌≡◌};
    ghost use Rattle.ordup_series.specs.Reasons.{is_yes};

    /// Whether it is a number of rounds, and no reason against a record.
    pub fn is_yes(self) -> bool
        ensures { result ≡ is_yes self }
    {
        match self {
            SeriesVerdict::Fewest(_) => true,
            SeriesVerdict::No { .. } => false,
        }
    }
}

ghost use Rattle.std.specs.Prelude.{◌≡◌, ◌+◌, ◌^◌, ◌<◌, ◌≤◌, IfSome, sum_by};
ghost use Rattle.ordup_plan.specs.Counting.{count_of, counted, counted_by, plus, total};

use ordup_objects::Refusal;

/// How many proposals were refused, and how many are pending. All others of a caller were acknowledged.
#[derive(Clone, Copy)]
pub(crate) struct Tally {
    /// How many were refused before they were numbered.
    pub(crate) refused: u64,
    /// How many were numbered, and not acknowledged by their last turn.
    pub(crate) pending: u64,
}

/// The tally of a caller that has proposed nothing yet.
pub(crate) const NONE: Tally = Tally {
    refused: 0,
    pending: 0,
};

impl Tally {
    // promise counts: `NotYet` is pending, want of memory and `Stopped` end a caller, other refusals count as refused; the counts are
    // added up
    /// Counts the answer to one more proposal. There is no tally where the caller has to end: memory was refused before an update
    /// was numbered, or the cluster was stopped.
    pub(crate) fn with(self, answer: Result<u64, Refusal>) -> Option<Tally>
        requires { counted self + 1 < 2 ^ 64 }
        ensures counts { result ≡ counted_by self answer }
        ensures few { IfSome result (λ tally. counted tally ≤ counted self + 1) }
    {
        let Tally { refused, pending } = self;
        match answer {
            Ok(_) => Some(self),
            Err(Refusal::NotYet { .. }) => Some(Tally {
                refused,
                pending: pending + 1,
            }),
            Err(Refusal::NoMemory | Refusal::Stopped) => None,
            Err(_) => Some(Tally {
                refused: refused + 1,
                pending,
            }),
        }
    }

    // promise: as Tally::with
    /// The sum of two tallies.
    pub(crate) fn plus(self, other: Tally) -> Tally
        requires { counted self + counted other < 2 ^ 64 }
        ensures { result ≡ plus self other }
    {
        Tally {
            refused: self.refused + other.refused,
            pending: self.pending + other.pending,
        }
    }
}

// promise: as Tally::with
/// The sum of the tallies of all callers. There is none where a caller has no tally.
pub(crate) fn added_up(tallies: Vec<Option<Tally>>) -> Option<Tally>
    requires { sum_by count_of tallies.items < 2 ^ 64 }
    ensures { result ≡ total tallies.items }
{
    let mut sum = NONE;
    for tally in tallies {
        sum = sum.plus(tally?);
    }
    Some(sum)
}

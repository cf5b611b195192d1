//! The beginning of an audit, and its next record.
ghost use Rattle.std.specs.Prelude.{◌≡◌, ◌<◌, ◌∷◌, ◌++◌, [], List, None, Some, IfErr, IfNone, IfOk, IfSome, OnErr};
ghost use Rattle.ordup_audit.specs.Records.{RecordState};
ghost use Rattle.ordup_series.specs.Audits.{HasAudited, IfSeriesFewest, IsSeriesVerdict, IsWholeVerdict};
ghost use Rattle.ordup_series.specs.Ends.{BeginsWith, DiffersAtRow, EndState};
ghost use Rattle.ordup_series.specs.declared.sizes.TheConstants.{MOST_RECORDS};

use crate::audit::SeriesAudit;
use crate::record_end::RecordEnd;
use crate::verdict::{SeriesReason, SeriesVerdict};
use ordup_audit::{Record, Verdict, check};
use ordup_objects::Refusal;
use std::alloc::Allocator;
use std::mem::replace;

impl<A: Allocator + Copy> SeriesAudit<A> {
    // promise: an audit takes each valid record that is next; else it answers the first reason
    /// Before the first record.
    pub fn new() -> Self
        ensures { HasAudited result [] }
    {
        SeriesAudit {
            end: None,
            records: 0,
            places: 0,
            rounds: 0,
        }
    }

    // promise whole: records that were taken have the fewest rounds; no series that begins with a refused one is certified
    // promise refused kept: an audit is as it was if memory is refused
    // promise verdict: as SeriesAudit::new
    /// Takes the next record, and answers the verdict on all so far.
    ///
    /// After the records of a series, which are valid and each next to the one before, it promises, clause by clause:
    ///
    /// - `verdict`: a number where the record is next to them and valid too: that of the rounds of all. Then the audit took the record.
    ///   Else the first reason against it: that it is not next, or that of the check of the record alone.
    /// - `whole`: where it is a number, no schedule of the whole of the records that keeps the limits has fewer rounds; else no series
    ///   of records that begins with these has a whole that is certified.
    /// - `refused`: where memory was refused, all is as it was.
    pub fn take(&mut self, alloc: A, audited: &Record<A>) -> Result<SeriesVerdict, Refusal>
        requires { self.old.records < MOST_RECORDS }
        ensures verdict { (done : List RecordState) → HasAudited self.old done → IfOk result (λ v.
            IsSeriesVerdict done audited.now v × IfSeriesFewest v (λ n. HasAudited self.new (done ++ audited.now ∷ []))) }
        ensures whole { (done : List RecordState) → HasAudited self.old done → IfOk result (λ v. IsWholeVerdict done audited.now v) }
        ensures refused { IfErr result (λ e. e ≡ Refusal.NoMemory) }
        ensures kept { OnErr result (self.new ≡ self.old) }
    {
        let record = self.records + 1;
        if let Some(row) = self.first_difference(audited) {
            return Ok(SeriesVerdict::No {
                record,
                row,
                reason: SeriesReason::NotNext,
            });
        }
        match check(audited) {
            Verdict::Fewest(rounds) => {
                let end = RecordEnd::of(alloc, audited)?;
                drop(replace(&mut self.end, Some(end)));
                self.records = record;
                self.places += audited.decided();
                self.rounds += rounds;
                Ok(SeriesVerdict::Fewest(self.rounds))
            }
            Verdict::No { row, reason } => Ok(SeriesVerdict::No {
                record,
                row,
                reason: SeriesReason::OfRecord(reason),
            }),
        }
    }

    /// The row of a record at which it differs from what the record before ended with, if there was one and it does.
    fn first_difference(&self, audited: &Record<A>) -> Option<u64>
        ensures none { IfNone result ((end : EndState) → self.now.end ≡ Some end → BeginsWith end audited.now) }
        ensures some { IfSome result (λ row. IfSome self.now.end (λ end. DiffersAtRow end audited.now row)) }
        ensures first { self.now.end ≡ None → result ≡ None }
    {
        match &self.end {
            None => None,
            Some(end) => end.first_difference(audited),
        }
    }
}

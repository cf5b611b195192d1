//! The beginning of an audit, and its next record.
ghost use Rattle.std.specs.Prelude.{◌≡◌, ◌<◌, ◌∷◌, ◌++◌, [], List, None, Some, IfNone, IfSome, if◌then◌else◌};
ghost use Rattle.ordup_audit.specs.Records.{RecordState};
ghost use Rattle.ordup_series.specs.Audits.{IfSeriesFewest};
ghost use Rattle.ordup_series.specs.declared.sizes.TheConstants.{MOST_RECORDS};
ghost use Rattle.ordup_sites.specs.Audits.{HasAudited, IsSitesVerdict, is_longer};
ghost use Rattle.ordup_sites.specs.Sites.{AreSame, DiffersFrom};

use crate::audit::SitesAudit;
use crate::difference::first_difference;
use ordup_audit::{Record, Verdict, check};
use ordup_series::{SeriesReason, SeriesVerdict};
use std::alloc::Allocator;
use std::mem::replace;

impl<A: Allocator + Copy> SitesAudit<A> {
    // promise: an audit takes each valid record that is the same as those before it; else it answers the first reason
    /// Before the first record.
    pub fn new() -> Self
        ensures { HasAudited result [] }
    {
        SitesAudit {
            longest: None,
            records: 0,
            rounds: 0,
        }
    }

    // promise verdict: as SitesAudit::new
    /// Takes the next record, and answers the verdict on all so far. It needs no memory.
    ///
    /// After records that are valid, and the same as far as each two go, it is the number of the rounds of all where the record is valid
    /// too and the same as each of them; then the audit took the record. Else it is the reason against it: that of the check of the
    /// record alone, or that it is not the same, with the first row at which it differs from any of them.
    pub fn take(&mut self, audited: Record<A>) -> SeriesVerdict
        requires { self.old.records < MOST_RECORDS }
        ensures verdict { (done : List RecordState) → HasAudited self.old done
            → IsSitesVerdict done audited result × IfSeriesFewest result (λ n. HasAudited self.new (done ++ audited ∷ [])) }
    {
        audited.keeps();
        let record = self.records + 1;
        match check(&audited) {
            Verdict::Fewest(rounds) => {
                if let Some(row) = self.first_difference(&audited) {
                    audited.discard();
                    return SeriesVerdict::No {
                        record,
                        row,
                        reason: SeriesReason::NotSame,
                    };
                }
                self.keep_longer(audited);
                self.records = record;
                self.rounds += rounds;
                SeriesVerdict::Fewest(self.rounds)
            }
            Verdict::No { row, reason } => {
                audited.discard();
                SeriesVerdict::No {
                    record,
                    row,
                    reason: SeriesReason::OfRecord(reason),
                }
            }
        }
    }

    /// The row of a record at which it differs from the longest, if there is one and it does.
    fn first_difference(&self, audited: &Record<A>) -> Option<u64>
        ensures none { IfNone result (IfSome self.now.longest (λ longest. AreSame longest audited.now)) }
        ensures some { IfSome result (λ row. IfSome self.now.longest (λ longest. DiffersFrom longest audited.now row)) }
        ensures first { self.now.longest ≡ None → result ≡ None }
    {
        match &self.longest {
            None => None,
            Some(longest) => first_difference(longest, audited),
        }
    }

    /// Keeps a record in place of the longest where it has more updates.
    fn keep_longer(&mut self, audited: Record<A>)
        ensures longest { self.new.longest ≡ (if is_longer self.old.longest audited then Some audited else self.old.longest) }
        ensures counts { (self.new.records ≡ self.old.records) × (self.new.rounds ≡ self.old.rounds) }
    {
        if self.is_longer(&audited) {
            drop(replace(&mut self.longest, Some(audited)));
        } else {
            audited.discard();
        }
    }

    /// Whether a record has more updates than the longest, or is the first.
    fn is_longer(&self, audited: &Record<A>) -> bool
        ensures { result ≡ is_longer self.now.longest audited.now }
    {
        match &self.longest {
            None => true,
            Some(longest) => longest.decided() < audited.decided(),
        }
    }
}

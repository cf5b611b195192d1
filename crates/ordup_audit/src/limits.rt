//! Whether the rounds of a record keep the limits.

ghost use Rattle.std.specs.Prelude.{IfNone, IfSome};
ghost use Rattle.ordup_objects.specs.Serial.{IsLegalHistory};
ghost use Rattle.ordup_audit.specs.Records.{history_of};
ghost use Rattle.ordup_audit.specs.LeastStarts.{AreStartsOf};
ghost use Rattle.ordup_audit.specs.Verdicts.{ArePlacesWithin, IsBrokenRow};

use crate::cursors::{awaited, pass_reports, pass_rounds, reported};
use crate::least_starts::LeastStarts;
use crate::record::Record;
use crate::rows::change_row;
use std::alloc::Allocator;

/// The row of the first change of the first place whose span from its base passes a limit, if there is one.
pub(crate) fn first_broken<A: Allocator + Copy>(
    audited: &Record<A>,
    starts: &LeastStarts<A>,
) -> Option<u64>
    requires legal { IsLegalHistory (history_of audited.now) }
    requires starts { AreStartsOf audited.now starts.now }
    ensures none { IfNone result (ArePlacesWithin audited.now) }
    ensures some { IfSome result (λ row. IsBrokenRow audited.now row) }
{
    let mut reports_passed = 0;
    let mut rounds_passed = 0;
    for updates in 0..audited.decided() {
        let place = updates + 1;
        reports_passed = pass_reports(audited.reports(), reports_passed, place);
        rounds_passed = pass_rounds(audited.rounds(), rounds_passed, place);
        let reported = reported(audited.reports(), reports_passed);
        let base = reported.max(awaited(audited.rounds(), rounds_passed));
        if starts.passes_a_limit(audited, base, place) {
            return Some(change_row(audited, updates, 0));
        }
    }
    None
}

//! Whether each window of a record is over a limit alone, apart from the others, and after what was reported.

ghost use Rattle.std.specs.Prelude.{IfNone, IfSome};
ghost use Rattle.ordup_objects.specs.Serial.{IsLegalHistory};
ghost use Rattle.ordup_audit.specs.Records.{history_of};
ghost use Rattle.ordup_audit.specs.LeastStarts.{AreStartsOf};
ghost use Rattle.ordup_audit.specs.Verdicts.{AreWindowsOver, AreWindowsApart, AreWindowsUnreported, IsLightRow, IsMeetingRow, IsReportedRow};

use crate::least_starts::LeastStarts;
use crate::record::Record;
use crate::rows::window_row;
use std::alloc::Allocator;

/// The row of the first window that is over no limit, if there is one.
pub(crate) fn first_light<A: Allocator + Copy>(
    audited: &Record<A>,
    starts: &LeastStarts<A>,
) -> Option<u64>
    requires legal { IsLegalHistory (history_of audited.now) }
    requires starts { AreStartsOf audited.now starts.now }
    ensures none { IfNone result (AreWindowsOver audited.now) }
    ensures some { IfSome result (λ row. IsLightRow audited.now row) }
{
    audited.keeps();
    for (index, window) in audited.windows().iter().enumerate() {
        if !starts.passes_a_limit(audited, window.from, window.to) {
            return Some(window_row(audited, index));
        }
    }
    None
}

/// The row of the first window that begins before the one before it ends, if there is one.
pub(crate) fn first_meeting<A: Allocator + Copy>(audited: &Record<A>) -> Option<u64>
    ensures none { IfNone result (AreWindowsApart audited.now) }
    ensures some { IfSome result (λ row. IsMeetingRow audited.now row) }
{
    let mut end = 0;
    for (index, window) in audited.windows().iter().enumerate() {
        if window.from < end {
            return Some(window_row(audited, index));
        }
        end = window.to;
    }
    None
}

/// The row of the first window of which something was reported before its last place was decided, if there is one.
pub(crate) fn first_reported<A: Allocator + Copy>(audited: &Record<A>) -> Option<u64>
    ensures none { IfNone result (AreWindowsUnreported audited.now) }
    ensures some { IfSome result (λ row. IsReportedRow audited.now row) }
{
    for (index, window) in audited.windows().iter().enumerate() {
        if audited.reported_at(window.to) > window.from {
            return Some(window_row(audited, index));
        }
    }
    None
}

//! Whether lists hold the same, entry by entry.

ghost use Rattle.std.specs.Prelude.{◌≡◌, ◌↔◌, IsTrue};

use crate::report_change::ReportChange;
use ordup_objects::MessageSet;
use ordup_rounds::Window;
use std::alloc::Allocator;

pub(crate) fn is_same_set<A: Allocator + Copy>(these: &MessageSet<A>, those: &MessageSet<A>) -> bool
    ensures { IsTrue result ↔ (these.now ≡ those.now) }
{
    these.changes() == those.changes()
}

pub(crate) fn are_same_reports(these: &[ReportChange], those: &[ReportChange]) -> bool
    ensures { IsTrue result ↔ (these.now ≡ those.now) }
{
    these == those
}

pub(crate) fn are_same_windows(these: &[Window], those: &[Window]) -> bool
    ensures { IsTrue result ↔ (these.now ≡ those.now) }
{
    these == those
}

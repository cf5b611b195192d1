ghost use Rattle.std.specs.Prelude.{◌≡◌, ◌<◌, ◌≤◌, ℕ, [], OnOk};
ghost use Rattle.std.specs.List.Sorted.{IsNonDecreasingBy};
ghost use Rattle.ordup_objects.specs.Sizes.{most_updates};
ghost use Rattle.ordup_log.specs.Steps.{as_of};
ghost use Rattle.ordup_primary.specs.Reports.{last_report, with_report};

use std::alloc::{AllocError, Allocator, Global};
use std::marker::Model;

/// What a site had reported at the decision of each place, kept as the changes of it.
#[derive(Drop)]
pub(crate) struct Reports<A: Allocator + Copy = Global> {
    /// The places at which it changed, in order, each with the new number.
    changes: Vec<(u32, u32), A>,
}

impl<A: Allocator + Copy> Model for Reports<A> {
    ghost use Rattle.ordup_primary.specs.Reports.{ReportList};
    ghost use Rattle.ordup_primary.specs.ReportsInside.{reports_of};

    ghost Value = { ReportList };

    ghost view = { reports_of };
}

impl<A: Allocator + Copy> Reports<A> {
    /// No place is decided. It takes no memory.
    pub(crate) fn new(alloc: A) -> Self
        ensures { result.changes ≡ [] }
    {
        Reports {
            changes: Vec::new(alloc),
        }
    }

    /// Reserves memory for the report at one decision more.
    pub(crate) fn reserve(&mut self) -> Result<(), AllocError>
        ensures same { self.new.changes ≡ self.old.changes }
        ensures spare { OnOk result (0 < self.new.spare) }
    {
        self.changes.reserve(1)?;
        Ok(())
    }

    /// Puts down the report at the decision of a place, later than those before.
    pub(crate) fn push_reserved(&mut self, place: u64, report: u64)
        requires spare { 0 < self.old.spare }
        requires few { (place ≤ most_updates) × (report ≤ most_updates) }
        ensures { self.new.changes ≡ with_report self.old.changes place report }
    {
        if report != last_report(self.changes.as_slice()) {
            self.changes.push_reserved((place as u32, report as u32));
        }
    }

    /// The report at the decision of a place.
    pub(crate) fn at(&self, place: u64) -> u64
        requires rising { IsNonDecreasingBy (λ (change : ℕ × ℕ). change.0) self.now.changes }
        requires few { place ≤ most_updates }
        ensures { result ≡ as_of self.now.changes place }
    {
        u64::from(as_of(self.changes.as_slice(), place as u32))
    }

    /// The places at which the report changed, in order, each with the new number.
    pub(crate) fn changes(&self) -> &[(u32, u32)]
        ensures { result.now ≡ self.now.changes }
    {
        self.changes.as_slice()
    }
}

/// The number that the last of these changes goes to, or 0 where there is none.
fn last_report(changes: &[(u32, u32)]) -> u64
    ensures { result ≡ last_report changes.now }
{
    match changes.last() {
        Some(change) => u64::from(change.1),
        None => 0,
    }
}

/// The number that the last change at or before a place goes to, or 0 before the first. That is usually the last of all; an
/// earlier one is found by binary search.
fn as_of(changes: &[(u32, u32)], place: u32) -> u32
    requires { IsNonDecreasingBy (λ (change : ℕ × ℕ). change.0) changes.now }
    ensures { result ≡ as_of changes.now place }
{
    if let Some(last) = changes.last()
        && last.0 <= place
    {
        return last.1;
    }
    match changes.partition_point(|change| change.0 <= place) {
        0 => 0,
        count => changes[count - 1].1,
    }
}

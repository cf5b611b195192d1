//! Whether two records are of one store, and have the same updates as far as both go.
ghost use Rattle.std.specs.Prelude.{◌≡◌, ◌≢◌, ◌⊎◌, ◌<◌, ◌≤◌, IfNone, IfSome, length};
ghost use Rattle.ordup_objects.specs.Sizes.{most_changes};
ghost use Rattle.ordup_series.specs.Ends.{DifferAfter};
ghost use Rattle.ordup_sites.specs.Sites.{AreSame, DiffersFrom, IsFrontOf, UpdatesDifferAtRow};

use ordup_audit::{Record, change_row};
use ordup_objects::Change;
use ordup_series::first_other_row;
use std::alloc::Allocator;

// promise none some: a record is the same as another, or tells the first row that differs
/// The row of a record, counted from 1, at which it first differs from another of the same store: that of an object, of a member or of a
/// change; or the one in whose place one of these is missing. None where the objects, their initial values and the groups are the same,
/// and the updates of one are the first of the other. The rest of the records may differ.
pub fn first_difference<A: Allocator + Copy>(other: &Record<A>, audited: &Record<A>) -> Option<u64>
    ensures none { IfNone result (AreSame other.now audited.now) }
    ensures some { IfSome result (λ row. DiffersFrom other.now audited.now row) }
{
    match first_other_row(other.objects(), other.groups(), audited) {
        Some(row) => Some(row),
        None => first_other_change(other, audited),
    }
}

/// The row of the first change at which the updates of a record differ from those of another, as far as both go.
fn first_other_change<A: Allocator + Copy>(other: &Record<A>, audited: &Record<A>) -> Option<u64>
    ensures none { IfNone result (IsFrontOf other.now.sets audited.now.sets ⊎ IsFrontOf audited.now.sets other.now.sets) }
    ensures some { IfSome result (λ row. UpdatesDifferAtRow other.now audited.now row) }
{
    let both = other.decided().min(audited.decided());
    for index in 0..both {
        let these = other.set(index + 1).changes();
        let those = audited.set(index + 1).changes();
        if these != those {
            return Some(change_row(audited, index, same_changes(these, those)));
        }
    }
    None
}

/// How many changes two updates that differ begin with alike.
fn same_changes(these: &[Change], those: &[Change]) -> usize
    requires differ { these.now ≢ those.now }
    requires few { (length these.now ≤ most_changes) × (length those.now ≤ most_changes) }
    ensures differ { DifferAfter result these.now those.now }
    ensures few { result < most_changes }
{
    let both = these.len().min(those.len());
    for index in 0..both {
        if these[index] != those[index] {
            return index;
        }
    }
    both
}

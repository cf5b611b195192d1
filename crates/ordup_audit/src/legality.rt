//! Whether the updates of a record are legal one after the other.

ghost use Rattle.std.specs.Prelude.{◌≡◌, IfNone, IfSome, length, map, slice_index_or, true, false};
ghost use Rattle.ordup_objects.specs.Sets.{AreKnown, AreInRange};
ghost use Rattle.ordup_objects.specs.States.{result_at, in_range, is_legal};
ghost use Rattle.ordup_audit.specs.Passing.{IsFirstFailure};
ghost use Rattle.ordup_audit.specs.Verdicts.{AreUpdatesLegal, IsIllegalRow};

use crate::record::Record;
use crate::rows::change_row;
use ordup_objects::sizes::GREATEST_VALUE;
use ordup_objects::{Change, Values};
use std::alloc::Allocator;

/// The row of the first change whose result is out of range, if there is one.
pub(crate) fn first_illegal<A: Allocator + Copy>(audited: &Record<A>) -> Option<u64>
    ensures none { IfNone result (AreUpdatesLegal audited.now) }
    ensures some { IfSome result (λ row. IsIllegalRow audited.now row) }
{
    audited.keeps();
    if audited.is_legal() {
        return None;
    }
    let log = audited.log();
    let legal = log.len();
    let changes = audited.set(legal + 1).changes();
    Some(change_row(audited, legal, first_out_of_range(log.end(), changes)))
}

/// The index of the first change of a set whose result on these values is out of range.
fn first_out_of_range<A: Allocator + Copy>(values: &Values<A>, changes: &[Change]) -> usize
    requires known { AreKnown (length values.now) changes.now }
    requires numbers { AreInRange changes.now }
    requires illegal { is_legal changes.now values.now ≡ false }
    ensures { IsFirstFailure (λ p. slice_index_or (map (λ c. in_range (result_at values.now c)) changes.now) p true) (length changes.now) result }
{
    for (index, change) in changes.iter().enumerate() {
        if values.result(change).unsigned_abs() > GREATEST_VALUE {
            return index;
        }
    }
    unreachable!()
}

//! Rows of marks: what the updates so far weigh on each object, each so many updates.
ghost use Rattle.std.specs.Prelude.{◌≡◌, ◌≤◌, ◌+◌, ◌++◌, OnOk, length, vec_len, vec_capacity};
ghost use Rattle.ordup_log.specs.Rows.{row_due, marks_due};

use std::alloc::{AllocError, Allocator};

/// The updates from one row of marks to the next: so few that a running weight goes over little, and so many that rows take little
/// memory, at most 8 bytes an update.
pub(crate) const UPDATES_A_ROW: u64 = 256;

/// Reserves memory for a row of marks, if the update with this number adds one.
pub(crate) fn reserve_row<A: Allocator + Copy>(
    marks: &mut Vec<u64, A>,
    number: u64,
    objects: usize,
) -> Result<(), AllocError>
    ensures marks { marks.new.items ≡ marks.old.items }
    ensures spare { OnOk result (vec_len marks.new + marks_due number objects ≤ vec_capacity marks.new) }
{
    if number % UPDATES_A_ROW == 0 {
        marks.reserve(objects)
    } else {
        Ok(())
    }
}

/// Adds a row of marks, if the update with this number adds one, to marks that have spare capacity for it.
pub(crate) fn add_row<A: Allocator + Copy>(marks: &mut Vec<u64, A>, travelled: &[u64], number: u64)
    requires { vec_len marks.old + marks_due number (length travelled.now) ≤ vec_capacity marks.old }
    ensures { marks.new.items ≡ marks.old.items ++ row_due number travelled.now }
{
    if number % UPDATES_A_ROW == 0 {
        push_all(marks, travelled);
    }
}

/// Adds numbers to a list that has spare capacity for them.
fn push_all<A: Allocator + Copy>(list: &mut Vec<u64, A>, numbers: &[u64])
    requires { vec_len list.old + length numbers.now ≤ vec_capacity list.old }
    ensures { list.new.items ≡ list.old.items ++ numbers.now }
{
    for number in numbers {
        list.push_reserved(*number);
    }
}

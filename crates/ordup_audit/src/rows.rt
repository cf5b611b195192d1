//! Where the parts of a record stand among its rows, which are counted from 1.

ghost use Rattle.std.specs.Prelude.{◌≡◌, ◌≤◌, ◌<◌, ◌*◌, length};
ghost use Rattle.ordup_objects.specs.Sizes.{most_changes, most_groups, most_members, most_updates};
ghost use Rattle.ordup_audit.specs.Sizes.{most_rows_before_changes, most_rows_before_windows};
ghost use Rattle.ordup_audit.specs.Rows.{member_count, change_count, rows_before_changes, change_row, rows_before_windows, window_row, last_row};

use crate::record::Record;
use ordup_limits::{GroupId, Groups};
use std::alloc::Allocator;

// promise: as Record::from_parts
/// The row of a change: the one after the first `index` changes of the update after the first `updates`.
pub fn change_row<A: Allocator + Copy>(audited: &Record<A>, updates: u64, index: usize) -> u64
    requires updates { updates ≤ length audited.now.sets }
    requires index { index < most_changes }
    ensures { result ≡ change_row audited.now updates index }
{
    rows_before_changes(audited) + change_count(audited, updates) + index as u64 + 1
}

/// The row of the window after the first `index` windows.
pub(crate) fn window_row<A: Allocator + Copy>(audited: &Record<A>, index: usize) -> u64
    requires { index < length audited.now.windows }
    ensures { result ≡ window_row audited.now index }
{
    audited.keeps();
    rows_before_windows(audited) + index as u64 + 1
}

/// The last row.
pub(crate) fn last_row<A: Allocator + Copy>(audited: &Record<A>) -> u64
    ensures { result ≡ last_row audited.now }
{
    audited.keeps();
    rows_before_windows(audited) + audited.windows().len() as u64
}

/// How many rows there are before those of the changes: the first row, and those of the objects, the members and the limits.
fn rows_before_changes<A: Allocator + Copy>(audited: &Record<A>) -> u64
    ensures rows { result ≡ rows_before_changes audited.now }
    ensures few { result ≤ most_rows_before_changes }
{
    let objects = audited.objects().len() as u64;
    audited.limits().keeps();
    let limits = audited.limits().entries().len() as u64;
    1 + objects + member_count(audited.groups()) + limits
}

/// How many members all groups have: each member of each group has a row in a record.
pub fn member_count<A: Allocator + Copy>(groups: &Groups<A>) -> u64
    ensures members { result ≡ member_count groups.now }
    ensures few { result ≤ most_groups * most_members }
{
    let mut count = 0;
    for index in 0..groups.len() {
        count += groups.members(GroupId::new(index as u8)).len() as u64;
    }
    count
}

/// How many changes the first updates have.
fn change_count<A: Allocator + Copy>(audited: &Record<A>, updates: u64) -> u64
    requires { updates ≤ length audited.now.sets }
    ensures changes { result ≡ change_count audited.now updates }
    ensures few { result ≤ most_updates * most_changes }
{
    audited.keeps();
    let mut count = 0;
    for index in 0..updates {
        count += audited.set(index + 1).changes().len() as u64;
    }
    count
}

/// How many rows there are before those of the windows.
fn rows_before_windows<A: Allocator + Copy>(audited: &Record<A>) -> u64
    ensures rows { result ≡ rows_before_windows audited.now }
    ensures few { result ≤ most_rows_before_windows }
{
    let changes = change_count(audited, audited.decided());
    let reports = audited.reports().len() as u64;
    let rounds = audited.rounds().len() as u64;
    rows_before_changes(audited) + changes + reports + rounds
}

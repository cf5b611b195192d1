//! The rows of a record, one by one.
ghost use Rattle.std.specs.Prelude.{◌≡◌, ℕ, ℤ, ◌+◌, ◌*◌, ◌<◌, ◌≤◌, ◌∷◌, [], List, IfOk, OnOk, length, slice_index_or};
ghost use Rattle.ordup_objects.specs.Sets.{AreKnown, IsKnown};
ghost use Rattle.ordup_objects.specs.Sizes.{most_groups, most_members};
ghost use Rattle.ordup_log.specs.Groups.{AreMembersKnown};
ghost use Rattle.ordup_log.specs.Spans.{IsScopeKnown};
ghost use Rattle.ordup_limits.specs.Entries.{AreEntriesKnown};
ghost use Rattle.ordup_rows.specs.Forming.{AddsRow, AddsRows, IsClean, first_rows};
ghost use Rattle.ordup_log.specs.Groups.{AreGroupsKnown};
ghost use Rattle.ordup_rows.specs.Rows.{change_row, counted, first_row, limit_row, member_row, member_rows};
ghost use Rattle.ordup_rows.specs.Rows.{object_row, report_row, round_row, window_row};
ghost use Rattle.ordup_rows.specs.Versions.{version_for};

use crate::spelling::{add_amount, put_change, put_scope};
use crate::version::Version;
use csv::{Writer, WriterBuilder};
use itoa::Buffer;
use ordup_audit::{RecordView, ReportChange};
use ordup_limits::{GroupId, Groups, LimitEntry};
use ordup_objects::{Change, Name, ObjectId, ObjectTable};
use ordup_rounds::Window;
use std::alloc::{AllocError, Allocator};

/// Writes a row.
fn push_row<A: Allocator + Copy>(
    rows: &mut Writer<Vec<u8, A>>,
    kind: &[u8],
    first: &[u8],
    second: &[u8],
    third: &[u8],
) -> Result<(), AllocError>
    requires { IsClean rows.old }
    ensures clean { OnOk result (IsClean rows.new) }
    ensures text { OnOk result (AddsRow rows.old rows.new (kind.now ∷ first.now ∷ second.now ∷ third.now ∷ [])) }
{
    match rows.write_fields(&[kind, first, second, third]) {
        Ok(()) => Ok(()),
        Err(_) => Err(AllocError),
    }
}

/// Writes the first row.
fn push_head<A: Allocator + Copy>(
    rows: &mut Writer<Vec<u8, A>>,
    version: Version,
    site: &[u8],
    decided: u64,
) -> Result<(), AllocError>
    requires { IsClean rows.old }
    ensures clean { OnOk result (IsClean rows.new) }
    ensures text { OnOk result (AddsRow rows.old rows.new (first_row version site.now decided)) }
{
    let mut decided_digits = Buffer::new();
    let decided = decided_digits.format(decided);
    push_row(rows, b"ordup", version.as_bytes(), site, decided.as_bytes())
}

/// Writes the row of an object.
fn push_object<A: Allocator + Copy>(
    rows: &mut Writer<Vec<u8, A>>,
    objects: &ObjectTable<A>,
    object: ObjectId,
) -> Result<(), AllocError>
    requires clean { IsClean rows.old }
    requires known { object < length objects.now }
    ensures clean { OnOk result (IsClean rows.new) }
    ensures text { (d : List ℕ × ℤ)
        → OnOk result (AddsRow rows.old rows.new (object_row (object + 1) (slice_index_or objects.now object d))) }
{
    let mut counter_digits = Buffer::new();
    let counter = counter_digits.format(object.index() + 1);
    let mut value_digits = Buffer::new();
    let value = value_digits.format(objects.initial(object));
    push_row(
        rows,
        b"object",
        counter.as_bytes(),
        objects.name(object).as_bytes(),
        value.as_bytes(),
    )
}

/// Writes the rows of the objects.
fn push_objects<A: Allocator + Copy>(
    rows: &mut Writer<Vec<u8, A>>,
    objects: &ObjectTable<A>,
) -> Result<(), AllocError>
    requires { IsClean rows.old }
    ensures clean { OnOk result (IsClean rows.new) }
    ensures text { OnOk result (AddsRows rows.old rows.new (counted object_row 1 objects.now)) }
{
    for index in 0..objects.len() {
        push_object(rows, objects, ObjectId::new(index as u16))?;
    }
    Ok(())
}

/// Writes the row of a member of a group.
fn push_member<A: Allocator + Copy>(
    rows: &mut Writer<Vec<u8, A>>,
    objects: &ObjectTable<A>,
    group: &Name,
    counter: usize,
    object: ObjectId,
) -> Result<(), AllocError>
    requires clean { IsClean rows.old }
    requires known { object < length objects.now }
    ensures clean { OnOk result (IsClean rows.new) }
    ensures text { OnOk result (AddsRow rows.old rows.new (member_row objects.now group.now counter object)) }
{
    let mut counter_digits = Buffer::new();
    let counter = counter_digits.format(counter);
    push_row(
        rows,
        b"member",
        counter.as_bytes(),
        group.as_bytes(),
        objects.name(object).as_bytes(),
    )
}

/// Writes the rows of the members of a group, the first of which has this counter.
fn push_members<A: Allocator + Copy>(
    rows: &mut Writer<Vec<u8, A>>,
    objects: &ObjectTable<A>,
    group: &Name,
    first: usize,
    members: &[ObjectId],
) -> Result<(), AllocError>
    requires clean { IsClean rows.old }
    requires known { AreMembersKnown (length objects.now) members.now }
    requires few { first + length members.now ≤ 1 + most_groups * most_members }
    ensures clean { OnOk result (IsClean rows.new) }
    ensures text { OnOk result (AddsRows rows.old rows.new (counted (member_row objects.now group.now) first members.now)) }
{
    for (i, object) in members.iter().enumerate() {
        push_member(rows, objects, group, first + i, *object)?;
    }
    Ok(())
}

/// Writes the rows of the members of all groups.
fn push_groups<A: Allocator + Copy>(
    rows: &mut Writer<Vec<u8, A>>,
    objects: &ObjectTable<A>,
    groups: &Groups<A>,
) -> Result<(), AllocError>
    requires clean { IsClean rows.old }
    requires known { AreGroupsKnown (length objects.now) groups.now }
    ensures clean { OnOk result (IsClean rows.new) }
    ensures text { OnOk result (AddsRows rows.old rows.new (member_rows objects.now 1 groups.now)) }
{
    let mut counter = 1;
    for index in 0..groups.len() {
        let group = GroupId::new(index as u8);
        let members = groups.members(group);
        push_members(rows, objects, groups.name(group), counter, members)?;
        counter += members.len();
    }
    Ok(())
}

/// Writes the row of a limit.
fn push_limit<A: Allocator + Copy>(
    rows: &mut Writer<Vec<u8, A>>,
    column: &mut Vec<u8, A>,
    version: Version,
    objects: &ObjectTable<A>,
    groups: &Groups<A>,
    counter: usize,
    entry: &LimitEntry,
) -> Result<(), AllocError>
    requires clean { IsClean rows.old }
    requires known { IsScopeKnown (length objects.now) groups.now entry.now.limit.scope }
    ensures clean { OnOk result (IsClean rows.new) }
    ensures text { OnOk result (AddsRow rows.old rows.new (limit_row version objects.now groups.now counter entry.now)) }
{
    let mut counter_digits = Buffer::new();
    let counter = counter_digits.format(counter);
    put_scope(column, objects, groups, entry.limit.scope)?;
    let end = column.len();
    add_amount(column, version, entry)?;
    let (scope, amount) = column.as_slice().split_at(end);
    push_row(rows, b"limit", counter.as_bytes(), scope, amount)
}

/// Writes the rows of the limits.
fn push_limits<A: Allocator + Copy>(
    rows: &mut Writer<Vec<u8, A>>,
    column: &mut Vec<u8, A>,
    version: Version,
    objects: &ObjectTable<A>,
    groups: &Groups<A>,
    entries: &[LimitEntry],
) -> Result<(), AllocError>
    requires clean { IsClean rows.old }
    requires known { AreEntriesKnown (length objects.now) groups.now entries.now }
    ensures clean { OnOk result (IsClean rows.new) }
    ensures text { OnOk result (AddsRows rows.old rows.new (counted (limit_row version objects.now groups.now) 1 entries.now)) }
{
    for (i, entry) in entries.iter().enumerate() {
        push_limit(rows, column, version, objects, groups, i + 1, entry)?;
    }
    Ok(())
}

/// Writes the rows that stand before those of the changes.
pub(crate) fn push_first_rows<A: Allocator + Copy>(
    rows: &mut Writer<Vec<u8, A>>,
    column: &mut Vec<u8, A>,
    audited: &RecordView<'_, A>,
) -> Result<(), AllocError>
    requires { IsClean rows.old }
    ensures clean { OnOk result (IsClean rows.new) }
    ensures text { OnOk result (AddsRows rows.old rows.new (first_rows (version_for audited.now.limits) audited.now)) }
{
    audited.keeps();
    let entries = audited.limits().entries();
    let version = Version::of(entries);
    push_head(rows, version, audited.site().as_bytes(), audited.decided())?;
    push_objects(rows, audited.objects())?;
    push_groups(rows, audited.objects(), audited.groups())?;
    push_limits(
        rows,
        column,
        version,
        audited.objects(),
        audited.groups(),
        entries,
    )?;
    Ok(())
}

/// Writes the row of a change.
fn push_change<A: Allocator + Copy>(
    rows: &mut Writer<Vec<u8, A>>,
    column: &mut Vec<u8, A>,
    objects: &ObjectTable<A>,
    number: u64,
    position: usize,
    change: Change,
) -> Result<(), AllocError>
    requires clean { IsClean rows.old }
    requires known { IsKnown (length objects.now) change }
    ensures clean { OnOk result (IsClean rows.new) }
    ensures text { OnOk result (AddsRow rows.old rows.new (change_row objects.now number position change)) }
{
    let mut number_digits = Buffer::new();
    let number = number_digits.format(number);
    let mut position_digits = Buffer::new();
    let position = position_digits.format(position);
    let object = objects.name(change.object);
    put_change(column, objects, object.as_bytes(), change.op)?;
    push_row(
        rows,
        b"change",
        number.as_bytes(),
        position.as_bytes(),
        column.as_slice(),
    )
}

/// Writes the rows of an update.
pub(crate) fn push_set<A: Allocator + Copy>(
    rows: &mut Writer<Vec<u8, A>>,
    column: &mut Vec<u8, A>,
    objects: &ObjectTable<A>,
    number: u64,
    changes: &[Change],
) -> Result<(), AllocError>
    requires clean { IsClean rows.old }
    requires known { AreKnown (length objects.now) changes.now }
    ensures clean { OnOk result (IsClean rows.new) }
    ensures text { OnOk result (AddsRows rows.old rows.new (counted (change_row objects.now number) 1 changes.now)) }
{
    for (i, change) in changes.iter().enumerate() {
        push_change(rows, column, objects, number, i + 1, *change)?;
    }
    Ok(())
}

/// Writes the row of a report change.
pub(crate) fn push_report<A: Allocator + Copy>(
    rows: &mut Writer<Vec<u8, A>>,
    change: ReportChange,
) -> Result<(), AllocError>
    requires { IsClean rows.old }
    ensures clean { OnOk result (IsClean rows.new) }
    ensures text { OnOk result (AddsRow rows.old rows.new (report_row change)) }
{
    let mut place_digits = Buffer::new();
    let place = place_digits.format(change.place);
    let mut reported_digits = Buffer::new();
    let reported = reported_digits.format(change.reported);
    push_row(rows, b"report", place.as_bytes(), reported.as_bytes(), b"-")
}

/// Writes the row of a round.
pub(crate) fn push_round<A: Allocator + Copy>(
    rows: &mut Writer<Vec<u8, A>>,
    counter: usize,
    place: u64,
) -> Result<(), AllocError>
    requires { IsClean rows.old }
    ensures clean { OnOk result (IsClean rows.new) }
    ensures text { OnOk result (AddsRow rows.old rows.new (round_row counter place)) }
{
    let mut counter_digits = Buffer::new();
    let counter = counter_digits.format(counter);
    let mut place_digits = Buffer::new();
    let place = place_digits.format(place);
    push_row(rows, b"round", counter.as_bytes(), place.as_bytes(), b"-")
}

/// Writes the row of a window.
pub(crate) fn push_window<A: Allocator + Copy>(
    rows: &mut Writer<Vec<u8, A>>,
    counter: usize,
    window: Window,
) -> Result<(), AllocError>
    requires { IsClean rows.old }
    ensures clean { OnOk result (IsClean rows.new) }
    ensures text { OnOk result (AddsRow rows.old rows.new (window_row counter window)) }
{
    let mut counter_digits = Buffer::new();
    let counter = counter_digits.format(counter);
    let mut from_digits = Buffer::new();
    let from = from_digits.format(window.from);
    let mut to_digits = Buffer::new();
    let to = to_digits.format(window.to);
    push_row(
        rows,
        b"window",
        counter.as_bytes(),
        from.as_bytes(),
        to.as_bytes(),
    )
}

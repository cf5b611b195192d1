//! What a record ends with, and whether the next one begins with it.
ghost use Rattle.std.specs.Prelude.{◌≡◌, ◌≢◌, ◌≤◌, ◌*◌, IfErr, IfNone, IfOk, IfSome, length};
ghost use Rattle.ordup_objects.specs.Serial.{IsLegalHistory};
ghost use Rattle.ordup_objects.specs.Sizes.{most_groups, most_members, most_objects};
ghost use Rattle.ordup_audit.specs.Records.{history_of};
ghost use Rattle.ordup_series.specs.Ends.{AreObjectsAtEnd, BeginsWith, DifferAfter, DiffersAtRow, IsEnd, MembersDifferAfter, TablesDifferAtRow};

use ordup_audit::Record;
use ordup_limits::{GroupId, Groups};
use ordup_objects::{Name, ObjectId, ObjectTable, Refusal, or_give_up};
use std::alloc::{Allocator, Global};
use std::marker::Model;

// promise objects refused: a legal record has each object at its last value
/// The objects of a record whose updates are legal, each beginning at its value after the last update. The only refusal is
/// `NoMemory`.
pub fn objects_at_end<A: Allocator + Copy>(
    alloc: A,
    audited: &Record<A>,
) -> Result<ObjectTable<A>, Refusal>
    requires { IsLegalHistory (history_of audited.now) }
    ensures objects { IfOk result (λ objects. AreObjectsAtEnd audited.now objects) }
    ensures refused { IfErr result (λ e. e ≡ Refusal.NoMemory) }
{
    let values = audited.log().end();
    audited.objects().copy_with(alloc, values)
}

/// What a record ends with: its site, its objects with their values after all updates, and its groups.
#[derive(Drop)]
pub(crate) struct RecordEnd<A: Allocator + Copy = Global> {
    site: Name,
    objects: ObjectTable<A>,
    groups: Groups<A>,
}

impl<A: Allocator + Copy> Model for RecordEnd<A> {
    ghost use Rattle.ordup_series.specs.Ends.{EndState};

    ghost Value = { EndState };

    ghost view = { λ e. record { site = e.site; objects = e.objects; groups = e.groups } };
}

impl<A: Allocator + Copy> RecordEnd<A> {
    /// What a record ends with whose updates are legal. The only refusal is `NoMemory`.
    pub(crate) fn of(alloc: A, audited: &Record<A>) -> Result<Self, Refusal>
        requires { IsLegalHistory (history_of audited.now) }
        ensures end { IfOk result (λ end. IsEnd audited.now end) }
        ensures refused { IfErr result (λ e. e ≡ Refusal.NoMemory) }
    {
        let objects = objects_at_end(alloc, audited)?;
        let groups = or_give_up!(audited.groups().copy(alloc), objects);
        Ok(RecordEnd {
            site: *audited.site(),
            objects,
            groups,
        })
    }

    /// The row of a record, counted from 1, at which it first differs from one that begins with this end; none where it does not.
    pub(crate) fn first_difference(&self, next: &Record<A>) -> Option<u64>
        ensures none { IfNone result (BeginsWith self.now next.now) }
        ensures some { IfSome result (λ row. DiffersAtRow self.now next.now row) }
    {
        if next.site() != &self.site {
            return Some(1);
        }
        first_other_row(&self.objects, &self.groups, next)
    }
}

// promise none some: a record whose objects or groups are not these tells the first row that differs
/// The row of a record, counted from 1, at which its objects, their initial values or its groups first differ from these; none where
/// they do not.
pub fn first_other_row<A: Allocator + Copy>(
    objects: &ObjectTable<A>,
    groups: &Groups<A>,
    next: &Record<A>,
) -> Option<u64>
    ensures none { IfNone result ((next.now.objects ≡ objects.now) × (next.now.groups ≡ groups.now)) }
    ensures some { IfSome result (λ row. TablesDifferAtRow objects.now groups.now next.now row) }
{
    if !objects.is_same(next.objects()) {
        return Some(same_objects(objects, next.objects()) as u64 + 2);
    }
    if !groups.is_same(next.groups()) {
        let members = same_members(groups, next.groups());
        return Some(next.objects().len() as u64 + members + 2);
    }
    None
}

/// How many objects two tables that differ begin with alike.
fn same_objects<A: Allocator + Copy>(mine: &ObjectTable<A>, others: &ObjectTable<A>) -> usize
    requires { mine.now ≢ others.now }
    ensures differ { DifferAfter result mine.now others.now }
    ensures few { result ≤ most_objects }
{
    let both = mine.len().min(others.len());
    for index in 0..both {
        let object = ObjectId::new(index as u16);
        if mine.name(object) != others.name(object) {
            return index;
        }
        if mine.initial(object) != others.initial(object) {
            return index;
        }
    }
    both
}

/// How many members the groups of two tables that differ begin with alike.
fn same_members<A: Allocator + Copy>(mine: &Groups<A>, others: &Groups<A>) -> u64
    requires { mine.now ≢ others.now }
    ensures differ { MembersDifferAfter result mine.now others.now }
    ensures few { result ≤ most_groups * most_members }
{
    let both = mine.len().min(others.len());
    let mut members = 0;
    for index in 0..both {
        let group = GroupId::new(index as u8);
        if mine.name(group) != others.name(group) {
            return members;
        }
        let (these, those) = (mine.members(group), others.members(group));
        if these != those {
            return members + same_front(these, those) as u64;
        }
        members += those.len() as u64;
    }
    members
}

/// How many members two lists that differ begin with alike.
fn same_front(these: &[ObjectId], those: &[ObjectId]) -> usize
    requires { these.now ≢ those.now }
    ensures differ { DifferAfter result these.now those.now }
    ensures within { result ≤ length those.now }
{
    let both = these.len().min(those.len());
    for index in 0..both {
        if these[index] != those[index] {
            return index;
        }
    }
    both
}

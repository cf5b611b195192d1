ghost use Rattle.std.specs.Prelude.{◌≡◌, ◌≤◌, ◌↔◌, ℕ, ◌<◌, None, Some, IfSome, IfOk, IfErr, IsTrue, List, [], ◌∷◌, ◌++◌, length, map, slice_get, option_map, All, nat_eq, nat_lt};
ghost use Rattle.std.specs.List.{list_all, list_any};
ghost use Rattle.ordup_objects.specs.Sizes.{most_groups};
ghost use Rattle.ordup_objects.specs.Tables.{index_of, AreNames, AreDistinct};
ghost use Rattle.ordup_objects.specs.Repeats.{repeats};
ghost use Rattle.ordup_objects.specs.Refusals.{IsRefusal};
ghost use Rattle.ordup_log.specs.Groups.{group_refusal, member_refusal, members_at, last_members, with_member, are_members_known, AreMembersKnown, IsGroup};

use crate::ids::GroupId;
use ordup_objects::sizes::{MOST_GROUPS, MOST_MEMBERS};
use ordup_objects::{Name, NameTable, ObjectId, ObjectTable, Refusal, or_give_up};
use std::alloc::{AllocError, Allocator, Global};
use std::marker::Model;

/// Groups of objects in order of declaration: at most 32, each with 1 to 64 distinct members.
#[derive(Drop)]
pub struct Groups<A: Allocator + Copy = Global> {
    groups: NameTable<Vec<ObjectId, A>, A>,
}

impl<A: Allocator + Copy> Model for Groups<A> {
    ghost use Rattle.std.specs.Prelude.{List, ℕ, length, map, All, ◌≤◌};
    ghost use Rattle.ordup_objects.specs.Sizes.{most_groups};
    ghost use Rattle.ordup_log.specs.Groups.{IsGroup};

    ghost Value = { List (List ℕ × List ℕ) };

    ghost view = { λ t. map (λ g. (g.0, g.1.items)) t.groups };

    ghost invariant = { λ t. (length t.groups ≤ most_groups) × All (λ g. IsGroup g.1.items) t.groups };
}

impl<A: Allocator + Copy> Groups<A> {
    // promise: the readers answer the groups; a copy is the same
    /// No groups yet. It takes no memory.
    pub fn new(alloc: A) -> Self
        ensures { result ≡ [] }
    {
        Groups {
            groups: NameTable::new(alloc),
        }
    }

    // promise copied refused: as Groups::new
    /// A copy of the groups. The only refusal is `NoMemory`.
    pub fn copy(&self, alloc: A) -> Result<Self, Refusal>
        ensures copied { IfOk result (λ groups. groups ≡ self.now) }
        ensures refused { IfErr result (λ e. e ≡ Refusal.NoMemory) }
    {
        let mut groups = NameTable::new(alloc);
        or_give_up!(copy_all(alloc, &self.groups, &mut groups), groups);
        Ok(Groups { groups })
    }

    // promise group known declared allowed refused err: a group is declared, or the last group gets a member
    /// Declares a group of objects.
    ///
    /// It is refused `BadName`, `NameTaken`, `UnknownObject` where a member is not in the table, `TooMany` for a 33rd group
    /// or a 65th member, `Empty`, `Repeated`, and `NoMemory`.
    pub fn declare(
        &mut self,
        objects: &ObjectTable<A>,
        name: &[u8],
        members: &[ObjectId],
    ) -> Result<GroupId, Refusal>
        ensures group { IfOk result (λ group. group ≡ length self.old) }
        ensures known { IfOk result (λ _. AreMembersKnown (length objects.now) members.now) }
        ensures declared { IfOk result (λ _. self.new ≡ self.old ++ (name.now, members.now) ∷ []) }
        ensures allowed { IfOk result (λ _. group_refusal (length objects.now) self.old name.now members.now ≡ None) }
        ensures refused { IfErr result (λ e. IsRefusal (group_refusal (length objects.now) self.old name.now members.now) e) }
        ensures err { IfErr result (λ _. self.new ≡ self.old) }
    {
        let name = self.check_group(objects.len(), name, members)?;
        let index = self.len();
        let members = Vec::from_slice(*self.groups.allocator(), members)?;
        self.groups.push(name, members)?;
        Ok(GroupId::new(index as u8))
    }

    /// The name of a group that may be declared over this many objects. Any other is refused for the first reason that applies.
    fn check_group(
        &self,
        objects: usize,
        name: &[u8],
        members: &[ObjectId],
    ) -> Result<Name, Refusal>
        ensures name { IfOk result (λ n. n ≡ name.now) }
        ensures allowed { IfOk result (λ _. group_refusal objects self.now name.now members.now ≡ None) }
        ensures refused { IfErr result (λ e. group_refusal objects self.now name.now members.now ≡ Some e) }
    {
        let name = Name::new(name)?;
        match self.refusal_of_group(objects, &name, members) {
            Some(refusal) => Err(refusal),
            None => Ok(name),
        }
    }

    /// Why a group of this name over this many objects is refused, if it is.
    fn refusal_of_group(&self, objects: usize, name: &Name, members: &[ObjectId]) -> Option<Refusal>
        ensures { result ≡ group_refusal objects self.now name.now members.now }
    {
        if self.find(name.as_bytes()).is_some() {
            Some(Refusal::NameTaken)
        } else if !are_known(objects, members) {
            Some(Refusal::UnknownObject)
        } else if self.len() == MOST_GROUPS || members.len() > MOST_MEMBERS {
            Some(Refusal::TooMany)
        } else if members.is_empty() {
            Some(Refusal::Empty)
        } else if has_repeat(members) {
            Some(Refusal::Repeated)
        } else {
            None
        }
    }

    // promise known added allowed refused err: as Groups::declare
    /// Adds a member to the last group.
    ///
    /// It is refused `UnknownObject` where the member is not in the table, `TooMany` for a 65th member, `Repeated` where the
    /// group has the member, and `NoMemory`.
    pub fn add_member(&mut self, objects: &ObjectTable<A>, member: ObjectId) -> Result<(), Refusal>
        requires { 0 < length self.old }
        ensures known { IfOk result (λ _. member < length objects.now) }
        ensures added { IfOk result (λ _. self.new ≡ with_member self.old member) }
        ensures allowed { IfOk result (λ _. member_refusal (length objects.now) (last_members self.old) member ≡ None) }
        ensures refused { IfErr result (λ e. IsRefusal (member_refusal (length objects.now) (last_members self.old) member) e) }
        ensures err { IfErr result (λ _. self.new ≡ self.old) }
    {
        let last = self.groups.len() - 1;
        let members = self.groups.at(last).1.as_slice();
        check_member(objects.len(), members, member)?;
        // An empty list takes no memory: it holds the place while the members grow.
        let alloc = *self.groups.allocator();
        let mut members = self.groups.replace(last, Vec::new(alloc));
        let added = members.push(member);
        self.groups.replace(last, members);
        added?;
        Ok(())
    }

    // promise: as Groups::new
    /// The group of this name, if there is one.
    pub fn find(&self, name: &[u8]) -> Option<GroupId>
        ensures index { option_map (λ g. g) result ≡ index_of name.now self.now }
        ensures within { IfSome result (λ g. g < length self.now) }
    {
        let index = self.groups.find(name)?;
        Some(GroupId::new(index as u8))
    }

    // promise: as Groups::new
    // promise names distinct: as Groups::new
    /// How many groups there are, at most 32.
    pub fn len(&self) -> usize
        ensures len { result ≡ length self.now }
        // What each table keeps, for the proofs of its users.
        ensures few { length self.now ≤ most_groups }
        ensures groups { All (λ g. IsGroup g.1) self.now }
        ensures names { AreNames self.now }
        ensures distinct { AreDistinct self.now }
    {
        self.keeps();
        self.groups.len()
    }

    /// What each table keeps, for the proofs of its users. It does nothing.
    #[inline(always)]
    pub fn keeps(&self)
        ensures few { length self.now ≤ most_groups }
        ensures groups { All (λ g. IsGroup g.1) self.now }
        ensures names { AreNames self.now }
        ensures distinct { AreDistinct self.now }
    {
        self.groups.keeps();
    }

    // promise: as Groups::new
    /// The name of a group.
    pub fn name(&self, group: GroupId) -> &Name
        requires { group < length self.now }
        ensures { option_map (λ e. e.0) (slice_get self.now group) ≡ Some result.now }
    {
        self.groups.at(group.index()).0
    }

    // promise: as Groups::new
    /// The members of a group, in the order given.
    pub fn members(&self, group: GroupId) -> &[ObjectId]
        requires { group < length self.now }
        ensures members { result.now ≡ members_at self.now group }
        ensures group { IsGroup result.now }
    {
        self.groups.at(group.index()).1.as_slice()
    }

    // promise: `is_same` compares all names and members
    /// Whether both have the same groups: the same names in the same order, each with the same members in the same order.
    pub fn is_same(&self, other: &Groups<A>) -> bool
        ensures { IsTrue result ↔ (self.now ≡ other.now) }
    {
        self.groups.is_same(&other.groups)
    }
}

/// Adds all groups, in their order, to a table without names.
fn copy_all<A: Allocator + Copy>(
    alloc: A,
    groups: &NameTable<Vec<ObjectId, A>, A>,
    copy: &mut NameTable<Vec<ObjectId, A>, A>,
) -> Result<(), AllocError>
    requires { copy.old ≡ [] }
    ensures { IfOk result (λ _. map {B = List ℕ × List ℕ} (λ g. (g.0, g.1.items)) copy.new ≡ map (λ g. (g.0, g.1.items)) groups.now) }
{
    for index in 0..groups.len() {
        let (name, members) = groups.at(index);
        let members = Vec::from_slice(alloc, members.as_slice())?;
        copy.push(*name, members)?;
    }
    Ok(())
}

/// Whether a group stays one with a member more. The member is refused for the first reason that applies.
fn check_member(objects: usize, members: &[ObjectId], member: ObjectId) -> Result<(), Refusal>
    requires { IsGroup members.now }
    ensures known { IfOk result (λ _. member < objects) }
    ensures group { IfOk result (λ _. IsGroup (members.now ++ member ∷ [])) }
    ensures allowed { IfOk result (λ _. member_refusal objects members.now member ≡ None) }
    ensures refused { IfErr result (λ e. member_refusal objects members.now member ≡ Some e) }
{
    if member.index() >= objects {
        return Err(Refusal::UnknownObject);
    }
    if members.len() == MOST_MEMBERS {
        return Err(Refusal::TooMany);
    }
    if is_member(member, members) {
        return Err(Refusal::Repeated);
    }
    Ok(())
}

fn are_known(objects: usize, members: &[ObjectId]) -> bool
    ensures { result ≡ are_members_known objects members.now }
{
    members.iter().all(|x| x.index() < objects)
}

fn is_member(object: ObjectId, members: &[ObjectId]) -> bool
    ensures { result ≡ list_any (nat_eq object) members.now }
{
    members.iter().any(|y| object == *y)
}

fn has_repeat(members: &[ObjectId]) -> bool
    ensures { result ≡ repeats nat_eq members.now }
{
    for (i, member) in members.iter().enumerate() {
        if is_member(*member, &members[i + 1..]) {
            return true;
        }
    }
    false
}

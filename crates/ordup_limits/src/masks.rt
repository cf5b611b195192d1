ghost use Rattle.std.specs.Prelude.{◌≡◌, ◌==◌, ◌<◌, ℕ, IfOk, IfErr, if◌then◌else◌, replicate, slice_index, true};
ghost use Rattle.std.specs.Int.{bit_at};
ghost use Rattle.std.specs.List.{list_any};
ghost use Rattle.ordup_objects.specs.Sizes.{most_objects};
ghost use Rattle.ordup_log.specs.Spans.{IsScopeKnown};
ghost use Rattle.ordup_limits.specs.Limits.{AreScopesKnown};
ghost use Rattle.ordup_limits.specs.Masks.{counts_on, AreGroupMasks, AreMasks, GainBit};
ghost use Rattle.ordup_limits.specs.Sizes.{most_limits};

use crate::limit_list::LimitList;
use ordup_log::{GroupId, Groups, Scope};
use ordup_objects::sizes::MOST_OBJECTS;
use ordup_objects::{ObjectId, Refusal};
use std::alloc::{Allocator, Global};
use std::marker::Model;

/// For each object that there may be a mask: the limits on whose scopes its changes count, a bit for each.
#[derive(Drop)]
pub(crate) struct Masks<A: Allocator + Copy = Global> {
    masks: Vec<u64, A>,
}

impl<A: Allocator + Copy> Model for Masks<A> {
    ghost use Rattle.std.specs.Prelude.{◌≡◌, ℕ, List, length};
    ghost use Rattle.ordup_objects.specs.Sizes.{most_objects};

    ghost Value = { List ℕ };

    ghost view = { λ m. m.masks.items };

    ghost invariant = { λ m. length m.masks.items ≡ most_objects };
}

impl<A: Allocator + Copy> Masks<A> {
    /// Masks without a bit. The only refusal is `NoMemory`.
    pub(crate) fn new(alloc: A) -> Result<Self, Refusal>
        ensures masks { IfOk result (λ masks. masks ≡ replicate most_objects 0) }
        ensures refused { IfErr result (λ e. e ≡ Refusal.NoMemory) }
    {
        Ok(Masks {
            masks: Vec::from_elem(alloc, 0, MOST_OBJECTS)?,
        })
    }

    /// The masks of these groups: for each object the groups that it is in. The only refusal is `NoMemory`.
    pub(crate) fn of_groups(alloc: A, groups: &Groups<A>) -> Result<Self, Refusal>
        ensures masks { IfOk result (λ masks. AreGroupMasks groups.now masks) }
        ensures refused { IfErr result (λ e. e ≡ Refusal.NoMemory) }
    {
        groups.keeps();
        let mut masks = Masks::new(alloc)?;
        for index in 0..groups.len() {
            let group = GroupId::new(index as u8);
            masks.put_scope(groups, &Scope::Group(group), index);
        }
        Ok(masks)
    }

    /// The mask of an object.
    #[inline(always)]
    pub(crate) fn of(&self, object: ObjectId) -> u64
        requires { object < most_objects }
        ensures { result ≡ slice_index self.now object }
    {
        self.masks[object.index()]
    }

    /// Puts these limits down for the objects whose changes count on their scopes.
    // Kept out of its caller, which is inlined where each update is added, and calls it once.
    #[inline(never)]
    pub(crate) fn fill(&mut self, limits: &LimitList, groups: &Groups<A>)
        requires empty { (x : ℕ) → slice_index self.old x ≡ 0 }
        requires known { (n : ℕ) × AreScopesKnown n groups.now limits.now }
        ensures { AreMasks groups.now limits.now self.new }
    {
        for (index, limit) in limits.as_slice().iter().enumerate() {
            self.put_scope(groups, &limit.scope, index);
        }
    }

    /// Puts down a limit for the objects whose changes count on its scope.
    pub(crate) fn put_scope(&mut self, groups: &Groups<A>, scope: &Scope, limit: usize)
        requires limit { limit < most_limits }
        requires known { (n : ℕ) × IsScopeKnown n groups.now scope.now }
        ensures { GainBit (counts_on groups.now scope.now) limit self.old self.new }
    {
        match *scope {
            Scope::Object(object) => self.put(object, limit),
            Scope::Group(group) => self.put_members(groups.members(group), limit),
            Scope::All => self.put_all(limit),
            Scope::Count => {}
        }
    }

    /// Puts down a limit for the members of a group.
    fn put_members(&mut self, members: &[ObjectId], limit: usize)
        requires { limit < most_limits }
        ensures { GainBit (λ x. list_any (λ y. y == x) members.now) limit self.old self.new }
    {
        for member in members {
            self.put(*member, limit);
        }
    }

    /// Puts down a limit for all objects.
    fn put_all(&mut self, limit: usize)
        requires { limit < most_limits }
        ensures { GainBit (λ x. true) limit self.old self.new }
    {
        for object in 0..MOST_OBJECTS {
            self.put(ObjectId::new(object as u16), limit);
        }
    }

    /// Puts down a limit for an object, where it has a mask.
    fn put(&mut self, object: ObjectId, limit: usize)
        requires { limit < most_limits }
        ensures { GainBit (λ x. object == x) limit self.old self.new }
    {
        if object.index() >= MOST_OBJECTS {
            return;
        }
        self.masks[object.index()] |= 1 << limit;
    }
}

/// A mask with one bit set or cleared.
pub(crate) fn with_bit(mask: u64, index: usize, is_set: bool) -> u64
    requires { index < most_limits }
    ensures { (i : ℕ) → i < most_limits → (bit_at result i == 1) ≡ (if i == index then is_set else bit_at mask i == 1) }
{
    let bit = 1 << index;
    if is_set { mask | bit } else { mask & !bit }
}

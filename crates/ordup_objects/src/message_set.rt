ghost use Rattle.std.specs.Prelude.{◌≡◌, ◌≤◌, ℕ, ◌<◌, None, Some, IsTrue, IfOk, IfErr, List, [], ◌∷◌, ◌++◌, length, nat_lt, ◌&&◌, ◌==◌};
ghost use Rattle.std.specs.List.{list_all, list_any};
ghost use Rattle.ordup_objects.specs.Ops.{number_of, source_of, is_none_or};
ghost use Rattle.ordup_objects.specs.Refusals.{IsRefusal};
ghost use Rattle.ordup_objects.specs.Repeats.{repeats};
ghost use Rattle.ordup_objects.specs.States.{in_range};
ghost use Rattle.ordup_objects.specs.SetInside.{changes_of};
ghost use Rattle.ordup_objects.specs.Sets.{is_known, are_known, are_in_range, are_of_one_object, set_refusal, IsSet, AreKnown};

use crate::change::{Change, Op};
use crate::ids::ObjectId;
use crate::object_table::ObjectTable;
use crate::refusal::Refusal;
use crate::sizes::MOST_CHANGES;
use crate::values::is_in_range;
use std::alloc::{Allocator, Global};
use std::marker::Model;

/// 1 to 64 changes of distinct objects, which apply as a whole: all read the state before the set.
///
/// This is the message set of Pu and Leff, which carries an update to the replicas.
#[derive(Debug, Drop)]
pub struct MessageSet<A: Allocator + Copy = Global> {
    changes: Changes<A>,
}

/// A single change in place, which is what most sets are, or a list of changes.
#[derive(Debug, Drop)]
enum Changes<A: Allocator + Copy> {
    One([Change; 1]),
    Many(Vec<Change, A>),
}

impl<A: Allocator + Copy> Changes<A> {
    /// Adds a change as the last. The only refusal is `NoMemory`.
    fn push(&mut self, alloc: A, change: Change) -> Result<(), Refusal>
        ensures pushed { IfOk result (λ _. changes_of self.new ≡ changes_of self.old ++ change ∷ []) }
        ensures refused { IfErr result (λ e. e ≡ Refusal.NoMemory) }
        ensures err { IfErr result (λ _. changes_of self.new ≡ changes_of self.old) }
    {
        match self {
            Changes::One(changes) => {
                let changes = Vec::from_slice(alloc, &[changes[0], change])?;
                *self = Changes::Many(changes);
            }
            Changes::Many(changes) => changes.push(change)?,
        }
        Ok(())
    }
}

impl<A: Allocator + Copy> Model for MessageSet<A> {
    ghost use Rattle.std.specs.Prelude.{List};
    ghost use Rattle.ordup_objects.specs.declared.change.Change.{Change};
    ghost use Rattle.ordup_objects.specs.Sets.{IsSet};
    ghost use Rattle.ordup_objects.specs.SetInside.{changes_of};

    ghost Value = { List Change };

    ghost view = { λ s. changes_of s.changes };

    ghost invariant = { λ s. IsSet (changes_of s.changes) };
}

impl<A: Allocator + Copy> MessageSet<A> {
    // promise set known allowed refused: changes make a message set
    /// The set of these changes.
    ///
    /// It is refused `UnknownObject` where an object is not in the table, `OutOfRange` where a number is out of range,
    /// `TooMany` above 64 changes, `Empty` without one, and `Repeated` where two change one object.
    pub fn new(objects: &ObjectTable<A>, changes: Vec<Change, A>) -> Result<Self, Refusal>
        ensures set { IfOk result (λ set. set ≡ changes.items) }
        ensures known { IfOk result (λ set. AreKnown (length objects.now) set) }
        ensures allowed { IfOk result (λ _. set_refusal (length objects.now) changes.items ≡ None) }
        ensures refused { IfErr result (λ e. set_refusal (length objects.now) changes.items ≡ Some e) }
    {
        if let [change] = changes.as_slice() {
            return MessageSet::single(objects, *change);
        }
        check_changes(objects.len(), &changes)?;
        Ok(MessageSet {
            changes: Changes::Many(changes),
        })
    }

    // promise set known allowed refused: as MessageSet::new
    /// The set of a single change. It takes no memory.
    ///
    /// It is refused `UnknownObject` where an object is not in the table, and `OutOfRange` where the number is out of range.
    pub fn single(objects: &ObjectTable<A>, change: Change) -> Result<Self, Refusal>
        ensures set { IfOk result (λ set. set ≡ change ∷ []) }
        ensures known { IfOk result (λ set. AreKnown (length objects.now) set) }
        ensures allowed { IfOk result (λ _. set_refusal (length objects.now) (change ∷ []) ≡ None) }
        ensures refused { IfErr result (λ e. set_refusal (length objects.now) (change ∷ []) ≡ Some e) }
    {
        if !is_known(objects.len(), &change) {
            return Err(Refusal::UnknownObject);
        }
        if !has_number_in_range(&change) {
            return Err(Refusal::OutOfRange);
        }
        Ok(MessageSet {
            changes: Changes::One([change]),
        })
    }

    // promise: a copy is the same set
    /// A copy of the set. The only refusal is `NoMemory`.
    pub fn copy(&self, alloc: A) -> Result<Self, Refusal>
        ensures copied { IfOk result (λ set. set ≡ self.now) }
        ensures refused { IfErr result (λ e. e ≡ Refusal.NoMemory) }
    {
        let changes = match self.changes() {
            [change] => Changes::One([*change]),
            changes => Changes::Many(Vec::from_slice(alloc, changes)?),
        };
        Ok(MessageSet { changes })
    }

    // promise added known allowed refused err: a set takes one more change
    /// Adds a change as the last of the set.
    ///
    /// It is refused `UnknownObject` where an object is not in the table, `OutOfRange` where its number is out of range,
    /// `TooMany` for a 65th change, `Repeated` where another one changes the object, and `NoMemory`.
    pub fn add(&mut self, objects: &ObjectTable<A>, change: Change) -> Result<(), Refusal>
        requires { AreKnown (length objects.now) self.old }
        ensures added { IfOk result (λ _. self.new ≡ self.old ++ change ∷ []) }
        ensures known { IfOk result (λ _. AreKnown (length objects.now) self.new) }
        ensures allowed { IfOk result (λ _. set_refusal (length objects.now) (self.old ++ change ∷ []) ≡ None) }
        ensures refused { IfErr result (λ e. IsRefusal (set_refusal (length objects.now) (self.old ++ change ∷ [])) e) }
        ensures err { IfErr result (λ _. self.new ≡ self.old) }
    {
        check_one_more(objects.len(), self.changes(), &change)?;
        self.changes.push(objects.allocator(), change)
    }

    // promise: as MessageSet::copy
    /// The changes, in the order given.
    pub fn changes(&self) -> &[Change]
        ensures changes { result.now ≡ self.now }
        // What each set keeps, for the proofs of its users.
        ensures set { IsSet self.now }
    {
        match &self.changes {
            Changes::One(change) => change.as_slice(),
            Changes::Many(changes) => changes.as_slice(),
        }
    }

    /// What each set keeps, for the proofs of its users. It does nothing.
    #[inline(always)]
    pub fn keeps(&self)
        ensures { IsSet self.now }
    {
        let _ = &self.changes;
    }

    // promise known fact: as MessageSet::copy
    /// Whether the objects of each change are among the first `objects`.
    pub fn are_known(&self, objects: usize) -> bool
        ensures known { result ≡ are_known objects self.now }
        ensures fact { IsTrue result → AreKnown objects self.now }
    {
        are_known(objects, self.changes())
    }
}

/// Whether changes are a message set over this many objects. They are refused for the first reason that applies.
fn check_changes(objects: usize, changes: &[Change]) -> Result<(), Refusal>
    ensures set { IfOk result (λ _. IsSet changes.now) }
    ensures known { IfOk result (λ _. AreKnown objects changes.now) }
    ensures allowed { IfOk result (λ _. set_refusal objects changes.now ≡ None) }
    ensures refused { IfErr result (λ e. set_refusal objects changes.now ≡ Some e) }
{
    if !are_known(objects, changes) {
        return Err(Refusal::UnknownObject);
    }
    if !are_in_range(changes) {
        return Err(Refusal::OutOfRange);
    }
    if changes.len() > MOST_CHANGES {
        return Err(Refusal::TooMany);
    }
    if changes.is_empty() {
        return Err(Refusal::Empty);
    }
    if has_repeat(changes) {
        return Err(Refusal::Repeated);
    }
    Ok(())
}

/// Whether a message set stays one with a change more. The change is refused for the first reason that applies.
fn check_one_more(objects: usize, changes: &[Change], change: &Change) -> Result<(), Refusal>
    requires known { AreKnown objects changes.now }
    requires set { IsSet changes.now }
    ensures set { IfOk result (λ _. IsSet (changes.now ++ change.now ∷ [])) }
    ensures known { IfOk result (λ _. AreKnown objects (changes.now ++ change.now ∷ [])) }
    ensures allowed { IfOk result (λ _. set_refusal objects (changes.now ++ change.now ∷ []) ≡ None) }
    ensures refused { IfErr result (λ e. set_refusal objects (changes.now ++ change.now ∷ []) ≡ Some e) }
{
    if !is_known(objects, change) {
        return Err(Refusal::UnknownObject);
    }
    if !has_number_in_range(change) {
        return Err(Refusal::OutOfRange);
    }
    if changes.len() == MOST_CHANGES {
        return Err(Refusal::TooMany);
    }
    if is_changed(change.object, changes) {
        return Err(Refusal::Repeated);
    }
    Ok(())
}

fn has_known_source(objects: usize, op: Op) -> bool
    ensures { result ≡ is_none_or (source_of op) (λ y. nat_lt y objects) }
{
    op.source().is_none_or(|object| object.index() < objects)
}

fn is_known(objects: usize, change: &Change) -> bool
    ensures { result ≡ is_known objects change.now }
{
    change.object.index() < objects && has_known_source(objects, change.op)
}

fn are_known(objects: usize, changes: &[Change]) -> bool
    ensures { result ≡ are_known objects changes.now }
{
    changes.iter().all(|c| is_known(objects, c))
}

fn has_number_in_range(change: &Change) -> bool
    ensures { result ≡ is_none_or (number_of change.now.op) in_range }
{
    change.op.number().is_none_or(is_in_range)
}

fn are_in_range(changes: &[Change]) -> bool
    ensures { result ≡ are_in_range changes.now }
{
    changes.iter().all(has_number_in_range)
}

fn is_changed(object: ObjectId, changes: &[Change]) -> bool
    ensures { result ≡ list_any (λ c. c.object == object) changes.now }
{
    changes.iter().any(|c| c.object == object)
}

fn has_repeat(changes: &[Change]) -> bool
    ensures { result ≡ repeats are_of_one_object changes.now }
{
    for (i, change) in changes.iter().enumerate() {
        if is_changed(change.object, &changes[i + 1..]) {
            return true;
        }
    }
    false
}

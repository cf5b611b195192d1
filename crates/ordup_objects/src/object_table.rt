ghost use Rattle.std.specs.Prelude.{◌≡◌, ◌↔◌, ℕ, ◌<◌, ◌≤◌, None, Some, IfSome, IfOk, IfErr, IsTrue, List, [], ◌∷◌, ◌++◌, length, slice_get, option_map};
ghost use Rattle.ordup_objects.specs.Sizes.{most_objects};
ghost use Rattle.ordup_objects.specs.Tables.{index_of, names_of, object_refusal, initial_state, AreNames, AreDistinct};
ghost use Rattle.ordup_objects.specs.Refusals.{IsRefusal};
ghost use Rattle.ordup_objects.specs.States.{value_at, IsInRange, IsState};

use crate::ids::ObjectId;
use crate::name::Name;
use crate::name_table::NameTable;
use crate::or_give_up;
use crate::refusal::Refusal;
use crate::sizes::MOST_OBJECTS;
use crate::values::{Values, is_in_range};
use std::alloc::{AllocError, Allocator, Global};
use std::marker::Model;

/// The objects of a store in order of declaration: at most 256, each with its name and its initial value.
#[derive(Drop)]
pub struct ObjectTable<A: Allocator + Copy = Global> {
    objects: NameTable<i64, A>,
}

impl<A: Allocator + Copy> Model for ObjectTable<A> {
    ghost use Rattle.std.specs.Prelude.{List, ℕ, ℤ, ◌≤◌, length};
    ghost use Rattle.ordup_objects.specs.Sizes.{most_objects};
    ghost use Rattle.ordup_objects.specs.Tables.{initial_state};
    ghost use Rattle.ordup_objects.specs.States.{IsState};

    ghost Value = { List (List ℕ × ℤ) };

    ghost view = { λ t. t.objects };

    ghost invariant = { λ t. (length t.objects ≤ most_objects) × IsState (initial_state t.objects) };
}

impl<A: Allocator + Copy> ObjectTable<A> {
    /// A table without objects. It takes no memory.
    pub fn new(alloc: A) -> Self
        ensures { result ≡ [] }
    {
        ObjectTable {
            objects: NameTable::new(alloc),
        }
    }

    /// The allocator of the table.
    pub(crate) fn allocator(&self) -> A {
        *self.objects.allocator()
    }

    // promise copied refused: as ObjectTable::find
    /// A copy of the table. The only refusal is `NoMemory`.
    pub fn copy(&self, alloc: A) -> Result<Self, Refusal>
        ensures copied { IfOk result (λ table. table ≡ self.now) }
        ensures refused { IfErr result (λ e. e ≡ Refusal.NoMemory) }
    {
        self.keeps();
        let mut objects = NameTable::new(alloc);
        or_give_up!(self.copy_to(&mut objects), objects);
        Ok(ObjectTable { objects })
    }

    /// Adds all objects, in their order, to a table without names.
    fn copy_to(&self, objects: &mut NameTable<i64, A>) -> Result<(), AllocError>
        requires { objects.old ≡ [] }
        ensures { IfOk result (λ _. objects.new ≡ self.now) }
    {
        for index in 0..self.objects.len() {
            let (name, initial) = self.objects.at(index);
            objects.push(*name, *initial)?;
        }
        Ok(())
    }

    // promise names values refused: as ObjectTable::find
    /// A copy of the table in which each object begins at its value among these. The only refusal is `NoMemory`.
    pub fn copy_with(&self, alloc: A, values: &Values<A>) -> Result<Self, Refusal>
        requires { length values.now ≡ length self.now }
        ensures names { IfOk result (λ table. names_of table ≡ names_of self.now) }
        ensures values { IfOk result (λ table. initial_state table ≡ values.now) }
        ensures refused { IfErr result (λ e. e ≡ Refusal.NoMemory) }
    {
        self.keeps();
        values.keeps();
        let ObjectTable { mut objects } = self.copy(alloc)?;
        begin_at(&mut objects, values);
        Ok(ObjectTable { objects })
    }

    // promise object declared allowed refused err: an object is declared
    /// Declares an object with its initial value, which lies from -1,000,000,000 to 1,000,000,000.
    ///
    /// It is refused `BadName`, `NameTaken`, `OutOfRange` for the value, `TooMany` for a 257th object, and `NoMemory`.
    pub fn declare(&mut self, name: &[u8], initial: i64) -> Result<ObjectId, Refusal>
        ensures object { IfOk result (λ object. object ≡ length self.old) }
        ensures declared { IfOk result (λ _. self.new ≡ self.old ++ (name.now, initial) ∷ []) }
        ensures allowed { IfOk result (λ _. object_refusal self.old name.now initial ≡ None) }
        ensures refused { IfErr result (λ e. IsRefusal (object_refusal self.old name.now initial) e) }
        ensures err { IfErr result (λ _. self.new ≡ self.old) }
    {
        let name = self.check_object(name, initial)?;
        let index = self.objects.len();
        self.objects.push(name, initial)?;
        Ok(ObjectId::new(index as u16))
    }

    /// The name of an object that may be declared. Any other is refused for the first reason that applies.
    fn check_object(&self, name: &[u8], initial: i64) -> Result<Name, Refusal>
        ensures name { IfOk result (λ n. n ≡ name.now) }
        ensures allowed { IfOk result (λ _. object_refusal self.now name.now initial ≡ None) }
        ensures refused { IfErr result (λ e. object_refusal self.now name.now initial ≡ Some e) }
    {
        let name = Name::new(name)?;
        match self.refusal_of(&name, initial) {
            Some(refusal) => Err(refusal),
            None => Ok(name),
        }
    }

    /// Why an object of this name is refused, if it is.
    fn refusal_of(&self, name: &Name, initial: i64) -> Option<Refusal>
        ensures { result ≡ object_refusal self.now name.now initial }
    {
        if self.find(name.as_bytes()).is_some() {
            Some(Refusal::NameTaken)
        } else if !is_in_range(initial) {
            Some(Refusal::OutOfRange)
        } else if self.len() == MOST_OBJECTS {
            Some(Refusal::TooMany)
        } else {
            None
        }
    }

    // promise: the readers answer the table; a copy has its values, or those given
    /// The object of this name, if there is one.
    pub fn find(&self, name: &[u8]) -> Option<ObjectId>
        ensures index { option_map (λ o. o) result ≡ index_of name.now self.now }
        ensures within { IfSome result (λ o. o < length self.now) }
    {
        let index = self.objects.find(name)?;
        self.keeps();
        Some(ObjectId::new(index as u16))
    }

    // promise names distinct: as NameTable::new
    // promise: as ObjectTable::find
    /// How many objects there are, at most 256.
    pub fn len(&self) -> usize
        ensures len { result ≡ length self.now }
        // What each table keeps, for the proofs of its users.
        ensures few { length self.now ≤ most_objects }
        ensures state { IsState (initial_state self.now) }
        ensures names { AreNames self.now }
        ensures distinct { AreDistinct self.now }
    {
        self.objects.len()
    }

    /// What each table keeps, for the proofs of its users. It does nothing.
    #[inline(always)]
    pub fn keeps(&self)
        ensures few { length self.now ≤ most_objects }
        ensures state { IsState (initial_state self.now) }
        ensures names { AreNames self.now }
        ensures distinct { AreDistinct self.now }
    {
        self.objects.keeps();
    }

    // promise: as ObjectTable::find
    /// The name of an object.
    pub fn name(&self, object: ObjectId) -> &Name
        requires { object < length self.now }
        ensures { option_map (λ e. e.0) (slice_get self.now object) ≡ Some result.now }
    {
        self.objects.at(object.index()).0
    }

    // promise: as ObjectTable::find
    /// The initial value of an object.
    pub fn initial(&self, object: ObjectId) -> i64
        requires { object < length self.now }
        ensures { result ≡ value_at (initial_state self.now) object }
    {
        *self.objects.at(object.index()).1
    }

    // promise: as NameTable::is_same
    /// Whether two tables have the same objects: the same names in the same order, with the same initial values.
    pub fn is_same(&self, other: &ObjectTable<A>) -> bool
        ensures { IsTrue result ↔ (self.now ≡ other.now) }
    {
        self.objects.is_same(&other.objects)
    }
}

/// Has each object begin at its value among these.
fn begin_at<A: Allocator + Copy>(objects: &mut NameTable<i64, A>, values: &Values<A>)
    requires count { length values.now ≡ length objects.old }
    requires few { length objects.old ≤ most_objects }
    ensures names { names_of objects.new ≡ names_of objects.old }
    ensures values { initial_state objects.new ≡ values.now }
{
    for index in 0..objects.len() {
        objects.replace(index, values.get(ObjectId::new(index as u16)));
    }
}

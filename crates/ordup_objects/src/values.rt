ghost use Rattle.std.specs.Prelude.{◌≡◌, ◌≤◌, ℕ, ◌<◌, ◌↔◌, IsTrue, IfSome, IsOk, is_ok, IfOk, IfErr, OnOk, OnErr, length, All, ◌+◌, ◌++◌, vec_len, vec_capacity, slice_set};
ghost use Rattle.ordup_objects.specs.States.{value_at, result_at, in_range, is_legal, AreResults, after, IsInRange, IsState};
ghost use Rattle.ordup_objects.specs.Ops.{number_of, source_of};
ghost use Rattle.ordup_objects.specs.Sets.{IsKnown, AreKnown, AreInRange};
ghost use Rattle.ordup_objects.specs.Tables.{initial_state};
ghost use Rattle.ordup_objects.specs.Moves.{moves_of};

use crate::change::Change;
use crate::ids::ObjectId;
use crate::message_set::MessageSet;
use crate::moved::Moved;
use crate::object_table::ObjectTable;
use crate::refusal::Refusal;
use crate::results::Results;
use crate::sizes::{GREATEST_VALUE, MOST_CHANGES};
use std::alloc::{AllocError, Allocator, Global};
use std::marker::Model;

/// A state: the value of each object, in order of declaration. Values lie from -1,000,000,000 to 1,000,000,000.
#[derive(Drop)]
pub struct Values<A: Allocator + Copy = Global> {
    values: Vec<i64, A>,
}

impl<A: Allocator + Copy> Model for Values<A> {
    ghost use Rattle.std.specs.Prelude.{List, ℤ};
    ghost use Rattle.ordup_objects.specs.States.{IsState};

    ghost Value = { List ℤ };

    ghost view = { λ s. s.values.items };

    ghost invariant = { λ s. IsState s.values.items };
}

impl<A: Allocator + Copy> Values<A> {
    // promise: values begin as declared; the readers answer them
    /// The initial values of the objects. The only refusal is `NoMemory`.
    pub fn initial(alloc: A, objects: &ObjectTable<A>) -> Result<Self, Refusal>
        ensures initial { IfOk result (λ values. values ≡ initial_state objects.now) }
        ensures refused { IfErr result (λ e. e ≡ Refusal.NoMemory) }
    {
        let values = initial_values(alloc, objects)?;
        Ok(Values { values })
    }

    // promise: as Values::initial
    /// A copy of the values. The only refusal is `NoMemory`.
    pub fn copy(&self, alloc: A) -> Result<Self, Refusal>
        ensures copied { IfOk result (λ values. values ≡ self.now) }
        ensures refused { IfErr result (λ e. e ≡ Refusal.NoMemory) }
    {
        let values = Vec::from_slice(alloc, self.values.as_slice())?;
        Ok(Values { values })
    }

    // promise: as Values::initial
    /// How many objects have a value.
    pub fn len(&self) -> usize
        ensures len { result ≡ length self.now }
        // What each state keeps, for the proofs of its users.
        ensures state { IsState self.now }
    {
        self.values.len()
    }

    /// What each state keeps, for the proofs of its users. It does nothing.
    #[inline(always)]
    pub fn keeps(&self)
        ensures { IsState self.now }
    {
        let _ = &self.values;
    }

    // promise: as Values::initial
    /// The value of an object.
    pub fn get(&self, object: ObjectId) -> i64
        requires { object < length self.now }
        ensures value { result ≡ value_at self.now object }
        ensures range { IsInRange result }
    {
        self.values[object.index()]
    }

    // promise: as Values::initial
    /// The values in order of declaration.
    pub fn as_slice(&self) -> &[i64]
        ensures { result.now ≡ self.now }
    {
        self.values.as_slice()
    }

    // promise: as Values::initial
    /// What a change makes of its object's value.
    pub fn result(&self, change: &Change) -> i64
        requires known { IsKnown (length self.now) change.now }
        requires number { IfSome (number_of change.now.op) IsInRange }
        ensures { result ≡ result_at self.now change.now }
    {
        result_at(self.values.as_slice(), change)
    }

    // promise ok len: all changes of a set read the state before it
    // promise legal err: a set applies as a whole; it is refused exactly for a result out of range
    /// Applies a message set as a whole: all its changes read the values before it.
    ///
    /// The set is refused `OutOfRange` where a result is out of range. Then no value changes.
    pub fn apply(&mut self, set: &MessageSet<A>) -> Result<(), Refusal>
        requires { AreKnown (length self.old) set.now }
        ensures ok { OnOk result (self.new ≡ after set.now self.old) }
        ensures legal { IsOk result ↔ IsTrue (is_legal set.now self.old) }
        ensures len { length self.new ≡ length self.old }
        ensures err { IfErr result (λ e. (e ≡ Refusal.OutOfRange) × (self.new ≡ self.old)) }
    {
        let mut results = Results::new();
        self.results(set, &mut results)?;
        self.put(set, &results);
        Ok(())
    }

    // promise: as Values::initial
    /// Whether a message set is legal on these values: whether each result is in range.
    pub fn allows(&self, set: &MessageSet<A>) -> bool
        requires { AreKnown (length self.now) set.now }
        ensures { result ≡ is_legal set.now self.now }
    {
        self.results(set, &mut Results::new()).is_ok()
    }

    // promise results: as Values::apply ok
    // promise legal err: as Values::apply legal
    /// Computes what each change of a set makes of its object's value. The only refusal is `OutOfRange`, where a result is out of
    /// range.
    pub fn results(&self, set: &MessageSet<A>, results: &mut Results) -> Result<(), Refusal>
        requires { AreKnown (length self.now) set.now }
        ensures results { OnOk result (AreResults self.now set.now results.new) }
        ensures legal { is_ok result ≡ is_legal set.now self.now }
        ensures err { IfErr result (λ e. e ≡ Refusal.OutOfRange) }
    {
        results_of(self.values.as_slice(), set.changes(), &mut results.results)
    }

    // promise: as Values::initial
    /// Adds what each change of a legal set makes of its object to a list that has spare capacity. The results are those of the set on
    /// these values.
    pub fn push_moves(&self, set: &MessageSet<A>, results: &Results, moves: &mut Vec<Moved, A>)
        requires known { AreKnown (length self.now) set.now }
        requires legal { IsTrue (is_legal set.now self.now) }
        requires results { AreResults self.now set.now results.now }
        requires spare { vec_len moves.old + length set.now ≤ vec_capacity moves.old }
        ensures { moves.new.items ≡ moves.old.items ++ moves_of self.now set.now }
    {
        let values = self.values.as_slice();
        put_moves(moves, values, set.changes(), &results.results);
    }

    // promise after len: as Values::apply ok
    /// Applies a legal set. The results are those of the set on these values, and none is computed again.
    pub fn put(&mut self, set: &MessageSet<A>, results: &Results)
        requires known { AreKnown (length self.old) set.now }
        requires legal { IsTrue (is_legal set.now self.old) }
        requires results { AreResults self.old set.now results.now }
        ensures after { self.new ≡ after set.now self.old }
        ensures len { length self.new ≡ length self.old }
    {
        put_results(&mut self.values, set.changes(), &results.results);
    }

    // promise put len: a value takes the place of one object's; the others stay
    /// Puts a value in the place of an object's.
    #[inline(always)]
    pub fn put_value(&mut self, object: ObjectId, value: i64)
        requires object { object < length self.old }
        requires range { IsInRange value }
        ensures put { self.new ≡ slice_set self.old object value }
        ensures len { length self.new ≡ length self.old }
    {
        let index = object.index();
        self.values[index] = value;
    }
}

/// Whether a value lies from -1,000,000,000 to 1,000,000,000.
pub(crate) fn is_in_range(value: i64) -> bool
    ensures { result ≡ in_range value }
{
    value.unsigned_abs() <= GREATEST_VALUE
}

fn initial_values<A: Allocator + Copy>(
    alloc: A,
    objects: &ObjectTable<A>,
) -> Result<Vec<i64, A>, AllocError>
    ensures initial { IfOk result (λ v. v.items ≡ initial_state objects.now) }
    ensures state { IfOk result (λ v. IsState v.items) }
{
    let count = objects.len();
    let mut values = Vec::with_capacity(alloc, count)?;
    for index in 0..count {
        values.push(objects.initial(ObjectId::new(index as u16)))?;
    }
    Ok(values)
}

/// What a change makes of its object's value.
fn result_at(values: &[i64], change: &Change) -> i64
    requires state { IsState values.now }
    requires known { IsKnown (length values.now) change.now }
    requires number { IfSome (number_of change.now.op) IsInRange }
    ensures { result ≡ result_at values.now change.now }
{
    let source = source_of(values, change);
    change.op.result(values[change.object.index()], source)
}

/// The value that a change reads besides its object's own; 0 where it reads none.
fn source_of(values: &[i64], change: &Change) -> i64
    requires known { IsKnown (length values.now) change.now }
    ensures { IfSome (source_of change.now.op) (λ y. value_at values.now y ≡ result) }
{
    match change.op.source() {
        Some(object) => values[object.index()],
        None => 0,
    }
}

/// Computes each change's result in the values before the set.
fn results_of(values: &[i64], changes: &[Change], results: &mut [i64]) -> Result<(), Refusal>
    requires state { IsState values.now }
    requires known { AreKnown (length values.now) changes.now }
    requires numbers { AreInRange changes.now }
    requires spare { length changes.now ≤ length results.old }
    ensures legal { is_ok result ≡ is_legal changes.now values.now }
    ensures results { OnOk result (AreResults values.now changes.now results.new) }
    ensures err { IfErr result (λ e. e ≡ Refusal.OutOfRange) }
{
    for (i, change) in changes.iter().enumerate() {
        let value = result_at(values, change);
        if !is_in_range(value) {
            return Err(Refusal::OutOfRange);
        }
        results[i] = value;
    }
    Ok(())
}

/// Puts each result in the place of its change's object.
fn put_results(values: &mut [i64], changes: &[Change], results: &[i64])
    requires objects { All (λ c. c.object < length values.old) changes.now }
    requires results { AreResults values.old changes.now results.now }
    requires spare { length changes.now ≤ length results.now }
    requires state { IsState values.old }
    requires legal { IsTrue (is_legal changes.now values.old) }
    ensures after { values.new ≡ after changes.now values.old }
    ensures state { IsState values.new }
{
    for (i, change) in changes.iter().enumerate() {
        values[change.object.index()] = results[i];
    }
}

/// Adds what each change makes of its object, from the value that the object has and the change's result.
fn put_moves<A: Allocator + Copy>(
    moves: &mut Vec<Moved, A>,
    values: &[i64],
    changes: &[Change],
    results: &[i64],
)
    requires objects { All (λ c. c.object < length values.now) changes.now }
    requires state { IsState values.now }
    requires legal { IsTrue (is_legal changes.now values.now) }
    requires results { AreResults values.now changes.now results.now }
    requires length { length changes.now ≤ length results.now }
    requires spare { vec_len moves.old + length changes.now ≤ vec_capacity moves.old }
    ensures { moves.new.items ≡ moves.old.items ++ moves_of values.now changes.now }
{
    for (i, change) in changes.iter().enumerate() {
        let value = results[i];
        let distance = value.abs_diff(values[change.object.index()]);
        moves.push_reserved(Moved {
            object: change.object,
            value: value as i32,
            distance: distance as u32,
        });
    }
}

ghost use Rattle.std.specs.Prelude.{◌≡◌, ◌≤◌, ◌+◌, ◌-◌, ◌*◌, ◌<◌, None, IfOk, IfErr, [], ◌++◌, length};
ghost use Rattle.ordup_objects.specs.Sizes.{most_changes, most_updates};
ghost use Rattle.ordup_objects.specs.Tables.{initial_state};
ghost use Rattle.ordup_objects.specs.Moves.{moves_of};
ghost use Rattle.ordup_log.specs.Moving.{moves_below};

mod weights;

use crate::added_update::{note_update, reserve_update};
use crate::moved_weights::part;
use ordup_objects::sizes::MOST_UPDATES;
use ordup_objects::{
    MessageSet, Moved, ObjectId, ObjectTable, Refusal, Results, Values, or_give_up,
};
use std::alloc::{Allocator, Global};
use std::marker::Model;

/// The updates in their global order: each is a message set, legal on the serial result of those before it.
///
/// Updates are numbered 1, 2, 3 and so on, at most 1,000,000, and never taken back. The number of an update is its place.
#[derive(Drop)]
pub struct Log<A: Allocator + Copy = Global> {
    start: Values<A>,
    sets: Vec<MessageSet<A>, A>,
    /// What each change of each set made of its object, set after set.
    moves: Vec<Moved, A>,
    /// Where the moves of each set begin. A log has at most 64,000,000 of them, so an index fits in four bytes.
    begins: Vec<u32, A>,
    /// For each object what all updates weigh on it.
    travelled: Vec<u64, A>,
    /// A row for each 256 updates: a copy of `travelled` as it was after them.
    marks: Vec<u64, A>,
    end: Values<A>,
    // Kept from one update to the next, since new memory is zeroed.
    results: Results,
}

impl<A: Allocator + Copy> Model for Log<A> {
    ghost use Rattle.ordup_objects.specs.Serial.{History};

    ghost Value = { History };

    ghost view = { λ l. record { start = l.start; sets = l.sets.items } };

    ghost use Rattle.ordup_log.specs.LogInside.{IsLog};

    ghost invariant = { IsLog };
}

impl<A: Allocator + Copy> Log<A> {
    ghost use Rattle.ordup_objects.specs.Serial.{serial, set_at, with_update, prefix_of, IsLegalHistory};
    ghost use Rattle.ordup_objects.specs.States.{value_at};
    ghost use Rattle.ordup_objects.specs.Sets.{AreKnown};
    ghost use Rattle.ordup_objects.specs.Refusals.{IsRefusal};
    ghost use Rattle.ordup_log.specs.Appending.{append_refusal};

    // promise: the readers answer the log; a copied prefix has its updates alone
    /// A log without updates, over the initial values of the objects. The only refusal is `NoMemory`.
    pub fn new(alloc: A, objects: &ObjectTable<A>) -> Result<Self, Refusal>
        ensures empty { IfOk result (λ log. log ≡ record { start = initial_state objects.now; sets = [] }) }
        ensures refused { IfErr result (λ e. e ≡ Refusal.NoMemory) }
    {
        let start = Values::initial(alloc, objects)?;
        Log::over(alloc, start)
    }

    // promise copied refused: as Log::new
    /// A copy of the log with its first `count` updates. The only refusal is `NoMemory`.
    pub fn copy_prefix(&self, alloc: A, count: u64) -> Result<Self, Refusal>
        requires { count ≤ length self.now.sets }
        ensures copied { IfOk result (λ log. log ≡ prefix_of self.now count) }
        ensures refused { IfErr result (λ e. e ≡ Refusal.NoMemory) }
    {
        let mut log = Log::over(alloc, self.start.copy(alloc)?)?;
        or_give_up!(self.copy_updates(alloc, count, &mut log), log);
        Ok(log)
    }

    /// Adds the first `count` updates to a log over the same values that has none. The only refusal is `NoMemory`.
    fn copy_updates(&self, alloc: A, count: u64, log: &mut Log<A>) -> Result<(), Refusal>
        requires last { count ≤ length self.now.sets }
        requires empty { log.old ≡ prefix_of self.now 0 }
        ensures copied { IfOk result (λ _. log.new ≡ prefix_of self.now count) }
        ensures refused { IfErr result (λ e. e ≡ Refusal.NoMemory) }
    {
        self.keeps();
        for index in 0..count {
            let set = self.set(index + 1).copy(alloc)?;
            log.append(set)?;
        }
        Ok(())
    }

    /// A log without updates, over these values. The only refusal is `NoMemory`.
    fn over(alloc: A, start: Values<A>) -> Result<Self, Refusal>
        ensures empty { IfOk result (λ log. log ≡ record { start = start; sets = [] }) }
        ensures refused { IfErr result (λ e. e ≡ Refusal.NoMemory) }
    {
        let end = start.copy(alloc)?;
        let travelled = vec![in alloc; 0; start.len()]?;
        Ok(Log {
            start,
            sets: Vec::new(alloc),
            moves: Vec::new(alloc),
            begins: Vec::new(alloc),
            travelled,
            marks: Vec::new(alloc),
            end,
            results: Results::new(),
        })
    }

    // promise legal: the set at each place is legal there; no wrong body: what the type keeps
    // promise: as Log::new
    /// How many updates there are.
    pub fn len(&self) -> u64
        ensures len { result ≡ length self.now.sets }
        // What each log keeps, for the proofs of its users.
        ensures few { length self.now.sets ≤ most_updates }
        ensures legal { IsLegalHistory self.now }
    {
        self.sets.len() as u64
    }

    /// What each log keeps, for the proofs of its users. It does nothing.
    #[inline(always)]
    pub fn keeps(&self)
        ensures few { length self.now.sets ≤ most_updates }
        ensures legal { IsLegalHistory self.now }
    {
        let _ = &self.sets;
    }

    // promise: as Log::new
    /// How many objects the log is over.
    pub fn objects(&self) -> usize
        ensures { result ≡ length self.now.start }
    {
        self.start.len()
    }

    // promise number added allowed refused err: just the given legal set is appended; `append_or_return` gives back a refused one
    /// Adds a message set as the last update, and returns its number.
    ///
    /// It is refused `LogFull` after 1,000,000 updates, `OutOfRange` where a result is out of range, and `NoMemory`.
    pub fn append(&mut self, set: MessageSet<A>) -> Result<u64, Refusal>
        requires { AreKnown (length self.old.start) set }
        ensures number { IfOk result (λ k. k ≡ length self.old.sets + 1) }
        ensures added { IfOk result (λ _. self.new ≡ with_update self.old set) }
        ensures allowed { IfOk result (λ _. append_refusal self.old set ≡ None) }
        ensures refused { IfErr result (λ e. IsRefusal (append_refusal self.old set) e) }
        ensures err { IfErr result (λ _. self.new ≡ self.old) }
    {
        match self.append_or_return(set) {
            Ok(number) => Ok(number),
            Err((refusal, _set)) => Err(refusal),
        }
    }

    // promise number added allowed refused err returned: as Log::append
    /// Adds a message set as the last update, as `append` does. A set that is refused is given back.
    pub fn append_or_return(&mut self, set: MessageSet<A>) -> Result<u64, (Refusal, MessageSet<A>)>
        requires { AreKnown (length self.old.start) set }
        ensures number { IfOk result (λ k. k ≡ length self.old.sets + 1) }
        ensures added { IfOk result (λ _. self.new ≡ with_update self.old set) }
        ensures allowed { IfOk result (λ _. append_refusal self.old set ≡ None) }
        ensures refused { IfErr result (λ e. IsRefusal (append_refusal self.old set) e.0) }
        ensures returned { IfErr result (λ e. e.1 ≡ set) }
        ensures err { IfErr result (λ _. self.new ≡ self.old) }
    {
        if self.sets.len() == MOST_UPDATES {
            return Err((Refusal::LogFull, set));
        }
        let Ok(()) = self.end.results(&set, &mut self.results) else {
            return Err((Refusal::OutOfRange, set));
        };
        let number = self.sets.len() as u64 + 1;
        let Ok(()) = reserve_update(
            &mut self.sets,
            &mut self.moves,
            &mut self.begins,
            &mut self.marks,
            set.changes(),
            number,
            self.travelled.len(),
        ) else {
            return Err((Refusal::NoMemory, set));
        };
        let begin = self.moves.len();
        self.end.push_moves(&set, &self.results, &mut self.moves);
        note_update(
            &mut self.begins,
            &mut self.travelled,
            &mut self.marks,
            self.moves.as_slice(),
            begin,
            number,
        );
        self.end.put(&set, &self.results);
        self.sets.push_reserved(set);
        Ok(number)
    }

    // promise legal: as Log::len
    // promise: as Log::new
    /// The set of the update with this number.
    pub fn set(&self, number: u64) -> &MessageSet<A>
        requires first { 0 < number }
        requires last { number ≤ length self.now.sets }
        ensures set { result.now ≡ set_at self.now number }
        // The log keeps this too: said here for proofs about one update.
        ensures legal { IsLegalHistory self.now }
    {
        &self.sets[number as usize - 1]
    }

    // promise: as Log::new
    /// A copy of the set of the update with this number. The only refusal is `NoMemory`.
    pub fn copy_set(&self, number: u64) -> Result<MessageSet<A>, Refusal>
        requires first { 0 < number }
        requires last { number ≤ length self.now.sets }
        ensures copied { IfOk result (λ set. set ≡ set_at self.now number) }
        ensures refused { IfErr result (λ e. e ≡ Refusal.NoMemory) }
    {
        let alloc = *self.sets.allocator();
        self.set(number).copy(alloc)
    }

    // promise: as Log::new
    /// The values after all updates.
    pub fn end(&self) -> &Values<A>
        ensures { result.now ≡ serial self.now (length self.now.sets) }
    {
        &self.end
    }

    // promise: as Log::new
    /// The value of an object after all updates.
    pub fn end_value(&self, object: ObjectId) -> i64
        requires { object < length self.now.start }
        ensures { result ≡ value_at (serial self.now (length self.now.sets)) object }
    {
        self.end.get(object)
    }

    // promise moves: moves say what each change made, and how far it moved
    /// What each change of the update with this number made of its object, in the order of the changes.
    pub fn moves(&self, number: u64) -> &[Moved]
        requires first { 0 < number }
        requires last { number ≤ length self.now.sets }
        ensures moves { result.now ≡ moves_of (serial self.now (number - 1)) (set_at self.now number) }
        ensures legal { IsLegalHistory self.now }
    {
        self.moves_between(number - 1, number)
    }

    /// What the changes of the updates after a place, up to another, made of their objects, update after update.
    fn moves_between(&self, from: u64, to: u64) -> &[Moved]
        requires forward { from ≤ to }
        requires last { to ≤ length self.now.sets }
        ensures moves { moves_below self.now from ++ result.now ≡ moves_below self.now to }
        ensures few { length result.now ≤ most_changes * most_updates }
        ensures legal { IsLegalHistory self.now }
    {
        part(self.moves.as_slice(), self.begin(from), self.begin(to))
    }

    /// Where the moves of the updates after a place begin.
    fn begin(&self, place: u64) -> usize
        requires { place ≤ length self.now.sets }
        ensures { result ≡ length (moves_below self.now place) }
    {
        if place == self.len() {
            self.moves.len()
        } else {
            self.begins[place as usize] as usize
        }
    }
}

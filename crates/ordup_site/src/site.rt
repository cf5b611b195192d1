ghost use Rattle.std.specs.Prelude.{◌≡◌, ◌≤◌, ◌<◌, ◌+◌, ◌*◌, ℕ, ℤ, List, [], IsTrue, IfOk, IfErr, All, length, map, take, replicate, slice_index_or};
ghost use Rattle.ordup_objects.specs.Sizes.{most_changes, most_updates, greatest_distance};
ghost use Rattle.ordup_objects.specs.Tables.{initial_state};
ghost use Rattle.ordup_objects.specs.States.{value_at, is_legal, after, IsInRange, IsState};
ghost use Rattle.ordup_objects.specs.Sets.{AreKnown};
ghost use Rattle.ordup_objects.specs.Serial.{History, set_at, with_update};
ghost use Rattle.ordup_objects.specs.Weights.{distance};
ghost use Rattle.ordup_site.specs.Sites.{HasApplied, AreMovesOf, travelled_at};
ghost use Rattle.ordup_site.specs.Travelling.{Moves};

use ordup_objects::sizes::MOST_CHANGES;
use ordup_objects::{Change, MessageSet, Moved, ObjectId, ObjectTable, Refusal, Results, Values};
use std::alloc::{AllocError, Allocator, Global};
use std::marker::Model;

/// A replica of the objects: it applies message sets one after another, at most 1,000,000.
///
/// It keeps the values and not the sets. Beside each value stands how far it travelled, which is the weight on the object of
/// all updates that the site applied: 3 up and 3 down are 6.
#[derive(Drop)]
pub struct Site<A: Allocator + Copy = Global> {
    applied: u64,
    values: Values<A>,
    travelled: Vec<u64, A>,
    // Kept from one application to the next, since new memory is zeroed, which took as long as to apply a set of one change.
    results: Results,
    moves: [Moved; MOST_CHANGES],
}

impl<A: Allocator + Copy> Model for Site<A> {
    ghost use Rattle.ordup_site.specs.Sites.{SiteState};

    ghost Value = { SiteState };

    ghost view = { λ s. record { applied = s.applied; values = s.values; travelled = s.travelled.items } };

    ghost use Rattle.ordup_site.specs.SiteInside.{IsSite};

    ghost invariant = { IsSite };
}

impl<A: Allocator + Copy> Site<A> {
    // promise state start refused: a site begins with the initial values, and has applied nothing
    /// A site that applied nothing: it holds the initial values of the objects. The only refusal is `NoMemory`.
    pub fn new(alloc: A, objects: &ObjectTable<A>) -> Result<Self, Refusal>
        ensures state { IfOk result (λ site. site ≡ record { applied = 0; values = initial_state objects.now; travelled = replicate (length objects.now) 0 }) }
        ensures start { IfOk result (λ site. (h : History) → h.start ≡ initial_state objects.now → HasApplied site h 0) }
        ensures refused { IfErr result (λ e. e ≡ Refusal.NoMemory) }
    {
        let values = Values::initial(alloc, objects)?;
        let travelled = vec![in alloc; 0; objects.len()]?;
        let none = Moved {
            object: ObjectId::new(0),
            value: 0,
            distance: 0,
        };
        Ok(Site {
            applied: 0,
            values,
            travelled,
            results: Results::new(),
            moves: [none; MOST_CHANGES],
        })
    }

    // promise applied values travelled: a legal set is applied by its changes or moves; values travel as they move
    // promise last next: the next set of a log gives the next serial result, and the weights of all
    /// Applies a message set. It takes no memory, and its work grows with the changes of the set alone.
    ///
    /// The caller makes sure that the set changes and reads objects of the site (`MessageSet::are_known`), that it is legal on the
    /// values (`Values::allows`), and that the site applied fewer than 1,000,000 updates.
    pub fn apply(&mut self, set: &MessageSet<A>)
        requires known { AreKnown (length self.old.values) set.now }
        requires legal { IsTrue (is_legal set.now self.old.values) }
        requires spare { self.old.applied < most_updates }
        ensures applied { self.new.applied ≡ self.old.applied + 1 }
        ensures values { self.new.values ≡ after set.now self.old.values }
        ensures travelled { (x : ℕ) → travelled_at self.new x ≡ travelled_at self.old x + distance (value_at self.new.values x) (value_at self.old.values x) }
        // The set is now the last of those that the site applied.
        ensures last { (h : History) → HasApplied self.old h (length h.sets) → HasApplied self.new (with_update h set.now) (length h.sets + 1) }
        // Where it is the next of a log, the site applied one update more of that log.
        ensures next { (h : History) (j : ℕ) → HasApplied self.old h j → j < length h.sets → set.now ≡ set_at h (j + 1) → HasApplied self.new h (j + 1) }
    {
        compute_moves(&self.values, set, &mut self.results, &mut self.moves);
        let moves = &self.moves[..set.changes().len()];
        put_moves(&mut self.values, &mut self.travelled, moves);
        self.applied += 1;
    }

    // promise applied values travelled: as Site::apply applied
    // promise last next: as Site::apply last
    /// Applies a message set by its moves, as `apply` does, and computes nothing again. It takes no memory, and its work grows with the
    /// moves alone.
    ///
    /// The caller makes sure that these are the moves of a set which the site may apply, and that the site applied fewer than
    /// 1,000,000 updates.
    pub fn apply_moves(&mut self, moves: &[Moved])
        requires moves { (m : List Change) × AreMovesOf self.old.values m moves.now }
        requires spare { self.old.applied < most_updates }
        ensures applied { self.new.applied ≡ self.old.applied + 1 }
        ensures values { (m : List Change) → AreMovesOf self.old.values m moves.now → self.new.values ≡ after m self.old.values }
        ensures travelled { (x : ℕ) → travelled_at self.new x ≡ travelled_at self.old x + distance (value_at self.new.values x) (value_at self.old.values x) }
        // The set is now the last of those that the site applied.
        ensures last { (h : History) (m : List Change) → AreMovesOf self.old.values m moves.now → HasApplied self.old h (length h.sets) → HasApplied self.new (with_update h m) (length h.sets + 1) }
        // Where it is the next of a log, the site applied one update more of that log.
        ensures next { (h : History) (j : ℕ) → HasApplied self.old h j → j < length h.sets → AreMovesOf self.old.values (set_at h (j + 1)) moves.now → HasApplied self.new h (j + 1) }
    {
        let Site {
            applied,
            values,
            travelled,
            ..
        } = self;
        put_moves(values, travelled, moves);
        *applied += 1;
    }

    // promise: the readers answer the site
    /// How many objects there are.
    pub fn len(&self) -> usize
        ensures { result ≡ length self.now.values }
    {
        self.values.len()
    }

    // promise: as Site::len
    /// How many updates the site applied, at most 1,000,000.
    pub fn applied(&self) -> u64
        ensures applied { result ≡ self.now.applied }
        ensures few { result ≤ most_updates }
    {
        self.applied
    }

    // promise: as Site::len
    /// The value of an object.
    pub fn value(&self, object: ObjectId) -> i64
        requires { object < length self.now.values }
        ensures value { result ≡ value_at self.now.values object }
        ensures range { IsInRange result }
    {
        self.values.get(object)
    }

    // promise: as Site::len
    /// How far the value of an object travelled: the weight on the object of all updates that the site applied.
    pub fn travelled(&self, object: ObjectId) -> u64
        requires { object < length self.now.values }
        ensures travelled { result ≡ travelled_at self.now object }
        ensures few { result ≤ greatest_distance * self.now.applied }
    {
        self.travelled[object.index()]
    }

    // promise: as Site::len
    /// The values of the objects.
    pub fn values(&self) -> &Values<A>
        ensures { result.now ≡ self.now.values }
    {
        &self.values
    }
}

/// Computes the moves of a legal set, in place of the first of these moves.
fn compute_moves<A: Allocator + Copy>(
    values: &Values<A>,
    set: &MessageSet<A>,
    results: &mut Results,
    moves: &mut [Moved],
)
    requires known { AreKnown (length values.now) set.now }
    requires legal { IsTrue (is_legal set.now values.now) }
    requires spare { length moves.old ≡ most_changes }
    ensures moves { AreMovesOf values.now set.now (take (length set.now) moves.new) }
    ensures spare { length moves.new ≡ most_changes }
{
    values.keeps();
    let _ = values.results(set, results);
    let results = results.as_slice();
    let changes = set.changes();
    for (i, change) in changes.iter().enumerate() {
        let value = results[i];
        let distance = value.abs_diff(values.get(change.object));
        moves[i] = Moved {
            object: change.object,
            value: value as i32,
            distance: distance as u32,
        };
    }
}

/// Puts the value of each move in the place of its object's, and adds how far it moved to what that travelled.
fn put_moves<A: Allocator + Copy>(values: &mut Values<A>, travelled: &mut [u64], moves: &[Moved])
    requires moves { (m : List Change) × AreMovesOf values.old m moves.now }
    requires same { length travelled.old ≡ length values.old }
    requires bounded { All (λ t. t ≤ greatest_distance * most_updates) travelled.old }
    ensures { (m : List Change) → AreMovesOf values.old m moves.now → Moves m values.old travelled.old values.new travelled.new }
{
    values.keeps();
    for moved in moves {
        values.put_value(moved.object, i64::from(moved.value));
        travelled[moved.object.index()] += u64::from(moved.distance);
    }
}

//! What moves weigh on the objects that they move.
ghost use Rattle.std.specs.Prelude.{◌≡◌, ◌≤◌, ◌+◌, ◌-◌, ◌*◌, ◌^◌, ℕ, ◌<◌, All, length, take, drop, sum, sum_by};
ghost use Rattle.ordup_objects.specs.Sizes.{most_changes, most_updates};
ghost use Rattle.ordup_objects.specs.Marks.{mark_at};
ghost use Rattle.ordup_log.specs.Moving.{distance_on, distance_of};

use ordup_objects::{Moved, ObjectId};
use std::alloc::Allocator;

/// Adds how far each move moved its object to what the object travelled.
pub(crate) fn travel<A: Allocator + Copy>(travelled: &mut Vec<u64, A>, moves: &[Moved])
    requires known { All (λ m. m.object < length travelled.old.items) moves.now }
    requires few { (x : ℕ) → x < length travelled.old.items → mark_at travelled.old.items x + sum_by (distance_on x) moves.now < 2 ^ 64 }
    ensures count { length travelled.new.items ≡ length travelled.old.items }
    ensures travelled { (x : ℕ) → x < length travelled.old.items →
        mark_at travelled.new.items x ≡ mark_at travelled.old.items x + sum_by (distance_on x) moves.now }
{
    for moved in moves {
        travelled[moved.object.index()] += u64::from(moved.distance);
    }
}

/// The moves from one index to another.
pub(crate) fn part(moves: &[Moved], from: usize, to: usize) -> &[Moved]
    requires forward { from ≤ to }
    requires last { to ≤ length moves.now }
    ensures { result.now ≡ take (to - from) (drop from moves.now) }
{
    &moves[from..to]
}

/// How far moves move an object.
pub(crate) fn total_on(object: ObjectId, moves: &[Moved]) -> u64
    requires { length moves.now ≤ most_changes * most_updates }
    ensures { result ≡ sum_by (distance_on object) moves.now }
{
    let mut total = 0;
    for moved in moves {
        if moved.object == object {
            total += u64::from(moved.distance);
        }
    }
    total
}

/// How far moves move all objects.
pub(crate) fn total_on_all(moves: &[Moved]) -> u64
    requires { length moves.now ≤ most_changes * most_updates }
    ensures { result ≡ sum_by distance_of moves.now }
{
    let mut total = 0;
    for moved in moves {
        total += u64::from(moved.distance);
    }
    total
}

pub(crate) fn total(numbers: &[u64]) -> u64
    requires { sum numbers.now < 2 ^ 64 }
    ensures { result ≡ sum numbers.now }
{
    numbers.iter().sum()
}

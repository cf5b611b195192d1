//! What an update that is added changes in the lists of a log.
ghost use Rattle.std.specs.Prelude.{◌≡◌, ◌≤◌, ◌+◌, ◌^◌, ◌∷◌, ◌++◌, [], ℕ, ◌<◌, All, OnOk, drop, length, sum_by, vec_len, vec_capacity};
ghost use Rattle.ordup_objects.specs.Marks.{mark_at};
ghost use Rattle.ordup_log.specs.Moving.{distance_on};
ghost use Rattle.ordup_log.specs.Rows.{row_due, marks_due};

use crate::marks::{add_row, reserve_row};
use crate::moved_weights::travel;
use ordup_objects::{Change, MessageSet, Moved};
use std::alloc::{AllocError, Allocator};

/// Reserves memory for the update with this number, which makes these changes, in a log over so many objects.
pub(crate) fn reserve_update<A: Allocator + Copy>(
    sets: &mut Vec<MessageSet<A>, A>,
    moves: &mut Vec<Moved, A>,
    begins: &mut Vec<u32, A>,
    marks: &mut Vec<u64, A>,
    changes: &[Change],
    number: u64,
    objects: usize,
) -> Result<(), AllocError>
    ensures sets { sets.new.items ≡ sets.old.items }
    ensures moves { moves.new.items ≡ moves.old.items }
    ensures begins { begins.new.items ≡ begins.old.items }
    ensures marks { marks.new.items ≡ marks.old.items }
    ensures set_spare { OnOk result (vec_len sets.new < vec_capacity sets.new) }
    ensures move_spare { OnOk result (vec_len moves.new + length changes.now ≤ vec_capacity moves.new) }
    ensures begin_spare { OnOk result (vec_len begins.new < vec_capacity begins.new) }
    ensures mark_spare { OnOk result (vec_len marks.new + marks_due number objects ≤ vec_capacity marks.new) }
{
    sets.reserve(1)?;
    moves.reserve(changes.len())?;
    begins.reserve(1)?;
    reserve_row(marks, number, objects)
}

/// Notes the update with this number: where its moves begin, which are the last ones, what it weighs on each object, and a row of
/// marks if one is due.
pub(crate) fn note_update<A: Allocator + Copy>(
    begins: &mut Vec<u32, A>,
    travelled: &mut Vec<u64, A>,
    marks: &mut Vec<u64, A>,
    moves: &[Moved],
    begin: usize,
    number: u64,
)
    requires begin { begin ≤ length moves.now }
    requires short { begin < 2 ^ 32 }
    requires known { All (λ m. m.object < length travelled.old.items) (drop begin moves.now) }
    requires few { (x : ℕ) → x < length travelled.old.items → mark_at travelled.old.items x + sum_by (distance_on x) (drop begin moves.now) < 2 ^ 64 }
    requires begin_spare { vec_len begins.old < vec_capacity begins.old }
    requires mark_spare { vec_len marks.old + marks_due number (length travelled.old.items) ≤ vec_capacity marks.old }
    ensures begins { begins.new.items ≡ begins.old.items ++ begin ∷ [] }
    ensures count { length travelled.new.items ≡ length travelled.old.items }
    ensures travelled { (x : ℕ) → x < length travelled.old.items →
        mark_at travelled.new.items x ≡ mark_at travelled.old.items x + sum_by (distance_on x) (drop begin moves.now) }
    ensures marks { marks.new.items ≡ marks.old.items ++ row_due number travelled.new.items }
{
    begins.push_reserved(begin as u32);
    travel(travelled, &moves[begin..]);
    add_row(marks, travelled.as_slice(), number);
}

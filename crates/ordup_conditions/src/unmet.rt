ghost use Rattle.std.specs.Prelude.{◌≡◌, ◌<◌, ◌↔◌, ◌==◌, None, Some, IsNone, IfSome, IfOk, IfErr, length};
ghost use Rattle.std.specs.List.{find};
ghost use Rattle.std.specs.Option.{option_copied};
ghost use Rattle.ordup_objects.specs.States.{value_at, after};
ghost use Rattle.ordup_objects.specs.Sets.{AreKnown};
ghost use Rattle.ordup_conditions.specs.Conditions.{keeps_bound, is_met, first_unmet, AreMet, IsFirstUnmet, condition_refusal, are_conditions_known, AreConditionsKnown};

use crate::condition::{Bound, Condition};
use ordup_objects::{Change, MessageSet, ObjectId, Refusal, Values};
use std::alloc::Allocator;

// promise known allowed refused: conditions are refused exactly where one names an object that is not there
/// Whether the object of each condition is among the first `objects`. They are refused `UnknownObject` where one is not.
pub fn check_conditions(objects: usize, conditions: &[Condition]) -> Result<(), Refusal>
    ensures known { IfOk result (λ _. AreConditionsKnown objects conditions.now) }
    ensures allowed { IfOk result (λ _. condition_refusal objects conditions.now ≡ None) }
    ensures refused { IfErr result (λ e. condition_refusal objects conditions.now ≡ Some e) }
{
    if !are_conditions_known(objects, conditions) {
        return Err(Refusal::UnknownObject);
    }
    Ok(())
}

// promise first met unmet: the first condition that the state after a set does not meet is told; none exactly where all are met
/// The index of the first condition that these values do not meet after a message set, or none where they meet all. The set need
/// not be legal on the values.
///
/// It takes no memory, and changes nothing. Each condition looks for the change of its object among those of the set.
pub fn first_unmet<A: Allocator + Copy>(
    values: &Values<A>,
    set: &MessageSet<A>,
    conditions: &[Condition],
) -> Option<usize>
    requires known { AreKnown (length values.now) set.now }
    requires objects { AreConditionsKnown (length values.now) conditions.now }
    ensures first { result ≡ first_unmet (after set.now values.now) conditions.now }
    ensures met { IsNone result ↔ AreMet (after set.now values.now) conditions.now }
    ensures unmet { IfSome result (IsFirstUnmet (after set.now values.now) conditions.now) }
{
    for (index, condition) in conditions.iter().enumerate() {
        if !is_met(values, set, condition) {
            return Some(index);
        }
    }
    None
}

fn are_conditions_known(objects: usize, conditions: &[Condition]) -> bool
    ensures { result ≡ are_conditions_known objects conditions.now }
{
    conditions.iter().all(|c| c.object.index() < objects)
}

/// Whether the values after a set meet a condition.
fn is_met<A: Allocator + Copy>(
    values: &Values<A>,
    set: &MessageSet<A>,
    condition: &Condition,
) -> bool
    requires known { AreKnown (length values.now) set.now }
    requires object { condition.now.object < length values.now }
    ensures { result ≡ is_met (after set.now values.now) condition.now }
{
    keeps_bound(value_after(values, set, condition.object), condition.bound)
}

/// The value of an object after a set: the result of the change of the object, if the set has one.
fn value_after<A: Allocator + Copy>(
    values: &Values<A>,
    set: &MessageSet<A>,
    object: ObjectId,
) -> i64
    requires known { AreKnown (length values.now) set.now }
    requires object { object < length values.now }
    ensures { result ≡ value_at (after set.now values.now) object }
{
    match change_of(set.changes(), object) {
        Some(change) => values.result(change),
        None => values.get(object),
    }
}

/// The change of an object, if there is one.
fn change_of(changes: &[Change], object: ObjectId) -> Option<&Change>
    ensures { option_copied result ≡ find (λ c. c.object == object) changes.now }
{
    changes.iter().find(|c| c.object == object)
}

fn keeps_bound(value: i64, bound: Bound) -> bool
    ensures { result ≡ keeps_bound value bound }
{
    match bound {
        Bound::AtLeast(number) => value >= number,
        Bound::AtMost(number) => value <= number,
    }
}

ghost use Rattle.std.specs.Prelude.{◌≡◌, ◌⊎◌, None, Some, [], OnOk, IfOk, IfErr, map};
ghost use Rattle.std.specs.List.{list_all};
ghost use Rattle.ordup_conditions.specs.Conditions.{AreConditionsKnown};
ghost use Rattle.ordup_shapes.specs.Conditions.{condition_of, conditions_refusal, has_bound};

use ordup_conditions::{Bound, Condition, check_conditions};
use ordup_objects::{ObjectId, Refusal, or_give_up};
use std::alloc::{AllocError, Global};

/// At least the number.
pub const AT_LEAST: u32 = 0;
/// At most the number.
pub const AT_MOST: u32 = 1;

/// What an object must be after an update.
#[repr(C)]
#[derive(Clone, Copy)]
pub struct RawCondition {
    pub object: u32,
    /// 0 at least, 1 at most.
    pub bound: u32,
    pub number: i64,
}

impl RawCondition {
    /// Whether the code is that of a bound.
    fn has_bound(&self) -> bool
        ensures { result ≡ has_bound self.now }
    {
        self.bound <= AT_MOST
    }

    /// The condition that it stands for, with its bound.
    fn condition_with(&self, bound: Bound) -> Condition
        ensures { result ≡ record (condition_of self.now) { bound = bound } }
    {
        Condition {
            object: ObjectId::new(self.object.min(u16::MAX as u32) as u16),
            bound,
        }
    }

    /// Its bound.
    fn read_bound(&self) -> Bound
        ensures { result ≡ (condition_of self.now).bound }
    {
        if self.bound == AT_LEAST {
            Bound::AtLeast(self.number)
        } else {
            Bound::AtMost(self.number)
        }
    }
}

// promise conditions known allowed refused: conditions that cross from C are those that they stand for, or refused for the first reason
/// The conditions that these stand for, in a store with this many objects.
///
/// They are refused `Syntax` where a code is that of no bound, and else as `check_conditions` refuses; or `NoMemory`.
pub fn read_conditions(
    alloc: Global,
    objects: usize,
    raws: &[RawCondition],
) -> Result<Vec<Condition>, Refusal>
    ensures conditions { IfOk result (λ conditions. conditions.items ≡ map condition_of raws.now) }
    ensures known { IfOk result (λ conditions. AreConditionsKnown objects conditions.items) }
    ensures allowed { IfOk result (λ _. conditions_refusal objects raws.now ≡ None) }
    ensures refused { IfErr result (λ e. (conditions_refusal objects raws.now ≡ Some e) ⊎ (e ≡ Refusal.NoMemory)) }
{
    if !have_bounds(raws) {
        return Err(Refusal::Syntax);
    }
    let mut conditions = Vec::new(alloc);
    or_give_up!(add_conditions(raws, &mut conditions), conditions);
    or_give_up!(check_conditions(objects, conditions.as_slice()), conditions);
    Ok(conditions)
}

fn have_bounds(raws: &[RawCondition]) -> bool
    ensures { result ≡ list_all has_bound raws.now }
{
    raws.iter().all(RawCondition::has_bound)
}

/// Adds the conditions that these stand for to a list without any.
fn add_conditions(raws: &[RawCondition], conditions: &mut Vec<Condition>) -> Result<(), AllocError>
    requires { conditions.old.items ≡ [] }
    ensures { OnOk result (conditions.new.items ≡ map condition_of raws.now) }
{
    for index in 0..raws.len() {
        let raw = &raws[index];
        // The prover takes a list of conditions only where their bounds are at hand.
        let bound: Bound = raw.read_bound();
        conditions.push(raw.condition_with(bound))?;
    }
    Ok(())
}

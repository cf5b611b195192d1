//! Parcels that may follow any others.
ghost use Rattle.std.specs.Prelude.{◌≡◌, ◌≤◌, length, IfOk};
ghost use Rattle.ordup_objects.specs.Sets.{AreKnown};
ghost use Rattle.ordup_objects.specs.Sizes.{most_updates};
ghost use Rattle.bench_calls.specs.Following.{FollowsAny, first_to_one};

use ordup_objects::{Change, MessageSet, ObjectId, ObjectTable, Op, Refusal};
use ordup_primary::Parcel;
use std::alloc::Global;

/// One object, at 0.
pub(crate) fn one_object(alloc: Global) -> Result<ObjectTable, Refusal> {
    let mut objects = ObjectTable::new(alloc);
    objects.declare(b"x", 0)?;
    Ok(objects)
}

/// The set that sets the first object to 1.
pub(crate) fn first_to_one(objects: &ObjectTable) -> Result<MessageSet, Refusal>
    ensures set { IfOk result (λ set. set ≡ first_to_one) }
    ensures known { IfOk result (AreKnown (length objects.now)) }
{
    let change = Change {
        object: ObjectId::new(0),
        op: Op::Set(1),
    };
    MessageSet::single(objects, change)
}

/// The parcel with this number, of a copy of that set.
pub(crate) fn parcel(alloc: Global, set: &MessageSet, number: u64) -> Result<Parcel, Refusal>
    requires few { number ≤ most_updates }
    requires set { set.now ≡ first_to_one }
    ensures next { IfOk result (FollowsAny number) }
    ensures copied { IfOk result (λ p. p.set ≡ set.now) }
{
    let set = set.copy(alloc)?;
    Ok(Parcel { number, set })
}

//! The objects x at 0 and y at 10, the sites a and b, and sets over objects.
ghost use Rattle.std.specs.Prelude.{◌≡◌, length, IfOk};
ghost use Rattle.ordup_objects.specs.Sets.{AreKnown};

use ordup_objects::{Change, MessageSet, ObjectId, ObjectTable, Op, Refusal, SiteId};
use std::alloc::{Allocator, Global};

/// The object x.
pub fn x() -> ObjectId
    ensures { result ≡ 0 }
{
    ObjectId::new(0)
}

/// The object y.
pub fn y() -> ObjectId
    ensures { result ≡ 1 }
{
    ObjectId::new(1)
}

/// An object that no store has.
pub fn z() -> ObjectId {
    ObjectId::new(2)
}

/// The first site.
pub fn a() -> SiteId
    ensures { result ≡ 0 }
{
    SiteId::new(0)
}

/// The second site.
pub fn b() -> SiteId
    ensures { result ≡ 1 }
{
    SiteId::new(1)
}

/// Declares x, y and z.
fn declare_all(objects: &mut ObjectTable) -> Result<(), Refusal> {
    let declared = [
        objects.declare(b"x", 0)?,
        objects.declare(b"y", 10)?,
        objects.declare(b"z", 0)?,
    ];
    if declared == [x(), y(), z()] {
        Ok(())
    } else {
        Err(Refusal::UnknownObject)
    }
}

/// A table of x, y and z.
// Tests drop it by a call, which is proved once for all tests: docs/DECISIONS.md, Tests.
pub fn x_y_and_z(alloc: Global) -> Result<ObjectTable, Refusal> {
    let mut objects = ObjectTable::new(alloc);
    match declare_all(&mut objects) {
        Ok(()) => Ok(objects),
        Err(refusal) => {
            drop(objects);
            Err(refusal)
        }
    }
}

/// The change that adds a number to an object.
pub fn adding(object: ObjectId, n: i64) -> Change {
    Change {
        object,
        op: Op::Add(n),
    }
}

/// The set of one change.
pub fn set_of_one<A: Allocator + Copy>(
    objects: &ObjectTable<A>,
    change: Change,
) -> Result<MessageSet<A>, Refusal>
    ensures { IfOk result (λ set. AreKnown (length objects.now) set) }
{
    MessageSet::single(objects, change)
}

/// The set that adds a number to an object.
pub fn add<A: Allocator + Copy>(
    objects: &ObjectTable<A>,
    object: ObjectId,
    n: i64,
) -> Result<MessageSet<A>, Refusal>
    ensures { IfOk result (λ set. AreKnown (length objects.now) set) }
{
    MessageSet::single(objects, adding(object, n))
}

/// The set of these changes.
pub fn set_of(
    alloc: Global,
    objects: &ObjectTable,
    changes: &[Change],
) -> Result<MessageSet, Refusal> {
    MessageSet::new(objects, Vec::from_slice(alloc, changes)?)
}

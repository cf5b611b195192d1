//! Parcels that follow each other.
ghost use Rattle.std.specs.Prelude.{◌≤◌, length};
ghost use Rattle.ordup_objects.specs.Sizes.{most_updates};
ghost use Rattle.tests_of_threads.specs.Following.{FollowsAny};

use ordup_objects::{Change, MessageSet, ObjectTable, Op};
use ordup_primary::Parcel;
use std::process::Abort;
use test_fixtures::x;

/// The parcel with this number, which sets x to 1. It follows any parcels before it.
pub fn parcel(rt: &impl Abort, objects: &ObjectTable, number: u64) -> Parcel
    requires { number ≤ most_updates }
    ensures { FollowsAny (length objects.now) number result }
{
    let change = Change {
        object: x(),
        op: Op::Set(1),
    };
    let Ok(set) = MessageSet::single(objects, change) else {
        panic!(rt; "the set is refused")
    };
    Parcel { number, set }
}

//! A feed over a ring, with both ends in one thread.
ghost use Rattle.std.specs.Prelude.{◌≡◌};

use super::fixtures::parcel;
use ordup_objects::Refusal;
use ordup_ring::{RingFeed, RingTakeEnd, compare};
use std::test::Fail;
use test_fixtures::{expect, expect_eq, x_y_and_z};

/// Pops a parcel, if there is one, and answers its number.
fn pop(taker: &mut RingTakeEnd) -> Option<u64>
    ensures { taker.new.feed ≡ taker.old.feed }
{
    match taker.pop() {
        Some(parcel) => Some(parcel.number),
        None => None,
    }
}

/// Makes rings at the edges of their capacity.
// shows: RingFeed::new ends allowed refused
#[test]
fn a_ring_holds_1_to_1024_parcels(rt: HostRuntime) -> Result<(), Fail> {
    let alloc = rt.alloc();
    let objects = x_y_and_z(alloc)?;
    for (capacity, refusal) in [
        (0, Some(Refusal::OutOfRange)),
        (1, None),
        (1_024, None),
        (1_025, Some(Refusal::OutOfRange)),
    ] {
        expect_eq!(&rt; RingFeed::new(alloc, &objects, capacity).err(), refusal);
    }
    drop(objects);
    Ok(())
}

/// Pushes a second parcel into a ring with a capacity of one. A parcel is told by the step that takes it.
// shows: RingSendEnd::push pushed refused; RingSendEnd::is_full full same; RingTakeEnd::pop taken none; RingSendEnd::look answer looked
// shows: compare same; what a feed finds
#[test]
fn a_full_ring_hands_the_parcel_back(rt: HostRuntime) -> Result<(), Fail> {
    let alloc = rt.alloc();
    let objects = x_y_and_z(alloc)?;
    let (mut sender, mut taker) = RingFeed::new(alloc, &objects, 1)?;
    let Ok(()) = sender.push(parcel(&rt, &objects, 1)) else {
        panic!(rt; "the ring does not take a parcel")
    };
    expect!(&rt; sender.is_full());
    let Err(back) = sender.push(parcel(&rt, &objects, 2)) else {
        panic!(rt; "the ring takes a second parcel")
    };
    expect_eq!(&rt; back.refusal.number(), 15);
    expect_eq!(&rt; back.parcel.number, 2);
    expect_eq!(&rt; sender.look(), 0);
    expect_eq!(&rt; pop(&mut taker), Some(1));
    expect_eq!(&rt; pop(&mut taker), None);
    expect_eq!(&rt; sender.look(), 1);
    expect!(&rt; !sender.is_full());
    compare(&mut sender, &mut taker);
    expect!(&rt; sender.push(back.parcel).is_ok());
    expect_eq!(&rt; pop(&mut taker), Some(2));
    drop(taker);
    drop(sender);
    drop(objects);
    Ok(())
}

//! A feed with both ends in one thread.
use super::fixtures::parcel;
use crate::promises::new_feed;
use ordup_feed::{Feed, TakeEnd};
use ordup_objects::Refusal;
use std::sync::Wait;
use std::test::Fail;
use test_fixtures::{expect, expect_eq, x_y_and_z};

/// Pops a parcel, if there is one, and answers its number.
fn pop(rt: &impl Wait, taker: &mut TakeEnd) -> Option<u64> {
    match taker.pop(rt) {
        Some(parcel) => Some(parcel.number),
        None => None,
    }
}

/// Makes feeds at the edges of their capacity.
// shows: Feed::new ends allowed refused
#[test]
fn a_feed_holds_1_to_1024_parcels(rt: HostRuntime) -> Result<(), Fail> {
    let alloc = rt.alloc();
    let objects = x_y_and_z(alloc)?;
    for (capacity, refusal) in [
        (0, Some(Refusal::OutOfRange)),
        (1, None),
        (1_024, None),
        (1_025, Some(Refusal::OutOfRange)),
    ] {
        expect_eq!(&rt; new_feed(alloc, &objects, capacity).err(), refusal);
    }
    // Dropped by a call, which is proved once for all tests: docs/DECISIONS.md, Tests.
    drop(objects);
    Ok(())
}

/// Pushes a second parcel into a feed with a capacity of one.
// shows: SendEnd::push pushed refused; TakeEnd::pop taken none; TakeEnd::tell told
// shows: SendEnd::look answer looked; what a feed finds
#[test]
fn a_full_feed_hands_the_parcel_back(rt: HostRuntime) -> Result<(), Fail> {
    let alloc = rt.alloc();
    let objects = x_y_and_z(alloc)?;
    let (mut sender, mut taker) = Feed::new(alloc, &objects, 1)?;
    let Ok(()) = sender.push(&rt, parcel(&rt, &objects, 1)) else {
        panic!(rt; "the feed does not take a parcel")
    };
    let Err(back) = sender.push(&rt, parcel(&rt, &objects, 2)) else {
        panic!(rt; "the feed takes a second parcel")
    };
    expect_eq!(&rt; back.refusal.number(), 15);
    expect_eq!(&rt; back.parcel.number, 2);
    expect_eq!(&rt; pop(&rt, &mut taker), Some(1));
    expect_eq!(&rt; pop(&rt, &mut taker), None);
    expect_eq!(&rt; sender.look(&rt), 0);
    taker.tell(&rt);
    expect_eq!(&rt; sender.look(&rt), 1);
    expect!(&rt; sender.push(&rt, back.parcel).is_ok());
    expect_eq!(&rt; pop(&rt, &mut taker), Some(2));
    drop(taker);
    drop(sender);
    drop(objects);
    Ok(())
}

/// Asks a feed with a capacity of one whether it is full.
// shows: SendEnd::is_full full same
#[test]
fn a_feed_with_a_parcel_in_its_only_slot_is_full(rt: HostRuntime) -> Result<(), Fail> {
    let alloc = rt.alloc();
    let objects = x_y_and_z(alloc)?;
    let (mut sender, mut taker) = Feed::new(alloc, &objects, 1)?;
    expect!(&rt; sender.push(&rt, parcel(&rt, &objects, 1)).is_ok());
    expect!(&rt; sender.is_full());
    expect_eq!(&rt; pop(&rt, &mut taker), Some(1));
    expect!(&rt; !sender.is_full());
    drop(taker);
    drop(sender);
    drop(objects);
    Ok(())
}

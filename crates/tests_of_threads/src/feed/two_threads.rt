//! A feed with its ends in two threads.
ghost use Rattle.std.specs.Prelude.{◌≡◌, ◌+◌, [], length};
ghost use Rattle.ordup_feed.specs.Parcels.{IsNext};

use super::fixtures::parcel;
use crate::expect::made;
use ordup_feed::{Feed, SendEnd, TakeEnd};
use ordup_objects::{ObjectTable, Refusal};
use ordup_primary::Parcel;
use std::alloc::Global;
use std::process::Abort;
use std::sync::Wait;
use std::sync::atomic::{AtomicU64, Ordering};
use std::test::Fail;
use std::thread;
use std::thread::Threads;
use test_fixtures::{expect, expect_eq, x_y_and_z};

/// How often each side tries before the test fails.
const TRIES: u64 = 10_000_000;

/// How many parcels go through a feed.
const PARCELS: u64 = 1_000;

/// Pushes a parcel as soon as the feed is not full.
fn push<R: Wait + Abort>(rt: &R, end: &mut SendEnd, mut parcel: Parcel)
    requires { IsNext end.old.start end.old.pushed parcel }
    ensures start { end.new.start ≡ end.old.start }
    ensures one { length end.new.pushed ≡ length end.old.pushed + 1 }
{
    for _ in 0..TRIES {
        match end.push(rt, parcel) {
            Ok(()) => return,
            Err(back) => {
                parcel = back.parcel;
                thread::yield_now();
            }
        }
    }
    panic!(rt; "the feed stays full")
}

/// Pops a parcel as soon as there is one, and answers its number.
fn pop<R: Wait + Abort>(rt: &R, end: &mut TakeEnd) -> u64 {
    for _ in 0..TRIES {
        if let Some(parcel) = end.pop(rt) {
            return parcel.number;
        }
        thread::yield_now();
    }
    panic!(rt; "the feed stays empty")
}

/// Pushes all parcels, and looks after each: no look finds more than the pops that the taker had begun.
fn send_all<R: Wait + Abort>(rt: &R, objects: &ObjectTable, mut end: SendEnd, begun: &AtomicU64)
    requires pushed { end.pushed ≡ [] }
    requires start { length end.start ≡ length objects.now }
{
    for i in 0..PARCELS {
        push(rt, &mut end, parcel(rt, objects, i + 1));
        let known = end.look(rt);
        expect!(rt; known <= begun.load(Ordering::SeqCst));
    }
    drop(end);
}

/// Pops all parcels, which come in order, and tells after each. Before it pops one it counts that it begins to.
fn take_all<R: Wait + Abort>(rt: &R, mut end: TakeEnd, begun: &AtomicU64) {
    for i in 0..PARCELS {
        begun.fetch_add(1, Ordering::SeqCst);
        expect_eq!(rt; pop(rt, &mut end), i + 1);
        end.tell(rt);
    }
    drop(end);
}

/// Sends all parcels through a feed of this capacity, from one thread to another.
fn send_through<R: Threads + Wait + Abort + Sync>(
    rt: &R,
    alloc: Global,
    capacity: u64,
) -> Result<(), Refusal> {
    let objects = made(rt, x_y_and_z(alloc));
    let (sender, taker) = Feed::new(alloc, &objects, capacity)?;
    let objects = &objects;
    let begun = AtomicU64::new(0);
    let begun = &begun;
    thread::join(
        rt,
        move ||
            requires { (sender.pushed ≡ []) × (length sender.start ≡ length objects.now) }
        { send_all(rt, objects, sender, begun) },
        move || take_all(rt, taker, begun),
    );
    Ok(())
}

/// Sends 1,000 parcels through a feed with a capacity of four.
// shows: TakeEnd::pop order; taken_is_a_prefix_of_pushed; known_is_at_most_told; what a feed finds
#[test]
fn a_thousand_parcels_come_in_order(rt: HostRuntime) -> Result<(), Fail> {
    send_through(&rt, rt.alloc(), 4)?;
    Ok(())
}

/// Sends 1,000 parcels through a feed with a capacity of one.
// shows: TakeEnd::pop order; taken_is_a_prefix_of_pushed; known_is_at_most_told; what a feed finds
#[test]
fn a_thousand_parcels_come_in_order_one_by_one(rt: HostRuntime) -> Result<(), Fail> {
    send_through(&rt, rt.alloc(), 1)?;
    Ok(())
}

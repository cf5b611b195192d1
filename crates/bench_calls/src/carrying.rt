//! Two threads with a feed between them.
ghost use Rattle.std.specs.Prelude.{◌≡◌, ◌≤◌, ◌+◌, [], length, OnOk};
ghost use Rattle.ordup_objects.specs.Sets.{AreKnown};
ghost use Rattle.ordup_objects.specs.Sizes.{most_updates};
ghost use Rattle.ordup_feed.specs.Parcels.{IsNext};
ghost use Rattle.bench_calls.specs.Following.{first_to_one as only_set};

use crate::parcels::{first_to_one, one_object, parcel};
use ordup_feed::{Feed, SendEnd, TakeEnd};
use ordup_objects::{MessageSet, Refusal};
use ordup_primary::Parcel;
use std::alloc::Global;
use std::sync::Wait;
use std::thread;
use std::thread::Threads;

/// How often a side tries before it gives up, since the other one has.
const TRIES: u64 = 10_000_000;

/// Sends this many parcels through a feed of this capacity, from one thread to another, and answers the number of the last one.
pub(crate) fn carry<R: Threads + Wait + Sync>(
    rt: &R,
    alloc: Global,
    capacity: u64,
    count: u64,
) -> Result<u64, Refusal>
    requires { count ≤ most_updates }
{
    let objects = one_object(alloc)?;
    let set = first_to_one(&objects)?;
    let (sender, taker) = Feed::new(alloc, &objects, capacity)?;
    let set = &set;
    let (sent, taken) = thread::join(
        rt,
        move ||
            requires { (count ≤ most_updates) × (sender.pushed ≡ []) × (set.now ≡ only_set) × AreKnown (length sender.start) set.now }
        { send_all(rt, alloc, set, sender, count) },
        move || take_all(rt, taker, count),
    );
    sent?;
    taken
}

/// Pushes this many parcels of this set, and looks after each. It answers how many of them it knows to be taken.
fn send_all<R: Wait>(
    rt: &R,
    alloc: Global,
    set: &MessageSet,
    mut end: SendEnd,
    count: u64,
) -> Result<u64, Refusal>
    requires few { count ≤ most_updates }
    requires pushed { end.pushed ≡ [] }
    requires set { set.now ≡ only_set }
    requires known { AreKnown (length end.start) set.now }
{
    let mut known = 0;
    for i in 0..count {
        let parcel = parcel(alloc, set, i + 1)?;
        push(rt, &mut end, parcel)?;
        known = end.look(rt);
    }
    Ok(known)
}

/// Pushes a parcel as soon as the feed is not full.
fn push<R: Wait>(rt: &R, end: &mut SendEnd, mut parcel: Parcel) -> Result<(), Refusal>
    requires { IsNext end.old.start end.old.pushed parcel }
    ensures start { end.new.start ≡ end.old.start }
    ensures one { OnOk result (length end.new.pushed ≡ length end.old.pushed + 1) }
{
    for _ in 0..TRIES {
        match end.push(rt, parcel) {
            Ok(()) => return Ok(()),
            Err(back) => {
                parcel = back.parcel;
                thread::yield_now();
            }
        }
    }
    Err(Refusal::FeedFull)
}

/// Takes this many parcels, and tells after each. It answers the number of the last one.
fn take_all<R: Wait>(rt: &R, mut end: TakeEnd, count: u64) -> Result<u64, Refusal> {
    let mut last = 0;
    for _ in 0..count {
        last = pop(rt, &mut end)?;
        end.tell(rt);
    }
    Ok(last)
}

/// Pops a parcel as soon as there is one, and answers its number.
fn pop<R: Wait>(rt: &R, end: &mut TakeEnd) -> Result<u64, Refusal> {
    for _ in 0..TRIES {
        if let Some(parcel) = end.pop(rt) {
            return Ok(parcel.number);
        }
        thread::yield_now();
    }
    Err(Refusal::NothingToApply)
}

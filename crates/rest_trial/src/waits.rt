//! What a caller waits for. Each wait ends by itself after some ten seconds, and counts as late then: a thread that should have woken
//! sleeps on.
use crate::delays::{delay, long_delay};
use crate::setups::{free, x};
use crate::tally::Tally;
use ordup_cluster::{Cluster, Session};
use ordup_objects::{Change, MessageSet, ObjectTable, Op, Refusal};
use std::sync::Wait;
use std::thread;
use std::time::{Clock, Duration};

/// How many turns a proposal has, and how many pauses a read: each takes a millisecond where no site tells anything.
const PAUSES: u64 = 10_000;

/// How often a caller looks that makes no turn.
const LOOKS: u64 = 100_000;

/// For how many microseconds it sleeps between two looks.
const NAP: u64 = 100;

/// After how many updates a caller leaves one to the keeper.
const LEFT: u64 = 256;

/// Where a caller is delayed. The places of the gate's delays are less.
const BETWEEN: u64 = 32;

/// Proposes this many updates, and waits after each until the site that no update waits for has it. It ends with the first wait that
/// is late.
pub(crate) fn propose_all<R: Wait + Clock>(rt: &R, cluster: &Cluster, count: u64) -> Tally {
    let mut session = Session::new();
    for number in 0..count {
        let late = if number % LEFT == LEFT - 1 {
            leave_one(rt, cluster)
        } else {
            propose_one(rt, cluster, &mut session, number)
        };
        if late > 0 {
            return Tally { late };
        }
        long_delay(rt, number, BETWEEN);
    }
    Tally { late: 0 }
}

/// Proposes an update, and reads it at the last site.
pub(crate) fn propose_one<R: Wait + Clock>(
    rt: &R,
    cluster: &Cluster,
    session: &mut Session,
    number: u64,
) -> u64 {
    let Ok(set) = add_one(cluster.objects()) else {
        return 1;
    };
    if cluster.propose(rt, session, set, PAUSES).is_err() {
        return 1;
    }
    delay(number, BETWEEN + 1);
    match cluster.read_when_level(rt, session, free(), x(), PAUSES) {
        Ok(_) => 0,
        Err(_) => 1,
    }
}

/// Proposes an update by one turn, which does not acknowledge it, and makes no other: the keeper acknowledges it.
fn leave_one<R: Wait + Clock>(rt: &R, cluster: &Cluster) -> u64 {
    let Ok(set) = add_one(cluster.objects()) else {
        return 1;
    };
    match cluster.propose(rt, &mut Session::new(), set, 1) {
        Err(Refusal::NotYet { number }) => look_for(rt, cluster, number),
        _ => 1,
    }
}

/// Looks whether an update is acknowledged, and makes no turn.
fn look_for<R: Wait + Clock>(rt: &R, cluster: &Cluster, number: u64) -> u64 {
    for _ in 0..LOOKS {
        if acked(rt, cluster) >= number {
            return 0;
        }
        thread::sleep(rt, Duration::from_micros(NAP));
    }
    1
}

/// How many updates are acknowledged, as a query says that begins.
fn acked<R: Wait>(rt: &R, cluster: &Cluster) -> u64 {
    match cluster.begin(rt, free(), 0) {
        Ok(query) => query.end().place,
        Err(_) => 0,
    }
}

/// The set that adds 1 to x.
fn add_one(objects: &ObjectTable) -> Result<MessageSet, Refusal> {
    let change = Change {
        object: x(),
        op: Op::Add(1),
    };
    MessageSet::single(objects, change)
}

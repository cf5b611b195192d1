//! Proposals and settlements that have one turn, while the site that they wait for applies.
//!
//! An update that waits for the site a is sent to it by the turn that decides it, so only a later turn acknowledges it. A call that
//! has one turn is refused then, whatever the site does meanwhile. One that made a turn more would succeed where the site is quick.
ghost use Rattle.std.specs.Prelude.{◌≤◌};

use crate::expect::made;
use crate::fixtures::{apply_at, closed, opened, x_and_y};
use ordup_cluster::{Cluster, Session};
use ordup_limits::Scope;
use ordup_objects::{ObjectTable, Refusal};
use std::alloc::Global;
use std::process::Abort;
use std::sync::Wait;
use std::test::Fail;
use std::thread;
use test_cluster_fixtures::{Held, HoldingGate, Parts, TRIES, TURNS, do_two};
use test_fixtures::{Site, a, adding, expect, expect_eq, set_of, x};

/// How many updates are proposed while the site is held, and how many after that.
const UPDATES: u64 = 1_500;

/// The site a, which may not lag, and 15 sites more. Nothing applies at these: they make each turn longer, between what it sends
/// to a and its end.
const SITES: [Site; 16] = [
    ("a", 1, Some((Scope::All, 0))),
    ("b", 4, None),
    ("c", 4, None),
    ("d", 4, None),
    ("e", 4, None),
    ("f", 4, None),
    ("g", 4, None),
    ("h", 4, None),
    ("i", 4, None),
    ("j", 4, None),
    ("k", 4, None),
    ("l", 4, None),
    ("m", 4, None),
    ("n", 4, None),
    ("o", 4, None),
    ("p", 4, None),
];

/// Proposes the update with this number by one turn, after which it waits.
fn propose<R: Wait + Abort>(
    rt: &R,
    alloc: Global,
    objects: &ObjectTable,
    cluster: &Cluster,
    number: u64,
) {
    let set = made(rt, set_of(alloc, objects, &[adding(x(), 1)]));
    let answer = cluster.propose(rt, &mut Session::new(), set, 1);
    expect_eq!(rt; answer, Err(Refusal::NotYet { number }));
}

/// Waits for an update by this count of turns, and sees this answer.
fn expect_settled<R: Wait + Abort>(
    rt: &R,
    cluster: &Cluster,
    number: u64,
    turns: u64,
    answer: Result<(), Refusal>,
)
    requires { 1 ≤ turns }
{
    expect_eq!(rt; cluster.settle(rt, &mut Session::new(), number, turns), answer);
}

/// Reads at a until it has applied this count of updates.
fn wait_for_a<R: Wait + Abort>(rt: &R, cluster: &Cluster, applied: u64) {
    for _ in 0..TRIES {
        let Ok(seen) = cluster.read(rt, &mut Session::new(), a(), x()) else {
            panic!(rt; "a read is refused")
        };
        if seen.applied == applied {
            return;
        }
        thread::yield_now();
    }
    panic!(rt; "the site a does not get on")
}

/// Proposes updates while a is held. The first is sent to it, and the others wait behind that.
fn propose_all<R: Wait + Abort>(rt: &R, alloc: Global, objects: &ObjectTable, cluster: &Cluster) {
    for i in 0..UPDATES {
        propose(rt, alloc, objects, cluster, i + 1);
    }
}

/// Waits for each of them but the first by one turn, which acknowledges the update before and sends this one.
fn settle_all<R: Wait + Abort>(rt: &R, cluster: &Cluster) {
    for number in 1..UPDATES {
        wait_for_a(rt, cluster, number);
        let waits = Err(Refusal::NotYet { number: number + 1 });
        expect_settled(rt, cluster, number + 1, 1, waits);
    }
    expect_settled(rt, cluster, UPDATES, TURNS, Ok(()));
}

/// Proposes updates, and waits for each before the next one.
fn propose_each<R: Wait + Abort>(rt: &R, alloc: Global, objects: &ObjectTable, cluster: &Cluster) {
    for i in UPDATES..2 * UPDATES {
        propose(rt, alloc, objects, cluster, i + 1);
        expect_settled(rt, cluster, i + 1, TURNS, Ok(()));
    }
}

/// All calls, and then the end of the applier.
fn call<R: Wait + Abort>(
    rt: &R,
    alloc: Global,
    objects: &ObjectTable,
    cluster: &Cluster,
    gate: &HoldingGate,
) {
    propose_all(rt, alloc, objects, cluster);
    gate.open();
    settle_all(rt, cluster);
    propose_each(rt, alloc, objects, cluster);
    cluster.stop();
}

/// What the threads share.
#[derive(Clone, Copy)]
struct All<'a> {
    alloc: Global,
    objects: &'a ObjectTable,
    cluster: &'a Cluster,
    gate: &'a HoldingGate,
}

/// The applier of a and the caller.
impl<R: Wait + Abort> Parts<R> for All<'_> {
    fn part(&self, rt: &R, number: u8) {
        if number == 0 {
            apply_at(rt, self.cluster, 0, self.gate);
        } else {
            call(rt, self.alloc, self.objects, self.cluster, self.gate);
        }
    }
}

/// The site a has applied all updates, each in a round of its own.
fn close(rt: &impl Abort, cluster: Cluster) {
    let closed = closed(rt, cluster);
    let primary = closed.primary();
    primary.keeps();
    expect!(rt; primary.setup().sites() > 0);
    expect_eq!(rt; primary.rounds(a()).len(), 3_000);
    expect_eq!(rt; closed.site(a()).applied(), 3_000);
    closed.discard();
}

/// Calls with one turn while the site applies.
// shows: turns
#[test]
fn a_call_with_one_turn_makes_no_turn_more(rt: HostRuntime) -> Result<(), Fail> {
    let gate = HoldingGate::new(Held::BeforeApply, TRIES);
    let cluster = opened(rt.alloc(), &SITES)?;
    let objects = x_and_y(&rt, rt.alloc());
    let all = All {
        alloc: rt.alloc(),
        objects: &objects,
        cluster: &cluster,
        gate: &gate,
    };
    do_two(&rt, &all, 0);
    drop(objects);
    expect!(&rt; !gate.gave_up());
    close(&rt, cluster);
    Ok(())
}

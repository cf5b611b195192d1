//! A site that its gate holds up, while another site gets on.
use crate::expect::made;
use crate::fixtures::{apply_at, closed, opened, propose, x_and_y};
use ordup_cluster::{Cluster, OpenGate, SeenValue, Session};
use ordup_objects::{ObjectTable, Refusal};
use std::alloc::Global;
use std::process::Abort;
use std::sync::Wait;
use std::test::Fail;
use std::thread;
use std::thread::Threads;
use std::time::Clock;
use test_cluster_fixtures::{Held, HoldingGate, Parts, TRIES, do_four, do_two, is_raised_within};
use test_fixtures::{Site, a, adding, b, expect, expect_eq, set_of, x};

/// Two sites without limits.
const SITES: [Site; 2] = [("a", 4, None), ("b", 4, None)];

/// Reads x at b until it has the update.
fn wait_for_b<R: Wait + Abort>(rt: &R, cluster: &Cluster, session: &mut Session) {
    for _ in 0..TRIES {
        match cluster.read(rt, session, b(), x()) {
            Ok(seen) => {
                expect_eq!(rt; seen, SeenValue { value: 3, applied: 1, });
                return;
            }
            Err(refusal) => expect_eq!(rt; refusal, Refusal::Behind { applied: 0 }),
        }
        thread::yield_now();
    }
    panic!(rt; "the site b does not get on")
}

/// Proposes the one update, which adds 3 to x.
fn propose_add_3<R: Wait + Abort>(
    rt: &R,
    alloc: Global,
    objects: &ObjectTable,
    cluster: &Cluster,
    session: &mut Session,
) {
    let set = made(rt, set_of(alloc, objects, &[adding(x(), 3)]));
    expect_eq!(rt; propose(rt, cluster, session, set), 1);
}

/// Proposes an update, sees that b gets it while a is held up, and then opens the gate.
fn call<R: Wait + Abort>(
    rt: &R,
    alloc: Global,
    objects: &ObjectTable,
    cluster: &Cluster,
    gate: &HoldingGate,
) {
    let mut session = Session::new();
    expect!(rt; is_raised_within(gate.holding(), TRIES));
    propose_add_3(rt, alloc, objects, cluster, &mut session);
    if gate.by() == Held::BeforeApply {
        let at_a = cluster.read(rt, &mut session, a(), x());
        expect_eq!(rt; at_a, Err(Refusal::Behind { applied: 0 }));
    }
    wait_for_b(rt, cluster, &mut session);
    // A query at a is begun without the lock of a.
    let Ok(query) = cluster.begin(rt, a(), 0) else {
        panic!(rt; "the query is refused")
    };
    drop(query);
    gate.open();
    cluster.stop();
}

/// What the threads share.
#[derive(Clone, Copy)]
struct All<'a> {
    alloc: Global,
    objects: &'a ObjectTable,
    cluster: &'a Cluster,
    gate: &'a HoldingGate,
}

/// The two appliers and the caller.
impl<R: Wait + Clock + Abort> Parts<R> for All<'_> {
    fn part(&self, rt: &R, number: u8) {
        match number {
            0 => {
                apply_at(rt, self.cluster, 0, self.gate);
            }
            1 => {
                apply_at(rt, self.cluster, 1, &OpenGate);
            }
            2 => call(rt, self.alloc, self.objects, self.cluster, self.gate),
            _ => {}
        }
    }
}

/// The two appliers and the caller, each in a thread of its own.
fn run<R: Threads + Wait + Clock + Abort + Sync>(
    rt: &R,
    alloc: Global,
    cluster: &Cluster,
    gate: &HoldingGate,
) {
    let objects = x_and_y(rt, alloc);
    let all = All {
        alloc,
        objects: &objects,
        cluster,
        gate,
    };
    do_four(rt, &all, 0);
    // Dropped by a call, which is proved once for all tests: docs/DECISIONS.md, Tests.
    drop(objects);
}

/// Proposes the update, which is sent to both sites, and stops the cluster.
fn propose_and_stop<R: Wait + Abort>(rt: &R, alloc: Global, cluster: &Cluster) {
    let objects = x_and_y(rt, alloc);
    propose_add_3(rt, alloc, &objects, cluster, &mut Session::new());
    cluster.stop();
    drop(objects);
}

/// Reads x at a while a is held under its lock, and then lets the update pass. The read ends once the update is applied.
fn read_at_a<R: Wait + Abort>(rt: &R, cluster: &Cluster, gate: &HoldingGate) {
    expect!(rt; is_raised_within(gate.holding(), TRIES));
    let at_a = cluster.read(rt, &mut Session::new(), a(), x());
    gate.open();
    let applied = SeenValue {
        value: 3,
        applied: 1,
    };
    expect_eq!(rt; at_a, Ok(applied));
}

/// The applier of a, and a reader there.
#[derive(Clone, Copy)]
struct Reading<'a> {
    cluster: &'a Cluster,
    gate: &'a HoldingGate,
}

impl<R: Wait + Clock + Abort> Parts<R> for Reading<'_> {
    fn part(&self, rt: &R, number: u8) {
        if number == 0 {
            apply_at(rt, self.cluster, 0, self.gate);
        } else {
            read_at_a(rt, self.cluster, self.gate);
        }
    }
}

/// The applier of a and the reader, each in a thread of its own. Then b applies the update too.
fn apply_and_read<R: Threads + Wait + Clock + Abort + Sync>(
    rt: &R,
    cluster: &Cluster,
    gate: &HoldingGate,
) {
    do_two(rt, &Reading { cluster, gate }, 0);
    expect_eq!(rt; apply_at(rt, cluster, 1, &OpenGate), 1);
}

/// Both sites agree with the log, and have applied its one update.
fn close(rt: &impl Abort, cluster: Cluster) {
    let closed = closed(rt, cluster);
    let primary = closed.primary();
    primary.keeps();
    expect_eq!(rt; primary.log().len(), 1);
    expect!(rt; primary.setup().sites() == 2);
    expect_eq!(rt; closed.site(a()).applied(), 1);
    expect_eq!(rt; closed.site(b()).applied(), 1);
    closed.discard();
}

/// Holds a site before its lock, while another one applies.
// shows: held sites
#[test]
fn a_site_that_is_held_before_it_applies_holds_up_nobody(rt: HostRuntime) -> Result<(), Fail> {
    let gate = HoldingGate::new(Held::BeforeApply, TRIES);
    let cluster = opened(rt.alloc(), &SITES)?;
    run(&rt, rt.alloc(), &cluster, &gate);
    expect!(&rt; !gate.gave_up());
    close(&rt, cluster);
    Ok(())
}

/// Holds a site under its lock, while another one applies.
// shows: held sites
#[test]
fn a_site_that_is_held_under_its_lock_holds_up_nobody(rt: HostRuntime) -> Result<(), Fail> {
    let gate = HoldingGate::new(Held::AtApply, TRIES);
    let cluster = opened(rt.alloc(), &SITES)?;
    run(&rt, rt.alloc(), &cluster, &gate);
    expect!(&rt; !gate.gave_up());
    close(&rt, cluster);
    Ok(())
}

/// Reads at a site that is held under its lock.
// shows: gates
#[test]
fn a_read_waits_for_a_site_that_is_held_under_its_lock(rt: HostRuntime) -> Result<(), Fail> {
    let gate = HoldingGate::new(Held::AtApply, 100_000);
    let cluster = opened(rt.alloc(), &SITES)?;
    propose_and_stop(&rt, rt.alloc(), &cluster);
    apply_and_read(&rt, &cluster, &gate);
    // The read did not end while the gate held the site.
    expect!(&rt; gate.gave_up());
    close(&rt, cluster);
    Ok(())
}

//! Four callers, four sites and two readers. Each update adds 1 to x and takes 2 from y, so after k updates x is k and y is 10 -
//! 2k.
use crate::expect::made;
use crate::fixtures::{apply_at, closed, opened, propose, x_and_y};
use ordup_cluster::{Cluster, OpenGate, SeenValue, Session};
use ordup_limits::Scope;
use ordup_log::Log;
use ordup_objects::{ObjectId, ObjectTable, Refusal, SiteId};
use std::alloc::Global;
use std::process::Abort;
use std::sync::Wait;
use std::sync::atomic::{AtomicU64, Ordering};
use std::test::Fail;
use std::thread;
use test_cluster_fixtures::{Parts, TRIES, do_ten};
use test_fixtures::{Site, a, adding, b, expect, expect_eq, set_of, x, y};

/// How many sets each of the four callers proposes.
const SETS: u64 = 5_000;

/// Four sites: a may lag by 64 updates, b by a way of 50 on x, the others have no limit.
fn sites() -> [Site; 4] {
    [
        ("a", 64, Some((Scope::Count, 64))),
        ("b", 8, Some((Scope::Object(x()), 50))),
        ("c", 1, None),
        ("d", 1_024, None),
    ]
}

/// The value of an object after this count of updates.
fn value_after(object: ObjectId, updates: u64) -> i64 {
    let updates = updates.min(1_000_000) as i64;
    if object == x() {
        updates
    } else {
        10 - 2 * updates
    }
}

/// Reads an object at a site. The value is that after the updates that the site applied, which are no fewer than the session has
/// seen.
fn read<R: Wait + Abort>(
    rt: &R,
    cluster: &Cluster,
    session: &mut Session,
    site: u8,
    object: ObjectId,
) -> bool {
    let seen = session.seen();
    match cluster.read(rt, session, SiteId::new(site), object) {
        Ok(SeenValue { value, applied }) => {
            expect_eq!(rt; value, value_after(object, applied));
            expect!(rt; seen <= applied);
            expect_eq!(rt; session.seen(), applied);
            true
        }
        Err(refusal) => {
            let Refusal::Behind { applied } = refusal else {
                panic!(rt; "a read is refused: {refusal}")
            };
            expect!(rt; applied < seen);
            expect_eq!(rt; session.seen(), seen);
            false
        }
    }
}

/// Proposes its sets, and reads after each. The caller that ends last stops the cluster.
fn call<R: Wait + Abort>(
    rt: &R,
    alloc: Global,
    objects: &ObjectTable,
    cluster: &Cluster,
    ended: &AtomicU64,
) {
    let mut session = Session::new();
    let mut last = 0;
    for _ in 0..SETS {
        let set = made(
            rt,
            set_of(alloc, objects, &[adding(x(), 1), adding(y(), -2)]),
        );
        let number = propose(rt, cluster, &mut session, set);
        expect!(rt; last < number);
        last = number;
        read(rt, cluster, &mut session, (number % 4) as u8, x());
    }
    if ended.fetch_add(1, Ordering::SeqCst) == 3 {
        cluster.stop();
    }
}

/// Reads at all sites in turn until all callers have ended. Some of the reads are answered.
fn watch<R: Wait + Abort>(rt: &R, cluster: &Cluster, object: ObjectId, ended: &AtomicU64) {
    let mut session = Session::new();
    let mut answered = false;
    for i in 0..TRIES {
        if read(rt, cluster, &mut session, (i % 4) as u8, object) {
            answered = true;
        }
        if ended.load(Ordering::SeqCst) == 4 {
            expect!(rt; answered);
            return;
        }
        thread::yield_now();
    }
    panic!(rt; "the callers do not end")
}

/// What the threads share.
#[derive(Clone, Copy)]
struct All<'a> {
    alloc: Global,
    objects: &'a ObjectTable,
    cluster: &'a Cluster,
    /// How many callers have ended.
    ended: &'a AtomicU64,
}

/// The four appliers, the two readers and the four callers.
impl<R: Wait + Abort> Parts<R> for All<'_> {
    fn part(&self, rt: &R, number: u8) {
        match number {
            0..=3 => {
                apply_at(rt, self.cluster, number, &OpenGate);
            }
            4 => watch(rt, self.cluster, x(), self.ended),
            5 => watch(rt, self.cluster, y(), self.ended),
            _ => call(rt, self.alloc, self.objects, self.cluster, self.ended),
        }
    }
}

/// The log has all sets, in whatever order.
fn expect_all(rt: &impl Abort, log: &Log) {
    expect_eq!(rt; log.len(), 4 * SETS);
    expect!(rt; log.objects() == 2);
    expect_eq!(rt; log.end_value(x()), 20_000);
    expect_eq!(rt; log.end_value(y()), -39_990);
}

/// The sites with limits have applied all updates but those by which they may lag.
fn close(rt: &impl Abort, cluster: Cluster) {
    let closed = closed(rt, cluster);
    let primary = closed.primary();
    // For the proof: there are as many sites as were declared.
    let acked = primary.acked();
    expect_eq!(rt; acked, 4 * SETS);
    expect_all(rt, primary.log());
    expect!(rt; primary.setup().sites() == 4);
    expect!(rt; closed.site(a()).applied() >= 4 * SETS - 64);
    expect!(rt; closed.site(b()).applied() >= 4 * SETS - 50);
    closed.discard();
}

/// Reads beside four callers and four sites.
// shows: Cluster::read applied seen; the calls of a cluster; threads
#[test]
fn each_read_is_the_value_of_a_prefix(rt: HostRuntime) -> Result<(), Fail> {
    let cluster = opened(rt.alloc(), &sites())?;
    let objects = x_and_y(&rt, rt.alloc());
    let all = All {
        alloc: rt.alloc(),
        objects: &objects,
        cluster: &cluster,
        ended: &AtomicU64::new(0),
    };
    do_ten(&rt, &all);
    drop(objects);
    close(&rt, cluster);
    Ok(())
}

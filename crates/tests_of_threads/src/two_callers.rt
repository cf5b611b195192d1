//! Two callers and a site that they wait for, with a capacity of one update, which may lag by three.
use crate::expect::made;
use crate::fixtures::{apply_at, closed, expect_fewest, opened, propose, x_and_y};
use ordup_cluster::{Cluster, OpenGate, Session};
use ordup_limits::Scope;
use ordup_log::Log;
use ordup_objects::{ObjectId, ObjectTable};
use std::alloc::Global;
use std::process::Abort;
use std::sync::Wait;
use std::sync::atomic::{AtomicU64, Ordering};
use std::test::Fail;
use test_cluster_fixtures::{Parts, do_four};
use test_fixtures::{a, adding, expect, expect_eq, set_of, x, y};

/// Adds 1 to an object twenty times. The caller that ends last stops the cluster.
fn call<R: Wait + Abort>(
    rt: &R,
    alloc: Global,
    objects: &ObjectTable,
    cluster: &Cluster,
    object: ObjectId,
    ended: &AtomicU64,
) {
    let mut session = Session::new();
    let mut last = 0;
    for _ in 0..20 {
        let set = made(rt, set_of(alloc, objects, &[adding(object, 1)]));
        let number = propose(rt, cluster, &mut session, set);
        expect!(rt; last < number);
        last = number;
    }
    if ended.fetch_add(1, Ordering::SeqCst) == 1 {
        cluster.stop();
    }
}

/// What the threads share.
#[derive(Clone, Copy)]
struct All<'a> {
    alloc: Global,
    objects: &'a ObjectTable,
    cluster: &'a Cluster,
    /// How many callers have ended.
    ended: &'a AtomicU64,
}

/// The applier and the two callers.
impl<R: Wait + Abort> Parts<R> for All<'_> {
    fn part(&self, rt: &R, number: u8) {
        match number {
            0 => {
                apply_at(rt, self.cluster, 0, &OpenGate);
            }
            1 => call(rt, self.alloc, self.objects, self.cluster, x(), self.ended),
            2 => call(rt, self.alloc, self.objects, self.cluster, y(), self.ended),
            _ => {}
        }
    }
}

/// How many sets of the log change this object first.
fn sets_on(log: &Log, object: ObjectId) -> u64 {
    let mut count = 0u64;
    for number in 1..=log.len() {
        if let Some(change) = log.set(number).changes().first() {
            if change.object == object {
                count = count.saturating_add(1);
            }
        }
    }
    count
}

/// The log has twenty sets of each caller.
fn expect_both(rt: &impl Abort, log: &Log) {
    expect_eq!(rt; log.len(), 40);
    expect_eq!(rt; sets_on(log, x()), 20);
    expect_eq!(rt; sets_on(log, y()), 20);
    expect!(rt; log.objects() == 2);
    expect_eq!(rt; log.end_value(x()), 20);
    expect_eq!(rt; log.end_value(y()), 30);
}

/// The log has all sets, and the site at most three fewer.
fn close(rt: &impl Abort, alloc: Global, cluster: Cluster) {
    let closed = closed(rt, cluster);
    let primary = closed.primary();
    primary.keeps();
    expect_both(rt, primary.log());
    expect!(rt; primary.setup().sites() == 1);
    let applied = closed.site(a()).applied();
    expect!(rt; 37 <= applied);
    expect!(rt; applied <= 40);
    expect_fewest(rt, alloc, primary);
    closed.discard();
}

/// Proposes from two threads, with one site.
// shows: the calls of a cluster
#[test]
fn two_callers_wait_for_one_site(rt: HostRuntime) -> Result<(), Fail> {
    let sites = [("a", 1, Some((Scope::Count, 3)))];
    let cluster = opened(rt.alloc(), &sites)?;
    let objects = x_and_y(&rt, rt.alloc());
    let all = All {
        alloc: rt.alloc(),
        objects: &objects,
        cluster: &cluster,
        ended: &AtomicU64::new(0),
    };
    do_four(&rt, &all, 0);
    drop(objects);
    close(&rt, rt.alloc(), cluster);
    Ok(())
}

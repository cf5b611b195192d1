//! A site with a capacity of one update that is held before its first update and may lag by three: the fourth proposal waits for
//! it.
use crate::expect::made;
use crate::fixtures::{apply_at, closed, opened, x_and_y};
use ordup_cluster::{Cluster, SeenValue, Session};
use ordup_limits::Scope;
use ordup_objects::{ObjectTable, Refusal};
use ordup_primary::Window;
use std::alloc::Global;
use std::process::Abort;
use std::sync::Wait;
use std::test::Fail;
use test_cluster_fixtures::{Held, HoldingGate, Parts, TRIES, do_two};
use test_fixtures::{a, adding, expect, expect_eq, set_of, x};

/// Adds 1 to x four times, with 100 turns each. The fourth update waits for a.
fn propose_four<R: Wait + Abort>(
    rt: &R,
    alloc: Global,
    objects: &ObjectTable,
    cluster: &Cluster,
    session: &mut Session,
) {
    for number in 1..=4 {
        let set = made(rt, set_of(alloc, objects, &[adding(x(), 1)]));
        let answer = if number < 4 {
            Ok(number)
        } else {
            Err(Refusal::NotYet { number })
        };
        expect_eq!(rt; cluster.propose(rt, session, set, 100), answer);
    }
}

/// Reads x at a, which has applied nothing: it is behind this session, and not behind one that has seen nothing.
fn read_at_a<R: Wait + Abort>(rt: &R, cluster: &Cluster, session: &mut Session) {
    let behind = Err(Refusal::Behind { applied: 0 });
    expect_eq!(rt; cluster.read(rt, session, a(), x()), behind);
    let first = SeenValue {
        value: 0,
        applied: 0,
    };
    expect_eq!(rt; cluster.read(rt, &mut Session::new(), a(), x()), Ok(first));
}

/// Proposes while the gate holds a, opens the gate, and waits for the fourth update.
fn call<R: Wait + Abort>(
    rt: &R,
    alloc: Global,
    objects: &ObjectTable,
    cluster: &Cluster,
    gate: &HoldingGate,
) {
    let mut session = Session::new();
    propose_four(rt, alloc, objects, cluster, &mut session);
    read_at_a(rt, cluster, &mut session);
    gate.open();
    expect_eq!(rt; cluster.settle(rt, &mut session, 4, TRIES), Ok(()));
    cluster.stop();
}

/// What the threads share.
#[derive(Clone, Copy)]
struct All<'a> {
    alloc: Global,
    objects: &'a ObjectTable,
    cluster: &'a Cluster,
    gate: &'a HoldingGate,
}

/// The applier and the caller.
impl<R: Wait + Abort> Parts<R> for All<'_> {
    fn part(&self, rt: &R, number: u8) {
        if number == 0 {
            apply_at(rt, self.cluster, 0, self.gate);
        } else {
            call(rt, self.alloc, self.objects, self.cluster, self.gate);
        }
    }
}

/// The site has applied all four updates, in one round.
fn close(rt: &impl Abort, cluster: Cluster) {
    let closed = closed(rt, cluster);
    let primary = closed.primary();
    primary.keeps();
    expect!(rt; primary.setup().sites() > 0);
    expect_eq!(rt; primary.windows(a()), [Window { from: 0, to: 4 }].as_slice());
    let site = closed.site(a());
    expect!(rt; site.len() > 0);
    expect_eq!(rt; site.value(x()), 4);
    expect_eq!(rt; site.applied(), 4);
    closed.discard();
}

/// Proposes four updates to a site that is held.
// shows: looks
#[test]
fn the_fourth_proposal_waits_for_a_site_that_may_lag_by_three(rt: HostRuntime) -> Result<(), Fail> {
    let gate = HoldingGate::new(Held::BeforeApply, TRIES);
    let sites = [("a", 1, Some((Scope::Count, 3)))];
    let cluster = opened(rt.alloc(), &sites)?;
    let objects = x_and_y(&rt, rt.alloc());
    let all = All {
        alloc: rt.alloc(),
        objects: &objects,
        cluster: &cluster,
        gate: &gate,
    };
    do_two(&rt, &all, 0);
    drop(objects);
    expect!(&rt; !gate.gave_up());
    close(&rt, cluster);
    Ok(())
}

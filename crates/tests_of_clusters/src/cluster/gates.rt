//! What an applier tells its gate, and when it ends.
use super::fixtures::{add, expect_proposed, expect_settled, opened, opened_pair};
use ordup_cluster::{Cluster, Gate, OpenGate, Session};
use ordup_limits::Scope;
use ordup_objects::{MessageSet, Refusal, SiteId};
use std::process::Abort;
use std::sync::Wait;
use std::sync::atomic::{AtomicBool, AtomicU64, Ordering};
use std::test::Fail;
use test_cluster_fixtures::promises::settle;
use test_fixtures::{a, b, expect, expect_eq, x};

/// A gate that notes each call by three digits: 1 for `before_apply` and 2 for `at_apply`, the index of the site, and the number.
///
/// It stops the cluster in each `at_apply`. Where it overtakes, all that was sent to the site is applied in each `before_apply`.
#[derive(Drop)]
struct NotingGate<'a> {
    cluster: &'a Cluster,
    overtakes: bool,
    calls: AtomicU64,
}

impl NotingGate<'_> {
    fn note(&self, call: u64, site: SiteId, number: u64) {
        let mut calls = self.calls.load(Ordering::SeqCst);
        for digit in [call, site.index() as u64, number] {
            calls = calls.wrapping_mul(10).wrapping_add(digit);
        }
        self.calls.store(calls, Ordering::SeqCst);
    }
}

impl Gate for NotingGate<'_> {
    fn before_apply<R: Wait>(&self, rt: &R, site: SiteId, number: u64) {
        self.note(1, site, number);
        if self.overtakes && site.index() < self.cluster.sites() {
            self.cluster.applier(rt, site, &OpenGate);
        }
    }

    fn at_apply<R: Wait>(&self, _rt: &R, site: SiteId, number: u64) {
        self.note(2, site, number);
        self.cluster.stop();
    }
}

/// Applies at a site through a noting gate, and sees how many updates were applied and which calls the gate had.
fn expect_calls<R: Wait + Abort>(
    rt: &R,
    cluster: &Cluster,
    site: SiteId,
    overtakes: bool,
    updates: u64,
    calls: u64,
) {
    let gate = NotingGate {
        cluster,
        overtakes,
        calls: AtomicU64::new(0),
    };
    expect!(rt; site.index() < cluster.sites());
    expect_eq!(rt; cluster.applier(rt, site, &gate), updates);
    expect_eq!(rt; gate.calls.load(Ordering::SeqCst), calls);
}

/// Proposes two sets, each of which is acknowledged in its first turn.
fn propose_both<R: Wait + Abort>(rt: &R, cluster: &Cluster, set: MessageSet, other: MessageSet) {
    let mut session = Session::new();
    expect_proposed(rt, cluster, &mut session, set, 1, Ok(1));
    expect_proposed(rt, cluster, &mut session, other, 1, Ok(2));
}

/// Notes the calls of a gate at two sites.
// shows: gates
#[test]
fn a_gate_gets_the_site_and_what_it_applies_next(rt: HostRuntime) -> Result<(), Fail> {
    let alloc = rt.alloc();
    let cluster = opened_pair(alloc)?;
    let set = add(&rt, alloc, x(), 1);
    let other = add(&rt, alloc, x(), 1);
    propose_both(&rt, &cluster, set, other);
    // The last turn finds nothing, and was begun after the cluster was stopped.
    expect_calls(&rt, &cluster, b(), false, 2, 111_211_112_212_113_213);
    // Both updates are applied between the two calls of a turn, which finds nothing then.
    expect_calls(&rt, &cluster, a(), true, 0, 101_203);
    cluster.discard();
    Ok(())
}

/// Stops a cluster in the first turn of an applier.
// shows: stops
#[test]
fn an_applier_ends_in_a_turn_that_began_after_the_stop(rt: HostRuntime) -> Result<(), Fail> {
    let cluster = opened(rt.alloc(), Scope::All, 0)?;
    // The first turn finds nothing, but began before the cluster was stopped.
    expect_calls(&rt, &cluster, a(), false, 0, 101_201_101_201);
    cluster.discard();
    Ok(())
}

/// A gate that settles the first update, with one turn, as the site is about to apply it, and then stops the cluster.
#[derive(Drop)]
struct SettlingGate<'a> {
    cluster: &'a Cluster,
    was_acknowledged: AtomicBool,
}

impl Gate for SettlingGate<'_> {
    fn before_apply<R: Wait>(&self, _rt: &R, _site: SiteId, _number: u64) {}

    fn at_apply<R: Wait>(&self, rt: &R, _site: SiteId, number: u64) {
        // It takes the lock of the book; the applier holds that of the site.
        if number == 1 && settle(rt, self.cluster, &mut Session::new(), 1, 1).is_ok() {
            self.was_acknowledged.store(true, Ordering::SeqCst);
        }
        self.cluster.stop();
    }
}

/// Applies an update through a settling gate, to which it is not acknowledged. After it is.
fn expect_told_after_the_gate<R: Wait + Abort>(rt: &R, cluster: &Cluster) {
    let gate = SettlingGate {
        cluster,
        was_acknowledged: AtomicBool::new(false),
    };
    expect!(rt; a().index() < cluster.sites());
    expect_eq!(rt; cluster.applier(rt, a(), &gate), 1);
    expect!(rt; !gate.was_acknowledged.load(Ordering::SeqCst));
    expect_settled(rt, cluster, &mut Session::new(), 1, 1, Ok(()));
}

/// Asks in the gate for the update that is about to be applied: the site tells of it only after its gate was called for it.
// shows: gates
#[test]
fn an_update_is_applied_once_its_gate_was_called(rt: HostRuntime) -> Result<(), Fail> {
    let alloc = rt.alloc();
    let cluster = opened(alloc, Scope::All, 0)?;
    let set = add(&rt, alloc, x(), 1);
    let waits = Err(Refusal::NotYet { number: 1 });
    expect_proposed(&rt, &cluster, &mut Session::new(), set, 1, waits);
    expect_told_after_the_gate(&rt, &cluster);
    cluster.discard();
    Ok(())
}

//! Two sites that differ: a has a capacity of two updates and may lag by four, b has a capacity of three and no limit.
use super::fixtures::{self, add, expect_applied, expect_closed, expect_proposed};
use ordup_cluster::{Cluster, Session};
use ordup_limits::Scope;
use ordup_objects::Refusal;
use ordup_primary::Window;
use std::alloc::Global;
use std::process::Abort;
use std::sync::Wait;
use std::test::Fail;
use test_cluster_fixtures::seen;
use test_fixtures::{a, b, declared, x};

/// Waits for the fifth update with one turn, and sees this answer.
fn expect_settled<R: Wait + Abort>(rt: &R, cluster: &Cluster, answer: Result<(), Refusal>) {
    fixtures::expect_settled(rt, cluster, &mut Session::new(), 5, 1, answer);
}

/// Four updates are acknowledged, and the fifth waits for a.
fn propose_five<R: Wait + Abort>(rt: &R, alloc: Global, cluster: &Cluster) {
    let mut session = Session::new();
    for number in 1..=5 {
        let set = add(rt, alloc, x(), 1);
        let answer = if number < 5 {
            Ok(number)
        } else {
            Err(Refusal::NotYet { number })
        };
        expect_proposed(rt, cluster, &mut session, set, 1, answer);
    }
    cluster.stop();
}

/// The fifth update is acknowledged by what a applies alone, two at a time. Then b applies what its feed could take.
fn apply_at_a_and_then_b<R: Wait + Abort>(rt: &R, cluster: &Cluster) {
    for updates in [2, 2, 1] {
        expect_settled(rt, cluster, Err(Refusal::NotYet { number: 5 }));
        expect_applied(rt, cluster, a(), updates);
    }
    expect_settled(rt, cluster, Ok(()));
    expect_applied(rt, cluster, b(), 3);
}

/// Applies at two sites whose feeds differ.
// shows: the feeds of a cluster
#[test]
fn each_site_has_a_feed_of_its_own_capacity(rt: HostRuntime) -> Result<(), Fail> {
    let alloc = rt.alloc();
    let sites = [("a", 2, Some((Scope::Count, 4))), ("b", 3, None)];
    let cluster = Cluster::new(alloc, declared(alloc, &sites)?)?;
    propose_five(&rt, alloc, &cluster);
    apply_at_a_and_then_b(&rt, &cluster);
    expect_closed(&rt, cluster, 5, seen(5, 5), &[Window { from: 0, to: 5 }]);
    Ok(())
}

//! Rounds that stay open until the site a has applied what they wait for. Its feed has a capacity of one update, and it may not
//! lag.
use super::fixtures::{add, apply_at, expect_closed, expect_proposed, expect_settled};
use ordup_cluster::{Cluster, Session};
use ordup_limits::Scope;
use ordup_objects::{MessageSet, Refusal};
use ordup_primary::Window;
use std::process::Abort;
use std::sync::Wait;
use std::test::Fail;
use test_cluster_fixtures::seen;
use test_fixtures::{a, declared, x};

/// Two updates, each with a round of a. The second is sent only once a has reported the first, by the one turn that learns of it.
fn wait_for_both<R: Wait + Abort>(rt: &R, cluster: &Cluster, set: MessageSet, other: MessageSet) {
    let mut session = Session::new();
    let first = Err(Refusal::NotYet { number: 1 });
    let second = Err(Refusal::NotYet { number: 2 });
    expect_proposed(rt, cluster, &mut session, set, 1, first);
    expect_proposed(rt, cluster, &mut session, other, 1, second);
    cluster.stop();
    apply_at(rt, cluster, a());
    let second = Err(Refusal::NotYet { number: 2 });
    expect_settled(rt, cluster, &mut session, 2, 1, second);
    apply_at(rt, cluster, a());
    expect_settled(rt, cluster, &mut session, 2, 1, Ok(()));
}

/// Waits for two updates, each with a round.
// shows: looks; turns
#[test]
fn each_round_waits_for_its_own_report(rt: HostRuntime) -> Result<(), Fail> {
    let alloc = rt.alloc();
    let setup = declared(alloc, &[("a", 1, Some((Scope::All, 0)))])?;
    let cluster = Cluster::new(alloc, setup)?;
    let set = add(&rt, alloc, x(), 1);
    let other = add(&rt, alloc, x(), 1);
    wait_for_both(&rt, &cluster, set, other);
    let windows = [Window { from: 0, to: 1 }, Window { from: 1, to: 2 }];
    expect_closed(&rt, cluster, 2, seen(2, 2), &windows);
    Ok(())
}

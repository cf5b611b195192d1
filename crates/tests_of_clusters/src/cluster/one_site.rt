//! Updates at the one site of a cluster, from the proposal to what is left at the end.
use super::fixtures::{
    add, apply_at, expect_behind, expect_closed, expect_proposed, expect_seen, expect_settled,
    opened,
};
use crate::promises::{end, read};
use ordup_cluster::{Cluster, Session, SiteQuery};
use ordup_limits::Scope;
use ordup_objects::{MessageSet, Refusal};
use ordup_primary::Window;
use ordup_query::{QueryAnswer, ReadAnswer};
use std::process::Abort;
use std::sync::Wait;
use std::test::Fail;
use test_cluster_fixtures::promises::begin;
use test_cluster_fixtures::seen;
use test_fixtures::{a, expect_eq, x};

/// Stops the cluster, so that another set is refused, and lets the site a apply the one update that it was sent.
fn stop_and_apply<R: Wait + Abort>(
    rt: &R,
    cluster: &Cluster,
    session: &mut Session,
    set: MessageSet,
) {
    cluster.stop();
    expect_proposed(rt, cluster, session, set, 1, Err(Refusal::Stopped));
    apply_at(rt, cluster, a());
}

/// A query begun after the update reads x before the site a has applied it, and again after that.
fn query_meanwhile<R: Wait + Abort>(
    rt: &R,
    cluster: &Cluster,
    mut query: SiteQuery<'_>,
    session: &mut Session,
    set: MessageSet,
) {
    expect_eq!(rt; read(rt, &mut query, x()), Ok(ReadAnswer { value: 0, import: 3, total: 3, }));
    stop_and_apply(rt, cluster, session, set);
    expect_eq!(rt; read(rt, &mut query, x()), Ok(ReadAnswer { value: 3, import: 0, total: 3, }));
    expect_eq!(rt; end(query), QueryAnswer { place: 1, sum: 3, total: 3, reads: 2, });
}

/// The update that adds 3 to x is acknowledged before the site a has applied it.
fn follow<R: Wait + Abort>(rt: &R, cluster: &Cluster, set: MessageSet, other: MessageSet) {
    let mut session = Session::new();
    expect_proposed(rt, cluster, &mut session, set, 1, Ok(1));
    expect_behind(rt, cluster, &mut session, a(), 0);
    let Ok(query) = begin(rt, cluster, a(), 4) else {
        panic!(rt; "the query is refused")
    };
    query_meanwhile(rt, cluster, query, &mut session, other);
    expect_seen(rt, cluster, &mut session, a(), 3, 1);
    expect_settled(rt, cluster, &mut session, 2, 1, Err(Refusal::OutOfRange));
    expect_settled(rt, cluster, &mut session, 1, 1, Ok(()));
}

/// The update of a cluster that takes no lag waits for the report of the site a, which nothing applies.
fn wait_in_vain<R: Wait + Abort>(rt: &R, cluster: &Cluster, set: MessageSet) {
    let mut session = Session::new();
    let waits = Err(Refusal::NotYet { number: 1 });
    expect_proposed(rt, cluster, &mut session, set, 3, waits);
    let waits = Err(Refusal::NotYet { number: 1 });
    expect_settled(rt, cluster, &mut session, 1, 2, waits);
    expect_seen(rt, cluster, &mut session, a(), 0, 0);
}

/// The update waits for the report, and is acknowledged in the first turn after it.
fn wait_for_the_report<R: Wait + Abort>(rt: &R, cluster: &Cluster, set: MessageSet) {
    let mut session = Session::new();
    let waits = Err(Refusal::NotYet { number: 1 });
    expect_proposed(rt, cluster, &mut session, set, 1, waits);
    cluster.stop();
    apply_at(rt, cluster, a());
    expect_eq!(rt; session.seen(), 0);
    expect_settled(rt, cluster, &mut session, 1, 1, Ok(()));
    expect_eq!(rt; session.seen(), 1);
}

/// Proposes, applies and reads an update.
// shows: Cluster::propose seen some; Cluster::read applied seen; SiteQuery::read; the calls of a cluster; stops
#[test]
fn an_update_is_acknowledged_and_read(rt: HostRuntime) -> Result<(), Fail> {
    let alloc = rt.alloc();
    let cluster = opened(alloc, Scope::Object(x()), 5)?;
    let set = add(&rt, alloc, x(), 3);
    let other = add(&rt, alloc, x(), 1);
    follow(&rt, &cluster, set, other);
    expect_closed(&rt, cluster, 1, seen(3, 1), &[]);
    Ok(())
}

/// Waits for a site that applies nothing.
// shows: Cluster::settle seen err; Cluster::settle refused; Cluster::close closed; turns
#[test]
fn a_round_waits_for_its_report(rt: HostRuntime) -> Result<(), Fail> {
    let alloc = rt.alloc();
    let cluster = opened(alloc, Scope::All, 0)?;
    let set = add(&rt, alloc, x(), 1);
    wait_in_vain(&rt, &cluster, set);
    expect_closed(&rt, cluster, 1, seen(0, 0), &[Window { from: 0, to: 1 }]);
    Ok(())
}

/// Waits for a site that applies the update.
// shows: Cluster::settle seen err; Cluster::settle refused; Cluster::close closed; turns
#[test]
fn a_round_ends_with_its_report(rt: HostRuntime) -> Result<(), Fail> {
    let alloc = rt.alloc();
    let cluster = opened(alloc, Scope::All, 0)?;
    let set = add(&rt, alloc, x(), 1);
    wait_for_the_report(&rt, &cluster, set);
    expect_closed(&rt, cluster, 1, seen(1, 1), &[Window { from: 0, to: 1 }]);
    Ok(())
}

//! Sessions over two sites, of which one lags.
use super::fixtures::{
    add, apply_at, expect_behind, expect_held, expect_proposed, expect_seen, expect_settled,
    opened_pair,
};
use ordup_cluster::{Cluster, Session};
use ordup_objects::MessageSet;
use ordup_query::ReadAnswer;
use std::process::Abort;
use std::sync::Wait;
use std::test::Fail;
use test_fixtures::{a, b, expect, expect_eq, x};

/// An update that adds 3 to x is applied by the site a alone.
fn apply_at_a<R: Wait + Abort>(rt: &R, cluster: &Cluster, set: MessageSet) {
    expect_eq!(rt; cluster.sites(), 2);
    expect_proposed(rt, cluster, &mut Session::new(), set, 1, Ok(1));
    cluster.stop();
    apply_at(rt, cluster, a());
}

/// A session that has read at a is refused at b, until b has applied as much.
fn read_at_a_and_then_b<R: Wait + Abort>(rt: &R, cluster: &Cluster) {
    let mut session = Session::new();
    expect_seen(rt, cluster, &mut session, a(), 3, 1);
    expect_behind(rt, cluster, &mut session, b(), 0);
    expect_eq!(rt; session.seen(), 1);
    apply_at(rt, cluster, b());
    expect_seen(rt, cluster, &mut session, b(), 3, 1);
}

/// A query at b reads what b holds, though a has applied the update that is its reference.
fn query_at_b<R: Wait + Abort>(rt: &R, cluster: &Cluster) {
    let Ok(mut query) = cluster.begin(rt, b(), 3) else {
        panic!(rt; "the query is refused")
    };
    expect_eq!(rt; query.read(rt, x()), Ok(ReadAnswer { value: 0, import: 3, total: 3, }));
}

/// A session that has seen nothing reads at b what came before the update, and sees the update once it is settled.
fn read_at_b_and_settle<R: Wait + Abort>(rt: &R, cluster: &Cluster) {
    let mut session = Session::new();
    expect_seen(rt, cluster, &mut session, b(), 0, 0);
    expect_settled(rt, cluster, &mut session, 1, 1, Ok(()));
    expect_behind(rt, cluster, &mut session, b(), 0);
}

/// Each of both sites has applied the one update of the log.
fn close(rt: &impl Abort, cluster: Cluster) {
    let Ok(closed) = cluster.close() else {
        panic!(rt; "a site does not agree with the log")
    };
    let primary = closed.primary();
    expect_eq!(rt; primary.log().len(), 1);
    expect!(rt; primary.setup().sites() == 2);
    expect_held(rt, &closed, a(), 1);
    expect_held(rt, &closed, b(), 1);
    closed.discard();
}

/// Reads at two sites, one of which lags.
// shows: Session::seen; Cluster::read seen err; the calls of a cluster
#[test]
fn a_session_never_goes_back(rt: HostRuntime) -> Result<(), Fail> {
    let alloc = rt.alloc();
    let cluster = opened_pair(alloc)?;
    let set = add(&rt, alloc, x(), 3);
    apply_at_a(&rt, &cluster, set);
    query_at_b(&rt, &cluster);
    read_at_b_and_settle(&rt, &cluster);
    read_at_a_and_then_b(&rt, &cluster);
    close(&rt, cluster);
    Ok(())
}

//! Reads that would wait for a site, while nothing applies there.
use super::fixtures::{add, apply_at, expect_applied, expect_proposed, opened};
use ordup_cluster::{Cluster, Session};
use ordup_limits::Scope;
use ordup_objects::{MessageSet, ObjectId, Refusal, SiteId};
use std::process::Abort;
use std::sync::Wait;
use std::test::Fail;
use test_cluster_fixtures::promises::{read_at, read_when_level};
use test_cluster_fixtures::seen;
use test_fixtures::{a, b, declared, expect_eq, x, z};

/// Reads with so many pauses, and by `read`: both have the same answer, and leave the same session.
fn expect_both<R: Wait + Abort>(
    rt: &R,
    cluster: &Cluster,
    session: &mut Session,
    site: SiteId,
    object: ObjectId,
    pauses: u64,
    refusal: Refusal,
) {
    let refusal = &refusal;
    let before = session.seen();
    expect_eq!(rt; read_when_level(rt, cluster, session, site, object, pauses), Err(*refusal));
    expect_eq!(rt; session.seen(), before);
    expect_eq!(rt; read_at(rt, cluster, session, site, object), Err(*refusal));
}

/// The session has seen the update, and a has not applied it. A session that has seen nothing is not behind.
fn read_behind<R: Wait + Abort>(rt: &R, cluster: &Cluster, set: MessageSet) {
    let mut session = Session::new();
    expect_proposed(rt, cluster, &mut session, set, 1, Ok(1));
    for pauses in [0, 1, 3] {
        let behind = Refusal::Behind { applied: 0 };
        expect_both(rt, cluster, &mut session, a(), x(), pauses, behind);
        expect_both(
            rt,
            cluster,
            &mut session,
            a(),
            z(),
            pauses,
            Refusal::UnknownObject,
        );
        expect_both(
            rt,
            cluster,
            &mut session,
            b(),
            x(),
            pauses,
            Refusal::UnknownSite,
        );
        let first = read_when_level(rt, cluster, &mut Session::new(), a(), x(), pauses);
        expect_eq!(rt; first, Ok(seen(0, 0)));
    }
}

/// Once a has applied the update, no pause is needed.
fn read_level<R: Wait + Abort>(rt: &R, cluster: &Cluster) {
    cluster.stop();
    apply_at(rt, cluster, a());
    let mut session = Session::new();
    for pauses in [0, 3] {
        let read = read_when_level(rt, cluster, &mut session, a(), x(), pauses);
        expect_eq!(rt; read, Ok(seen(1, 1)));
        expect_eq!(rt; session.seen(), 1);
    }
}

// shows: Cluster::read_when_level applied seen refused err; Cluster::read refused
#[test]
fn a_read_that_waits_in_vain_answers_as_one_that_does_not_wait(
    rt: HostRuntime,
) -> Result<(), Fail> {
    let alloc = rt.alloc();
    let cluster = opened(alloc, Scope::Count, 1)?;
    let set = add(&rt, alloc, x(), 1);
    read_behind(&rt, &cluster, set);
    read_level(&rt, &cluster);
    cluster.discard();
    Ok(())
}

/// The feed of a could hold one of two updates. A pause makes a turn, which sends the other one, and no pause makes none.
fn read_unsent<R: Wait + Abort>(rt: &R, cluster: &Cluster, first: MessageSet, second: MessageSet) {
    let mut session = Session::new();
    expect_proposed(rt, cluster, &mut session, first, 1, Ok(1));
    expect_proposed(rt, cluster, &mut session, second, 1, Ok(2));
    cluster.stop();
    apply_at(rt, cluster, a());
    for updates in [0, 1] {
        let read = read_when_level(rt, cluster, &mut session, a(), x(), updates);
        expect_eq!(rt; read, Err(Refusal::Behind { applied: 1 }));
        expect_applied(rt, cluster, a(), updates);
    }
    let read = read_when_level(rt, cluster, &mut session, a(), x(), 0);
    expect_eq!(rt; read, Ok(seen(2, 2)));
}

// shows: turns
#[test]
fn a_read_that_waits_makes_a_turn_for_each_pause(rt: HostRuntime) -> Result<(), Fail> {
    let alloc = rt.alloc();
    let cluster = Cluster::new(alloc, declared(alloc, &[("a", 1, None)])?)?;
    let first = add(&rt, alloc, x(), 1);
    let second = add(&rt, alloc, x(), 1);
    read_unsent(&rt, &cluster, first, second);
    cluster.discard();
    Ok(())
}

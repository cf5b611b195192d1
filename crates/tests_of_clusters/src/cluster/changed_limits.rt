//! Limits of a site that change while the cluster runs. It has the sites of the fixtures: a has a limit on x of 5.
use super::fixtures::{
    add, apply_at, expect_closed, expect_proposed, expect_settled, opened, opened_pair,
};
use ordup_audit::{Verdict, check};
use ordup_cluster::{Cluster, Session};
use ordup_limits::{GroupId, Limit, LimitEntry, Scope};
use ordup_objects::{MessageSet, Refusal, SiteId};
use ordup_primary::Primary;
use ordup_record::record_of;
use std::alloc::Global;
use std::process::Abort;
use std::sync::Wait;
use std::test::Fail;
use test_cluster_fixtures::promises::{begin, relimit};
use test_cluster_fixtures::seen;
use test_fixtures::{a, b, expect, expect_eq, x, z};

/// Changes the limit of a site on a scope, and sees this answer.
fn expect_changed<R: Wait + Abort>(
    rt: &R,
    cluster: &Cluster,
    site: SiteId,
    scope: Scope,
    amount: u64,
    answer: Result<u64, Refusal>,
) {
    expect_eq!(rt; relimit(rt, cluster, site, scope, amount), answer);
}

/// The scope of x.
fn on_x() -> Scope {
    Scope::Object(x())
}

/// The limit of a on x is lowered to what a lags by, the 3 of an update that is acknowledged, and to no less.
fn lower<R: Wait + Abort>(rt: &R, cluster: &Cluster, set: MessageSet) {
    expect_proposed(rt, cluster, &mut Session::new(), set, 1, Ok(1));
    expect_changed(rt, cluster, a(), on_x(), 2, Err(Refusal::LagOver));
    expect_changed(rt, cluster, a(), on_x(), 3, Ok(2));
}

/// A limit on x that holds from a place on.
fn entry(amount: u64, place: u64) -> LimitEntry {
    let scope = Scope::Object(x());
    LimitEntry {
        limit: Limit { scope, amount },
        place,
    }
}

/// The limit of a on x is 5 from the start, and 3 from place 2 on. The check accepts the record of a, which has no round.
fn expect_lowered(rt: &impl Abort, alloc: Global, primary: &Primary) {
    primary.keeps();
    expect!(rt; primary.setup().sites() > 0);
    expect!(rt; primary.limits(a()).entries() == [entry(5, 1), entry(3, 2)].as_slice());
    let Ok(record) = record_of(alloc, primary, a()) else {
        panic!(rt; "there is no memory for a record")
    };
    expect!(rt; matches!(check(&record), Verdict::Fewest(0)));
    record.discard();
}

fn close_lowered(rt: &impl Abort, alloc: Global, cluster: Cluster) {
    let Ok(closed) = cluster.close() else {
        panic!(rt; "a site does not agree with the log")
    };
    expect_lowered(rt, alloc, closed.primary());
    closed.discard();
}

/// What a scope names is looked at first, then the site, then the amount.
fn expect_order<R: Wait + Abort>(rt: &R, cluster: &Cluster) {
    let past = 1_000_000_000_000_000_001;
    let on_z = Scope::Object(z());
    let on_a_group = Scope::Group(GroupId::new(0));
    expect_changed(rt, cluster, b(), on_z, past, Err(Refusal::UnknownObject));
    expect_changed(
        rt,
        cluster,
        b(),
        on_a_group,
        past,
        Err(Refusal::UnknownGroup),
    );
    expect_changed(
        rt,
        cluster,
        b(),
        Scope::All,
        past,
        Err(Refusal::UnknownSite),
    );
    expect_changed(rt, cluster, a(), Scope::All, past, Err(Refusal::OutOfRange));
}

/// After the stop a limit may change. A change makes no look: a has applied the update that adds 3 to x, and no turn has learnt of
/// it.
fn change_after_the_stop<R: Wait + Abort>(rt: &R, cluster: &Cluster, set: MessageSet) {
    expect_proposed(rt, cluster, &mut Session::new(), set, 1, Ok(1));
    expect_order(rt, cluster);
    cluster.stop();
    apply_at(rt, cluster, a());
    // None of these calls makes a turn, in which the primary would hear what a applied.
    expect_settled(rt, cluster, &mut Session::new(), 1, 1, Ok(()));
    expect_eq!(rt; begin(rt, cluster, a(), 0).err(), None);
    expect_changed(rt, cluster, a(), Scope::All, 2, Err(Refusal::LagOver));
    expect_changed(rt, cluster, a(), Scope::All, 2, Err(Refusal::LagOver));
    expect_changed(rt, cluster, a(), Scope::All, 3, Ok(2));
}

/// b may not lag any more, so the update waits for b, and not for a. No limit changes meanwhile, not even that of a.
fn forbid_lag_at_b<R: Wait + Abort>(rt: &R, cluster: &Cluster, set: MessageSet) {
    let mut session = Session::new();
    expect_changed(rt, cluster, b(), Scope::Count, 0, Ok(1));
    let waits = Err(Refusal::NotYet { number: 1 });
    expect_proposed(rt, cluster, &mut session, set, 1, waits);
    expect_changed(rt, cluster, a(), Scope::Count, 1, Err(Refusal::HeadPending));
    cluster.stop();
    apply_at(rt, cluster, b());
    expect_settled(rt, cluster, &mut session, 1, 1, Ok(()));
    expect_changed(rt, cluster, a(), Scope::Count, 1, Ok(2));
}

/// Lowers a limit below the lag, and down to it.
// shows: Cluster::relimit place; changed limits
#[test]
fn a_limit_is_lowered_to_what_a_site_lags(rt: HostRuntime) -> Result<(), Fail> {
    let alloc = rt.alloc();
    let cluster = opened(alloc, Scope::Object(x()), 5)?;
    let set = add(&rt, alloc, x(), 3);
    lower(&rt, &cluster, set);
    close_lowered(&rt, alloc, cluster);
    Ok(())
}

/// Changes a limit of a stopped cluster.
// shows: Cluster::relimit refused; changed limits
#[test]
fn a_limit_changes_after_the_stop_and_without_a_look(rt: HostRuntime) -> Result<(), Fail> {
    let alloc = rt.alloc();
    let cluster = opened(alloc, Scope::Object(x()), 5)?;
    let set = add(&rt, alloc, x(), 3);
    change_after_the_stop(&rt, &cluster, set);
    expect_closed(&rt, cluster, 1, seen(3, 1), &[]);
    Ok(())
}

/// Changes the limit of one site of two.
// shows: changed limits
#[test]
fn a_changed_limit_is_that_of_one_site(rt: HostRuntime) -> Result<(), Fail> {
    let alloc = rt.alloc();
    let cluster = opened_pair(alloc)?;
    let set = add(&rt, alloc, x(), 3);
    forbid_lag_at_b(&rt, &cluster, set);
    expect_closed(&rt, cluster, 1, seen(0, 0), &[]);
    Ok(())
}

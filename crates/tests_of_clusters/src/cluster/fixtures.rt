//! Clusters, and what is done with them.
ghost use Rattle.std.specs.Prelude.{◌≤◌};

use crate::expect::made;
use ordup_cluster::{Closed, Cluster, OpenGate, SeenValue, Session};
use ordup_limits::Scope;
use ordup_objects::{MessageSet, ObjectId, Refusal, SiteId};
use ordup_primary::Window;
use std::alloc::Global;
use std::process::Abort;
use std::sync::Wait;
use test_cluster_fixtures::promises::{propose, settle};
use test_cluster_fixtures::seen;
use test_fixtures::{a, declared, expect, expect_eq, x, x_y_and_z};

/// A cluster of the site a, whose feed has a capacity of 4 updates, with this limit on that scope.
pub fn opened(alloc: Global, scope: Scope, limit: u64) -> Result<Cluster, Refusal> {
    Cluster::new(alloc, declared(alloc, &[("a", 4, Some((scope, limit)))])?)
}

/// A cluster of the site a, whose limit on x is 5, and of the site b, which has no limit.
pub fn opened_pair(alloc: Global) -> Result<Cluster, Refusal> {
    let within_5 = Some((Scope::Object(x()), 5));
    let sites = [("a", 4, within_5), ("b", 4, None)];
    Cluster::new(alloc, declared(alloc, &sites)?)
}

/// The set that adds a number to x, y or z.
pub fn add(rt: &impl Abort, alloc: Global, object: ObjectId, n: i64) -> MessageSet {
    let objects = made(rt, x_y_and_z(alloc));
    let set = made(rt, test_fixtures::add(&objects, object, n));
    drop(objects);
    set
}

/// Reads x at a site in a session, and sees its value and how many updates the site has applied.
pub fn expect_seen<R: Wait + Abort>(
    rt: &R,
    cluster: &Cluster,
    session: &mut Session,
    site: SiteId,
    value: i64,
    applied: u64,
) {
    expect_eq!(rt; cluster.read(rt, session, site, x()), Ok(seen(value, applied)));
}

/// Reads x at a site that is behind the session, and sees how many updates the site has applied.
pub fn expect_behind<R: Wait + Abort>(
    rt: &R,
    cluster: &Cluster,
    session: &mut Session,
    site: SiteId,
    applied: u64,
) {
    expect_eq!(rt; cluster.read(rt, session, site, x()), Err(Refusal::Behind { applied }));
}

/// Proposes a set in a session with this count of turns, and sees this answer.
pub fn expect_proposed<R: Wait + Abort>(
    rt: &R,
    cluster: &Cluster,
    session: &mut Session,
    set: MessageSet,
    turns: u64,
    answer: Result<u64, Refusal>,
)
    requires { 1 ≤ turns }
{
    expect_eq!(rt; propose(rt, cluster, session, set, turns), answer);
}

/// Waits for an update in a session for this count of turns, and sees this answer.
pub fn expect_settled<R: Wait + Abort>(
    rt: &R,
    cluster: &Cluster,
    session: &mut Session,
    number: u64,
    turns: u64,
    answer: Result<(), Refusal>,
)
    requires { 1 ≤ turns }
{
    expect_eq!(rt; settle(rt, cluster, session, number, turns), answer);
}

/// Applies at a site of a stopped cluster, and sees how many updates were applied.
pub fn expect_applied<R: Wait + Abort>(rt: &R, cluster: &Cluster, site: SiteId, updates: u64) {
    expect!(rt; site.index() < cluster.sites());
    expect_eq!(rt; cluster.applier(rt, site, &OpenGate), updates);
}

/// Applies one update at a site of a stopped cluster.
pub fn apply_at<R: Wait + Abort>(rt: &R, cluster: &Cluster, site: SiteId) {
    expect_applied(rt, cluster, site, 1);
}

/// Sees how many updates a site of a closed cluster has applied.
pub fn expect_held(rt: &impl Abort, closed: &Closed, site: SiteId, updates: u64) {
    let primary = closed.primary();
    primary.keeps();
    expect!(rt; site.index() < primary.setup().sites());
    expect_eq!(rt; closed.site(site).applied(), updates);
}

/// Closes a cluster, and sees how many updates its log has, what the site a holds of x, and its windows.
pub fn expect_closed(
    rt: &impl Abort,
    cluster: Cluster,
    updates: u64,
    at_a: SeenValue,
    windows: &[Window],
) {
    let Ok(closed) = cluster.close() else {
        panic!(rt; "a site does not agree with the log")
    };
    let primary = closed.primary();
    primary.keeps();
    expect_eq!(rt; primary.log().len(), updates);
    expect!(rt; primary.setup().sites() > 0);
    expect_eq!(rt; primary.windows(a()), windows);
    let site = closed.site(a());
    expect!(rt; site.len() > 0);
    expect_eq!(rt; site.value(x()), at_a.value);
    expect_eq!(rt; site.applied(), at_a.applied);
    closed.discard();
}

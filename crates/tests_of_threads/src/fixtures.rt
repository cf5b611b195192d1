//! Clusters of the objects x at 0 and y at 10, message sets over them, and what the threads of a cluster do.
use ordup_audit::{Verdict, check};
use ordup_cluster::{Closed, Cluster, Gate, Session};
use ordup_objects::{MessageSet, ObjectTable, Refusal, SiteId};
use ordup_primary::Primary;
use ordup_record::record_of;
use std::alloc::Global;
use std::process::Abort;
use std::sync::Wait;
use test_cluster_fixtures::TURNS;
use test_fixtures::{Site, a, declared, expect, expect_eq, x, y};

/// A cluster of x, y and these sites.
pub fn opened(alloc: Global, sites: &[Site]) -> Result<Cluster, Refusal> {
    Cluster::new(alloc, declared(alloc, sites)?)
}

/// Closes a cluster whose sites agree with its log.
pub fn closed(rt: &impl Abort, cluster: Cluster) -> Closed {
    let Ok(closed) = cluster.close() else {
        panic!(rt; "a site does not agree with the log")
    };
    closed
}

/// Sees that the check accepts the record of a.
pub fn expect_fewest(rt: &impl Abort, alloc: Global, primary: &Primary) {
    let Ok(record) = record_of(alloc, primary, a()) else {
        panic!(rt; "there is no memory for a record")
    };
    expect!(rt; matches!(check(&record), Verdict::Fewest(_)));
    record.discard();
}

/// The objects of the clusters.
pub fn x_and_y(rt: &impl Abort, alloc: Global) -> ObjectTable {
    let mut objects = ObjectTable::new(alloc);
    expect_eq!(rt; objects.declare(b"x", 0), Ok(x()));
    expect_eq!(rt; objects.declare(b"y", 10), Ok(y()));
    objects
}

/// Proposes a set, which is acknowledged, and answers its number.
pub fn propose<R: Wait + Abort>(
    rt: &R,
    cluster: &Cluster,
    session: &mut Session,
    set: MessageSet,
) -> u64 {
    match cluster.propose(rt, session, set, TURNS) {
        Ok(number) => number,
        Err(refusal) => panic!(rt; "a proposal is refused: {refusal}"),
    }
}

/// Applies at a site until the cluster is stopped, and answers how many updates were applied.
pub fn apply_at<G: Gate, R: Wait + Abort>(rt: &R, cluster: &Cluster, site: u8, gate: &G) -> u64 {
    let site = SiteId::new(site);
    expect!(rt; site.index() < cluster.sites());
    cluster.applier(rt, site, gate)
}

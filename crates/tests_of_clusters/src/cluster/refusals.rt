//! Which calls of a cluster are refused, and in which order.
use super::fixtures::{self, add, opened};
use ordup_cluster::{Cluster, SeenValue, Session};
use ordup_limits::Scope;
use ordup_objects::{MessageSet, ObjectId, Refusal, SiteId};
use ordup_primary::Setup;
use ordup_query::{QueryAnswer, ReadAnswer};
use std::process::Abort;
use std::sync::Wait;
use std::test::Fail;
use test_cluster_fixtures::seen;
use test_fixtures::{a, b, expect_eq, x, y, z};

/// Reads an object at a site in a session that has seen nothing, and sees this answer.
fn expect_read<R: Wait + Abort>(
    rt: &R,
    cluster: &Cluster,
    site: SiteId,
    object: ObjectId,
    answer: Result<SeenValue, Refusal>,
) {
    expect_eq!(rt; cluster.read(rt, &mut Session::new(), site, object), answer);
}

/// Begins a query at a site with this limit, and sees why it is refused, if it is.
fn expect_begun<R: Wait + Abort>(
    rt: &R,
    cluster: &Cluster,
    site: SiteId,
    limit: u64,
    refusal: Option<Refusal>,
) {
    expect_eq!(rt; cluster.begin(rt, site, limit).err(), refusal);
}

/// Proposes a set, with one turn, in a session that has seen nothing, and sees this answer.
fn expect_proposed<R: Wait + Abort>(
    rt: &R,
    cluster: &Cluster,
    set: MessageSet,
    answer: Result<u64, Refusal>,
) {
    fixtures::expect_proposed(rt, cluster, &mut Session::new(), set, 1, answer);
}

/// Waits for an update, for one turn, in a session that has seen nothing, and sees this answer.
fn expect_settled<R: Wait + Abort>(
    rt: &R,
    cluster: &Cluster,
    number: u64,
    answer: Result<(), Refusal>,
) {
    fixtures::expect_settled(rt, cluster, &mut Session::new(), number, 1, answer);
}

/// A query that may import 2, where the reference is after the update that adds 3 to x, and the site a has not applied it.
fn read_within_2<R: Wait + Abort>(rt: &R, cluster: &Cluster) {
    let Ok(mut query) = cluster.begin(rt, a(), 2) else {
        panic!(rt; "the query is refused")
    };
    expect_eq!(rt; query.read(rt, z()), Err(Refusal::UnknownObject));
    expect_eq!(rt; query.read(rt, x()), Err(Refusal::OverImport));
    expect_eq!(rt; query.read(rt, y()), Ok(ReadAnswer { value: 10, import: 0, total: 0, }));
    expect_eq!(rt; query.end(), QueryAnswer { place: 1, sum: 10, total: 0, reads: 1, });
}

/// Makes a cluster without a site.
// shows: Cluster::new refused
#[test]
fn a_cluster_has_a_site(rt: HostRuntime) -> Result<(), Fail> {
    let alloc = rt.alloc();
    expect_eq!(&rt; Cluster::new(alloc, Setup::new(alloc)).err(), Some(Refusal::Empty));
    Ok(())
}

/// Reads an object or a site that is not there.
// shows: Cluster::read refused
#[test]
fn an_unknown_object_comes_before_an_unknown_site(rt: HostRuntime) -> Result<(), Fail> {
    let cluster = opened(rt.alloc(), Scope::All, 0)?;
    expect_read(&rt, &cluster, b(), z(), Err(Refusal::UnknownObject));
    expect_read(&rt, &cluster, a(), z(), Err(Refusal::UnknownObject));
    expect_read(&rt, &cluster, b(), y(), Err(Refusal::UnknownSite));
    expect_read(&rt, &cluster, a(), y(), Ok(seen(10, 0)));
    cluster.discard();
    Ok(())
}

/// Begins queries with the greatest import limit, and one more.
// shows: Cluster::begin
#[test]
fn an_unknown_site_comes_before_an_import_limit(rt: HostRuntime) -> Result<(), Fail> {
    let greatest = 1_000_000_000_000_000_000;
    let cluster = opened(rt.alloc(), Scope::All, 0)?;
    expect_begun(&rt, &cluster, b(), greatest + 1, Some(Refusal::UnknownSite));
    expect_begun(&rt, &cluster, a(), greatest + 1, Some(Refusal::OutOfRange));
    expect_begun(&rt, &cluster, b(), greatest, Some(Refusal::UnknownSite));
    expect_begun(&rt, &cluster, a(), greatest, None);
    cluster.discard();
    Ok(())
}

/// Proposes sets that are refused, and one that is not.
// shows: Cluster::propose refused; Cluster::settle refused; number_unless_stopped
#[test]
fn what_is_refused_has_no_number(rt: HostRuntime) -> Result<(), Fail> {
    let alloc = rt.alloc();
    let cluster = opened(alloc, Scope::Object(x()), 5)?;
    let unknown = add(&rt, alloc, z(), 1);
    let too_great = add(&rt, alloc, y(), 1_000_000_000);
    let set = add(&rt, alloc, x(), 3);
    expect_proposed(&rt, &cluster, unknown, Err(Refusal::UnknownObject));
    expect_proposed(&rt, &cluster, too_great, Err(Refusal::OutOfRange));
    expect_settled(&rt, &cluster, 1, Err(Refusal::OutOfRange));
    expect_proposed(&rt, &cluster, set, Ok(1));
    expect_settled(&rt, &cluster, 0, Err(Refusal::OutOfRange));
    expect_settled(&rt, &cluster, 1, Ok(()));
    cluster.discard();
    Ok(())
}

/// Proposes sets to a stopped cluster.
// shows: number_unless_stopped; stops
#[test]
fn a_stopped_cluster_says_so_of_each_proposal(rt: HostRuntime) -> Result<(), Fail> {
    let alloc = rt.alloc();
    let cluster = opened(alloc, Scope::Object(x()), 5)?;
    let unknown = add(&rt, alloc, z(), 1);
    let too_great = add(&rt, alloc, y(), 1_000_000_000);
    let set = add(&rt, alloc, x(), 3);
    cluster.stop();
    expect_proposed(&rt, &cluster, unknown, Err(Refusal::Stopped));
    expect_proposed(&rt, &cluster, too_great, Err(Refusal::Stopped));
    expect_proposed(&rt, &cluster, set, Err(Refusal::Stopped));
    // Nothing was numbered.
    expect_settled(&rt, &cluster, 1, Err(Refusal::OutOfRange));
    cluster.discard();
    Ok(())
}

/// Reads in a query that may import 2.
// shows: SiteQuery::read; SiteQuery::end
#[test]
fn a_query_reads_within_its_limit(rt: HostRuntime) -> Result<(), Fail> {
    let alloc = rt.alloc();
    let cluster = opened(alloc, Scope::Object(x()), 5)?;
    let set = add(&rt, alloc, x(), 3);
    expect_proposed(&rt, &cluster, set, Ok(1));
    read_within_2(&rt, &cluster);
    cluster.discard();
    Ok(())
}

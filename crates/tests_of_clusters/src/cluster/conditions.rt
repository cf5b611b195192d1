//! Proposals with conditions.
use super::fixtures::{add, expect_proposed, opened};
use ordup_cluster::{Bound, Cluster, Condition, ProposalError, Session};
use ordup_limits::Scope;
use ordup_objects::{ObjectId, Refusal};
use std::alloc::Global;
use std::process::Abort;
use std::sync::Wait;
use std::test::Fail;
use test_fixtures::{expect_eq, x, y, z};

/// Adds a number to x, with one turn, where an object and y are then at least 0.
fn change<R: Wait + Abort>(
    rt: &R,
    alloc: Global,
    cluster: &Cluster,
    number: i64,
    object: ObjectId,
) -> Result<u64, ProposalError> {
    let set = add(rt, alloc, x(), number);
    let at_least_0 = |object| Condition {
        object,
        bound: Bound::AtLeast(0),
    };
    let conditions = [at_least_0(y()), at_least_0(object)];
    cluster.propose_if(rt, &mut Session::new(), set, &conditions, 1)
}

/// Two clerks see 3 bags in x, and each sells some.
// shows: Cluster::propose_if met refused; Cluster::propose seen some
#[test]
fn two_clerks_who_see_3_bags_do_not_sell_5(rt: HostRuntime) -> Result<(), Fail> {
    let alloc = rt.alloc();
    let cluster = opened(alloc, Scope::Count, 9)?;
    let mut session = Session::new();
    expect_proposed(
        &rt,
        &cluster,
        &mut session,
        add(&rt, alloc, x(), 3),
        1,
        Ok(1),
    );
    expect_eq!(&rt; change(&rt, alloc, &cluster, -2, x()), Ok(2));
    expect_eq!(&rt; change(&rt, alloc, &cluster, -3, x()), Err(ProposalError::Unmet(1)));
    expect_eq!(&rt; cluster.numbered(), 2);
    expect_eq!(&rt; change(&rt, alloc, &cluster, -1, x()), Ok(3));
    drop(cluster);
    Ok(())
}

/// Names an object that is not there in a condition, and proposes after the stop.
// shows: Cluster::propose_if refused
#[test]
fn a_condition_on_an_unknown_object_is_refused(rt: HostRuntime) -> Result<(), Fail> {
    let alloc = rt.alloc();
    let cluster = opened(alloc, Scope::Count, 9)?;
    let unknown = Err(ProposalError::Refused(Refusal::UnknownObject));
    expect_eq!(&rt; change(&rt, alloc, &cluster, 0, z()), unknown);
    cluster.stop();
    expect_eq!(&rt; change(&rt, alloc, &cluster, 0, z()), Err(ProposalError::Refused(Refusal::Stopped)));
    expect_eq!(&rt; cluster.numbered(), 0);
    drop(cluster);
    Ok(())
}

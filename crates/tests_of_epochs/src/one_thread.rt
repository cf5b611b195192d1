//! Successors on one thread. No site applies: each may lag by what its limit allows, and an epoch begins with all updates applied.
use super::fixtures::{close, enter, opened, propose, start_successor};
use ordup_cluster::{Cluster, Session};
use ordup_epochs::Epochs;
use ordup_limits::Scope;
use ordup_objects::Refusal;
use std::process::Abort;
use std::sync::Wait;
use std::test::Fail;
use test_cluster_fixtures::promises::relimit;
use test_fixtures::{a, expect_eq};

/// Adds 1 to x, by one turn, for each number from the first to the last.
fn propose_all<R: Wait + Abort>(
    rt: &R,
    epoch: &Cluster,
    session: &mut Session,
    first: u64,
    last: u64,
) {
    for number in first..=last {
        expect_eq!(rt; propose(rt, epoch, session, 1), Ok(number));
    }
}

/// Raises the limit of a from 1 to 2, and to 4 after two updates.
fn raise<R: Wait + Abort>(rt: &R, epochs: &Epochs) {
    let epoch = enter(rt, epochs);
    expect_eq!(rt; relimit(rt, &epoch, a(), Scope::Count, 2), Ok(1));
    propose_all(rt, &epoch, &mut Session::new(), 1, 2);
    expect_eq!(rt; relimit(rt, &epoch, a(), Scope::Count, 4), Ok(3));
    drop(epoch);
}

/// Four updates do not wait for a, and a fifth does. Places and numbers count over both epochs.
fn expect_four<R: Wait + Abort>(rt: &R, epochs: &Epochs) {
    let epoch = enter(rt, epochs);
    let session = &mut Session::new();
    propose_all(rt, &epoch, session, 3, 6);
    // Two updates came before this epoch, and four are acknowledged in it: the head comes after six.
    expect_eq!(rt; relimit(rt, &epoch, a(), Scope::Count, 4), Ok(7));
    expect_eq!(rt; propose(rt, &epoch, session, 1), Err(Refusal::NotYet { number: 7 }));
    expect_eq!(rt; relimit(rt, &epoch, a(), Scope::Count, 5), Err(Refusal::HeadPending));
    drop(epoch);
}

/// A limit that changes keeps its last amount in the successor, from the start.
// shows: Closed::successor successor; Cluster::relimit place; the calls of an epoch; the declarations of an epoch
#[test]
fn a_changed_limit_is_kept_in_the_successor(rt: HostRuntime) -> Result<(), Fail> {
    let sites = [("a", 8, Some((Scope::Count, 1)))];
    let epochs = opened(rt.alloc(), &sites, 8)?;
    raise(&rt, &epochs);
    expect_eq!(&rt; start_successor(&rt, rt.alloc(), &epochs, 1), Ok((0, 2)));
    expect_four(&rt, &epochs);
    expect_eq!(&rt; close(&rt, epochs), Ok((2, 5)));
    Ok(())
}

//! A successor by the calls that start it: `Cluster::after`, `Closed::successor` and the calls of a `Stage`. Each update adds 1 to
//! x, so x is the number of updates since the store began.
use super::fixtures::propose;
use super::promises::{into_ended, start_successor, successor};
use crate::expect::made;
use ordup_cluster::{Closed, Cluster, MOST_BEFORE, OpenGate, Session};
use ordup_epochs::Stage;
use ordup_limits::Scope;
use ordup_objects::Refusal;
use std::alloc::Global;
use std::process::Abort;
use std::sync::Wait;
use std::test::Fail;
use test_cluster_fixtures::promises::read_at;
use test_cluster_fixtures::seen;
use test_fixtures::{Site, a, declared, expect, expect_eq, x};

/// The site a waits for nobody.
const FREE: [Site; 1] = [("a", 4, None)];

/// The site a may not lag.
const WAITED_FOR: [Site; 1] = [("a", 4, Some((Scope::All, 0)))];

/// A store after five updates, which has one more. It is stopped.
fn opened_after_five<R: Wait + Abort>(
    rt: &R,
    alloc: Global,
    sites: &[Site],
    answer: Result<u64, Refusal>,
) -> Cluster {
    let Ok(cluster) = Cluster::after(alloc, 5, made(rt, declared(alloc, sites))) else {
        panic!(rt; "a store is refused")
    };
    expect_eq!(rt; cluster.before(), 5);
    expect_eq!(rt; cluster.numbered(), 0);
    expect_eq!(rt; propose(rt, &cluster, &mut Session::new(), 1), answer);
    expect_eq!(rt; cluster.before(), 5);
    expect_eq!(rt; cluster.numbered(), 1);
    cluster.stop();
    cluster
}

fn closed(rt: &impl Abort, cluster: Cluster) -> Closed {
    match cluster.close() {
        Ok(closed) => closed,
        Err(refusal) => panic!(rt; "a store is not closed: {refusal}"),
    }
}

/// A store after six updates, in which a has all six: x is 1.
fn expect_after_six<R: Wait + Abort>(rt: &R, next: &Cluster) {
    expect_eq!(rt; next.before(), 6);
    expect_eq!(rt; next.numbered(), 0);
    expect_eq!(rt; read_at(rt, next, &mut Session::new(), a(), x()), Ok(seen(1, 6)));
    expect_eq!(rt; propose(rt, next, &mut Session::new(), 1), Ok(7));
}

// shows: Cluster::after cluster allowed refused; Closed::successor successor
#[test]
fn a_closed_store_has_a_successor(rt: HostRuntime) -> Result<(), Fail> {
    let alloc = rt.alloc();
    let cluster = opened_after_five(&rt, alloc, &FREE, Ok(6));
    expect!(&rt; a().index() < cluster.sites());
    expect_eq!(&rt; cluster.applier(&rt, a(), &OpenGate), 1);
    let closed = closed(&rt, cluster);
    expect_eq!(&rt; closed.before(), 5);
    let next = successor(alloc, &closed)?;
    expect_after_six(&rt, &next);
    next.discard();
    closed.discard();
    Ok(())
}

// shows: Cluster::after refused; Closed::successor refused
#[test]
fn there_is_no_successor_at_an_open_round_or_past_the_last_number(
    rt: HostRuntime,
) -> Result<(), Fail> {
    let alloc = rt.alloc();
    let waits = Err(Refusal::NotYet { number: 6 });
    let closed = closed(&rt, opened_after_five(&rt, alloc, &WAITED_FOR, waits));
    // The one update of this store: `successor` counts in it alone.
    match successor(alloc, &closed) {
        Ok(_) => panic!(&rt; "a store has a successor at an open round"),
        Err(refusal) => expect_eq!(&rt; refusal, Refusal::NotYet { number: 1 }),
    }
    closed.discard();
    match Cluster::after(alloc, MOST_BEFORE + 1, made(&rt, declared(alloc, &FREE))) {
        Ok(_) => panic!(&rt; "more updates came before than may"),
        Err(refusal) => expect_eq!(&rt; refusal, Refusal::LogFull),
    }
    let last = Cluster::after(alloc, MOST_BEFORE, made(&rt, declared(alloc, &FREE)))?;
    expect_eq!(&rt; last.before(), MOST_BEFORE);
    last.discard();
    Ok(())
}

/// The successor of a store after five updates that has a sixth, and its end.
fn start_and_end<R: Wait + Abort>(rt: &R, alloc: Global, mut stage: Stage) {
    match start_successor(&mut stage, alloc, 1) {
        Ok(ended) => {
            expect_eq!(rt; ended.before(), 5);
            ended.discard();
        }
        Err(refusal) => panic!(rt; "a successor is refused: {refusal}"),
    }
    match &stage {
        Stage::Open(next) => expect_after_six(rt, next),
        _ => panic!(rt; "no store is open"),
    }
    match into_ended(stage, 1) {
        Ok(ended) => {
            expect_eq!(rt; ended.before(), 6);
            ended.discard();
        }
        Err(refusal) => panic!(rt; "the last store is lost: {refusal}"),
    }
}

// shows: Stage::start_successor open ended; Stage::into_ended ended
#[test]
fn what_was_open_is_handed_out_and_its_successor_opened(rt: HostRuntime) -> Result<(), Fail> {
    let alloc = rt.alloc();
    let cluster = opened_after_five(&rt, alloc, &FREE, Ok(6));
    start_and_end(&rt, alloc, Stage::Open(cluster));
    Ok(())
}

/// Nothing is left where the log lacks an update that was numbered, and a later call says so again.
fn lose<R: Wait + Abort>(rt: &R, alloc: Global, mut stage: Stage) {
    let mixed = Refusal::Mixed { site: a() };
    for _ in 0..2 {
        match start_successor(&mut stage, alloc, 2) {
            Ok(_) => panic!(rt; "a store that lacks an update has a successor"),
            Err(refusal) => expect_eq!(rt; refusal, mixed),
        }
    }
    match into_ended(stage, 2) {
        Ok(_) => panic!(rt; "a store is handed out that lacks an update"),
        Err(refusal) => expect_eq!(rt; refusal, mixed),
    }
}

// shows: Stage::start_successor left; Stage::into_ended lost
#[test]
fn a_store_that_lacks_an_update_has_no_successor(rt: HostRuntime) -> Result<(), Fail> {
    let alloc = rt.alloc();
    let cluster = opened_after_five(&rt, alloc, &FREE, Ok(6));
    lose(&rt, alloc, Stage::Open(cluster));
    Ok(())
}

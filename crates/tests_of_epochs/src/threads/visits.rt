//! A successor that is asked for while a caller waits in a visit, and while its query is open.
use crate::fixtures::{apply_at, close, enter, opened, propose, start_successor};
use ordup_cluster::{Cluster, Session, SiteQuery};
use ordup_epochs::Epochs;
use ordup_limits::Scope;
use ordup_query::{QueryAnswer, ReadAnswer};
use std::alloc::Global;
use std::process::Abort;
use std::sync::Wait;
use std::sync::atomic::{AtomicBool, Ordering};
use std::test::Fail;
use std::thread;
use test_cluster_fixtures::{
    Held, HoldingGate, Parts, TRIES, TURNS, do_four, is_raised_within, promises,
};
use test_fixtures::{a, expect, expect_eq, x};

/// How often the threads yield, while the successor is asked for.
const PAUSE: u64 = 1_000;

/// What the threads share.
#[derive(Clone, Copy)]
struct All<'a> {
    alloc: Global,
    epochs: &'a Epochs,
    /// It holds a before the first update.
    gate: &'a HoldingGate,
    /// Raised within the first visit.
    visited: &'a AtomicBool,
    /// Raised as the successor is asked for.
    asked: &'a AtomicBool,
}

/// Waits for a flag, and for a while.
fn pause_after<R: Wait + Abort>(rt: &R, flag: &AtomicBool) {
    expect!(rt; is_raised_within(flag, TRIES));
    for _ in 0..PAUSE {
        thread::yield_now();
    }
}

/// Begins a query at a, which has no import.
fn begin<'a, R: Wait + Abort>(rt: &R, epoch: &'a Cluster) -> SiteQuery<'a> {
    match promises::begin(rt, epoch, a(), 0) {
        Ok(query) => query,
        Err(refusal) => panic!(rt; "a query is refused: {refusal}"),
    }
}

/// Reads x by a query, and ends it. Its reference is this place, and the value is 1.
fn expect_one<R: Wait + Abort>(rt: &R, mut query: SiteQuery<'_>, place: u64) {
    let read = query.read(rt, x());
    let ended = query.end();
    expect_eq!(rt; read, Ok(ReadAnswer { value: 1, import: 0, total: 0 }));
    expect_eq!(rt; ended, QueryAnswer { place, sum: 1, total: 0, reads: 1 });
}

/// Waits in a visit until a has applied the update, and begins a query. The successor that is asked for waits until that has ended.
fn visit<R: Wait + Abort>(rt: &R, all: &All<'_>) {
    let epoch = enter(rt, all.epochs);
    all.visited.store(true, Ordering::SeqCst);
    expect_eq!(rt; propose(rt, &epoch, &mut Session::new(), TRIES), Ok(1));
    let query = begin(rt, &epoch);
    pause_after(rt, all.asked);
    expect_one(rt, query, 1);
    drop(epoch);
}

/// In the successor a query begins at place 1, since the one update came before: there x is what it was at the end of the first.
fn visit_next<R: Wait + Abort>(rt: &R, epochs: &Epochs) {
    let epoch = enter(rt, epochs);
    expect_eq!(rt; epoch.before(), 1);
    expect_one(rt, begin(rt, &epoch), 1);
    drop(epoch);
}

/// Asks for a successor within the first visit. It ends that epoch after its one update.
fn start<R: Wait + Abort>(rt: &R, all: &All<'_>) {
    expect!(rt; is_raised_within(all.visited, TRIES));
    all.asked.store(true, Ordering::SeqCst);
    expect_eq!(rt; start_successor(rt, all.alloc, all.epochs, TURNS), Ok((0, 1)));
    visit_next(rt, all.epochs);
    all.epochs.stop(rt);
}

/// Lets a apply the update, once the successor is asked for.
fn release<R: Wait + Abort>(rt: &R, all: &All<'_>) {
    pause_after(rt, all.asked);
    all.gate.open();
}

/// The applier of a, the caller, and the threads that start the successor and that open the gate.
impl<R: Wait + Abort> Parts<R> for All<'_> {
    fn part(&self, rt: &R, number: u8) {
        match number {
            0 => apply_at(rt, self.epochs, 0, self.gate),
            1 => visit(rt, self),
            2 => start(rt, self),
            _ => release(rt, self),
        }
    }
}

/// Asks for a successor while the caller waits for a.
// shows: successors
#[test]
fn a_successor_waits_until_a_visit_has_ended(rt: HostRuntime) -> Result<(), Fail> {
    let gate = HoldingGate::new(Held::BeforeApply, TRIES);
    let sites = [("a", 1, Some((Scope::All, 0)))];
    let epochs = opened(rt.alloc(), &sites, 100)?;
    let all = All {
        alloc: rt.alloc(),
        epochs: &epochs,
        gate: &gate,
        visited: &AtomicBool::new(false),
        asked: &AtomicBool::new(false),
    };
    do_four(&rt, &all, 0);
    expect!(&rt; !gate.gave_up());
    expect_eq!(&rt; close(&rt, epochs), Ok((1, 0)));
    Ok(())
}

//! What comes while a successor is started, which waits for a site that a gate holds: a visit, and `stop`. Both wait until it is
//! open.
use crate::fixtures::{apply_at, close, enter, opened, propose, start_successor};
use ordup_cluster::Session;
use ordup_epochs::Epochs;
use ordup_limits::Scope;
use ordup_objects::Refusal;
use std::alloc::Global;
use std::process::Abort;
use std::sync::Wait;
use std::sync::atomic::{AtomicBool, Ordering};
use std::test::Fail;
use std::thread;
use std::thread::Threads;
use std::time::Clock;
use test_cluster_fixtures::{Held, HoldingGate, Parts, TRIES, TURNS, do_four, is_raised_within};
use test_fixtures::{Site, expect, expect_eq};

/// How often a thread yields, while another one is to come to its wait.
const PAUSE: u64 = 10_000;

/// The site a may not lag.
const SITES: [Site; 1] = [("a", 1, Some((Scope::All, 0)))];

#[derive(Clone, Copy)]
struct All<'a> {
    alloc: Global,
    epochs: &'a Epochs,
    gate: &'a HoldingGate,
    /// Raised as the successor is asked for.
    asked: &'a AtomicBool,
    /// Raised as the visit, or `stop`, is asked for.
    came: &'a AtomicBool,
    /// `stop` comes, and else a visit.
    stops: bool,
}

fn pause_after<R: Wait + Abort>(rt: &R, flag: &AtomicBool) {
    expect!(rt; is_raised_within(flag, TRIES));
    for _ in 0..PAUSE {
        thread::yield_now();
    }
}

/// An update that waits for a, and a successor that waits for it.
fn start<R: Wait + Abort>(rt: &R, all: &All<'_>) {
    let epoch = enter(rt, all.epochs);
    let answer = propose(rt, &epoch, &mut Session::new(), 1);
    expect_eq!(rt; answer, Err(Refusal::NotYet { number: 1 }));
    drop(epoch);
    all.asked.store(true, Ordering::SeqCst);
    expect_eq!(rt; start_successor(rt, all.alloc, all.epochs, TURNS), Ok((0, 1)));
}

/// A visit is to the successor.
fn come<R: Wait + Abort>(rt: &R, all: &All<'_>) {
    pause_after(rt, all.asked);
    all.came.store(true, Ordering::SeqCst);
    if !all.stops {
        let epoch = enter(rt, all.epochs);
        expect_eq!(rt; epoch.before(), 1);
        drop(epoch);
    }
    all.epochs.stop(rt);
}

impl<R: Wait + Clock + Abort> Parts<R> for All<'_> {
    fn part(&self, rt: &R, number: u8) {
        match number {
            0 => apply_at(rt, self.epochs, 0, self.gate),
            1 => start(rt, self),
            2 => come(rt, self),
            _ => {
                pause_after(rt, self.came);
                self.gate.open();
            }
        }
    }
}

/// The successor is stopped too.
fn expect_stopped<R: Wait + Abort>(rt: &R, epochs: &Epochs) {
    let epoch = enter(rt, epochs);
    let answer = propose(rt, &epoch, &mut Session::new(), 1);
    expect_eq!(rt; answer, Err(Refusal::Stopped));
    drop(epoch);
}

fn try_one<R: Threads + Wait + Clock + Abort + Sync>(
    rt: &R,
    alloc: Global,
    stops: bool,
) -> Result<(), Fail> {
    let gate = HoldingGate::new(Held::BeforeApply, TRIES);
    let epochs = opened(alloc, &SITES, 100)?;
    let all = All {
        alloc,
        epochs: &epochs,
        gate: &gate,
        asked: &AtomicBool::new(false),
        came: &AtomicBool::new(false),
        stops,
    };
    do_four(rt, &all, 0);
    expect_stopped(rt, &epochs);
    expect_eq!(rt; close(rt, epochs), Ok((1, 0)));
    Ok(())
}

// shows: successors
#[test]
fn a_visit_waits_until_a_successor_is_open(rt: HostRuntime) -> Result<(), Fail> {
    try_one(&rt, rt.alloc(), false)
}

// shows: stops of epochs
#[test]
fn a_stop_waits_until_a_successor_is_open(rt: HostRuntime) -> Result<(), Fail> {
    try_one(&rt, rt.alloc(), true)
}

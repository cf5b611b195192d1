//! An archive that takes its time. Meanwhile visits begin in the successor, up to its last update.
use crate::fixtures::{apply_at, close, enter, opened, propose};
use ordup_cluster::{Closed, OpenGate, Session};
use ordup_epochs::{Archive, Epochs};
use std::alloc::Global;
use std::process::Abort;
use std::sync::Wait;
use std::sync::atomic::{AtomicBool, Ordering};
use std::test::Fail;
use std::time::Clock;
use test_cluster_fixtures::{Parts, TRIES, TURNS, do_four, is_raised_within};
use test_fixtures::{Site, expect, expect_eq};

/// The site a waits for nobody.
const SITES: [Site; 1] = [("a", 4, None)];

/// Lets go of an epoch once a visit to a successor has made its update.
#[derive(Drop)]
struct SlowArchive<'a> {
    visited: &'a AtomicBool,
    gave_up: bool,
}

impl Archive for SlowArchive<'_> {
    fn add<R: Wait>(&mut self, _rt: &R, ended: Closed) {
        ended.discard();
        self.gave_up = self.gave_up || !is_raised_within(self.visited, TRIES);
    }
}

/// What the threads share: a service whose epochs end after one update.
#[derive(Clone, Copy)]
struct All<'a> {
    alloc: Global,
    epochs: &'a Epochs,
    /// Raised once the successor has its update.
    visited: &'a AtomicBool,
}

fn keep<R: Wait + Clock + Abort>(rt: &R, all: &All<'_>) {
    let mut archive = SlowArchive {
        visited: all.visited,
        gave_up: false,
    };
    expect_eq!(rt; all.epochs.keep(rt, all.alloc, TURNS, &mut archive), Ok(2));
    expect!(rt; !archive.gave_up);
}

/// The one update of each of two epochs, and a visit to the third.
fn call<R: Wait + Abort>(rt: &R, all: &All<'_>) {
    for number in 1..=2u64 {
        let epoch = enter(rt, all.epochs);
        expect_eq!(rt; propose(rt, &epoch, &mut Session::new(), TURNS), Ok(number));
        drop(epoch);
    }
    all.visited.store(true, Ordering::SeqCst);
    drop(enter(rt, all.epochs));
    all.epochs.stop(rt);
}

/// The applier of a, `keep`, and the caller.
impl<R: Wait + Clock + Abort> Parts<R> for All<'_> {
    fn part(&self, rt: &R, number: u8) {
        match number {
            0 => apply_at(rt, self.epochs, 0, &OpenGate),
            1 => keep(rt, self),
            2 => call(rt, self),
            _ => {}
        }
    }
}

// shows: archives; visits
#[test]
fn visits_begin_while_an_archive_writes(rt: HostRuntime) -> Result<(), Fail> {
    let epochs = opened(rt.alloc(), &SITES, 1)?;
    let all = All {
        alloc: rt.alloc(),
        epochs: &epochs,
        visited: &AtomicBool::new(false),
    };
    do_four(&rt, &all, 0);
    expect_eq!(&rt; close(&rt, epochs), Ok((2, 0)));
    Ok(())
}

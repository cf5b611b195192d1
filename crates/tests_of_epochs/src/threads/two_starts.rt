//! A caller and `keep` both want the successor of one epoch, and wait until a visit has ended. It is started once, and `keep` counts
//! it where it was the one.
use crate::fixtures::{apply_at, close, enter, opened, propose, start_successor};
use ordup_cluster::{OpenGate, Session};
use ordup_epochs::{Epochs, NoArchive};
use std::alloc::Global;
use std::process::Abort;
use std::sync::Wait;
use std::sync::atomic::{AtomicBool, AtomicU64, Ordering};
use std::test::Fail;
use std::thread;
use std::time::{Clock, Duration};
use test_cluster_fixtures::{Parts, TRIES, TURNS, do_four, is_raised_within};
use test_fixtures::{Site, expect, expect_eq};

/// The site a waits for nobody.
const SITES: [Site; 1] = [("a", 4, None)];

/// How often it is tried, since the lock says which of the two comes first.
const ROUNDS: u64 = 8;

/// For how many milliseconds a thread sleeps, while another one is to come to its wait.
const PAUSE: u64 = 10;

#[derive(Clone, Copy)]
struct All<'a> {
    alloc: Global,
    epochs: &'a Epochs,
    /// Raised once the visit has begun.
    visited: &'a AtomicBool,
    /// Raised as the caller comes to the successor.
    asked: &'a AtomicBool,
    /// How many updates came before the epoch that the caller ended.
    before: &'a AtomicU64,
}

fn pause<R: Wait + Clock>(rt: &R) {
    thread::sleep(rt, Duration::from_millis(PAUSE));
}

/// The visit makes the one update of its epoch once the caller waits for its end, and goes on until `keep` does too.
fn visit<R: Wait + Clock + Abort>(rt: &R, all: &All<'_>) {
    let epoch = enter(rt, all.epochs);
    all.visited.store(true, Ordering::SeqCst);
    expect!(rt; is_raised_within(all.asked, TRIES));
    pause(rt);
    expect_eq!(rt; propose(rt, &epoch, &mut Session::new(), TURNS), Ok(1));
    pause(rt);
    drop(epoch);
}

fn start<R: Wait + Clock + Abort>(rt: &R, all: &All<'_>) {
    expect!(rt; is_raised_within(all.visited, TRIES));
    all.asked.store(true, Ordering::SeqCst);
    match start_successor(rt, all.alloc, all.epochs, TURNS) {
        Ok((before, _)) => all.before.store(before, Ordering::SeqCst),
        Err(refusal) => panic!(rt; "a successor is refused: {refusal}"),
    }
    pause(rt);
    all.epochs.stop(rt);
}

/// The applier of a, `keep`, the visit, and the caller. If the caller ended the first epoch, before which nothing came, `keep` started
/// no successor, and else one.
impl<R: Wait + Clock + Abort> Parts<R> for All<'_> {
    fn part(&self, rt: &R, number: u8) {
        match number {
            0 => apply_at(rt, self.epochs, 0, &OpenGate),
            1 => {
                let kept = self.epochs.keep(rt, self.alloc, TURNS, &mut NoArchive);
                expect_eq!(rt; kept, Ok(self.before.load(Ordering::SeqCst)));
            }
            2 => visit(rt, self),
            _ => start(rt, self),
        }
    }
}

// shows: the updates of an epoch; successors
#[test]
fn two_that_want_a_successor_start_one(rt: HostRuntime) -> Result<(), Fail> {
    for _ in 0..ROUNDS {
        let epochs = opened(rt.alloc(), &SITES, 1)?;
        let all = All {
            alloc: rt.alloc(),
            epochs: &epochs,
            visited: &AtomicBool::new(false),
            asked: &AtomicBool::new(false),
            before: &AtomicU64::new(0),
        };
        do_four(&rt, &all, 0);
        expect_eq!(&rt; close(&rt, epochs), Ok((1, 0)));
    }
    Ok(())
}

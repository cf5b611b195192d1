//! `stop` wakes all that sleep without a limit in time in a service in which each store has a successor: the appliers, `keep`, and
//! the callers that wait for a successor.
use crate::fixtures::{apply_at, close, enter, opened, propose};
use ordup_cluster::{OpenGate, Session};
use ordup_epochs::{Epochs, NoArchive};
use ordup_objects::Refusal;
use std::alloc::Global;
use std::process::Abort;
use std::sync::Wait;
use std::sync::atomic::{AtomicBool, Ordering};
use std::test::Fail;
use std::thread;
use std::time::Clock;
use test_cluster_fixtures::{Parts, TRIES, do_eight, is_raised_within};
use test_fixtures::{Site, expect, expect_eq};

/// How often a thread yields, while the others are to come to their sleep.
const PAUSE: u64 = 1_000;

/// Neither site waits for anybody.
const FREE: [Site; 2] = [("a", 4, None), ("b", 4, None)];

/// A service whose epochs end after one update.
#[derive(Clone, Copy)]
struct Service<'a> {
    alloc: Global,
    epochs: &'a Epochs,
    /// `keep` runs. Else nobody starts a successor, and callers wait for it.
    is_kept: bool,
    /// Each is raised as its caller comes to the wait for a successor.
    came: (&'a AtomicBool, &'a AtomicBool),
}

/// Waits for a successor, which does not come: the visit is to the one that is stopped.
fn enter_in_vain<R: Wait + Abort>(rt: &R, epochs: &Epochs, came: &AtomicBool) {
    came.store(true, Ordering::SeqCst);
    let epoch = enter(rt, epochs);
    expect_eq!(rt; epoch.before(), 0);
    let answer = propose(rt, &epoch, &mut Session::new(), 1);
    expect_eq!(rt; answer, Err(Refusal::Stopped));
    drop(epoch);
}

/// The one update of the first epoch.
fn propose_one<R: Wait + Abort>(rt: &R, epochs: &Epochs) {
    let epoch = enter(rt, epochs);
    expect_eq!(rt; propose(rt, &epoch, &mut Session::new(), 1), Ok(1));
    drop(epoch);
}

/// Stops the service once the successor is open, or once the callers wait for it.
fn stop<R: Wait + Abort>(rt: &R, all: &Service<'_>) {
    if all.is_kept {
        let epoch = enter(rt, all.epochs);
        expect_eq!(rt; epoch.before(), 1);
        drop(epoch);
    } else {
        expect!(rt; is_raised_within(all.came.0, TRIES));
        expect!(rt; is_raised_within(all.came.1, TRIES));
    }
    for _ in 0..PAUSE {
        thread::yield_now();
    }
    all.epochs.stop(rt);
}

/// The appliers, `keep`, two callers, and who stops the service.
impl<R: Wait + Clock + Abort> Parts<R> for Service<'_> {
    fn part(&self, rt: &R, number: u8) {
        match number {
            0 | 1 => apply_at(rt, self.epochs, number, &OpenGate),
            2 if self.is_kept =>
                expect_eq!(rt; self.epochs.keep(rt, self.alloc, 1, &mut NoArchive), Ok(1)),
            3 if !self.is_kept => enter_in_vain(rt, self.epochs, self.came.0),
            4 if !self.is_kept => enter_in_vain(rt, self.epochs, self.came.1),
            5 => stop(rt, self),
            _ => {}
        }
    }
}

// shows: stops of epochs
#[test]
fn a_stop_wakes_all_that_sleep_in_the_epochs(rt: HostRuntime) -> Result<(), Fail> {
    for is_kept in [true, false] {
        let epochs = opened(rt.alloc(), &FREE, 1)?;
        propose_one(&rt, &epochs);
        let (first, second) = (AtomicBool::new(false), AtomicBool::new(false));
        let came = (&first, &second);
        let all = Service {
            alloc: rt.alloc(),
            epochs: &epochs,
            is_kept,
            came,
        };
        do_eight(&rt, &all);
        expect!(&rt; close(&rt, epochs).is_ok());
    }
    Ok(())
}

//! A successor that a caller asks for while `keep` runs. `keep` starts none in its place: the successor goes on until it has its
//! updates.
use crate::fixtures::{apply_at, close, enter, opened, propose, start_successor};
use ordup_cluster::{OpenGate, Session};
use ordup_epochs::{Epochs, NoArchive};
use std::alloc::Global;
use std::process::Abort;
use std::sync::Wait;
use std::test::Fail;
use std::thread;
use std::time::{Clock, Duration};
use test_cluster_fixtures::{Parts, TURNS, do_four};
use test_fixtures::{Site, expect_eq};

/// Nobody waits for the site a.
const SITES: [Site; 1] = [("a", 4, None)];

/// What the threads share: a service whose epochs end after two updates.
#[derive(Clone, Copy)]
struct All<'a> {
    alloc: Global,
    epochs: &'a Epochs,
}

/// Adds 1 to x in the epoch before which so many updates came. Then the other threads come to their sleep.
fn propose_one<R: Wait + Clock + Abort>(rt: &R, epochs: &Epochs, before: u64, number: u64) {
    let epoch = enter(rt, epochs);
    expect_eq!(rt; epoch.before(), before);
    expect_eq!(rt; propose(rt, &epoch, &mut Session::new(), TURNS), Ok(number));
    drop(epoch);
    thread::sleep(rt, Duration::from_millis(50));
}

/// The first epoch ends by hand, after one update. The second one has one too, as the service is stopped.
fn call<R: Wait + Clock + Abort>(rt: &R, all: &All<'_>) {
    propose_one(rt, all.epochs, 0, 1);
    expect_eq!(rt; start_successor(rt, all.alloc, all.epochs, TURNS), Ok((0, 1)));
    propose_one(rt, all.epochs, 1, 2);
    all.epochs.stop(rt);
}

/// The applier of a, `keep`, and the caller.
impl<R: Wait + Clock + Abort> Parts<R> for All<'_> {
    fn part(&self, rt: &R, number: u8) {
        match number {
            0 => apply_at(rt, self.epochs, 0, &OpenGate),
            1 => expect_eq!(rt; self.epochs.keep(rt, self.alloc, TURNS, &mut NoArchive), Ok(0)),
            2 => call(rt, self),
            _ => {}
        }
    }
}

// shows: the updates of an epoch; successors
#[test]
fn a_successor_by_hand_is_not_started_again_by_keep(rt: HostRuntime) -> Result<(), Fail> {
    let epochs = opened(rt.alloc(), &SITES, 2)?;
    let all = All {
        alloc: rt.alloc(),
        epochs: &epochs,
    };
    do_four(&rt, &all, 0);
    expect_eq!(&rt; close(&rt, epochs), Ok((1, 1)));
    Ok(())
}

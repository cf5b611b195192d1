//! Epochs that are to have four updates each, of which they may have two: already the first one ends after two.
use crate::fixtures::{apply_at, close, enter, opened_with_most, propose};
use ordup_cluster::{OpenGate, Session};
use ordup_epochs::{Epochs, NoArchive};
use std::alloc::Global;
use std::process::Abort;
use std::sync::Wait;
use std::test::Fail;
use std::time::Clock;
use test_cluster_fixtures::{Parts, TURNS, do_four};
use test_fixtures::{Site, expect_eq};

/// The site a waits for nobody.
const SITES: [Site; 1] = [("a", 4, None)];

#[derive(Clone, Copy)]
struct All<'a> {
    alloc: Global,
    epochs: &'a Epochs,
}

/// An update of an epoch before which so many came.
fn propose_after<R: Wait + Abort>(rt: &R, epochs: &Epochs, before: u64, number: u64) {
    let epoch = enter(rt, epochs);
    expect_eq!(rt; epoch.before(), before);
    expect_eq!(rt; propose(rt, &epoch, &mut Session::new(), TURNS), Ok(number));
    drop(epoch);
}

/// The applier of a, `keep`, and a caller.
impl<R: Wait + Clock + Abort> Parts<R> for All<'_> {
    fn part(&self, rt: &R, number: u8) {
        match number {
            0 => apply_at(rt, self.epochs, 0, &OpenGate),
            1 => expect_eq!(rt; self.epochs.keep(rt, self.alloc, TURNS, &mut NoArchive), Ok(1)),
            2 => {
                propose_after(rt, self.epochs, 0, 1);
                propose_after(rt, self.epochs, 0, 2);
                propose_after(rt, self.epochs, 2, 3);
                self.epochs.stop(rt);
            }
            _ => {}
        }
    }
}

// shows: the updates of an epoch
#[test]
fn the_first_epoch_ends_at_its_most(rt: HostRuntime) -> Result<(), Fail> {
    let epochs = opened_with_most(rt.alloc(), &SITES, 4, 2)?;
    let all = All {
        alloc: rt.alloc(),
        epochs: &epochs,
    };
    do_four(&rt, &all, 0);
    expect_eq!(&rt; close(&rt, epochs), Ok((2, 1)));
    Ok(())
}

//! Before a successor starts, what found a feed full is sent: at the end of an epoch its site has applied all updates, though none
//! waited for it.
use crate::fixtures::{apply_at, close, enter, opened, propose};
use ordup_cluster::Session;
use ordup_epochs::Epochs;
use std::alloc::Global;
use std::process::Abort;
use std::sync::Wait;
use std::test::Fail;
use test_cluster_fixtures::{Held, HoldingGate, Parts, TRIES, TURNS, do_two};
use test_fixtures::{Site, a, expect, expect_eq};

/// How many updates the epoch has.
const UPDATES: u64 = 20;

/// The feed of a can hold one update, and no update waits for it.
const SITES: [Site; 1] = [("a", 1, None)];

/// What the threads share.
#[derive(Clone, Copy)]
struct All<'a> {
    alloc: Global,
    epochs: &'a Epochs,
    /// It holds a before the first update.
    gate: &'a HoldingGate,
}

/// All updates but the first find the feed full.
fn propose_all<R: Wait + Abort>(rt: &R, epochs: &Epochs) {
    let epoch = enter(rt, epochs);
    let mut session = Session::new();
    for number in 1..=UPDATES {
        expect_eq!(rt; propose(rt, &epoch, &mut session, 1), Ok(number));
    }
    drop(epoch);
}

/// Starts the successor, once a may go on.
fn start<R: Wait + Abort>(rt: &R, all: &All<'_>) {
    propose_all(rt, all.epochs);
    all.gate.open();
    let Ok(ended) = all.epochs.start_successor(rt, all.alloc, TURNS) else {
        panic!(rt; "a successor is refused")
    };
    let primary = ended.primary();
    primary.keeps();
    expect!(rt; primary.setup().sites() > 0);
    expect_eq!(rt; ended.site(a()).applied(), UPDATES);
    ended.discard();
    all.epochs.stop(rt);
}

/// The applier of a, and who proposes and starts the successor.
impl<R: Wait + Abort> Parts<R> for All<'_> {
    fn part(&self, rt: &R, number: u8) {
        if number == 0 {
            apply_at(rt, self.epochs, 0, self.gate);
        } else {
            start(rt, self);
        }
    }
}

// shows: successors
#[test]
fn what_found_a_feed_full_is_sent_before_a_successor(rt: HostRuntime) -> Result<(), Fail> {
    let gate = HoldingGate::new(Held::BeforeApply, TRIES);
    let epochs = opened(rt.alloc(), &SITES, 100)?;
    let all = All {
        alloc: rt.alloc(),
        epochs: &epochs,
        gate: &gate,
    };
    do_two(&rt, &all, 0);
    expect!(&rt; !gate.gave_up());
    expect_eq!(&rt; close(&rt, epochs), Ok((UPDATES, 0)));
    Ok(())
}

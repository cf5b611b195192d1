//! `keep` starts a successor as soon as an epoch has its updates, not before and not later, and counts them. An applier counts what
//! it applied in all epochs. Where successors are refused, an epoch has at most as many updates as it may have, and then visits
//! wait.
use crate::counting::keep_counted;
use crate::fixtures::{close, enter, opened, opened_with_most, propose};
use crate::promises::applier;
use ordup_cluster::Session;
use ordup_epochs::Epochs;
use ordup_limits::Scope;
use ordup_objects::Refusal;
use std::alloc::Global;
use std::process::Abort;
use std::sync::Wait;
use std::sync::atomic::{AtomicBool, Ordering};
use std::test::Fail;
use std::thread;
use std::time::{Clock, Duration};
use test_cluster_fixtures::promises::settle;
use test_cluster_fixtures::{Held, HoldingGate, Parts, TRIES, TURNS, do_four, is_raised_within};
use test_fixtures::{Site, a, expect, expect_eq};

/// The site a may not lag at all.
const SITES: [Site; 1] = [("a", 4, Some((Scope::All, 0)))];

/// How often a thread yields, while another one is to come to its wait.
const PAUSE: u64 = 10_000;

/// What the caller does.
#[derive(Clone, Copy, PartialEq, Eq)]
enum Calls {
    /// It proposes three updates, each in an epoch of its own.
    InTurn,
    /// It opens the gate once a successor was refused after each of two updates.
    AfterRefusals,
    /// It proposes two updates, and then waits for the successor.
    UntilFull,
}

#[derive(Clone, Copy)]
struct All<'a> {
    alloc: Global,
    epochs: &'a Epochs,
    gate: &'a HoldingGate,
    calls: Calls,
    /// How many successors `keep` starts, and how many epochs it puts into its archive.
    successors: u64,
    /// Raised as the caller comes to the wait for the successor.
    waits: &'a AtomicBool,
}

/// Three updates, each in an epoch of its own, and a fourth epoch without any.
fn call_in_turn<R: Wait + Clock + Abort>(rt: &R, epochs: &Epochs) {
    let mut session = Session::new();
    for number in 1..=3u64 {
        let epoch = enter(rt, epochs);
        expect_eq!(rt; epoch.before().saturating_add(1), number);
        expect_eq!(rt; propose(rt, &epoch, &mut session, TURNS), Ok(number));
        drop(epoch);
    }
    expect_before(rt, epochs, 3);
    thread::sleep(rt, Duration::from_millis(50));
    epochs.stop(rt);
}

/// A visit is to the epoch before which so many updates came.
fn expect_before<R: Wait + Abort>(rt: &R, epochs: &Epochs, before: u64) {
    let epoch = enter(rt, epochs);
    expect_eq!(rt; epoch.before(), before);
    drop(epoch);
}

/// Two updates that wait for a, the second after a refused successor.
fn propose_two<R: Wait + Abort>(rt: &R, epochs: &Epochs, session: &mut Session) {
    for number in 1..=2u64 {
        let epoch = enter(rt, epochs);
        expect_eq!(rt; epoch.before(), 0);
        expect_eq!(rt; propose(rt, &epoch, session, 1), Err(Refusal::NotYet { number }));
        drop(epoch);
    }
}

/// Two successors are refused. Once a goes on, a third update is of the same epoch.
fn call_after_refusals<R: Wait + Abort>(rt: &R, epochs: &Epochs, gate: &HoldingGate) {
    let mut session = Session::new();
    propose_two(rt, epochs, &mut session);
    let epoch = enter(rt, epochs);
    expect_eq!(rt; epoch.before(), 0);
    gate.open();
    expect_eq!(rt; settle(rt, &epoch, &mut session, 2, TURNS), Ok(()));
    expect_eq!(rt; propose(rt, &epoch, &mut session, TURNS), Ok(3));
    drop(epoch);
    expect_before(rt, epochs, 3);
    epochs.stop(rt);
}

/// Two updates fill the epoch. The third one is of the successor, which starts once a goes on.
fn call_until_full<R: Wait + Abort>(rt: &R, epochs: &Epochs, waits: &AtomicBool) {
    let mut session = Session::new();
    propose_two(rt, epochs, &mut session);
    waits.store(true, Ordering::SeqCst);
    let epoch = enter(rt, epochs);
    expect_eq!(rt; epoch.before(), 2);
    expect_eq!(rt; propose(rt, &epoch, &mut session, TURNS), Ok(3));
    drop(epoch);
    expect_before(rt, epochs, 3);
    epochs.stop(rt);
}

fn keep<R: Wait + Clock + Abort>(rt: &R, all: &All<'_>) {
    match keep_counted(rt, all.epochs, all.alloc, 1) {
        Ok((kept, archived)) => {
            expect_eq!(rt; kept, all.successors);
            expect_eq!(rt; archived, all.successors);
        }
        Err(refusal) => panic!(rt; "`keep` is refused: {refusal}"),
    }
}

/// The applier of a, `keep`, the caller, and who opens the gate for a caller that waits.
impl<R: Wait + Clock + Abort> Parts<R> for All<'_> {
    fn part(&self, rt: &R, number: u8) {
        match number {
            0 => expect_eq!(rt; applier(rt, self.epochs, a(), self.gate), Ok(3)),
            1 => keep(rt, self),
            2 => match self.calls {
                Calls::InTurn => call_in_turn(rt, self.epochs),
                Calls::AfterRefusals => call_after_refusals(rt, self.epochs, self.gate),
                Calls::UntilFull => call_until_full(rt, self.epochs, self.waits),
            },
            _ if self.calls == Calls::UntilFull => {
                expect!(rt; is_raised_within(self.waits, TRIES));
                for _ in 0..PAUSE {
                    thread::yield_now();
                }
                self.gate.open();
            }
            _ => {}
        }
    }
}

// shows: the updates of an epoch
#[test]
fn an_epoch_ends_with_its_last_update(rt: HostRuntime) -> Result<(), Fail> {
    let gate = HoldingGate::new(Held::BeforeApply, TRIES);
    gate.open();
    let epochs = opened(rt.alloc(), &SITES, 1)?;
    let all = All {
        alloc: rt.alloc(),
        epochs: &epochs,
        gate: &gate,
        calls: Calls::InTurn,
        successors: 3,
        waits: &AtomicBool::new(false),
    };
    do_four(&rt, &all, 0);
    expect_eq!(&rt; close(&rt, epochs), Ok((3, 0)));
    Ok(())
}

// shows: the updates of an epoch; refused successors
#[test]
fn a_refused_successor_is_not_counted(rt: HostRuntime) -> Result<(), Fail> {
    let gate = HoldingGate::new(Held::BeforeApply, TRIES);
    let epochs = opened(rt.alloc(), &SITES, 1)?;
    let all = All {
        alloc: rt.alloc(),
        epochs: &epochs,
        gate: &gate,
        calls: Calls::AfterRefusals,
        successors: 1,
        waits: &AtomicBool::new(false),
    };
    do_four(&rt, &all, 0);
    expect_eq!(&rt; close(&rt, epochs), Ok((3, 0)));
    Ok(())
}

// shows: the updates of an epoch; refused successors
#[test]
fn a_full_epoch_ends_once_its_site_goes_on(rt: HostRuntime) -> Result<(), Fail> {
    let gate = HoldingGate::new(Held::BeforeApply, TRIES);
    let epochs = opened_with_most(rt.alloc(), &SITES, 1, 2)?;
    let all = All {
        alloc: rt.alloc(),
        epochs: &epochs,
        gate: &gate,
        calls: Calls::UntilFull,
        successors: 2,
        waits: &AtomicBool::new(false),
    };
    do_four(&rt, &all, 0);
    expect_eq!(&rt; close(&rt, epochs), Ok((3, 0)));
    Ok(())
}

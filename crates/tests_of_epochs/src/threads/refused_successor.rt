//! A successor that is refused while a site is held, and what is told of the update that waits for the site: before the successor
//! is started, and after that.
use crate::fixtures::{apply_at, close, enter, opened, propose, start_successor};
use ordup_cluster::Session;
use ordup_epochs::Epochs;
use ordup_limits::Scope;
use ordup_objects::Refusal;
use std::alloc::Global;
use std::process::Abort;
use std::sync::Wait;
use std::test::Fail;
use test_cluster_fixtures::promises::{read_at, settle};
use test_cluster_fixtures::{Held, HoldingGate, Parts, TRIES, TURNS, do_two, seen};
use test_fixtures::{a, expect, expect_eq, x};

/// The update that waits for a.
const WAITS: Refusal = Refusal::NotYet { number: 1 };

/// Waits for an update by one turn, and sees this answer. The session has then seen this count of updates.
fn expect_settled<R: Wait + Abort>(
    rt: &R,
    epochs: &Epochs,
    number: u64,
    answer: Result<(), Refusal>,
    seen: u64,
) {
    let epoch = enter(rt, epochs);
    let mut session = Session::new();
    expect_eq!(rt; settle(rt, &epoch, &mut session, number, 1), answer);
    expect_eq!(rt; session.seen(), seen);
    drop(epoch);
}

/// Proposes an update that waits for a, by one turn.
fn propose_one<R: Wait + Abort>(rt: &R, epochs: &Epochs) {
    let epoch = enter(rt, epochs);
    expect_eq!(rt; propose(rt, &epoch, &mut Session::new(), 1), Err(WAITS));
    drop(epoch);
}

/// Proposes the next update, which a applies, in a session that reads it there.
fn propose_next<R: Wait + Abort>(rt: &R, epochs: &Epochs) {
    let epoch = enter(rt, epochs);
    let mut session = Session::new();
    expect_eq!(rt; propose(rt, &epoch, &mut session, TURNS), Ok(2));
    expect_eq!(rt; read_at(rt, &epoch, &mut session, a(), x()), Ok(seen(2, 2)));
    drop(epoch);
}

/// The caller, who starts the successors too. Each epoch is to have one update. The first goes on after the refusal, for one more.
fn call<R: Wait + Abort>(rt: &R, alloc: Global, epochs: &Epochs, gate: &HoldingGate) {
    propose_one(rt, epochs);
    expect_eq!(rt; start_successor(rt, alloc, epochs, 1), Err(WAITS));
    expect_settled(rt, epochs, 1, Err(WAITS), 0);
    gate.open();
    expect_eq!(rt; start_successor(rt, alloc, epochs, TURNS), Ok((0, 1)));
    expect_settled(rt, epochs, 1, Ok(()), 1);
    expect_settled(rt, epochs, 2, Err(Refusal::OutOfRange), 0);
    propose_next(rt, epochs);
    epochs.stop(rt);
}

/// What the threads share.
#[derive(Clone, Copy)]
struct All<'a> {
    alloc: Global,
    epochs: &'a Epochs,
    gate: &'a HoldingGate,
}

/// The applier of a and the caller.
impl<R: Wait + Abort> Parts<R> for All<'_> {
    fn part(&self, rt: &R, number: u8) {
        if number == 0 {
            apply_at(rt, self.epochs, 0, self.gate);
        } else {
            call(rt, self.alloc, self.epochs, self.gate);
        }
    }
}

/// Starts a successor while the gate holds a, and after it is open.
// shows: Cluster::settle seen refused; refused successors; the last number
#[test]
fn an_update_that_waits_is_settled_in_the_successor(rt: HostRuntime) -> Result<(), Fail> {
    let gate = HoldingGate::new(Held::BeforeApply, TRIES);
    let sites = [("a", 1, Some((Scope::All, 0)))];
    let epochs = opened(rt.alloc(), &sites, 1)?;
    let all = All {
        alloc: rt.alloc(),
        epochs: &epochs,
        gate: &gate,
    };
    do_two(&rt, &all, 0);
    expect!(&rt; !gate.gave_up());
    expect_eq!(&rt; close(&rt, epochs), Ok((1, 1)));
    Ok(())
}

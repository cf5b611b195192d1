//! The second epoch, on one thread: how many updates came before changes nothing of when a call makes a turn, or a successor is
//! refused.
use super::fixtures::{close, enter, opened, propose, start_successor};
use super::promises::applier;
use ordup_cluster::{OpenGate, Session};
use ordup_epochs::Epochs;
use ordup_limits::Scope;
use ordup_objects::Refusal;
use std::alloc::Global;
use std::process::Abort;
use std::sync::Wait;
use std::test::Fail;
use test_cluster_fixtures::promises::{read_at, settle};
use test_cluster_fixtures::seen;
use test_fixtures::{Site, a, expect_eq, x};

/// The feed of a can hold one update, and no update waits for it.
const FULL: [Site; 1] = [("a", 1, None)];

/// The site a may lag by one update.
const WAITED_FOR: [Site; 1] = [("a", 4, Some((Scope::Count, 1)))];

/// Adds 1 to x, by one turn.
fn expect_proposed<R: Wait + Abort>(rt: &R, epochs: &Epochs, answer: Result<u64, Refusal>) {
    let epoch = enter(rt, epochs);
    expect_eq!(rt; propose(rt, &epoch, &mut Session::new(), 1), answer);
    drop(epoch);
}

/// Opens the second epoch, before which one update came.
fn opened_after_one<R: Wait + Abort>(
    rt: &R,
    alloc: Global,
    sites: &[Site],
) -> Result<Epochs, Refusal> {
    let epochs = opened(alloc, sites, 8)?;
    expect_proposed(rt, &epochs, Ok(1));
    expect_eq!(rt; start_successor(rt, alloc, &epochs, 1), Ok((0, 1)));
    Ok(epochs)
}

/// Waits for two updates that are acknowledged, of which a has applied the first.
fn settle_both<R: Wait + Abort>(rt: &R, epochs: &Epochs) {
    let epoch = enter(rt, epochs);
    let session = &mut Session::new();
    expect_eq!(rt; settle(rt, &epoch, session, 2, 1), Ok(()));
    expect_eq!(rt; read_at(rt, &epoch, session, a(), x()), Ok(seen(2, 2)));
    expect_eq!(rt; settle(rt, &epoch, session, 3, 1), Ok(()));
    drop(epoch);
}

/// To wait for an update that is acknowledged makes no turn: what found the feed full is not sent.
// shows: turns; the calls of an epoch
#[test]
fn an_acknowledged_update_of_a_later_epoch_takes_no_turn(rt: HostRuntime) -> Result<(), Fail> {
    let epochs = opened_after_one(&rt, rt.alloc(), &FULL)?;
    expect_proposed(&rt, &epochs, Ok(2));
    expect_proposed(&rt, &epochs, Ok(3));
    epochs.stop(&rt);
    expect_eq!(&rt; applier(&rt, &epochs, a(), &OpenGate), Ok(1));
    settle_both(&rt, &epochs);
    expect_eq!(&rt; applier(&rt, &epochs, a(), &OpenGate), Ok(0));
    expect_eq!(&rt; close(&rt, epochs), Ok((1, 2)));
    Ok(())
}

/// A successor is refused where the last update is not acknowledged. The epoch goes on.
// shows: refused successors; the calls of an epoch
#[test]
fn a_later_epoch_goes_on_after_a_refused_successor(rt: HostRuntime) -> Result<(), Fail> {
    let epochs = opened_after_one(&rt, rt.alloc(), &WAITED_FOR)?;
    expect_proposed(&rt, &epochs, Ok(2));
    expect_proposed(&rt, &epochs, Err(Refusal::NotYet { number: 3 }));
    let waits = Err(Refusal::NotYet { number: 3 });
    expect_eq!(&rt; start_successor(&rt, rt.alloc(), &epochs, 1), waits);
    expect_proposed(&rt, &epochs, Err(Refusal::NotYet { number: 4 }));
    expect_eq!(&rt; close(&rt, epochs), Ok((1, 3)));
    Ok(())
}

//! A store whose callers rest. With a keeper it finishes: an update goes out that found a feed full, and one is acknowledged whose
//! caller gave up. Without one neither does, until somebody calls `finish`. Nobody else makes a turn here: a query that begins, and a
//! read, make none.
use crate::expect::made;
use crate::fixtures::{apply_at, opened};
use ordup_cluster::{Cluster, Session};
use ordup_limits::Scope;
use ordup_objects::Refusal;
use std::process::Abort;
use std::sync::Wait;
use std::sync::atomic::{AtomicBool, Ordering};
use std::test::Fail;
use std::thread;
use test_cluster_fixtures::promises::{begin, propose};
use test_cluster_fixtures::{Held, HoldingGate, Parts, TRIES, TURNS, do_four, is_raised_within};
use test_fixtures::{Site, a, add, expect, expect_eq, x};

/// How often a caller looks in vain.
const LOOKS: u64 = 10_000;

/// The feed of a can hold one update, and no update waits for it.
const FULL: [Site; 1] = [("a", 1, None)];

/// The site a may not lag.
const WAITED_FOR: [Site; 1] = [("a", 4, Some((Scope::All, 0)))];

/// What the caller does, and so what the store is to finish.
#[derive(Clone, Copy, PartialEq, Eq)]
enum Leaves {
    /// A second update, which finds the feed full.
    Unsent,
    /// An update that is not acknowledged.
    Unacknowledged,
}

/// What the threads share.
#[derive(Clone, Copy)]
struct All<'a> {
    cluster: &'a Cluster,
    /// It holds a before the first update.
    gate: &'a HoldingGate,
    leaves: Leaves,
    has_keeper: bool,
}

/// Adds 1 to x, by one turn.
fn expect_proposed<R: Wait + Abort>(
    rt: &R,
    cluster: &Cluster,
    session: &mut Session,
    answer: Result<u64, Refusal>,
) {
    let set = made(rt, add(cluster.objects(), x(), 1));
    expect_eq!(rt; propose(rt, cluster, session, set, 1), answer);
}

/// Looks whether so many updates are acknowledged, at most so often.
fn are_acked<R: Wait + Abort>(rt: &R, cluster: &Cluster, updates: u64, looks: u64) -> bool {
    for _ in 0..looks {
        let Ok(query) = begin(rt, cluster, a(), 0) else {
            panic!(rt; "a query is refused")
        };
        if query.end().place == updates {
            return true;
        }
        thread::yield_now();
    }
    false
}

/// Looks whether a has applied so many updates, at most so often.
fn are_applied<R: Wait + Abort>(rt: &R, cluster: &Cluster, updates: u64, looks: u64) -> bool {
    for _ in 0..looks {
        let Ok(read) = cluster.read(rt, &mut Session::new(), a(), x()) else {
            panic!(rt; "a read is refused")
        };
        if read.applied == updates {
            return true;
        }
        thread::yield_now();
    }
    false
}

/// Two updates, of which the second finds the feed full. It comes to a by the keeper, or by `finish`.
fn leave_unsent<R: Wait + Abort>(rt: &R, all: &All<'_>) {
    let mut session = Session::new();
    expect_proposed(rt, all.cluster, &mut session, Ok(1));
    expect_proposed(rt, all.cluster, &mut session, Ok(2));
    all.gate.open();
    if !all.has_keeper {
        expect!(rt; are_applied(rt, all.cluster, 1, TRIES));
        expect!(rt; !are_applied(rt, all.cluster, 2, LOOKS));
        all.cluster.finish(rt, TURNS);
    }
    expect!(rt; are_applied(rt, all.cluster, 2, TRIES));
}

/// An update that is not acknowledged by the one turn of its caller. It is by the keeper, or by `finish`.
fn leave_unacknowledged<R: Wait + Abort>(rt: &R, all: &All<'_>) {
    let waits = Err(Refusal::NotYet { number: 1 });
    expect_proposed(rt, all.cluster, &mut Session::new(), waits);
    all.gate.open();
    if !all.has_keeper {
        expect!(rt; are_applied(rt, all.cluster, 1, TRIES));
        expect!(rt; !are_acked(rt, all.cluster, 1, LOOKS));
        all.cluster.finish(rt, TURNS);
        expect!(rt; are_acked(rt, all.cluster, 1, 1));
    }
    expect!(rt; are_acked(rt, all.cluster, 1, TRIES));
}

/// The applier of a, the keeper if there is one, and the caller.
impl<R: Wait + Abort> Parts<R> for All<'_> {
    fn part(&self, rt: &R, number: u8) {
        match number {
            0 => {
                apply_at(rt, self.cluster, 0, self.gate);
            }
            1 if self.has_keeper => self.cluster.keeper(rt),
            2 => {
                match self.leaves {
                    Leaves::Unsent => leave_unsent(rt, self),
                    Leaves::Unacknowledged => leave_unacknowledged(rt, self),
                }
                self.cluster.stop();
            }
            _ => {}
        }
    }
}

// shows: turns
#[test]
fn an_update_that_found_a_feed_full_goes_out_by_a_keeper_alone(
    rt: HostRuntime,
) -> Result<(), Fail> {
    for has_keeper in [true, false] {
        let gate = HoldingGate::new(Held::BeforeApply, TRIES);
        let cluster = opened(rt.alloc(), &FULL)?;
        let all = All {
            cluster: &cluster,
            gate: &gate,
            leaves: Leaves::Unsent,
            has_keeper,
        };
        do_four(&rt, &all, 0);
        expect!(&rt; !gate.gave_up());
        cluster.discard();
    }
    Ok(())
}

// shows: turns
#[test]
fn an_update_whose_caller_gave_up_is_acknowledged_by_a_keeper_alone(
    rt: HostRuntime,
) -> Result<(), Fail> {
    for has_keeper in [true, false] {
        let gate = HoldingGate::new(Held::BeforeApply, TRIES);
        let cluster = opened(rt.alloc(), &WAITED_FOR)?;
        let all = All {
            cluster: &cluster,
            gate: &gate,
            leaves: Leaves::Unacknowledged,
            has_keeper,
        };
        do_four(&rt, &all, 0);
        expect!(&rt; !gate.gave_up());
        cluster.discard();
    }
    Ok(())
}

/// A keeper until the store has two updates, and who proposes them.
#[derive(Clone, Copy)]
struct UntilTwo<'a> {
    cluster: &'a Cluster,
    gate: &'a HoldingGate,
    /// Raised once the keeper has ended.
    ended: &'a AtomicBool,
}

/// The second update ends the keeper, and the first does not, for all that it can be seen.
fn propose_two<R: Wait + Abort>(rt: &R, all: &UntilTwo<'_>) {
    let waits = Err(Refusal::NotYet { number: 1 });
    expect_proposed(rt, all.cluster, &mut Session::new(), waits);
    all.gate.open();
    expect!(rt; are_acked(rt, all.cluster, 1, TRIES));
    expect!(rt; !is_raised_within(all.ended, LOOKS));
    let waits = Err(Refusal::NotYet { number: 2 });
    expect_proposed(rt, all.cluster, &mut Session::new(), waits);
    expect!(rt; is_raised_within(all.ended, TRIES));
    all.cluster.stop();
}

impl<R: Wait + Abort> Parts<R> for UntilTwo<'_> {
    fn part(&self, rt: &R, number: u8) {
        match number {
            0 => {
                apply_at(rt, self.cluster, 0, self.gate);
            }
            1 => {
                self.cluster.keeper_until(rt, 2);
                self.ended.store(true, Ordering::SeqCst);
            }
            2 => propose_two(rt, self),
            _ => {}
        }
    }
}

// shows: turns
#[test]
fn a_keeper_ends_once_the_store_has_its_updates(rt: HostRuntime) -> Result<(), Fail> {
    let gate = HoldingGate::new(Held::BeforeApply, TRIES);
    let cluster = opened(rt.alloc(), &WAITED_FOR)?;
    let all = UntilTwo {
        cluster: &cluster,
        gate: &gate,
        ended: &AtomicBool::new(false),
    };
    do_four(&rt, &all, 0);
    cluster.discard();
    Ok(())
}

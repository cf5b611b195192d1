//! Four callers, two sites and a reader, over many epochs. Each update adds 1 to x, so after k updates x is k, in whatever epoch.
use crate::fixtures::{apply_at, close, enter, opened, propose, start_successor};
use ordup_cluster::{Gate, OpenGate, SeenValue, Session};
use ordup_epochs::Epochs;
use ordup_limits::Scope;
use ordup_objects::{Refusal, SiteId};
use std::alloc::Global;
use std::process::Abort;
use std::sync::Wait;
use std::sync::atomic::{AtomicU64, Ordering};
use std::test::Fail;
use std::thread;
use test_cluster_fixtures::promises::read_at;
use test_cluster_fixtures::{Parts, TRIES, TURNS, do_eight};
use test_fixtures::{Site, expect, expect_eq, x};

/// How many updates each of the four callers proposes.
const SETS: u64 = 500;

/// After how many updates an epoch ends. It may have three more: the callers whose visits have begun by then.
const UPDATES: u64 = 50;

/// The site a may lag by 8 updates, and b by any number.
const SITES: [Site; 2] = [("a", 4, Some((Scope::Count, 8))), ("b", 4, None)];

/// What the threads tell each other.
#[derive(Drop)]
struct Shared {
    /// The greatest number of an update that a caller was told.
    told: AtomicU64,
    /// How many callers have ended.
    ended: AtomicU64,
    /// How many successors were started.
    successors: AtomicU64,
    /// The greatest number that the gate of a was told.
    at_a: AtomicU64,
    /// How often the gate of a was told a lower number than before.
    lower: AtomicU64,
}

/// Sees that the numbers of a rise over all epochs.
impl Gate for Shared {
    fn before_apply<R: Wait>(&self, _rt: &R, _site: SiteId, _number: u64) {}

    fn at_apply<R: Wait>(&self, _rt: &R, _site: SiteId, number: u64) {
        if self.at_a.fetch_max(number, Ordering::SeqCst) > number {
            self.lower.fetch_add(1, Ordering::SeqCst);
        }
    }
}

/// Proposes an update in a visit, and answers its number.
fn propose_one<R: Wait + Abort>(rt: &R, epochs: &Epochs, session: &mut Session) -> u64 {
    let epoch = enter(rt, epochs);
    let answer = propose(rt, &epoch, session, TURNS);
    drop(epoch);
    match answer {
        Ok(number) => number,
        Err(refusal) => panic!(rt; "a proposal is refused: {refusal}"),
    }
}

/// Reads x at a site in a visit. The session sees no older value than before, in whatever epoch that was.
fn read<R: Wait + Abort>(rt: &R, epochs: &Epochs, session: &mut Session, site: u8) {
    let seen = session.seen();
    let epoch = enter(rt, epochs);
    match read_at(rt, &epoch, session, SiteId::new(site), x()) {
        Ok(SeenValue { value, applied }) => {
            expect_eq!(rt; value, applied.min(1_000_000) as i64);
            expect!(rt; seen <= applied && epoch.before() <= applied);
        }
        Err(refusal) => {
            let Refusal::Behind { applied } = refusal else {
                panic!(rt; "a read is refused: {refusal}")
            };
            expect!(rt; applied < seen && epoch.before() <= applied);
        }
    }
    drop(epoch);
}

/// Proposes its updates, and reads after each. The caller that ends last stops the service.
fn call<R: Wait + Abort>(rt: &R, epochs: &Epochs, shared: &Shared) {
    let mut session = Session::new();
    for _ in 0..SETS {
        let last = session.seen();
        let number = propose_one(rt, epochs, &mut session);
        expect!(rt; last < number);
        shared.told.fetch_max(number, Ordering::SeqCst);
        read(rt, epochs, &mut session, (number % 2) as u8);
    }
    if shared.ended.fetch_add(1, Ordering::SeqCst) == 3 {
        epochs.stop(rt);
    }
}

/// Starts a successor after this count of updates, and answers how many there were then.
fn start_one<R: Wait + Abort>(
    rt: &R,
    alloc: Global,
    epochs: &Epochs,
    shared: &Shared,
    before: u64,
) -> u64 {
    match start_successor(rt, alloc, epochs, TURNS) {
        Ok((came, updates)) => {
            expect_eq!(rt; came, before);
            expect!(rt; UPDATES <= updates && updates <= UPDATES + 3);
            shared.successors.fetch_add(1, Ordering::SeqCst);
            before.saturating_add(updates)
        }
        Err(refusal) => {
            expect_eq!(rt; refusal, Refusal::Stopped);
            before
        }
    }
}

/// Starts a successor whenever an epoch has its updates, until all callers have ended.
fn start_all<R: Wait + Abort>(rt: &R, alloc: Global, epochs: &Epochs, shared: &Shared) {
    let mut before = 0u64;
    for _ in 0..TRIES {
        if shared.ended.load(Ordering::SeqCst) == 4 {
            return;
        }
        if shared.told.load(Ordering::SeqCst) >= before.saturating_add(UPDATES) {
            before = start_one(rt, alloc, epochs, shared, before);
        }
        thread::yield_now();
    }
    panic!(rt; "the callers do not end")
}

/// Reads at both sites in turn until all callers have ended.
fn watch<R: Wait + Abort>(rt: &R, epochs: &Epochs, shared: &Shared) {
    let mut session = Session::new();
    for i in 0..TRIES {
        read(rt, epochs, &mut session, (i % 2) as u8);
        if shared.ended.load(Ordering::SeqCst) == 4 {
            return;
        }
        thread::yield_now();
    }
    panic!(rt; "the callers do not end")
}

/// What the threads share.
#[derive(Clone, Copy)]
struct All<'a> {
    alloc: Global,
    epochs: &'a Epochs,
    shared: &'a Shared,
}

/// The two appliers, the thread that starts successors, the reader, and the four callers.
impl<R: Wait + Abort> Parts<R> for All<'_> {
    fn part(&self, rt: &R, number: u8) {
        match number {
            0 => apply_at(rt, self.epochs, 0, self.shared),
            1 => apply_at(rt, self.epochs, 1, &OpenGate),
            2 => start_all(rt, self.alloc, self.epochs, self.shared),
            3 => watch(rt, self.epochs, self.shared),
            _ => call(rt, self.epochs, self.shared),
        }
    }
}

/// All updates are there, in epochs of 50 to 53, and the gate of a was told of all but those by which a may lag.
fn expect_all(rt: &impl Abort, shared: &Shared, last: Result<(u64, u64), Refusal>) {
    let Ok((before, updates)) = last else {
        panic!(rt; "a site does not agree with the log")
    };
    expect_eq!(rt; before.saturating_add(updates), 2_000);
    let successors = shared.successors.load(Ordering::SeqCst);
    expect!(rt; 37 <= successors && successors <= 40);
    expect!(rt; shared.at_a.load(Ordering::SeqCst) >= 1_992);
    expect_eq!(rt; shared.lower.load(Ordering::SeqCst), 0);
}

/// Proposes and reads over some forty epochs.
// shows: Cluster::propose seen some; Cluster::read applied before seen; visits; the updates of an epoch; stops of epochs
// shows: the declarations of an epoch; the calls of an epoch; threads
#[test]
fn callers_sessions_and_sites_go_on_across_epochs(rt: HostRuntime) -> Result<(), Fail> {
    let epochs = opened(rt.alloc(), &SITES, UPDATES)?;
    let shared = Shared {
        told: AtomicU64::new(0),
        ended: AtomicU64::new(0),
        successors: AtomicU64::new(0),
        at_a: AtomicU64::new(0),
        lower: AtomicU64::new(0),
    };
    let all = All {
        alloc: rt.alloc(),
        epochs: &epochs,
        shared: &shared,
    };
    do_eight(&rt, &all);
    expect_all(&rt, &shared, close(&rt, epochs));
    Ok(())
}

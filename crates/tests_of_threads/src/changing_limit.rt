//! Four callers and a reader, while the limit of a site goes down and up again and again. Each update adds 1 to x, so after k
//! updates x is k.
//!
//! An update is acknowledged only where the site lags by no more than its limit in force then. So once a proposal is answered, the
//! site has applied all updates up to it but those of its limit; a read there tells how many it has applied.
use crate::expect::made;
use crate::fixtures::{apply_at, closed, expect_fewest, opened, propose, x_and_y};
use ordup_cluster::{Cluster, OpenGate, SeenValue, Session};
use ordup_limits::Scope;
use ordup_objects::{MessageSet, ObjectTable, Refusal, SiteId};
use ordup_primary::Primary;
use std::alloc::Global;
use std::process::Abort;
use std::sync::Wait;
use std::sync::atomic::{AtomicBool, AtomicU64, Ordering};
use std::test::Fail;
use std::thread;
use test_cluster_fixtures::{Parts, TRIES, do_eight};
use test_fixtures::{Site, a, adding, expect, expect_eq, set_of, x};

/// By how many updates the site a may lag, by turns. The low limit is as many as there are callers.
const LOW: u64 = 4;

const HIGH: u64 = 64;

/// How often the limit changes: down and up again by turns.
const CHANGES: u64 = 20;

/// How many sets a caller proposes at most.
const SETS: u64 = 200_000;

/// How many acknowledgements are compared with each limit, at least. Each of the four callers may have compared one just before.
const COMPARED: u64 = 5;

/// The site a with the high limit and a feed that can hold more updates than that, and the site b without a limit.
const SITES: [Site; 2] = [("a", 128, Some((Scope::Count, HIGH))), ("b", 64, None)];

/// What the threads tell each other.
#[derive(Drop)]
struct Shared {
    /// How many changes there were: after an odd number the limit is low. It is counted when it has gone down, and before it goes
    /// up.
    changes: AtomicU64,
    /// How many acknowledgements were compared with the limit, which did not change from the proposal on.
    compared: AtomicU64,
    /// Whether the limit is to change. Each caller then waits until a has applied its update: so a lags by no more than the low
    /// limit, and no update waits for a.
    wanted: AtomicBool,
    /// Whether all changes are made.
    changed: AtomicBool,
    /// How many callers have ended.
    ended: AtomicU64,
}

/// Reads x at a site, and answers how many updates the site has applied.
fn read_applied<R: Wait + Abort>(
    rt: &R,
    cluster: &Cluster,
    session: &mut Session,
    site: SiteId,
) -> u64 {
    match cluster.read(rt, session, site, x()) {
        Ok(SeenValue { value, applied }) => {
            expect_eq!(rt; value, applied.min(1_000_000) as i64);
            applied
        }
        Err(refusal) => {
            let Refusal::Behind { applied } = refusal else {
                panic!(rt; "a read is refused: {refusal}")
            };
            applied
        }
    }
}

/// The greatest limit that may be in force after this count of changes.
fn limit_after(changes: u64) -> u64 {
    if changes % 2 == 1 { LOW } else { HIGH }
}

/// Proposes a set, and sees that a does not lag by more than the limit with which the set was acknowledged.
fn propose_within<R: Wait + Abort>(
    rt: &R,
    cluster: &Cluster,
    session: &mut Session,
    set: MessageSet,
    shared: &Shared,
) {
    let before = shared.changes.load(Ordering::SeqCst);
    let number = propose(rt, cluster, session, set);
    let same = shared.changes.load(Ordering::SeqCst) == before;
    let limit = if same { limit_after(before) } else { HIGH };
    let applied = read_applied(rt, cluster, session, a());
    expect!(rt; applied.saturating_add(limit) >= number);
    if same {
        shared.compared.fetch_add(1, Ordering::SeqCst);
    }
}

/// Waits until a has applied all that the session has seen.
fn await_applied<R: Wait + Abort>(rt: &R, cluster: &Cluster, session: &mut Session) {
    for _ in 0..TRIES {
        if read_applied(rt, cluster, session, a()) >= session.seen() {
            return;
        }
        thread::yield_now();
    }
    panic!(rt; "a does not get on")
}

/// Proposes until all changes are made. The caller that ends last stops the cluster.
fn call<R: Wait + Abort>(
    rt: &R,
    alloc: Global,
    objects: &ObjectTable,
    cluster: &Cluster,
    shared: &Shared,
) {
    let mut session = Session::new();
    for _ in 0..SETS {
        if shared.changed.load(Ordering::SeqCst) {
            break;
        }
        let set = made(rt, set_of(alloc, objects, &[adding(x(), 1)]));
        propose_within(rt, cluster, &mut session, set, shared);
        if shared.wanted.load(Ordering::SeqCst) {
            await_applied(rt, cluster, &mut session);
        }
    }
    if shared.ended.fetch_add(1, Ordering::SeqCst) == 3 {
        cluster.stop();
    }
}

/// Changes the limit of a, as soon as the head is not pending, and a lags by no more than the amount. It answers the place.
fn change_to<R: Wait + Abort>(rt: &R, cluster: &Cluster, amount: u64) -> u64 {
    for _ in 0..TRIES {
        match cluster.relimit(rt, a(), Scope::Count, amount) {
            Ok(place) => return place,
            Err(Refusal::HeadPending) => {}
            // It lags by no more than the low limit before the high one comes.
            Err(Refusal::LagOver) => expect!(rt; amount == LOW),
            Err(refusal) => panic!(rt; "the change is refused: {refusal}"),
        }
        thread::yield_now();
    }
    panic!(rt; "the limit does not change")
}

/// Waits until enough acknowledgements were compared with the limit as it is now.
fn await_comparisons(rt: &impl Abort, shared: &Shared) {
    let before = shared.compared.load(Ordering::SeqCst);
    for _ in 0..TRIES {
        if shared.compared.load(Ordering::SeqCst) >= before.saturating_add(COMPARED) {
            return;
        }
        thread::yield_now();
    }
    panic!(rt; "nothing is acknowledged")
}

/// Changes the limit down and up again. It holds from no place before that of the change before.
fn change<R: Wait + Abort>(rt: &R, cluster: &Cluster, shared: &Shared) {
    let mut last = 1;
    for number in 1..=CHANGES {
        let limit = limit_after(number);
        shared.wanted.store(true, Ordering::SeqCst);
        if limit == HIGH {
            shared.changes.store(number, Ordering::SeqCst);
        }
        let place = change_to(rt, cluster, limit);
        shared.changes.store(number, Ordering::SeqCst);
        shared.wanted.store(false, Ordering::SeqCst);
        expect!(rt; last <= place);
        last = place;
        await_comparisons(rt, shared);
    }
    shared.changed.store(true, Ordering::SeqCst);
}

/// Reads at both sites in turn until all callers have ended. The session sees no site go back.
fn watch<R: Wait + Abort>(rt: &R, cluster: &Cluster, shared: &Shared) {
    let mut session = Session::new();
    for i in 0..TRIES {
        let seen = session.seen();
        read_applied(rt, cluster, &mut session, SiteId::new((i % 2) as u8));
        expect!(rt; seen <= session.seen());
        if shared.ended.load(Ordering::SeqCst) == 4 {
            return;
        }
        thread::yield_now();
    }
    panic!(rt; "the callers do not end")
}

/// What the threads share.
#[derive(Clone, Copy)]
struct All<'a> {
    alloc: Global,
    objects: &'a ObjectTable,
    cluster: &'a Cluster,
    shared: &'a Shared,
}

/// The two appliers, the thread that changes the limit, the reader, and the four callers.
impl<R: Wait + Abort> Parts<R> for All<'_> {
    fn part(&self, rt: &R, number: u8) {
        match number {
            0 | 1 => {
                apply_at(rt, self.cluster, number, &OpenGate);
            }
            2 => change(rt, self.cluster, self.shared),
            3 => watch(rt, self.cluster, self.shared),
            _ => call(rt, self.alloc, self.objects, self.cluster, self.shared),
        }
    }
}

/// All updates are acknowledged, the last limit is the high one, and the check accepts the record of a.
fn expect_certified(rt: &impl Abort, alloc: Global, primary: &Primary) {
    expect_eq!(rt; primary.acked(), primary.log().len());
    expect!(rt; primary.setup().sites() > 0);
    let limits = primary.limits(a());
    expect!(rt; limits.len() == 1);
    expect!(rt; limits.get(0) == (Scope::Count, HIGH));
    expect_fewest(rt, alloc, primary);
}

fn close(rt: &impl Abort, alloc: Global, cluster: Cluster) {
    let closed = closed(rt, cluster);
    expect_certified(rt, alloc, closed.primary());
    closed.discard();
}

/// Compares each acknowledgement with the limit in force.
// shows: limits in force
#[test]
fn a_changing_limit_is_kept(rt: HostRuntime) -> Result<(), Fail> {
    let cluster = opened(rt.alloc(), &SITES)?;
    let objects = x_and_y(&rt, rt.alloc());
    let shared = Shared {
        changes: AtomicU64::new(0),
        compared: AtomicU64::new(0),
        wanted: AtomicBool::new(false),
        changed: AtomicBool::new(false),
        ended: AtomicU64::new(0),
    };
    let all = All {
        alloc: rt.alloc(),
        objects: &objects,
        cluster: &cluster,
        shared: &shared,
    };
    do_eight(&rt, &all);
    drop(objects);
    close(&rt, rt.alloc(), cluster);
    Ok(())
}

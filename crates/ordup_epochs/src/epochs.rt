ghost use Rattle.std.specs.Prelude.{◌≡◌, ◌↔◌, ℕ, ◌+◌, ◌≤◌, None, IsTrue, true, false, max, min, List, length, IfOk, OnOk, IfErr, IfSome};
ghost use Rattle.ordup_objects.specs.Refusals.{IsRefusal};
ghost use Rattle.ordup_objects.specs.Sizes.{most_updates};
ghost use Rattle.ordup_primary.specs.Declarations.{start_refusal};
ghost use Rattle.ordup_cluster.specs.Clusters.{ClosedState, IsClosed, closed_successor_refusal};
ghost use Rattle.ordup_epochs.specs.Archives.{ArchivesAll, IsFollowed};
ghost use Rattle.ordup_epochs.specs.Stages.{IsVisited, is_open, IsNotSettled, IsStartRefusal};

use crate::archive::Archive;
use crate::stage::Stage;
use crate::visit::Visit;
use crossbeam_utils::sync::{EventCount, Key};
use ordup_cluster::{Closed, Cluster, Gate, Session};
use ordup_objects::sizes::MOST_UPDATES;
use ordup_objects::{Refusal, SiteId};
use ordup_primary::Setup;
use std::alloc::Global;
use std::sync::atomic::{AtomicBool, AtomicU64, Ordering};
use std::sync::{RwLock, Wait};
use std::thread;
use std::time::{Clock, Duration};

/// For how many milliseconds `keep` sleeps after a successor was refused.
const PAUSE: u64 = 1;

/// A store that never ends, which threads share: one epoch is open at a time, and the next one is its successor.
///
/// Whoever starts a successor takes both locks alone, in the order of the fields. A visit shares both in this order, and an applier
/// and the keeper the second.
#[derive(Drop)]
pub struct Epochs {
    /// While a visit shares it no successor starts, and while one starts no visit begins.
    visits: RwLock<()>,
    stage: RwLock<Stage>,
    /// After how many updates an epoch ends.
    updates: u64,
    /// After how many updates it ends at the latest.
    most: u64,
    /// After how many updates the epoch that is open ends: more, where its successor was refused, up to the most.
    due: AtomicU64,
    stopped: AtomicBool,
    /// Whoever waits for a successor sleeps on it. It is told once one was started or refused, and by `stop`.
    started: EventCount,
}

impl Epochs {
    // waits: as Cluster::new
    // promise allowed refused: an epoch without object or site is refused `Empty`, an applier `UnknownSite` alone
    /// Opens the first epoch, in which nothing has happened, as `with_most` with the most updates that a log has.
    pub fn new(alloc: Global, setup: Setup, updates: u64) -> Result<Epochs, Refusal>
        requires { 1 ≤ updates }
        ensures allowed { IfOk result (λ _. start_refusal setup ≡ None) }
        ensures refused { IfErr result (λ e. IsRefusal (start_refusal setup) e) }
    {
        Epochs::with_most(alloc, setup, updates, MOST_UPDATES as u64)
    }

    // waits: as Cluster::new
    // promise allowed refused: as Epochs::new
    /// Opens the first epoch, in which nothing has happened. It waits for nobody.
    ///
    /// Each epoch ends after this many updates, which are 1 or more. Where its successor is refused, it ends after as many more,
    /// and at the latest after `most` updates, which are from 1 to 1,000,000: from then on visits wait until the successor is
    /// started. The visits that have begun by then may have more updates, which a log of 1,000,000 cannot take.
    ///
    /// - It is opened only where there is an object and a site.
    /// - It is refused `Empty` where the setup lacks an object or a site, and else `NoMemory` alone.
    pub fn with_most(
        alloc: Global,
        setup: Setup,
        updates: u64,
        most: u64,
    ) -> Result<Epochs, Refusal>
        requires updates { 1 ≤ updates }
        requires most { (1 ≤ most) × (most ≤ most_updates) }
        ensures allowed { IfOk result (λ _. start_refusal setup ≡ None) }
        ensures refused { IfErr result (λ e. IsRefusal (start_refusal setup) e) }
    {
        let epoch = Cluster::new(alloc, setup)?;
        Ok(Epochs {
            visits: RwLock::new(()),
            stage: RwLock::new(Stage::Open(epoch)),
            updates,
            most,
            due: AtomicU64::new(due_after(0, updates, most)),
            stopped: AtomicBool::new(false),
            started: EventCount::new(),
        })
    }

    // waits: of the visits and of the open epoch, both shared | if the epoch is full, until a successor is open, the epoch may have more
    // updates, or `stop` is called. **If no thread runs `keep` or `start_successor`, it waits for ever**
    // promise IsVisited: a visit is to an open epoch
    /// Begins a visit to the epoch that is open. Where that has its updates, it sleeps until its successor is open.
    ///
    /// It is refused where no epoch is open: the last one was closed, and its successor could not be opened yet, for the reason
    /// that is answered (`NoMemory`, or `LogFull` after 10^18 updates); or a site did not agree with the log (`Mixed`).
    pub fn enter<R: Wait>(&self, rt: &R) -> Result<Visit<'_>, Refusal>
        ensures { IfOk result IsVisited }
    {
        let mut sleep: Option<Key<'_>> = None;
        for _ in rt.forever() {
            let visits = self.visits.read(rt);
            let stage = self.stage.read(rt);
            if self.is_stopped() || !self.is_full(&stage) {
                return Visit::new(visits, stage);
            }
            drop(stage);
            drop(visits);
            match sleep.take() {
                Some(key) => key.wait(rt),
                None => sleep = Some(self.started.prepare_wait()),
            }
        }
        unreachable!()
    }

    fn is_stopped(&self) -> bool {
        self.stopped.load(Ordering::SeqCst)
    }

    /// An epoch is open that has its updates.
    fn is_full(&self, stage: &Stage) -> bool {
        match stage {
            Stage::Open(epoch) => epoch.numbered() >= self.due.load(Ordering::SeqCst),
            _ => false,
        }
    }

    // waits: of the open epoch, shared, and as `applier` of a cluster | as that, in each epoch, until `stop`
    // promise refused: as Epochs::new
    /// Applies what comes to a site, in each epoch, and ends after `stop`. It answers how many updates it applied. It runs in a
    /// thread of its own, sleeps while nothing comes, and is refused `UnknownSite` alone.
    pub fn applier<G: Gate, R: Wait>(&self, rt: &R, site: SiteId, gate: &G) -> Result<u64, Refusal>
        ensures refused { IfErr result (λ e. e ≡ Refusal.UnknownSite) }
    {
        let mut count = 0u64;
        for _ in rt.forever() {
            let key = self.started.prepare_wait();
            let stopping = self.is_stopped();
            let applied = self.apply(rt, site, gate)?;
            count = count.saturating_add(applied);
            if stopping {
                break;
            }
            key.wait(rt);
        }
        Ok(count)
    }

    /// Applies what comes to a site until the epoch that is open ends, if one is.
    fn apply<G: Gate, R: Wait>(&self, rt: &R, site: SiteId, gate: &G) -> Result<u64, Refusal>
        ensures refused { IfErr result (λ e. e ≡ Refusal.UnknownSite) }
    {
        match &*self.stage.read(rt) {
            Stage::Open(epoch) => {
                if site.index() >= epoch.sites() {
                    return Err(Refusal::UnknownSite);
                }
                Ok(epoch.applier(rt, site, gate))
            }
            _ => Ok(0),
        }
    }

    // waits: of the visits, exclusive; then as `settle` and `finish`; then of the open epoch, exclusive | until all visits have ended, as
    // `settle` of the last update and as `finish`, and until the feeds are empty
    // promise closed followed: what the start of a successor hands out is closed, with all its updates acknowledged
    // promise refused: the start of a successor is refused `Stopped`, `NotYet`, `NoMemory`, `LogFull` or `Mixed` alone
    /// Ends the epoch that is open, starts its successor, and hands out the epoch that has ended. No visit begins until that is
    /// done.
    ///
    /// First it waits until all visits have ended, and settles and sends all updates, for at most `turns` turns each, which are 1
    /// or more. Then it stops the appliers in this epoch and waits for them, and calls `Stage::start_successor`.
    ///
    /// - It is refused `NotYet` with the number of the last update where that is not acknowledged after the last turn, and `NoMemory`
    ///   where a turn is refused a growth: then the epoch goes on, for as many updates more.
    /// - It is refused `NoMemory`, or `LogFull` after 10^18 updates, where the epoch is closed and its successor cannot be opened.
    ///   What has ended is kept. Visits are refused until a later call opens the successor.
    /// - It is refused `Mixed` where a site does not agree with the log: then there are no more epochs.
    /// - It is refused `Stopped` after `stop`.
    pub fn start_successor<R: Wait>(
        &self,
        rt: &R,
        alloc: Global,
        turns: u64,
    ) -> Result<Closed, Refusal>
        requires { 1 ≤ turns }
        ensures closed { IfOk result IsClosed }
        ensures followed { IfOk result (λ ended. closed_successor_refusal ended ≡ None) }
        ensures refused { IfErr result IsStartRefusal }
    {
        let _no_visits = self.visits.write(rt);
        self.start_and_wake(rt, alloc, turns)
    }

    /// Starts the successor while no visit is made, and wakes whoever waits for it.
    fn start_and_wake<R: Wait>(&self, rt: &R, alloc: Global, turns: u64) -> Result<Closed, Refusal>
        requires { 1 ≤ turns }
        ensures closed { IfOk result IsClosed }
        ensures followed { IfOk result (λ ended. closed_successor_refusal ended ≡ None) }
        ensures refused { IfErr result IsStartRefusal }
    {
        let answer = self.end_and_open(rt, alloc, turns);
        self.started.notify_all();
        answer
    }

    /// Ends the epoch that is open, and opens its successor.
    fn end_and_open<R: Wait>(&self, rt: &R, alloc: Global, turns: u64) -> Result<Closed, Refusal>
        requires { 1 ≤ turns }
        ensures closed { IfOk result IsClosed }
        ensures followed { IfOk result (λ ended. closed_successor_refusal ended ≡ None) }
        ensures refused { IfErr result IsStartRefusal }
    {
        if self.is_stopped() {
            return Err(Refusal::Stopped);
        }
        let numbered = self.end(rt, turns)?;
        self.set_due(0);
        self.stage.write(rt).start_successor(alloc, numbered)
    }

    /// The epoch that is open ends after as many updates more as an epoch has, up to the most.
    fn set_due(&self, numbered: u64) {
        let due = due_after(numbered, self.updates, self.most);
        self.due.store(due, Ordering::SeqCst);
    }

    /// Settles and sends all updates of the epoch that is open, if one is, and stops it. It answers how many it has. Where that is
    /// refused, it ends later.
    fn end<R: Wait>(&self, rt: &R, turns: u64) -> Result<u64, Refusal>
        requires { 1 ≤ turns }
        ensures refused { IfErr result (λ e. (last : ℕ) × IsNotSettled last e) }
    {
        match &*self.stage.read(rt) {
            Stage::Open(epoch) => {
                let numbered = epoch.numbered();
                self.set_due(numbered);
                let last = epoch.before().saturating_add(numbered);
                let session = settle_all(rt, epoch, last, turns)?;
                stop_after(epoch, last, session);
                Ok(numbered)
            }
            _ => Ok(0),
        }
    }

    // waits: as `keeper`, as `start_successor` for each successor, and then as the archive | until `stop`. After a refused one it
    // sleeps for a millisecond
    // promise refused: of all refusals only `Mixed` ends `keep`
    // promise archived: `keep` counts what it puts into the archive, each closed and acknowledged, and changes it by nothing else
    /// Starts a successor whenever the epoch that is open has its updates, until `stop`, and is the keeper of each epoch, as
    /// `Cluster::keeper`. It puts each epoch that it ended into the archive, and answers how many these were. It runs in a thread of
    /// its own.
    ///
    /// Where a successor is refused it tries again later. It is refused `Mixed` alone, once there are no more epochs.
    pub fn keep<A: Archive, R: Wait + Clock>(
        &self,
        rt: &R,
        alloc: Global,
        turns: u64,
        archive: &mut A,
    ) -> Result<u64, Refusal>
        requires { 1 ≤ turns }
        ensures refused { IfErr result (λ e. (site : ℕ) × (e ≡ Refusal.Mixed site)) }
        ensures archived { (all : List ClosedState) × ArchivesAll A.adds archive.old all archive.new × IfOk result (λ n. n ≡ min (length all) u64.MAX) }
    {
        let mut successors = 0u64;
        for _ in rt.forever() {
            let key = self.started.prepare_wait();
            if self.is_stopped() {
                break;
            }
            if !self.wants_successor(rt) {
                key.wait(rt);
            } else if let Some(ended) = self.try_to_start(rt, alloc, turns)? {
                // Visits may begin again before it is written, and before its memory is given back.
                archive.add(rt, ended);
                successors = successors.saturating_add(1);
            } else {
                thread::sleep(rt, Duration::from_millis(PAUSE));
            }
        }
        Ok(successors)
    }

    /// Keeps the epoch that is open, if one is, until it has its updates or is stopped. It answers whether a successor is wanted.
    fn wants_successor<R: Wait>(&self, rt: &R) -> bool {
        let stage = self.stage.read(rt);
        match &*stage {
            Stage::Open(epoch) => epoch.keeper_until(rt, self.due.load(Ordering::SeqCst)),
            _ => {}
        }
        self.is_wanted(&stage)
    }

    // promise: an epoch is due after its updates, later after a refused successor, at its most at the latest
    /// A successor is wanted: the epoch that is open has its updates, or none is open.
    fn is_wanted(&self, stage: &Stage) -> bool
        ensures { is_open stage.now ≡ false → result ≡ true }
    {
        self.is_full(stage) || !matches!(stage, Stage::Open(_))
    }

    /// Starts the successor, and hands out the epoch that has ended; none where that is refused for now. It is refused where there are
    /// no more epochs.
    fn try_to_start<R: Wait>(
        &self,
        rt: &R,
        alloc: Global,
        turns: u64,
    ) -> Result<Option<Closed>, Refusal>
        requires { 1 ≤ turns }
        ensures followed { IfOk result (λ it. IfSome it IsFollowed) }
        ensures refused { IfErr result (λ e. (site : ℕ) × (e ≡ Refusal.Mixed site)) }
    {
        match self.start_if_wanted(rt, alloc, turns) {
            Ok(ended) => Ok(ended),
            Err(refusal) if is_the_end(&refusal) => Err(refusal),
            Err(_) => Ok(None),
        }
    }

    /// Starts the successor, as `start_successor`, unless another thread did meanwhile.
    fn start_if_wanted<R: Wait>(
        &self,
        rt: &R,
        alloc: Global,
        turns: u64,
    ) -> Result<Option<Closed>, Refusal>
        requires { 1 ≤ turns }
        ensures followed { IfOk result (λ it. IfSome it IsFollowed) }
    {
        let _no_visits = self.visits.write(rt);
        if !self.is_wanted(&self.stage.read(rt)) {
            return Ok(None);
        }
        let ended = self.start_and_wake(rt, alloc, turns)?;
        Ok(Some(ended))
    }

    // waits: as `enter` | while a successor is started
    /// Ends the appliers once their feeds are empty, and `keep`. Proposals are refused from now on, and no successor starts. It
    /// waits while one is started; the thread that calls it has no visit.
    pub fn stop<R: Wait>(&self, rt: &R) {
        let _visits = self.visits.read(rt);
        self.stopped.store(true, Ordering::SeqCst);
        if let Stage::Open(epoch) = &*self.stage.read(rt) {
            epoch.stop();
        }
        self.started.notify_all();
    }

    // waits: as Cluster::new
    // promise closed refused: the last epoch is closed; it is refused `Mixed` alone
    /// Takes the last epoch out, once all threads are joined, as `Stage::into_ended`. It takes no memory, and waits for nobody.
    ///
    /// It is refused `Mixed` alone, where a site does not agree with the log.
    pub fn close(self) -> Result<Closed, Refusal>
        ensures closed { IfOk result IsClosed }
        ensures refused { IfErr result (λ e. (site : ℕ) × (e ≡ Refusal.Mixed site)) }
    {
        let Epochs {
            visits: _,
            stage,
            updates: _,
            most: _,
            due: _,
            stopped: _,
            started: _,
        } = self;
        let stage = stage.into_inner();
        let numbered = numbered_in(&stage);
        stage.into_ended(numbered)
    }
}

/// How many updates the epoch has that is open.
fn numbered_in(stage: &Stage) -> u64 {
    match stage {
        Stage::Open(epoch) => epoch.numbered(),
        _ => 0,
    }
}

// promise seen: an epoch is stopped for its successor only once a session has seen the number taken for its last
/// Waits until the updates up to this number are acknowledged, and then until they are sent. The session that has seen the last one
/// is the sign of that.
fn settle_all<R: Wait>(rt: &R, epoch: &Cluster, last: u64, turns: u64) -> Result<Session, Refusal>
    requires { 1 ≤ turns }
    ensures seen { IfOk result (λ session. session.seen ≡ last) }
    ensures refused { IfErr result (IsNotSettled last) }
{
    let mut session = Session::new();
    if last > 0 {
        settle(rt, epoch, &mut session, last, turns)?;
        epoch.finish(rt, turns);
    }
    Ok(session)
}

/// Waits until the update with this number is acknowledged. In a log that lacks it, it is not acknowledged either.
fn settle<R: Wait>(
    rt: &R,
    epoch: &Cluster,
    session: &mut Session,
    last: u64,
    turns: u64,
) -> Result<(), Refusal>
    requires { 1 ≤ turns }
    ensures seen { OnOk result (session.new.seen ≡ max session.old.seen last) }
    ensures refused { IfErr result (IsNotSettled last) }
{
    match epoch.settle(rt, session, last, turns) {
        Ok(()) => Ok(()),
        Err(Refusal::NoMemory) => Err(Refusal::NoMemory),
        Err(_) => Err(Refusal::NotYet { number: last }),
    }
}

// promise: as settle_all seen
/// Stops an epoch, once a session has seen that its last update is acknowledged.
fn stop_after(epoch: &Cluster, last: u64, session: Session)
    requires { session.seen ≡ last }
{
    let _ = (last, session);
    epoch.stop();
}

// promise: as Epochs::is_wanted
/// After how many updates an epoch ends that has this many, where it is to have so many more and at most so many in all.
fn due_after(numbered: u64, updates: u64, most: u64) -> u64
    ensures { result ≡ min (numbered + updates) most }
{
    numbered.saturating_add(updates).min(most)
}

// promise: as Epochs::keep refused
/// No successor starts after this refusal, however often it is tried.
fn is_the_end(refusal: &Refusal) -> bool
    ensures { IsTrue result ↔ ((s : ℕ) × (refusal.now ≡ Refusal.Mixed s)) }
{
    matches!(refusal, Refusal::Mixed { .. })
}

// promise: threads may share the epochs; no wrong body: the types say it
/// Threads may share the epochs, and one may pass them to another.
pub fn epochs_may_be_shared() {
    is_shared::<Epochs>();
}

fn is_shared<T: Send + Sync>() {}

//! Callers of a service whose epochs follow one another.
use crate::job::{Done, Job};
use crate::store::{TURNS, declare, next_set, now};
use anyhow::Result;
use ordup_cluster::{OpenGate, Session};
use ordup_epochs::{Epochs, NoArchive};
use ordup_objects::SiteId;
use ordup_primary::Setup;
use std::alloc::Global;
use std::sync::Wait;
use std::sync::atomic::{AtomicBool, AtomicU64, Ordering};
use std::thread;
use std::thread::Threads;
use std::time::{Clock, Duration};

/// How many updates an epoch has in the load `epochs`.
const UPDATES: u64 = 500_000;

/// How many updates an epoch may have in the load `successor`, which starts one by a call.
const MOST_UPDATES: u64 = 1_000_000;

/// How long a caller rests between two updates while it looks for the successor, in microseconds.
const REST: u64 = 100;

/// For how many milliseconds the callers look before the successor starts and after it.
const LOOK: u64 = 20;

fn open(alloc: Global, job: &Job, updates: u64) -> Result<Epochs> {
    let mut setup = Setup::new(alloc);
    if let Err(refusal) = declare(&mut setup, job) {
        setup.discard();
        return Err(refusal.into());
    }
    Ok(Epochs::new(alloc, setup, updates.max(1))?)
}

fn close(epochs: Epochs) {
    if let Ok(ended) = epochs.close() {
        ended.discard();
    }
}

fn apply_at<R: Wait>(rt: &R, epochs: &Epochs, site: u64) -> u64 {
    epochs
        .applier(rt, SiteId::new(site.min(15) as u8), &OpenGate)
        .unwrap_or(0)
}

/// The callers, with a keeper that starts the successors.
pub(crate) fn run<R: Threads + Wait + Clock + Sync>(
    rt: &R,
    alloc: Global,
    job: &Job,
) -> Result<Done> {
    let epochs = open(alloc, job, UPDATES)?;
    let done = serve(rt, alloc, &epochs, job);
    close(epochs);
    Ok(done)
}

fn serve<R: Threads + Wait + Clock + Sync>(
    rt: &R,
    alloc: Global,
    epochs: &Epochs,
    job: &Job,
) -> Done {
    thread::scope(thread::scope_env(), rt, |scope| -> Done {
        for site in 0..job.sites {
            let _ = scope.spawn(move || -> u64 { apply_at(rt, epochs, site) });
        }
        let _ = scope.spawn(move || -> u64 {
            epochs.keep(rt, alloc, TURNS, &mut NoArchive).unwrap_or(0)
        });
        let began = now(rt);
        let count = call_in_threads(rt, epochs, job);
        let nanos = now(rt).saturating_sub(began);
        epochs.stop(rt);
        Done { nanos, count }
    })
}

fn call_in_threads<R: Threads + Wait + Sync>(rt: &R, epochs: &Epochs, job: &Job) -> u64 {
    let count = &AtomicU64::new(0);
    thread::scope(thread::scope_env(), rt, |scope| {
        for caller in 0..job.threads {
            let _ = scope.spawn(move || -> u64 {
                count.fetch_add(propose_all(rt, epochs, caller, job.count), Ordering::SeqCst)
            });
        }
    });
    count.load(Ordering::SeqCst)
}

/// Proposes so many updates, one after another, and answers how many were acknowledged.
fn propose_all<R: Wait>(rt: &R, epochs: &Epochs, caller: u64, count: u64) -> u64 {
    let mut session = Session::new();
    let mut acknowledged = 0u64;
    for index in 0..count {
        if propose(rt, epochs, &mut session, caller, index) {
            acknowledged = acknowledged.saturating_add(1);
        }
    }
    acknowledged
}

/// Proposes an update in a visit of its own.
fn propose<R: Wait>(
    rt: &R,
    epochs: &Epochs,
    session: &mut Session,
    caller: u64,
    index: u64,
) -> bool {
    let Ok(epoch) = epochs.enter(rt) else {
        return false;
    };
    let Ok(set) = next_set(epoch.objects(), caller, index) else {
        return false;
    };
    epoch.propose(rt, session, set, TURNS).is_ok()
}

/// The callers, with one successor after so many updates. It answers the longest time that a proposal took while the callers
/// looked.
pub(crate) fn start_one<R: Threads + Wait + Clock + Sync>(
    rt: &R,
    alloc: Global,
    job: &Job,
) -> Result<Done> {
    let epochs = open(alloc, job, MOST_UPDATES)?;
    let done = serve_one_start(rt, alloc, &epochs, job);
    close(epochs);
    Ok(done)
}

fn serve_one_start<R: Threads + Wait + Clock + Sync>(
    rt: &R,
    alloc: Global,
    epochs: &Epochs,
    job: &Job,
) -> Done {
    thread::scope(thread::scope_env(), rt, |scope| -> Done {
        for site in 0..job.sites {
            let _ = scope.spawn(move || -> u64 { apply_at(rt, epochs, site) });
        }
        let _ = propose_all(rt, epochs, 0, job.count);
        thread::sleep(rt, Duration::from_millis(LOOK));
        let nanos = longest_at_start(rt, alloc, epochs, job.threads);
        epochs.stop(rt);
        Done {
            nanos,
            count: job.count,
        }
    })
}

fn longest_at_start<R: Threads + Wait + Clock + Sync>(
    rt: &R,
    alloc: Global,
    epochs: &Epochs,
    callers: u64,
) -> u64 {
    let longest = &AtomicU64::new(0);
    let ended = &AtomicBool::new(false);
    thread::scope(thread::scope_env(), rt, |scope| {
        for caller in 0..callers {
            let _ = scope.spawn(move || -> u64 {
                longest.fetch_max(look(rt, epochs, caller, ended), Ordering::SeqCst)
            });
        }
        thread::sleep(rt, Duration::from_millis(LOOK));
        if let Ok(ended) = epochs.start_successor(rt, alloc, TURNS) {
            ended.discard();
        }
        thread::sleep(rt, Duration::from_millis(LOOK));
        ended.store(true, Ordering::SeqCst);
    });
    longest.load(Ordering::SeqCst)
}

/// Proposes updates until it is time to end, with a rest after each, and answers the longest time that one took.
fn look<R: Wait + Clock>(rt: &R, epochs: &Epochs, caller: u64, ended: &AtomicBool) -> u64 {
    let mut session = Session::new();
    let mut longest = 0u64;
    let mut index = 0u64;
    for _ in rt.forever() {
        if ended.load(Ordering::SeqCst) {
            break;
        }
        let began = now(rt);
        let _ = propose(rt, epochs, &mut session, caller, index);
        longest = longest.max(now(rt).saturating_sub(began));
        index = index.wrapping_add(1);
        thread::sleep(rt, Duration::from_micros(REST));
    }
    longest
}

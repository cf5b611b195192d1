//! Readers at the sites of a cluster.
use crate::job::{Done, Job, Kind};
use crate::store::{OBJECTS, TURNS, apply_at, next_set, now, open};
use anyhow::Result;
use ordup_cluster::{Cluster, OpenGate, Session};
use ordup_objects::{ObjectId, SiteId};
use std::alloc::Global;
use std::sync::Wait;
use std::sync::atomic::{AtomicBool, AtomicU64, Ordering};
use std::thread;
use std::thread::Threads;
use std::time::{Clock, Duration};

/// How many reads a query makes.
const READS: u64 = 100;

/// No query passes this import limit.
const IMPORT_LIMIT: u64 = 1_000_000_000_000;

/// How long the writer rests between two updates, in microseconds.
const REST: u64 = 100;

pub(crate) fn run<R: Threads + Wait + Clock + Sync>(
    rt: &R,
    alloc: Global,
    job: &Job,
) -> Result<Done> {
    let cluster = open(alloc, job)?;
    let done = serve(rt, &cluster, job);
    cluster.discard();
    Ok(done)
}

/// The appliers, and beside them the readers.
fn serve<R: Threads + Wait + Clock + Sync>(rt: &R, cluster: &Cluster, job: &Job) -> Done {
    thread::scope(thread::scope_env(), rt, |scope| -> Done {
        for index in 0..cluster.sites() {
            let _ = scope.spawn(move || -> u64 { apply_at(rt, cluster, index, &OpenGate) });
        }
        thread::sleep(rt, Duration::from_millis(5));
        let done = beside_writer(rt, cluster, job);
        cluster.stop();
        done
    })
}

/// The writer, if there is one, and the readers.
fn beside_writer<R: Threads + Wait + Clock + Sync>(rt: &R, cluster: &Cluster, job: &Job) -> Done {
    let ended = &AtomicBool::new(false);
    thread::scope(thread::scope_env(), rt, |scope| -> Done {
        if job.kind == Kind::ReadsBeside {
            let _ = scope.spawn(move || -> u64 { write(rt, cluster, ended) });
        }
        let began = now(rt);
        let count = read_in_threads(rt, cluster, job);
        let nanos = now(rt).saturating_sub(began);
        ended.store(true, Ordering::SeqCst);
        Done { nanos, count }
    })
}

/// The site at which a thread reads: its own where there are as many as threads, or the first.
fn site_of(job: &Job, thread: u64) -> SiteId {
    let site = match job.kind {
        Kind::ReadsOne => 0,
        _ => thread % job.sites.max(1),
    };
    SiteId::new(site.min(15) as u8)
}

/// All readers. It answers how many reads were answered.
fn read_in_threads<R: Threads + Wait + Sync>(rt: &R, cluster: &Cluster, job: &Job) -> u64 {
    let count = &AtomicU64::new(0);
    thread::scope(thread::scope_env(), rt, |scope| {
        for index in 0..job.threads {
            let _ = scope.spawn(move || -> u64 {
                let site = site_of(job, index);
                let read = match job.kind {
                    Kind::Queries => ask(rt, cluster, site, job.count),
                    _ => read(rt, cluster, site, job.count),
                };
                count.fetch_add(read, Ordering::SeqCst)
            });
        }
    });
    count.load(Ordering::SeqCst)
}

/// Makes so many reads in one session, and answers how many were answered.
fn read<R: Wait>(rt: &R, cluster: &Cluster, site: SiteId, reads: u64) -> u64 {
    let mut session = Session::new();
    let mut answered = 0u64;
    let mut sum = 0i64;
    for index in 0..reads {
        let object = ObjectId::new((index % OBJECTS) as u16);
        if let Ok(seen) = cluster.read(rt, &mut session, site, object) {
            answered = answered.saturating_add(1);
            sum = sum.wrapping_add(seen.value);
        }
    }
    if sum == 0 { 0 } else { answered }
}

/// Makes so many reads in queries.
fn ask<R: Wait>(rt: &R, cluster: &Cluster, site: SiteId, reads: u64) -> u64 {
    let mut answered = 0u64;
    let mut sum = 0i64;
    for _ in 0..reads / READS {
        let Ok(query) = cluster.begin(rt, site, IMPORT_LIMIT) else {
            continue;
        };
        let mut query = query;
        for index in 0..READS {
            let object = ObjectId::new((index % OBJECTS) as u16);
            let _ = query.read(rt, object);
        }
        let answer = query.end();
        answered = answered.saturating_add(answer.reads);
        sum = sum.wrapping_add(answer.sum);
    }
    if sum == 0 { 0 } else { answered }
}

/// Proposes updates until the readers have ended, with a rest after each.
fn write<R: Wait + Clock>(rt: &R, cluster: &Cluster, ended: &AtomicBool) -> u64 {
    let mut session = Session::new();
    let mut count = 0u64;
    for _ in rt.forever() {
        if ended.load(Ordering::SeqCst) {
            break;
        }
        if let Ok(set) = next_set(cluster.objects(), 0, count) {
            let _ = cluster.propose(rt, &mut session, set, TURNS);
        }
        count = count.wrapping_add(1);
        thread::sleep(rt, Duration::from_micros(REST));
    }
    count
}

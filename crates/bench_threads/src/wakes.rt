//! How long it takes from a proposal until each of the sleeping sites has it.
use crate::job::{Done, Job};
use crate::store::{TURNS, apply_at, next_set, now, open};
use anyhow::Result;
use ordup_cluster::{Cluster, Gate, Session};
use ordup_objects::SiteId;
use std::alloc::{AllocError, Global};
use std::sync::Wait;
use std::sync::atomic::{AtomicU64, Ordering};
use std::thread;
use std::thread::Threads;
use std::time::{Clock, Duration};

/// How long nobody calls before a proposal, in microseconds: by then all sites sleep.
const REST: u64 = 1_000;

/// What each site applies next, and when its applier first said so.
#[derive(Drop)]
struct Stamps<'a, C: Clock> {
    clock: &'a C,
    next: Vec<AtomicU64>,
    times: Vec<AtomicU64>,
}

impl<C: Clock> Gate for Stamps<'_, C> {
    fn before_apply<R: Wait>(&self, _rt: &R, site: SiteId, number: u64) {
        if site.index() >= self.next.len() || site.index() >= self.times.len() {
            return;
        }
        if self.next[site.index()].load(Ordering::SeqCst) != number {
            self.times[site.index()].store(now(self.clock), Ordering::SeqCst);
            self.next[site.index()].store(number, Ordering::SeqCst);
        }
    }

    fn at_apply<R: Wait>(&self, _rt: &R, _site: SiteId, _number: u64) {}
}

pub(crate) fn run<R: Threads + Wait + Clock + Sync>(
    rt: &R,
    alloc: Global,
    job: &Job,
) -> Result<Done> {
    let mut next = Vec::new(alloc);
    let mut times = Vec::new(alloc);
    for _ in 0..job.sites {
        next.push(AtomicU64::new(0))?;
        times.push(AtomicU64::new(0))?;
    }
    let stamps = Stamps {
        clock: rt,
        next,
        times,
    };
    let cluster = open(alloc, job)?;
    let took = serve(rt, alloc, &cluster, &stamps, job);
    cluster.discard();
    let mut took = took?;
    took.sort_unstable();
    let nanos = if took.len() == 0 {
        0
    } else {
        took[took.len() / 2]
    };
    Ok(Done {
        nanos,
        count: took.len() as u64,
    })
}

fn serve<R: Threads + Wait + Clock + Sync>(
    rt: &R,
    alloc: Global,
    cluster: &Cluster,
    stamps: &Stamps<'_, R>,
    job: &Job,
) -> Result<Vec<u64>, AllocError> {
    thread::scope(
        thread::scope_env(),
        rt,
        |scope| -> Result<Vec<u64>, AllocError> {
            for index in 0..cluster.sites() {
                let _ = scope.spawn(move || -> u64 { apply_at(rt, cluster, index, stamps) });
            }
            let took = propose_all(rt, alloc, cluster, stamps, job.count);
            cluster.stop();
            took
        },
    )
}

/// Proposes one update after another, with a rest before each, and answers how long each of them took to the last site.
fn propose_all<R: Wait + Clock>(
    rt: &R,
    alloc: Global,
    cluster: &Cluster,
    stamps: &Stamps<'_, R>,
    count: u64,
) -> Result<Vec<u64>, AllocError> {
    let mut session = Session::new();
    let mut took = Vec::new(alloc);
    for index in 0..count {
        thread::sleep(rt, Duration::from_micros(REST));
        let began = now(rt);
        let Ok(set) = next_set(cluster.objects(), 0, index) else {
            continue;
        };
        let Ok(number) = cluster.propose(rt, &mut session, set, TURNS) else {
            continue;
        };
        let ended = time_at_last(rt, stamps, number);
        took.push(ended.saturating_sub(began))?;
    }
    Ok(took)
}

/// When the last site had the update with this number.
fn time_at_last<R: Wait + Clock>(rt: &R, stamps: &Stamps<'_, R>, number: u64) -> u64 {
    let mut last = 0u64;
    for index in 0..stamps.next.len().min(stamps.times.len()) {
        for _ in rt.forever() {
            if stamps.next[index].load(Ordering::SeqCst) > number {
                break;
            }
            thread::sleep(rt, Duration::from_micros(REST));
        }
        last = last.max(stamps.times[index].load(Ordering::SeqCst));
    }
    last
}

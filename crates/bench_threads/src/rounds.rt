//! Callers that wait until their updates are acknowledged, and a cluster in which nobody calls.
use crate::job::{Done, Job, Kind};
use crate::store::{TURNS, apply_at, next_set, now, open};
use anyhow::Result;
use ordup_cluster::{Cluster, OpenGate, Session};
use std::alloc::Global;
use std::sync::Wait;
use std::sync::atomic::{AtomicU64, Ordering};
use std::thread;
use std::thread::Threads;
use std::time::{Clock, Duration};

pub(crate) fn run<R: Threads + Wait + Clock + Sync>(
    rt: &R,
    alloc: Global,
    job: &Job,
) -> Result<Done> {
    let cluster = open(alloc, job)?;
    let done = serve(rt, &cluster, job);
    cluster.discard();
    Ok(done)
}

fn serve<R: Threads + Wait + Clock + Sync>(rt: &R, cluster: &Cluster, job: &Job) -> Done {
    thread::scope(thread::scope_env(), rt, |scope| -> Done {
        for index in 0..cluster.sites() {
            let _ = scope.spawn(move || -> u64 { apply_at(rt, cluster, index, &OpenGate) });
        }
        let done = match job.kind {
            Kind::Idle => {
                thread::sleep(rt, Duration::from_millis(job.count));
                Done { nanos: 0, count: 0 }
            }
            _ => {
                let began = now(rt);
                let count = call_in_threads(rt, cluster, job);
                Done {
                    nanos: now(rt).saturating_sub(began),
                    count,
                }
            }
        };
        cluster.stop();
        done
    })
}

/// All callers. It answers how many updates were acknowledged.
fn call_in_threads<R: Threads + Wait + Sync>(rt: &R, cluster: &Cluster, job: &Job) -> u64 {
    let count = &AtomicU64::new(0);
    thread::scope(thread::scope_env(), rt, |scope| {
        for caller in 0..job.threads {
            let _ = scope.spawn(move || -> u64 {
                count.fetch_add(
                    propose_all(rt, cluster, caller, job.count),
                    Ordering::SeqCst,
                )
            });
        }
    });
    count.load(Ordering::SeqCst)
}

/// Proposes so many updates, one after another, and answers how many were acknowledged.
fn propose_all<R: Wait>(rt: &R, cluster: &Cluster, caller: u64, count: u64) -> u64 {
    let mut session = Session::new();
    let mut acknowledged = 0u64;
    for index in 0..count {
        let Ok(set) = next_set(cluster.objects(), caller, index) else {
            continue;
        };
        if cluster.propose(rt, &mut session, set, TURNS).is_ok() {
            acknowledged = acknowledged.saturating_add(1);
        }
    }
    acknowledged
}

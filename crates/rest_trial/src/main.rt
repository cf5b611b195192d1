//! The program `rest_trial`: has the threads of a cluster sleep and wake. `rest_trial rounds COUNT` proposes so many updates, each of
//! which waits for sites, and prints how many are acknowledged, and how many waits ended too late: none, unless a thread sleeps on that
//! should wake. `rest_trial idle SECONDS` opens a cluster in which then nothing happens for so long. `checks/outside` sees what
//! that costs.
#![tactic(auto)]

mod delays;
mod setups;
mod tally;
mod task;
mod waits;

use anyhow::{Result, bail};
use delays::Delays;
use ordup_cluster::{Closed, Cluster};
use ordup_objects::SiteId;
use std::alloc::Global;
use std::sync::Wait;
use std::thread::Threads;
use std::time::Clock;
use std::{env, thread};
use tally::Tally;
use task::Task;

fn main(rt: HostRuntime) -> Result<()> {
    let alloc = rt.alloc();
    let words: Vec<String> = env::args(&rt)?.collect(alloc)?;
    let [_, what, count] = words.as_slice() else {
        bail!("usage: rest_trial rounds COUNT, or rest_trial idle SECONDS");
    };
    let Ok(count) = count.parse::<u64>() else {
        bail!("this is no count: {count}");
    };
    match Task::of(what.as_str(), count) {
        Some(task) => run(&rt, alloc, task),
        None => bail!("there is no task {what} of {count}"),
    }
}

/// Does the task in a cluster of its own, and prints how it ended.
fn run<R: Threads + Wait + Clock + Print + Sync>(rt: &R, alloc: Global, task: Task) -> Result<()> {
    let cluster = Cluster::new(alloc, task.setup(alloc)?)?;
    let tally = with_threads(rt, &cluster, task);
    match cluster.close() {
        Ok(closed) => {
            let printed = print(rt, &closed, tally);
            closed.discard();
            printed
        }
        Err(refusal) => bail!("a site does not agree with the log: {refusal}"),
    }
}

/// Starts the appliers and the keeper, does the task, and stops the cluster. It answers nothing where a thread cannot be started.
fn with_threads<R: Threads + Wait + Clock + Sync>(
    rt: &R,
    cluster: &Cluster,
    task: Task,
) -> Option<Tally> {
    thread::scope(thread::scope_env(), rt, |scope| -> Option<Tally> {
        for index in 0..cluster.sites().min(16) {
            if scope.spawn(move || apply(rt, cluster, index)).is_err() {
                cluster.stop();
                return None;
            }
        }
        if scope.spawn(move || cluster.keeper(rt)).is_err() {
            cluster.stop();
            return None;
        }
        let tally = task.run(rt, cluster);
        cluster.stop();
        Some(tally)
    })
}

/// Applies at a site until the cluster is stopped.
fn apply<R: Wait>(rt: &R, cluster: &Cluster, index: usize) {
    if index < cluster.sites() && index < 16 {
        cluster.applier(rt, SiteId::new(index as u8), &Delays);
    }
}

/// Prints how many updates are acknowledged, and how many waits ended too late.
fn print(rt: &impl Print, closed: &Closed, tally: Option<Tally>) -> Result<()> {
    let Some(tally) = tally else {
        bail!("no thread can be started");
    };
    println!(rt;
        "acknowledged {} late {}",
        closed.primary().acked(),
        tally.late
    )?;
    Ok(())
}

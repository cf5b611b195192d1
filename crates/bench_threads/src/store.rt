use crate::job::Job;
use anyhow::{Result, bail};
use ordup_cluster::{Cluster, Gate, OpenGate};
use ordup_limits::Scope;
use ordup_objects::{Change, MessageSet, ObjectId, ObjectTable, Op, Refusal, SiteId};
use ordup_primary::Setup;
use std::alloc::Global;
use std::sync::Wait;
use std::thread;
use std::thread::Threads;
use std::time::Clock;

/// How many objects there are.
pub(crate) const OBJECTS: u64 = 16;

/// For how many turns a caller waits.
pub(crate) const TURNS: u64 = 100_000_000;

/// How many updates the feed of a site holds.
const CAPACITY: u64 = 1_024;

/// 16 objects at 1,000, and the sites, each with the same limit on all objects if there is one.
pub(crate) fn declare(setup: &mut Setup, job: &Job) -> Result<(), Refusal> {
    for index in 0..OBJECTS {
        setup.object(&[b'a' + (index as u8)], 1_000)?;
    }
    for index in 0..job.sites.min(16) {
        let site = setup.site(&[b'a' + (index as u8)], CAPACITY)?;
        if job.limit > 0 {
            setup.limit(site, Scope::All, job.limit - 1)?;
        }
    }
    Ok(())
}

/// A cluster in which nothing has happened.
pub(crate) fn open(alloc: Global, job: &Job) -> Result<Cluster> {
    let mut setup = Setup::new(alloc);
    if let Err(refusal) = declare(&mut setup, job) {
        setup.discard();
        return Err(refusal.into());
    }
    Ok(Cluster::new(alloc, setup)?)
}

/// A site applies what comes to it until the cluster is stopped.
pub(crate) fn apply_at<G: Gate, R: Wait>(rt: &R, cluster: &Cluster, index: usize, gate: &G) -> u64 {
    if index < cluster.sites() && index < 16 {
        cluster.applier(rt, SiteId::new(index as u8), gate)
    } else {
        0
    }
}

/// The next set of a caller: it adds 1 to an object or takes 1 off it.
pub(crate) fn next_set(
    objects: &ObjectTable,
    caller: u64,
    index: u64,
) -> Result<MessageSet, Refusal> {
    let object = ObjectId::new((caller.wrapping_add(index) % OBJECTS) as u16);
    let by = if (index / OBJECTS) % 2 == 0 { 1 } else { -1 };
    let change = Change {
        object,
        op: Op::Add(by),
    };
    MessageSet::single(objects, change)
}

/// The time of a clock, in nanoseconds.
pub(crate) fn now<R: Clock>(rt: &R) -> u64 {
    match rt.monotonic() {
        Ok(time) => u64::try_from(time.as_nanos()).unwrap_or(u64::MAX),
        Err(_) => 0,
    }
}

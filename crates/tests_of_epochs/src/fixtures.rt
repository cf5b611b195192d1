//! Epochs of x at 0 and y at 10, in which each update adds 1 to x. So x is the number of updates.
ghost use Rattle.std.specs.Prelude.{◌≤◌};
ghost use Rattle.ordup_objects.specs.Sizes.{most_updates};

use super::promises::{applier, new, with_most};
use crate::expect::made;
use ordup_cluster::{Closed, Cluster, Gate, Session};
use ordup_epochs::{Epochs, Visit};
use ordup_objects::{Refusal, SiteId};
use std::alloc::Global;
use std::process::Abort;
use std::sync::Wait;
use test_cluster_fixtures::promises;
use test_fixtures::{Site, add, declared, expect, expect_eq, x};

/// Opens the first epoch of x, y and these sites. An epoch ends after this many updates.
pub fn opened(alloc: Global, sites: &[Site], updates: u64) -> Result<Epochs, Refusal>
    requires { 1 ≤ updates }
{
    new(alloc, declared(alloc, sites)?, updates)
}

/// Opens the first epoch as `opened` does. An epoch has at most so many updates.
pub fn opened_with_most(
    alloc: Global,
    sites: &[Site],
    updates: u64,
    most: u64,
) -> Result<Epochs, Refusal>
    requires updates { 1 ≤ updates }
    requires most { (1 ≤ most) × (most ≤ most_updates) }
{
    with_most(alloc, declared(alloc, sites)?, updates, most)
}

/// Begins a visit.
pub fn enter<'a, R: Wait + Abort>(rt: &R, epochs: &'a Epochs) -> Visit<'a> {
    match epochs.enter(rt) {
        Ok(visit) => visit,
        Err(refusal) => panic!(rt; "a visit is refused: {refusal}"),
    }
}

/// Adds 1 to x.
pub fn propose<R: Wait + Abort>(
    rt: &R,
    epoch: &Cluster,
    session: &mut Session,
    turns: u64,
) -> Result<u64, Refusal>
    requires { 1 ≤ turns }
{
    let set = made(rt, add(epoch.objects(), x(), 1));
    promises::propose(rt, epoch, session, set, turns)
}

/// Applies at a site, in each epoch, until the service is stopped.
pub fn apply_at<G: Gate, R: Wait + Abort>(rt: &R, epochs: &Epochs, site: u8, gate: &G) {
    expect!(rt; applier(rt, epochs, SiteId::new(site), gate).is_ok());
}

/// How many updates came before an epoch that has ended, and how many it had.
fn counts(rt: &impl Abort, ended: &Closed) -> (u64, u64) {
    let log = ended.primary().log();
    expect!(rt; log.objects() > 0);
    let updates = ended.before().saturating_add(log.len());
    expect_eq!(rt; log.end_value(x()), updates.min(1_000_000_000) as i64);
    (ended.before(), log.len())
}

/// Starts the successor: how many updates came before the one that has ended, and how many it had.
pub fn start_successor<R: Wait + Abort>(
    rt: &R,
    alloc: Global,
    epochs: &Epochs,
    turns: u64,
) -> Result<(u64, u64), Refusal>
    requires { 1 ≤ turns }
{
    let ended = epochs.start_successor(rt, alloc, turns)?;
    let counts = counts(rt, &ended);
    ended.discard();
    Ok(counts)
}

/// Takes out the last epoch: how many updates came before it, and how many it had.
pub fn close(rt: &impl Abort, epochs: Epochs) -> Result<(u64, u64), Refusal> {
    let ended = epochs.close()?;
    let counts = counts(rt, &ended);
    ended.discard();
    Ok(counts)
}

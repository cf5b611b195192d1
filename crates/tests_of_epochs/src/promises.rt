//! Calls of epochs, and of what is left of them, whose clauses no proof above them cites, as in `promises.rt`.
ghost use Rattle.std.specs.Prelude.{◌≡◌, ◌≤◌, ℕ, List, None, length, min, IfOk, IfErr};
ghost use Rattle.ordup_objects.specs.Refusals.{IsRefusal};
ghost use Rattle.ordup_objects.specs.Sizes.{most_updates};
ghost use Rattle.ordup_primary.specs.Declarations.{start_refusal};
ghost use Rattle.ordup_cluster.specs.Clusters.{ClosedState, closed_successor_refusal, IsClosed, IsSuccessor};
ghost use Rattle.ordup_epochs.specs.Archives.{ArchivesAll};
ghost use Rattle.ordup_epochs.specs.Stages.{IsOpenAfter, IsEndOf, IsLeft, IsLost, IsNotFollowed, IsStartRefusal};

use ordup_cluster::{Closed, Cluster, Gate};
use ordup_epochs::{Archive, Epochs, Stage};
use ordup_objects::{Refusal, SiteId};
use ordup_primary::Setup;
use std::alloc::Global;
use std::sync::Wait;
use std::time::Clock;

/// `Epochs::new`.
pub fn new(alloc: Global, setup: Setup, updates: u64) -> Result<Epochs, Refusal>
    requires { 1 ≤ updates }
    ensures allowed { IfOk result (λ _. start_refusal setup ≡ None) }
    ensures refused { IfErr result (λ e. IsRefusal (start_refusal setup) e) }
{
    Epochs::new(alloc, setup, updates)
}

/// `Epochs::with_most`.
pub fn with_most(alloc: Global, setup: Setup, updates: u64, most: u64) -> Result<Epochs, Refusal>
    requires updates { 1 ≤ updates }
    requires most { (1 ≤ most) × (most ≤ most_updates) }
    ensures allowed { IfOk result (λ _. start_refusal setup ≡ None) }
    ensures refused { IfErr result (λ e. IsRefusal (start_refusal setup) e) }
{
    Epochs::with_most(alloc, setup, updates, most)
}

/// `Epochs::applier`.
pub fn applier<G: Gate, R: Wait>(
    rt: &R,
    epochs: &Epochs,
    site: SiteId,
    gate: &G,
) -> Result<u64, Refusal>
    ensures refused { IfErr result (λ e. e ≡ Refusal.UnknownSite) }
{
    epochs.applier(rt, site, gate)
}

/// `Closed::successor`.
pub fn successor(alloc: Global, closed: &Closed) -> Result<Cluster, Refusal>
    ensures successor { IfOk result (λ successor. IsSuccessor closed.now successor) }
    ensures allowed { IfOk result (λ _. closed_successor_refusal closed.now ≡ None) }
    ensures refused { IfErr result (λ e. IsRefusal (closed_successor_refusal closed.now) e) }
{
    closed.successor(alloc)
}

/// `Epochs::start_successor`.
pub fn start<R: Wait>(rt: &R, epochs: &Epochs, alloc: Global, turns: u64) -> Result<Closed, Refusal>
    requires { 1 ≤ turns }
    ensures closed { IfOk result IsClosed }
    ensures followed { IfOk result (λ ended. closed_successor_refusal ended ≡ None) }
    ensures refused { IfErr result IsStartRefusal }
{
    epochs.start_successor(rt, alloc, turns)
}

/// `Epochs::keep`.
pub fn keep<A: Archive, R: Wait + Clock>(
    rt: &R,
    epochs: &Epochs,
    alloc: Global,
    turns: u64,
    archive: &mut A,
) -> Result<u64, Refusal>
    requires { 1 ≤ turns }
    ensures refused { IfErr result (λ e. (site : ℕ) × (e ≡ Refusal.Mixed site)) }
    ensures archived { (all : List ClosedState) × ArchivesAll A.adds archive.old all archive.new × IfOk result (λ n. n ≡ min (length all) u64.MAX) }
{
    epochs.keep(rt, alloc, turns, archive)
}

/// `Epochs::close`.
pub fn close(epochs: Epochs) -> Result<Closed, Refusal>
    ensures closed { IfOk result IsClosed }
    ensures refused { IfErr result (λ e. (site : ℕ) × (e ≡ Refusal.Mixed site)) }
{
    epochs.close()
}

/// `Stage::start_successor`.
pub fn start_successor(stage: &mut Stage, alloc: Global, numbered: u64) -> Result<Closed, Refusal>
    ensures open { IfOk result (λ ended. IsOpenAfter ended stage.new) }
    ensures ended { IfOk result (IsEndOf stage.old numbered) }
    ensures closed { IfOk result IsClosed }
    ensures followed { IfOk result (λ ended. closed_successor_refusal ended ≡ None) }
    ensures left { IfErr result (λ e. IsLeft stage.old numbered e stage.new) }
    ensures refused { IfErr result IsNotFollowed }
{
    stage.start_successor(alloc, numbered)
}

/// `Stage::into_ended`.
pub fn into_ended(stage: Stage, numbered: u64) -> Result<Closed, Refusal>
    ensures ended { IfOk result (IsEndOf stage numbered) }
    ensures closed { IfOk result IsClosed }
    ensures lost { IfErr result (λ e. (site : ℕ) × (e ≡ Refusal.Mixed site) × IsLost stage site) }
{
    stage.into_ended(numbered)
}

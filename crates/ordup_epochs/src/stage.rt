ghost use Rattle.std.specs.Prelude.{◌≡◌, ◌<◌, ℕ, None, length, IfOk, IfErr};
ghost use Rattle.ordup_objects.specs.Refusals.{IsRefusal};
ghost use Rattle.ordup_cluster.specs.Clusters.{IsClosed, closed_successor_refusal};
ghost use Rattle.ordup_epochs.specs.Stages.{IsOpenAfter, IsEnd, IsEndOf, IsLeft, IsLost, IsNotFollowed};

use ordup_cluster::{Closed, Cluster};
use ordup_objects::{Refusal, SiteId};
use std::alloc::Global;
use std::mem;

// waits: as Cluster::new
/// What lies under the lock of the epochs. `Epochs::start_successor` ends with the call of that name here, and `Epochs::close` with
/// `into_ended`.
///
/// The stores that it hands out go on from one another, so a site has had the fewest rounds of them all:
/// `successive_stores_have_the_fewest_rounds` of `ordup_interleavings`.
#[derive(Drop)]
pub enum Stage {
    /// Callers work in this epoch.
    Open(Cluster),
    /// This epoch has ended, and its successor could not be opened yet, for this reason.
    Closed(Closed, Refusal),
    /// There is no epoch, since this site did not agree with the log.
    Over(SiteId),
}

impl Stage {
    // promise open ended closed followed left: the start of a successor hands out the closed epoch and opens the next, or keeps what
    // ended, or leaves nothing
    /// Closes the epoch that is open, if one is, of which this many updates were numbered, and opens its successor. It hands out
    /// the epoch that has ended.
    ///
    /// - What is handed out is the store that was open, with all its updates, and all of them are acknowledged.
    /// - The epoch that is open then is the successor of the one that is handed out, as of `Closed::successor`. So the rounds of a site
    ///   over all epochs are the fewest of them all together.
    /// - Where `Closed::successor` of what has ended is refused, it is kept for a later try, with that refusal. All is lost only where
    ///   a site did not agree with the log, or the log has not this many updates.
    pub fn start_successor(&mut self, alloc: Global, numbered: u64) -> Result<Closed, Refusal>
        ensures open { IfOk result (λ ended. IsOpenAfter ended self.new) }
        ensures ended { IfOk result (IsEndOf self.old numbered) }
        ensures closed { IfOk result IsClosed }
        ensures followed { IfOk result (λ ended. closed_successor_refusal ended ≡ None) }
        ensures left { IfErr result (λ e. IsLeft self.old numbered e self.new) }
        ensures refused { IfErr result IsNotFollowed }
    {
        let ended = match self.take_ended(numbered) {
            Ok(ended) => ended,
            Err(site) => return Err(Refusal::Mixed { site }),
        };
        self.open_successor(alloc, ended)
    }

    /// Closes the epoch that is open, if one is, and takes out the last one that has ended. Where none is left, it answers for which
    /// site.
    fn take_ended(&mut self, numbered: u64) -> Result<Closed, SiteId>
        ensures ended { IfOk result (IsEndOf self.old numbered) }
        ensures closed { IfOk result IsClosed }
        ensures left { IfErr result (λ site. IsLost self.old site × (self.new ≡ Stage.Over site)) }
    {
        match mem::replace(self, Stage::Over(SiteId::new(0))).ended_or_lost(numbered) {
            Ok(ended) => Ok(ended),
            Err(site) => {
                *self = Stage::Over(site);
                Err(site)
            }
        }
    }

    // promise ended closed lost: the last epoch is handed out, or refused `Mixed` alone
    /// Closes the epoch that is open, if one is, of which this many updates were numbered: the last epoch that has ended. It is
    /// refused `Mixed` alone, for a site that did not agree with the log, now or before.
    pub fn into_ended(self, numbered: u64) -> Result<Closed, Refusal>
        ensures ended { IfOk result (IsEndOf self numbered) }
        ensures closed { IfOk result IsClosed }
        ensures lost { IfErr result (λ e. (site : ℕ) × (e ≡ Refusal.Mixed site) × IsLost self site) }
    {
        match self.ended_or_lost(numbered) {
            Ok(ended) => Ok(ended),
            Err(site) => Err(Refusal::Mixed { site }),
        }
    }

    /// The last epoch that has ended, or the site for which none is left.
    fn ended_or_lost(self, numbered: u64) -> Result<Closed, SiteId>
        ensures ended { IfOk result (IsEndOf self numbered) }
        ensures closed { IfOk result IsClosed }
        ensures lost { IfErr result (IsLost self) }
    {
        match self {
            Stage::Open(epoch) => close(epoch, numbered),
            Stage::Closed(ended, _) => {
                // For the proof: a closed cluster has sites that agree with it.
                let _ = ended.primary();
                Ok(ended)
            }
            Stage::Over(site) => Err(site),
        }
    }

    /// Opens the successor of an epoch that has ended, which is handed out. Where that is refused, it is kept.
    fn open_successor(&mut self, alloc: Global, ended: Closed) -> Result<Closed, Refusal>
        ensures handed { IfOk result (λ it. it ≡ ended) }
        ensures open { IfOk result (λ it. IsOpenAfter it self.new) }
        ensures followed { IfOk result (λ _. closed_successor_refusal ended ≡ None) }
        ensures refused { IfErr result (λ e. IsRefusal (closed_successor_refusal ended) e) }
        ensures kept { IfErr result (λ e. self.new ≡ Stage.Closed ended e) }
    {
        let successor = ended.successor(alloc);
        match successor {
            Ok(epoch) => {
                *self = Stage::Open(epoch);
                Ok(ended)
            }
            Err(refusal) => {
                let refusal = &refusal;
                *self = Stage::Closed(ended, *refusal);
                Err(*refusal)
            }
        }
    }
}

/// Closes an epoch of which this many updates were numbered, or answers the site that does not agree with the log.
fn close(epoch: Cluster, numbered: u64) -> Result<Closed, SiteId>
    ensures ended { IfOk result (IsEnd epoch numbered) }
    ensures lost { IfErr result (λ site. site < length epoch.start.sites) }
{
    let ended = match epoch.close() {
        Ok(ended) => ended,
        Err(refusal) => return Err(site_of(&refusal)),
    };
    if ended.primary().log().len() != numbered {
        ended.discard();
        return Err(SiteId::new(0));
    }
    Ok(ended)
}

/// The site of a refusal that is `Mixed`.
fn site_of(refusal: &Refusal) -> SiteId
    requires { (site : ℕ) × (refusal.now ≡ Refusal.Mixed site) }
    ensures { refusal.now ≡ Refusal.Mixed result }
{
    match refusal {
        Refusal::Mixed { site } => *site,
        _ => unreachable!(),
    }
}

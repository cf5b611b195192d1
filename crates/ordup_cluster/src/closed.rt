ghost use Rattle.std.specs.Prelude.{◌≡◌, ◌<◌, ◌≤◌, length, None, Some, slice_get, IfOk, IfErr};
ghost use Rattle.ordup_objects.specs.Refusals.{IsRefusal};
ghost use Rattle.ordup_cluster.specs.Clusters.{IsClosed, most_before, closed_successor_refusal, IsSuccessor};

use crate::cluster::{Cluster, MOST_BEFORE};
use ordup_objects::{Refusal, SiteId};
use ordup_primary::Primary;
use ordup_site::Site;
use std::alloc::Global;
use std::marker::Model;

// waits: as Cluster::new
// promise: as Cluster::close
/// What is left of a cluster: its primary, and its sites in order of declaration.
#[derive(Drop)]
pub struct Closed {
    pub(crate) before: u64,
    pub(crate) primary: Primary,
    pub(crate) sites: Vec<Site>,
}

impl Model for Closed {
    ghost use Rattle.ordup_cluster.specs.Clusters.{ClosedState};

    ghost Value = { ClosedState };

    ghost view = { λ c. record { before = c.before; primary = c.primary; sites = c.sites.items } };

    ghost use Rattle.ordup_cluster.specs.ClosedInside.{KeepsClosed};

    ghost invariant = { KeepsClosed };
}

impl Closed {
    // promise primary kept: as Cluster::close
    /// The primary, whose numbers and places count from 1. Each site agrees with its log, and the records of its sites are valid.
    pub fn primary(&self) -> &Primary
        ensures primary { result.now ≡ self.now.primary }
        ensures kept { IsClosed self.now }
    {
        &self.primary
    }

    // promise before bounded: as Cluster::close
    /// How many updates came before the store, from 0 to 10^18.
    pub fn before(&self) -> u64
        ensures before { result ≡ self.now.before }
        ensures bounded { result ≤ most_before }
    {
        self.before
    }

    // promise: as Cluster::close
    /// A site.
    pub fn site(&self, site: SiteId) -> &Site
        requires { site < length self.now.sites }
        ensures { slice_get self.now.sites site ≡ Some result.now }
    {
        &self.sites[site.index()]
    }

    // promise successor allowed refused: the successor of a closed store begins after all its updates, once these are acknowledged
    /// Its successor: the store that begins with what it ended with.
    ///
    /// - It begins after all updates of this one, with the same objects, each at its value after the whole log.
    /// - It has the same groups, the same sites with their capacities, and each site's last limits, in force from its start.
    /// - It is refused `LogFull` where more than 10^18 updates would come before it, `NotYet` with the number that the last update has
    ///   in this store while one is not acknowledged, and `NoMemory`, in this order.
    ///
    /// The rounds of a site in this store and in those that go on from it are the fewest of them all together:
    /// `successive_stores_have_the_fewest_rounds` of `ordup_interleavings`.
    pub fn successor(&self, alloc: Global) -> Result<Cluster, Refusal>
        ensures successor { IfOk result (λ successor. IsSuccessor self.now successor) }
        ensures allowed { IfOk result (λ _. closed_successor_refusal self.now ≡ None) }
        ensures refused { IfErr result (λ e. IsRefusal (closed_successor_refusal self.now) e) }
    {
        let before = self.before + self.primary.log().len();
        if before > MOST_BEFORE {
            return Err(Refusal::LogFull);
        }
        let setup = self.primary.successor(alloc)?;
        Cluster::after(alloc, before, setup)
    }

    /// Drops it, by one call, and gives its memory back.
    pub fn discard(self) {
        let Closed {
            before: _,
            primary,
            sites,
        } = self;
        primary.discard();
        drop(sites);
    }
}

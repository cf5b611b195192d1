ghost use Rattle.std.specs.Prelude.{◌≡◌, ◌≢◌, ◌<◌, ◌⊎◌, ℕ, Some, length, slice_get, IfOk, IfErr, IfSome, IfNone};
ghost use Rattle.ordup_site.specs.Sites.{SiteState};
ghost use Rattle.ordup_holds.specs.Books.{AreSpareValues};
ghost use Rattle.ordup_holds.specs.Agreement.{Agrees};
ghost use Rattle.ordup_cluster.specs.Clusters.{IsClosed, IsFirstMixed};

use crate::closed::Closed;
use crate::cluster::Cluster;
use crate::reserved::sites_of;
use ordup_holds::agree;
use ordup_objects::{Refusal, SiteId, Values};
use ordup_primary::{Primary, Setup};
use ordup_site::Site;

impl Cluster {
    // waits: as Cluster::new
    // promise closed before start count refused: a closed cluster has the opened one's declarations and count; its sites agree, lag within
    // limits, and have valid records; it is refused `Mixed` alone, for a site of it
    /// Takes the store apart, once all threads are joined: it compares what the primary says was declared with what the store was
    /// opened with, and each site with the log. It takes no memory, and waits for nobody.
    ///
    /// - What is left is the store that was opened: as many updates came before it, and its primary has the same declarations.
    /// - The primary is sound, each site agrees with its log, and the acknowledged updates that a site has not applied keep its
    ///   limits.
    /// - There are as many sites as before.
    /// - It is refused `Mixed` alone, for a site of the store: the first that does not agree with the log, or the first of all where
    ///   the declarations differ.
    pub fn close(self) -> Result<Closed, Refusal>
        ensures closed { IfOk result IsClosed }
        ensures before { IfOk result (λ c. c.before ≡ self.before) }
        ensures start { IfOk result (λ c. c.primary.setup ≡ self.start) }
        ensures count { IfOk result (λ c. length c.sites ≡ length self.start.sites) }
        ensures refused { IfErr result (λ e. (s : ℕ) × (e ≡ Refusal.Mixed s) × (s < length self.start.sites)) }
    {
        let Cluster {
            before,
            book,
            cells,
            setup,
            spare_sites,
            stopped: _,
            numbered: _,
            due: _,
            acked: _,
            sent: _,
            told: _,
            heads: _,
        } = self;
        let sites = sites_of(cells, spare_sites);
        let (primary, mut spare_values) = book.into_inner().into_parts();
        let mixed = first_mixed(&setup, &primary, &sites, &mut spare_values);
        drop(spare_values);
        setup.discard();
        match mixed {
            Some(site) => {
                primary.discard();
                drop(sites);
                Err(Refusal::Mixed { site })
            }
            None => Ok(Closed {
                before,
                primary,
                sites,
            }),
        }
    }

    // waits: as Cluster::new
    /// Drops it, by one call, and gives its memory back. No site is compared with the log.
    pub fn discard(self) {
        let Cluster {
            before: _,
            book,
            cells,
            setup,
            spare_sites,
            stopped: _,
            numbered: _,
            due: _,
            acked: _,
            sent: _,
            told: _,
            heads: _,
        } = self;
        book.into_inner().discard();
        drop(cells);
        setup.discard();
        drop(spare_sites);
    }
}

// promise mixed: as Cluster::close
/// The first site that does not agree with the primary, given the initial values once for each site; or the first of all, where the
/// primary has other declarations than these.
fn first_mixed(
    setup: &Setup,
    primary: &Primary,
    sites: &Vec<Site>,
    spare_values: &mut Vec<Values>,
) -> Option<SiteId>
    requires { AreSpareValues primary.now spare_values.old.items }
    ensures mixed { IfSome result (λ s. (((primary.now.setup ≢ setup.now) ⊎ (length sites.now.items ≢ length primary.now.sites)) × (s ≡ 0)) ⊎ IsFirstMixed primary.now sites.now.items s) }
    ensures setup { IfNone result (primary.now.setup ≡ setup.now) }
    ensures count { IfNone result (length sites.now.items ≡ length primary.now.sites) }
    ensures agree { IfNone result ((s : ℕ) (x : SiteState) → slice_get sites.now.items s ≡ Some x → Agrees primary.now s x) }
{
    primary.keeps();
    if !primary.setup().is_same(setup) {
        return Some(SiteId::new(0));
    }
    if sites.len() != primary.setup().sites() {
        return Some(SiteId::new(0));
    }
    for index in 0..primary.setup().sites() {
        let site = SiteId::new(index as u8);
        let Some(values) = spare_values.pop() else {
            return Some(site);
        };
        if !agree(primary, site, &sites[index], values) {
            return Some(site);
        }
    }
    None
}

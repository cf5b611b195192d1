ghost use Rattle.std.specs.Prelude.{◌≡◌, ◌<◌, ◌≤◌, ◌++◌, ◌∷◌, [], length};
ghost use Rattle.ordup_objects.specs.Sizes.{most_sites};

use ordup_objects::SiteId;
use ordup_objects::sizes::MOST_SITES;
use std::marker::Model;

/// Sites in order of declaration. It takes no memory.
#[derive(Debug, Drop)]
pub struct SiteList {
    sites: [SiteId; MOST_SITES],
    count: usize,
}

impl Model for SiteList {
    ghost use Rattle.std.specs.Prelude.{List, ℕ};
    ghost use Rattle.ordup_primary.specs.SiteListInside.{sites_of, HasFewSites};

    ghost Value = { List ℕ };

    ghost view = { sites_of };

    ghost invariant = { HasFewSites };
}

impl SiteList {
    /// No sites.
    pub(crate) fn new() -> Self
        ensures { result ≡ [] }
    {
        SiteList {
            sites: [SiteId::new(0); MOST_SITES],
            count: 0,
        }
    }

    /// Adds a site as the last.
    pub(crate) fn push(&mut self, site: SiteId)
        requires { length self.old < most_sites }
        ensures { self.new ≡ self.old ++ site ∷ [] }
    {
        self.sites[self.count] = site;
        self.count += 1;
    }

    // promise: as Primary::setup
    /// What each list keeps, for the proofs of its users. It does nothing.
    #[inline(always)]
    pub fn keeps(&self)
        ensures { length self.now ≤ most_sites }
    {
        let _ = &self.count;
    }

    // promise: as Primary::setup
    /// The sites.
    pub fn as_slice(&self) -> &[SiteId]
        ensures { result.now ≡ self.now }
    {
        &self.sites[..self.count]
    }
}

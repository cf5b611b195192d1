//! The memory that a cluster reserves beside its book and its cells, and the lists that are made in it.
ghost use Rattle.std.specs.Prelude.{◌≡◌, ◌≤◌, length, vec_len, IfOk, IfErr};
ghost use Rattle.std.specs.Vec.{vec_capacity};

use ordup_holds::{Book, SiteCell};
use ordup_objects::{Refusal, or_give_up};
use ordup_primary::Setup;
use ordup_site::Site;
use std::alloc::Global;
use std::sync::Mutex;

/// What a cluster reserves beside its book and its cells.
pub(crate) struct Reserved {
    /// A copy of what was declared.
    pub(crate) setup: Setup,
    /// Empty, with a place for the lock of each site.
    pub(crate) locks: Vec<Mutex<SiteCell>>,
    /// Empty, with a place for each site.
    pub(crate) sites: Vec<Site>,
}

impl Reserved {
    /// What is reserved for a cluster with this book and this number of sites.
    pub(crate) fn new(alloc: Global, book: &Book, sites: usize) -> Result<Reserved, Refusal>
        ensures setup { IfOk result (λ reserved. reserved.setup ≡ book.now.primary.setup) }
        ensures locks { IfOk result (λ reserved. (vec_len reserved.locks ≡ 0) × (sites ≤ vec_capacity reserved.locks)) }
        ensures sites { IfOk result (λ reserved. (vec_len reserved.sites ≡ 0) × (sites ≤ vec_capacity reserved.sites)) }
        ensures refused { IfErr result (λ e. e ≡ Refusal.NoMemory) }
    {
        let setup = book.primary().setup().copy(alloc)?;
        let locks = or_give_up!(Vec::with_capacity(alloc, sites), setup);
        let sites = or_give_up!(Vec::with_capacity(alloc, sites), setup, locks);
        Ok(Reserved {
            setup,
            locks,
            sites,
        })
    }
}

/// Each cell under a lock of its own, in a list with spare capacity for them.
pub(crate) fn locked(cells: Vec<SiteCell>, spare: Vec<Mutex<SiteCell>>) -> Vec<Mutex<SiteCell>>
    requires empty { vec_len spare ≡ 0 }
    requires enough { length cells.items ≤ vec_capacity spare }
    ensures { vec_len result ≡ length cells.items }
{
    let mut locked = spare;
    for cell in cells {
        locked.push_reserved(Mutex::new(cell));
    }
    locked
}

/// The site of each cell, in a list with spare capacity for them.
pub(crate) fn sites_of(cells: Vec<Mutex<SiteCell>>, spare: Vec<Site>) -> Vec<Site>
    requires empty { vec_len spare ≡ 0 }
    requires enough { vec_len cells ≤ vec_capacity spare }
    ensures { vec_len result ≡ vec_len cells }
{
    let mut sites = spare;
    for cell in cells {
        sites.push_reserved(cell.into_inner().into_site());
    }
    sites
}

//! A site behind a handle.
use ordup_holds::SiteCell;
use ordup_ring::RingTakeEnd;

/// A site of a cluster.
#[derive(Drop)]
pub struct OpenSite {
    pub(crate) cell: SiteCell<RingTakeEnd>,
    /// Its place in the order of declaration.
    pub(crate) index: u32,
    /// The number by which the host tells its clusters apart.
    pub(crate) cluster: u64,
}

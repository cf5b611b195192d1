//! A book behind a handle.
ghost use Rattle.std.specs.Prelude.{◌≤◌, length};
ghost use Rattle.ordup_objects.specs.Sizes.{most_sites};

use ordup_holds::{Book, SiteCell};
use ordup_ring::{RingSendEnd, RingTakeEnd};

/// The book of a cluster, and the cells of its first sites, which no handle has yet.
#[derive(Drop)]
pub struct OpenBook {
    pub(crate) book: Book<RingSendEnd>,
    pub(crate) cells: Vec<SiteCell<RingTakeEnd>>,
    /// The number by which the host tells its clusters apart.
    pub(crate) cluster: u64,
    pub(crate) ghost few: { length cells.items ≤ most_sites },
}

use crate::site_list::SiteList;

/// What came of a settlement of the head, which is the update after the last acknowledged one.
#[derive(Debug, Drop)]
pub enum Settled {
    /// The update with this number is acknowledged.
    Acked(u64),
    /// The settlement decided update k, and forced these sites to report it first: a synchronous round trip for each.
    Round { k: u64, sites: SiteList },
    /// Update k was decided before, and these of its forced sites have not reported it.
    Waiting { k: u64, sites: SiteList },
}

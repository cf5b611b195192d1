//! Records of several sites that are audited one by one, so that two are held at a time.
ghost use Rattle.std.specs.Prelude.{◌≡◌, ◌≤◌, ◌*◌};
ghost use Rattle.ordup_objects.specs.Sizes.{most_updates};
ghost use Rattle.ordup_series.specs.declared.sizes.TheConstants.{MOST_RECORDS};

mod taking;

use ordup_audit::Record;
use std::alloc::{Allocator, Global};

/// The audit of the records of several sites: what it needs of those that it took, all of which are valid and the same as far as each
/// two go.
#[derive(Drop)]
pub struct SitesAudit<A: Allocator + Copy = Global> {
    /// The first record with the most updates; none before the first. What is the same as this one is the same as all.
    longest: Option<Record<A>>,
    /// How many records there were.
    records: u64,
    /// How many rounds they have together.
    rounds: u64,
    ghost kept: { (records ≤ MOST_RECORDS) × (rounds ≤ records * most_updates) },
}

impl<A: Allocator + Copy> SitesAudit<A> {
    // promise: as SitesAudit::new
    /// How many rounds the records have together that were taken.
    pub fn rounds(&self) -> u64
        ensures rounds { result ≡ self.now.rounds }
    {
        self.rounds
    }
}

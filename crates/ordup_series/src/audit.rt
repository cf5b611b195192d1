//! A series that is audited record by record, so that one is held at a time.
ghost use Rattle.std.specs.Prelude.{◌≡◌, ◌≤◌, ◌*◌};
ghost use Rattle.ordup_objects.specs.Sizes.{most_updates};
ghost use Rattle.ordup_series.specs.declared.sizes.TheConstants.{MOST_RECORDS};

mod taking;

use crate::record_end::RecordEnd;
use std::alloc::{Allocator, Global};

/// The audit of a series of records of one site: what it needs of those that it took, all of which are valid.
#[derive(Drop)]
pub struct SeriesAudit<A: Allocator + Copy = Global> {
    /// What the last record ended with; none before the first.
    end: Option<RecordEnd<A>>,
    /// How many records there were.
    records: u64,
    /// How many updates they have together.
    places: u64,
    /// How many rounds they have together.
    rounds: u64,
    ghost kept: { (records ≤ MOST_RECORDS) × (places ≤ records * most_updates) × (rounds ≤ records * most_updates) },
}

impl<A: Allocator + Copy> SeriesAudit<A> {
    // promise: the readers answer the updates and rounds taken; a reason has its name
    /// How many updates the records have together that were taken.
    pub fn places(&self) -> u64
        ensures places { result ≡ self.now.places }
        // What each audit keeps, for the proofs of its users.
        ensures few { result ≤ MOST_RECORDS * most_updates }
    {
        self.places
    }

    // promise: as SeriesAudit::places
    /// How many rounds the records have together that were taken.
    pub fn rounds(&self) -> u64
        ensures rounds { result ≡ self.now.rounds }
        ensures few { result ≤ MOST_RECORDS * most_updates }
    {
        self.rounds
    }
}

use ordup_objects::MessageSet;
use std::alloc::{Allocator, Global};

/// An update on its way to a site.
#[derive(Debug, Drop)]
pub struct Parcel<A: Allocator + Copy = Global> {
    /// The number of the update, which is its place in the log.
    pub number: u64,
    /// Its changes.
    pub set: MessageSet<A>,
}

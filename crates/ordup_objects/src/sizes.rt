//! The sizes of the store, each in one place.

/// A value lies from minus this to this.
pub const GREATEST_VALUE: u64 = 1_000_000_000;
/// The most bytes of a name.
pub const MOST_NAME_BYTES: usize = 16;
/// The most objects of a store.
pub const MOST_OBJECTS: usize = 256;
/// The most changes of a message set.
pub const MOST_CHANGES: usize = 64;
/// The most groups of objects.
pub const MOST_GROUPS: usize = 32;
/// The most objects in a group.
pub const MOST_MEMBERS: usize = 64;
/// The most sites of a store.
pub const MOST_SITES: usize = 16;
/// The greatest capacity of a site's feed.
pub const GREATEST_CAPACITY: u64 = 1_024;
/// The most updates of a log.
pub const MOST_UPDATES: usize = 1_000_000;

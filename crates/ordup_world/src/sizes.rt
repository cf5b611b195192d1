//! The sizes of a world, each in one place.

/// The most queries that are open at a time.
pub const MOST_QUERIES: usize = 64;

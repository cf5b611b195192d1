//! The sizes of queries, each in one place.

/// The most accepted reads of a query.
pub const MOST_READS: u64 = 256;
/// The greatest import limit of a query.
pub const GREATEST_IMPORT_LIMIT: u64 = 1_000_000_000_000_000_000;

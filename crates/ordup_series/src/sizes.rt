//! How much a series may have.

/// How many records a series may have: a million millions.
pub const MOST_RECORDS: u64 = 1_000_000_000_000;

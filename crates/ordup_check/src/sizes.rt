//! How much a text of records may have.

/// The most bytes of a text of records: as many as a machine can count.
pub const MOST_SERIES_BYTES: u64 = 9_223_372_036_854_775_807;

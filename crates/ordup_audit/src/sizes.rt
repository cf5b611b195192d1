//! The sizes of records, each in one place.

/// The most windows of a record.
pub const MOST_WINDOWS: usize = 1_000_000;

//! The sizes of limits, each in one place.

/// The most scopes on which a site has limits.
pub const MOST_LIMITS: usize = 64;
/// The most entries of a site: limits with the places from which they hold.
pub const MOST_ENTRIES: usize = 1_088;
/// The greatest amount of a limit.
pub const GREATEST_AMOUNT: u64 = 1_000_000_000_000_000_000;

//! The sizes of an entry.

/// The most bytes of an entry that is read.
pub const MOST_ENTRY_BYTES: usize = 2_097_152;
/// The most bytes of a declaration, or of the changes of a request.
pub const MOST_CHANGES_BYTES: usize = 4_000;
/// The most bytes of the name of a client.
pub const MOST_CLIENT_BYTES: usize = 64;
/// The most bytes of the name of a writer.
pub const MOST_WRITER_BYTES: usize = 256;
/// The most bytes of a version, a digest or the name of a refusal.
pub const MOST_WORD_BYTES: usize = 64;
/// The most that the steps of an entry count in sum, and the most of each number that counts: as many updates as a store may have.
pub const MOST_COUNTED: u64 = 1_000_000;
/// The greatest number of a request, of an epoch, or of seconds that a request is older.
pub const MOST_NUMBER: u64 = 999_999_999_999_999_999;
/// The greatest amount of a limit.
pub const MOST_AMOUNT: u64 = 9_223_372_036_854_775_807;

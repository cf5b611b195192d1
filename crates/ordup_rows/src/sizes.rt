//! The sizes of records as text.

/// The most bytes of a record that is read: 8 GiB. More than the rows of a record can have.
pub const MOST_RECORD_BYTES: u64 = 8_589_934_592;

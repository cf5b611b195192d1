//! The sizes of a script.

/// The most bytes of a script.
pub const MOST_SCRIPT_BYTES: u64 = 1_073_741_824;
/// How many bytes of a script are read at once.
pub(crate) const PIECE: usize = 65_536;

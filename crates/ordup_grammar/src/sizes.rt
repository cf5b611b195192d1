//! The sizes of a line.

/// The most bytes of a line, its line feed not counted.
pub const MOST_LINE_BYTES: usize = 4_096;
/// The most digits of a number.
pub const MOST_DIGITS: usize = 19;

//! The exit statuses of the program.

/// All was done.
pub const DONE: u8 = 0;
/// A record is not valid, an update is not acknowledged, or a site does not agree with the log.
pub const NOT_DONE: u8 = 1;
/// The words ask for no job, or name no site.
pub const WRONG_WORDS: u8 = 2;
/// The input or the output failed, or the script did not start.
pub(crate) const INPUT_OR_OUTPUT_FAILED: u8 = 3;
/// There was no memory.
pub(crate) const NO_MEMORY: u8 = 4;

//! What a call answers.

/// All was done, and all bytes were given.
pub const DONE: u32 = 0;
/// There are more bytes than fit into the buffer.
pub const MORE: u32 = 1;
/// There is no store.
pub const CLOSED: u32 = 2;
/// There is a store already.
pub const OPEN: u32 = 3;
/// Memory was refused. Nothing is lost.
pub const NO_MEMORY: u32 = 4;
/// No start was accepted.
pub const NOT_STARTED: u32 = 5;
/// No such site is declared.
pub const UNKNOWN_SITE: u32 = 6;
/// A row of a record breaks a rule of the format.
pub const MALFORMED: u32 = 7;
/// A record has more bytes than it may.
pub const TOO_LONG: u32 = 8;
/// An update is not acknowledged yet.
pub const NOT_YET: u32 = 9;

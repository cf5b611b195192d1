//! What a call answers.
ghost use Rattle.std.specs.Prelude.{◌≡◌};
ghost use Rattle.ordup_shared.specs.Statuses.{status_of};

use ordup_objects::Refusal;

/// All was done.
pub const DONE: u32 = 0;
/// There is more than there is room for.
pub const MORE: u32 = 1;
/// The handle is closed.
pub const CLOSED: u32 = 2;
/// The handle is open already.
pub const OPEN: u32 = 3;
/// The handle is of something else.
pub const OTHER: u32 = 10;
/// The handles are of two clusters.
pub const FOREIGN: u32 = 11;
/// A condition is not met.
pub const UNMET: u32 = 12;
/// The status of a refusal is this and its number.
pub const REFUSED: u32 = 100;
/// `UnknownObject`.
pub const UNKNOWN_OBJECT: u32 = 106;
/// `NothingToApply`.
pub const NOTHING: u32 = 116;
/// `Behind`.
pub const BEHIND: u32 = 121;
/// `NoMemory`.
pub const NO_MEMORY: u32 = 126;
/// `Mixed`.
pub const MIXED: u32 = 127;

/// The status of a refusal.
pub(crate) fn status_of(refusal: &Refusal) -> u32
    ensures { result ≡ status_of refusal.now }
{
    REFUSED + refusal.number() as u32
}

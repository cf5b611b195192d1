ghost use Rattle.ordup_world.specs.LimitChanges.{LimitChangesLeaveDecidedPlaces, LimitChangesLeaveRounds};

use std::alloc::Allocator;

// promise: an accepted change of a limit leaves limits, rounds and windows at decided places
/// A law: a change of a limit that is accepted leaves the limits that are in force at each decided place as they were.
///
/// So a decision may be looked at by the limits of all accepted events, as by those of the events before it.
pub fn limit_changes_leave_decided_places<A: Allocator + Copy>()
    ensures { LimitChangesLeaveDecidedPlaces A }
{}

// promise: as limit_changes_leave_decided_places
/// A law: a change of a limit that is accepted leaves the rounds and the windows of each site as they were.
pub fn limit_changes_leave_rounds<A: Allocator + Copy>()
    ensures { LimitChangesLeaveRounds A }
{}

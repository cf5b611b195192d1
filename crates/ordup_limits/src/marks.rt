ghost use Rattle.std.specs.Prelude.{◌≡◌, ◌≤◌, ◌<◌, ◌-◌, length};
ghost use Rattle.ordup_objects.specs.Marks.{AreMarks};

use ordup_log::Log;
use std::alloc::Allocator;

/// Takes the update at a place off the marks of the place, which leaves those of the place before.
pub(crate) fn take_off<A: Allocator + Copy>(marks: &mut Vec<u64, A>, log: &Log<A>, place: u64)
    requires first { 0 < place }
    requires last { place ≤ length log.now.sets }
    requires count { length marks.old.items ≡ length log.now.start }
    requires marks { AreMarks log.now place marks.old.items }
    ensures count { length marks.new.items ≡ length log.now.start }
    ensures marks { AreMarks log.now (place - 1) marks.new.items }
{
    log.keeps();
    let moves = log.moves(place);
    for moved in moves {
        marks[moved.object.index()] -= u64::from(moved.distance);
    }
}

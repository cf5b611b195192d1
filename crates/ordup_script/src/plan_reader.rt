//! A plan from a reader.
ghost use Rattle.std.specs.Prelude.{◌≡◌, ◌≤◌, []};
ghost use Rattle.ordup_script.specs.declared.sizes.TheConstants.{MOST_SCRIPT_BYTES};
ghost use Rattle.ordup_script.specs.Plannings.{HasPlanned};
ghost use Rattle.ordup_script.specs.PlanReadings.{ReadsInto, ReadsPlan};

use crate::line_reader::{Extent, read_lines};
use crate::plan::{Plan, PlanFault, Planning};
use crate::sizes::MOST_SCRIPT_BYTES;
use ordup_objects::or_give_up;
use std::alloc::Allocator;
use std::io::Read;

/// Reads a plan of at most `limit` bytes, of which no line was taken yet.
fn read_into<A: Allocator + Copy, R: Read>(
    planning: &mut Planning<A>,
    input: &mut R,
    limit: u64,
) -> Result<(), PlanFault>
    requires start { HasPlanned planning.old [] }
    requires lines { planning.old.lines ≡ 0 }
    requires few { limit ≤ MOST_SCRIPT_BYTES }
    ensures { ReadsInto (record {
      had = R.remaining input.old;
      has = R.remaining input.new;
      limit = limit;
    }) planning.new.plan result }
{
    match read_lines(planning, input, limit)? {
        Extent::Whole => planning.end(),
        Extent::BeforeFailure => Err(PlanFault::Read),
        Extent::UpToLimit => Err(PlanFault::TooLong),
    }
}

// promise ReadsPlan.Ok ReadsPlan.Malformed ReadsPlan.Read ReadsPlan.TooLong: as read_plan
/// Reads a plan of at most `limit` bytes, which are no more than a script may have.
///
/// - `Ok`: the reader was read to its end and had at most as many bytes. The plan is what all of its lines declare and propose: a
///   store can start with the setup, and each set is a message set over its objects.
/// - `Malformed`: the line is the first that does not belong, whatever comes after it. Or the plan ended within the limit without a
///   `start`, and it is the line after the last.
/// - `Read`: a read failed, and each line that a line feed ended before belongs.
/// - `TooLong`: there are more bytes, and each line that a line feed ended within the limit belongs.
/// - `NoMemory`: an allocation was refused.
pub fn read_plan_within<A: Allocator + Copy, R: Read>(
    alloc: A,
    input: &mut R,
    limit: u64,
) -> Result<Plan<A>, PlanFault>
    requires { limit ≤ MOST_SCRIPT_BYTES }
    ensures { ReadsPlan (record {
      had = R.remaining input.old;
      has = R.remaining input.new;
      limit = limit;
    }) result }
{
    let mut planning = Planning::new(alloc);
    or_give_up!(read_into(&mut planning, input, limit), planning.plan);
    Ok(planning.plan)
}

// promise ReadsPlan.Ok ReadsPlan.Malformed ReadsPlan.Read ReadsPlan.TooLong: a plan is read as a ready setup and its sets, or up to the
// first wrong line
/// Reads a plan: declarations, `start`, and then proposals alone. It answers as `read_plan_within` does with the limit
/// `MOST_SCRIPT_BYTES`.
pub fn read_plan<A: Allocator + Copy, R: Read>(
    alloc: A,
    input: &mut R,
) -> Result<Plan<A>, PlanFault>
    ensures { ReadsPlan (record {
      had = R.remaining input.old;
      has = R.remaining input.new;
      limit = MOST_SCRIPT_BYTES;
    }) result }
{
    read_plan_within(alloc, input, MOST_SCRIPT_BYTES)
}

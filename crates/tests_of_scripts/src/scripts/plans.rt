//! Plans that are not read to their end.
ghost use Rattle.std.specs.Prelude.{◌≤◌};

use ordup_script::{PlanFault, read_plan_within};
use std::alloc::Global;
use std::io::Read;
use test_fixtures::expect;
use test_fixtures::readers::PieceReader;

/// Why a plan of at most this count of bytes is not read, if it is not.
fn fault<R: Read>(alloc: Global, input: &mut R, limit: u64) -> Option<PlanFault>
    requires { limit ≤ 1073741824 }
{
    read_plan_within(alloc, input, limit).err()
}

/// Reads plans from a reader that fails, and over a limit.
// shows: read_plan_within ReadsPlan.Malformed ReadsPlan.Read ReadsPlan.TooLong; streams
#[test]
fn plans_that_cannot_be_read(rt: HostRuntime) {
    let failed = fault(rt.alloc(), &mut PieceReader::new(b"", 1, 0), 100);
    expect!(&rt; failed == Some(PlanFault::Read));
    // 26 bytes.
    let text = b"object x 0\nsite a 4\nstart\n";
    let mut input = text.as_slice();
    expect!(&rt; fault(rt.alloc(), &mut input, 26).is_none());
    let mut input = text.as_slice();
    expect!(&rt; fault(rt.alloc(), &mut input, 25) == Some(PlanFault::TooLong));
    // The line that does not belong is met before the limit.
    let text = b"start\nobject x 0\n";
    let mut input = text.as_slice();
    let failed = fault(rt.alloc(), &mut input, 6);
    expect!(&rt; failed == Some(PlanFault::Malformed { line: 1 }));
}

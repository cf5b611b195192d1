//! Whole lists of events, with all answers as a script shows them.
use crate::events::fixtures::{run_forced_and_awaited, run_limited_anew, run_swapped};
use ordup_answers::push_answer;
use ordup_text::TextBuffer;
use ordup_world::Run;
use std::alloc::{AllocError, Global};
use std::test::Fail;
use test_fixtures::expect;

/// The first update weighs 5, which is not over 5. With the second it is 6, so a is forced there, and what it reports at first is
/// not enough. In the end x is 0 + 5 + 1.
const FORCED_AND_AWAITED: &str = "\
ok proposed 1
ok acked 1
ok proposed 2
ok round 2 a
ok waiting 2 a
ok sent a 1
ok sent a 2
ok applied a 1
ok reported a 1
ok waiting 2 a
ok applied a 2
ok reported a 2
ok acked 2
ok show a sent 2 applied 2 reported 2 rounds 1 x=6 y=10
";

/// 3 is acknowledged and not reported, so the limit is 3 from the second update on, and not 2. With the second update it is 4, so a
/// is forced there. Nothing is changed until that is acknowledged.
const LIMITED_ANEW: &str = "\
ok relimit a 1
ok proposed 1
ok acked 1
refused 25 LagOver
ok relimit a 2
ok proposed 2
ok round 2 a
refused 24 HeadPending
ok sent a 1
ok sent a 2
ok applied a 1
ok applied a 2
ok reported a 2
refused 24 HeadPending
ok acked 2
refused 9 OutOfRange
ok relimit a 3
ok show a sent 2 applied 2 reported 2 rounds 1 x=4 y=10
";

/// Both changes read the values before the set.
const SWAPPED: &str = "\
ok proposed 1
ok sent a 1
ok applied a 1
ok show a sent 1 applied 1 reported 0 rounds 0 x=10 y=0
";

/// The answers to events of the site a, as a script shows them.
fn shown(alloc: Global, outcome: &Run) -> Result<TextBuffer, AllocError> {
    let setup = outcome.world.primary().setup();
    let mut text = TextBuffer::new(alloc);
    for answer in &outcome.answers {
        push_answer(&mut text, setup, b"a", b"", answer)?;
    }
    Ok(text)
}

/// Whether the answers are shown as this text.
fn are_shown(alloc: Global, outcome: &Run, wanted: &str) -> bool {
    match shown(alloc, outcome) {
        Ok(text) => text.as_slice() == wanted.as_bytes(),
        Err(_) => false,
    }
}

/// Runs an update that waits for a report.
// shows: run answers; push_answer
#[test]
fn a_forced_update_is_acknowledged_once_it_is_reported(rt: HostRuntime) -> Result<(), Fail> {
    let outcome = run_forced_and_awaited(&rt, rt.alloc())?;
    expect!(&rt; are_shown(rt.alloc(), &outcome, FORCED_AND_AWAITED));
    drop(outcome);
    Ok(())
}

/// Runs a swap of x and y.
// shows: run answers; push_answer
#[test]
fn a_swap_reads_the_values_before_the_set(rt: HostRuntime) -> Result<(), Fail> {
    let outcome = run_swapped(&rt, rt.alloc())?;
    expect!(&rt; are_shown(rt.alloc(), &outcome, SWAPPED));
    drop(outcome);
    Ok(())
}

/// Runs changes of a limit.
// shows: run answers; push_answer
#[test]
fn a_list_of_events_changes_limits(rt: HostRuntime) -> Result<(), Fail> {
    let outcome = run_limited_anew(&rt, rt.alloc())?;
    expect!(&rt; are_shown(rt.alloc(), &outcome, LIMITED_ANEW));
    drop(outcome);
    Ok(())
}

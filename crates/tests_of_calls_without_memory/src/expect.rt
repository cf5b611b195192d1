//! What tests expect. An assertion divides the proof of the function that has it, and a call does not. So an expectation is a call:
//! the macros of `test_fixtures` show what was expected, and in which case.
ghost use Rattle.std.specs.Prelude.{IsTrue};

use ordup_objects::Refusal;
use std::fmt::Debug;
use std::process::Abort;

/// What a fixture made, where it was not refused.
pub(crate) fn made<T>(rt: &impl Abort, fixture: Result<T, Refusal>) -> T {
    match fixture {
        Ok(made) => made,
        Err(refusal) => panic!(rt; "a fixture is refused: {refusal}"),
    }
}

/// Expects that a condition holds, which the proof of the test knows from then on.
pub(crate) fn holds(rt: &impl Abort, what: &str, condition: bool)
    ensures { IsTrue condition }
{
    assert!(rt; condition, "expected: {what}");
}

/// Expects that a condition holds in a case.
pub(crate) fn holds_in<C: Debug>(rt: &impl Abort, what: &str, case: &C, condition: bool)
    ensures { IsTrue condition }
{
    assert!(rt; condition, "expected in the case {case:?}: {what}");
}

/// Expects that two values are equal.
pub(crate) fn equal<T: PartialEq + Debug>(rt: &impl Abort, what: &str, found: &T, wanted: &T) {
    assert_eq!(rt; found, wanted, "{what}");
}

/// Expects that two values are equal in a case.
pub(crate) fn equal_in<C: Debug, T: PartialEq + Debug>(
    rt: &impl Abort,
    what: &str,
    case: &C,
    found: &T,
    wanted: &T,
) {
    assert_eq!(rt; found, wanted, "in the case {case:?}: {what}");
}

//! How many entries of a list are up to a place, for a reader that goes through all places in order.

ghost use Rattle.std.specs.Prelude.{◌≡◌, ◌<◌, ◌≤◌, ◌+◌, ℕ, length, map};
ghost use Rattle.std.specs.List.Sorted.{IsStrictlyIncreasing};
ghost use Rattle.ordup_rounds.specs.Schedules.{awaited_place};
ghost use Rattle.ordup_rounds.specs.Rounds.{full_rounds};
ghost use Rattle.ordup_audit.specs.Records.{report_at};
ghost use Rattle.ordup_audit.specs.Cursors.{AreUpto};

use crate::report_change::ReportChange;

/// How many of the changes are up to a place, where `passed` of them are before it.
pub(crate) fn pass_reports(changes: &[ReportChange], passed: usize, place: u64) -> usize
    requires some { 0 < place }
    requires ascending { IsStrictlyIncreasing (map (λ c. c.place) changes.now) }
    requires before { (k : ℕ) → k + 1 ≡ place → AreUpto k (map (λ c. c.place) changes.now) passed }
    ensures { AreUpto place (map (λ c. c.place) changes.now) result }
{
    if passed < changes.len() && changes[passed].place == place {
        return passed + 1;
    }
    passed
}

/// What the last of the passed changes reported, 0 where none is passed.
pub(crate) fn reported(changes: &[ReportChange], passed: usize) -> u64
    requires { passed ≤ length changes.now }
    ensures { (k : ℕ) → AreUpto k (map (λ c. c.place) changes.now) passed → result ≡ report_at changes.now k }
{
    if passed == 0 {
        return 0;
    }
    changes[passed - 1].reported
}

/// How many of the rounds are up to a place, where `passed` of them are before it.
pub(crate) fn pass_rounds(rounds: &[u64], passed: usize, place: u64) -> usize
    requires some { 0 < place }
    requires ascending { IsStrictlyIncreasing rounds.now }
    requires before { (k : ℕ) → k + 1 ≡ place → AreUpto k rounds.now passed }
    ensures { AreUpto place rounds.now result }
{
    if passed < rounds.len() && rounds[passed] == place {
        return passed + 1;
    }
    passed
}

/// The place of the last of the passed rounds, 0 where none is passed.
pub(crate) fn awaited(rounds: &[u64], passed: usize) -> u64
    requires passed { passed ≤ length rounds.now }
    requires ascending { IsStrictlyIncreasing rounds.now }
    ensures { (k : ℕ) → AreUpto k rounds.now passed → result ≡ awaited_place (full_rounds rounds.now) k }
{
    if passed == 0 {
        return 0;
    }
    rounds[passed - 1]
}

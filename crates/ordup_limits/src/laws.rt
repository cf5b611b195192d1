ghost use Rattle.ordup_limits.specs.Limits.{LongerHistoriesKeepLimits, LaterSpansKeepLimits, EmptySpansKeepLimits};
ghost use Rattle.ordup_limits.specs.Entries.{LimitsInForceAreALimitTest, LimitsInForceKeepTheirNumbers};
ghost use Rattle.ordup_limits.specs.Joins.{LimitsByPlaceAreTests, TestsJoin};
ghost use Rattle.ordup_limits.specs.Ledgers.{LongerHistoriesKeepLedgers};

// promise: limits in force at the end of a span are a test of spans
/// A law: updates that are added later leave it as it was whether a span passes a limit.
pub fn longer_histories_keep_limits()
    ensures { LongerHistoriesKeepLimits }
{}

// promise: as longer_histories_keep_limits
/// A law: a span that begins later and ends at the same place keeps the limits that the longer one keeps.
pub fn later_spans_keep_limits()
    ensures { LaterSpansKeepLimits }
{}

// promise: as longer_histories_keep_limits
/// A law: an empty span keeps all limits.
pub fn empty_spans_keep_limits()
    ensures { EmptySpansKeepLimits }
{}

// promise: as longer_histories_keep_limits
/// A law: the limits that are in force at the end of a span are a test of spans, as the law of the fewest rounds asks for it.
pub fn limits_in_force_are_a_limit_test()
    ensures { LimitsInForceAreALimitTest }
{}

// promise: as longer_histories_keep_limits
/// A law: limits that are others at each place are a test of spans too, by those of the place where a span ends.
pub fn limits_by_place_are_tests()
    ensures { LimitsByPlaceAreTests }
{}

// promise: the tests of limits of two epochs join, if the next one begins where the first one ends
/// A law: the test of a history that goes on in a next one is that of each on its part, whatever limits each has at its places.
///
/// So the rounds of a store and of one that goes on from it are the fewest of both together (`fewest_rounds_join`), where a site counts
/// as having reported all of the first in the next one.
pub fn tests_join()
    ensures { TestsJoin }
{}

// promise: as LimitTable::over
/// A law: the number of a limit that is in force at a place, which `LimitTable::over` answers, is that of the same scope in
/// `LimitTable::get`.
pub fn limits_in_force_keep_their_numbers()
    ensures { LimitsInForceKeepTheirNumbers }
{}

// promise: as LagLedger::new
/// A law: a ledger of a log is one of each longer log.
pub fn longer_histories_keep_ledgers()
    ensures { LongerHistoriesKeepLedgers }
{}

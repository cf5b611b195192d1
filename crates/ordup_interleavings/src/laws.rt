ghost use Rattle.ordup_interleavings.specs.Calls.{CallsMakeHolds};
ghost use Rattle.ordup_interleavings.specs.Promises.{HoldsAreRuns, LogsGrow, ProposalsHaveOneOrder, QueriesKeepTheirLimits, SessionsReadTheirWrites};
ghost use Rattle.ordup_interleavings.specs.Promises.{SitesHaveFewestRounds, SitesHoldPrefixes, SitesKeepLimits};
ghost use Rattle.ordup_interleavings.specs.Stores.{SuccessiveStoresHaveTheFewestRounds, SuccessorsGoOn};

// promise: after each hold of any list of holds a site holds the serial result of a prefix, with `reported <= known <= told <= applied <=
// sent <= len`
/// A law: after each hold of any list of holds, a site holds the serial result of a prefix of the log. It applied no more than was sent
/// to it and no less than it told, and it told no less than the book knows.
pub fn sites_hold_prefixes()
    ensures { SitesHoldPrefixes }
{}

// promise: after each hold of any list of holds, acknowledged updates that a site has not applied keep its limits
/// A law: after each hold of any list of holds, the acknowledged updates that a site has not applied weigh at most each of its limits
/// that are in force.
pub fn sites_keep_limits()
    ensures { SitesKeepLimits }
{}

// promise: after each hold of any list of holds, a site has had the fewest rounds, as its windows show
/// A law: after each hold of any list of holds, the rounds of a site are the fewest of any schedule that keeps its limits, up to each
/// decided place, as its windows show.
pub fn sites_have_the_fewest_rounds()
    ensures { SitesHaveFewestRounds }
{}

// promise: in any list of holds a query reads by the marks of the log that its site applies, and keeps its import limit
/// A law: after each hold of any list of holds, each read of a query has the value and the import of the model, by the marks of the log
/// that its site applies. The imports stay within the limit, and no value is further from that at the reference than its import.
pub fn queries_keep_their_limits()
    ensures { QueriesKeepTheirLimits }
{}

// promise: in any list of holds a session reads its writes and no older state, and its sets have their numbers
/// A law: after each hold of any list of holds, each value that a session read is of a state with all updates that were acknowledged to
/// it or seen by it before, at whichever site. Its sets stand in the log under their numbers, which rise.
pub fn sessions_read_their_writes()
    ensures { SessionsReadTheirWrites }
{}

// promise: in any list of holds no number is answered to two proposals, and a proposal that begins after another was answered has the
// greater number
/// A law: after each hold of any list of holds, no number was answered to two sessions; and a set that is numbered after any session was
/// told a number, of its own set, of an acknowledged update or of a state, has a greater one.
///
/// So proposals have one order, that of their numbers: one that began after another one was answered has the greater number.
pub fn proposals_have_one_order()
    ensures { ProposalsHaveOneOrder }
{}

// promise: in any list of holds updates are only added to the log, and stay acknowledged
/// A law: in any list of holds updates are only added to the log, each as the next one, and what is acknowledged stays so.
pub fn logs_grow()
    ensures { LogsGrow }
{}

// promise: any list of holds is a run: events lead to its log, acknowledgements, limits, reports, rounds, windows and values
/// A law: for any list of holds there are events, of which none is refused, that lead a world to the log, the acknowledgements, the
/// decisions, the limits, and of each site the reports, the rounds, the windows and the values that the holds left.
///
/// So what `ordup_world` promises of events holds of threads.
pub fn holds_are_runs()
    ensures { HoldsAreRuns }
{}

// promise: what each call of `ordup_holds` ensures is a hold
/// A law: what the clauses of each call of `ordup_holds` say of the book or the cell that it is lent is what the hold of that name makes of
/// a moment.
pub fn calls_make_holds()
    ensures { CallsMakeHolds }
{}

// promise: over stores that go on one from another, a site has had the fewest rounds of them all at each place, as its windows show
/// A law: over stores each of which goes on from the one before, the rounds of a site are the fewest of any schedule that keeps its limits
/// in all of them, up to each decided place of the whole, as its windows show.
///
/// It holds of any primaries, so by `successors_go_on` of those of closed clusters, each opened as the successor of the one before.
pub fn successive_stores_have_the_fewest_rounds()
    ensures { SuccessiveStoresHaveTheFewestRounds }
{}

// promise: what was opened as the successor of a closed cluster goes on from it once it is closed
/// A law: what was opened as the successor of a closed cluster, and is closed in turn, goes on from that one.
pub fn successors_go_on()
    ensures { SuccessorsGoOn }
{}

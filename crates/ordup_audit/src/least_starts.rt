//! The least place from which the span up to a decided place passes no limit.

ghost use Rattle.std.specs.Prelude.{◌≡◌, ◌≤◌, ◌+◌, [], IfSome, length, not, false, true};
ghost use Rattle.ordup_objects.specs.Serial.{IsLegalHistory};
ghost use Rattle.ordup_limits.specs.Limits.{within};
ghost use Rattle.ordup_limits.specs.Ledgers.{StandsFor, StandsAt};
ghost use Rattle.ordup_audit.specs.Records.{history_of, is_within};
ghost use Rattle.ordup_audit.specs.LeastStarts.{AreLeastStarts, AreStartsOf, IsLeastStart, PassesBefore};

use crate::beginning::{begin_limits, first_ledger};
use crate::record::Record;
use ordup_limits::{Groups, LagLedger};
use ordup_log::Log;
use std::alloc::{Allocator, Global};

/// For place 0 and each decided place: the least place from which the span up to it passes none of the limits in force there.
///
/// A span passes a limit where it begins before the least start of its end. Where no memory was given for the starts, each span
/// is found in the log.
#[derive(Drop)]
pub(crate) struct LeastStarts<A: Allocator + Copy = Global> {
    starts: Option<Vec<u32, A>>,
}

impl<A: Allocator + Copy> LeastStarts<A> {
    /// The least starts of a record. The time grows with its updates, and with the places at which limits begin to hold.
    pub(crate) fn of(audited: &Record<A>) -> Self
        requires { IsLegalHistory (history_of audited.now) }
        ensures { AreStartsOf audited.now result }
    {
        LeastStarts {
            starts: find_starts(audited),
        }
    }

    /// Whether the span from one place to another passes a limit.
    pub(crate) fn passes_a_limit(&self, audited: &Record<A>, from: u64, to: u64) -> bool
        requires legal { IsLegalHistory (history_of audited.now) }
        requires last { to ≤ length audited.now.sets }
        requires starts { AreStartsOf audited.now self.now }
        ensures { result ≡ not (is_within audited.now from to) }
    {
        match &self.starts {
            Some(starts) => from < u64::from(starts[to as usize]),
            None => passes(audited, from, to),
        }
    }
}

/// Whether the span from one place to another passes a limit, by the log.
fn passes<A: Allocator + Copy>(audited: &Record<A>, from: u64, to: u64) -> bool
    requires legal { IsLegalHistory (history_of audited.now) }
    requires last { to ≤ length audited.now.sets }
    ensures { result ≡ not (is_within audited.now from to) }
{
    audited.keeps();
    let (log, groups) = (audited.log(), audited.groups());
    audited.limits().over(log, groups, from, to).is_some()
}

/// The least starts of 0 and of each decided place; none where they are refused memory.
fn find_starts<A: Allocator + Copy>(audited: &Record<A>) -> Option<Vec<u32, A>>
    requires { IsLegalHistory (history_of audited.now) }
    ensures { IfSome result (λ starts. AreLeastStarts (is_within audited.now) (length audited.now.sets + 1) starts.items) }
{
    let Ok(mut ledger) = first_ledger(audited.allocator(), audited) else {
        return None;
    };
    let starts = starts_by(audited, &mut ledger);
    drop(ledger);
    starts
}

/// The least starts of 0 and of each decided place, by a first ledger; none where they are refused memory.
fn starts_by<A: Allocator + Copy>(
    audited: &Record<A>,
    ledger: &mut LagLedger<A>,
) -> Option<Vec<u32, A>>
    requires legal { IsLegalHistory (history_of audited.now) }
    requires first { StandsAt (history_of audited.now) audited.now.groups [] 0 0 ledger.old }
    ensures { IfSome result (λ starts. AreLeastStarts (is_within audited.now) (length audited.now.sets + 1) starts.items) }
{
    let decided = audited.decided();
    let (log, groups) = (audited.log(), audited.groups());
    audited.limits().keeps();
    let entries = audited.limits().entries();
    let Ok(mut starts) = Vec::with_capacity(audited.allocator(), decided as usize + 1) else {
        return None;
    };
    starts.push_reserved(0);
    let mut start = 0;
    let mut begun = 0;
    for index in 0..decided {
        ledger.extend(log, groups, index + 1);
        let before = begun;
        begun = begin_limits(ledger, log, groups, entries, before, index + 1);
        let is_earlier = starts_earlier(audited, begun != before, start, index + 1);
        start = next_start(ledger, log, groups, is_earlier, start, index + 1);
        starts.push_reserved(start as u32);
    }
    Some(starts)
}

/// Whether limits that have begun to hold at a place put its least start before this one, as a raised limit may.
fn starts_earlier<A: Allocator + Copy>(
    audited: &Record<A>,
    have_begun: bool,
    start: u64,
    place: u64,
) -> bool
    requires legal { IsLegalHistory (history_of audited.now) }
    requires last { place ≤ length audited.now.sets }
    ensures { have_begun ≡ true → result ≡ false → PassesBefore (is_within audited.now) start place }
{
    if !have_begun {
        return false;
    }
    if start == 0 {
        return false;
    }
    !passes(audited, start - 1, place)
}

/// Moves the start of a ledger's span to the least start of its end, and answers it. It may be earlier than the start was.
fn next_start<A: Allocator + Copy>(
    ledger: &mut LagLedger<A>,
    log: &Log<A>,
    groups: &Groups<A>,
    is_earlier: bool,
    from: u64,
    to: u64,
) -> u64
    requires last { to ≤ length log.now.sets }
    requires stands { StandsAt log.now groups.now ledger.old.limits from to ledger.old }
    requires before { is_earlier ≡ false → PassesBefore (within log.now groups.now ledger.old.limits) from to }
    ensures least { IsLeastStart (within log.now groups.now ledger.old.limits) result to }
    ensures stands { StandsAt log.now groups.now ledger.old.limits result to ledger.new }
{
    if is_earlier {
        return search(ledger, log, groups, to);
    }
    take_off(ledger, log, groups, from, to)
}

/// Takes updates off the start of a ledger's span until the span passes no limit, and answers where it begins then.
fn take_off<A: Allocator + Copy>(
    ledger: &mut LagLedger<A>,
    log: &Log<A>,
    groups: &Groups<A>,
    from: u64,
    to: u64,
) -> u64
    requires last { to ≤ length log.now.sets }
    requires stands { StandsAt log.now groups.now ledger.old.limits from to ledger.old }
    requires before { PassesBefore (within log.now groups.now ledger.old.limits) from to }
    ensures least { IsLeastStart (within log.now groups.now ledger.old.limits) result to }
    ensures stands { StandsAt log.now groups.now ledger.old.limits result to ledger.new }
{
    let mut start = from;
    while ledger.over() {
        start += 1;
        ledger.reported(log, groups, start);
    }
    start
}

/// Finds the least start of a place by binary search, puts the ledger at the span from there, and answers the start.
fn search<A: Allocator + Copy>(
    ledger: &mut LagLedger<A>,
    log: &Log<A>,
    groups: &Groups<A>,
    to: u64,
) -> u64
    requires last { to ≤ length log.now.sets }
    requires stands { StandsFor ledger.old log.now groups.now }
    ensures least { IsLeastStart (within log.now groups.now ledger.old.limits) result to }
    ensures stands { StandsAt log.now groups.now ledger.old.limits result to ledger.new }
{
    let mut low = 0;
    let mut high = to;
    while low < high {
        let middle = low + (high - low) / 2;
        ledger.stand_at(log, groups, middle, to);
        if ledger.over() {
            low = middle + 1;
        } else {
            high = middle;
        }
    }
    ledger.stand_at(log, groups, low, to);
    low
}

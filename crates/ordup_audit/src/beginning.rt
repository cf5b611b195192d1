//! A ledger of a record's log, and the limits that begin to hold.

ghost use Rattle.std.specs.Prelude.{◌≡◌, ◌≤◌, [], IfErr, IfOk, length, take};
ghost use Rattle.std.specs.List.Sorted.{IsNonDecreasingBy};
ghost use Rattle.ordup_limits.specs.Entries.{latest, AreEntriesKnown, HoldFrom};
ghost use Rattle.ordup_limits.specs.Ledgers.{StandsFor, StandsAt};
ghost use Rattle.ordup_limits.specs.Sizes.{most_limits};
ghost use Rattle.ordup_audit.specs.Beginning.{HaveBegun};
ghost use Rattle.ordup_audit.specs.Records.{history_of};

use crate::record::Record;
use ordup_limits::{Groups, LagLedger, LimitEntry, LimitTable};
use ordup_log::Log;
use ordup_objects::Refusal;
use std::alloc::Allocator;

// promise stands refused: the ledger of a record takes in limits that begin up to a place
/// A ledger without limits, at the empty span from 0 of a record's log. The only refusal is `NoMemory`.
pub fn first_ledger<A: Allocator + Copy>(
    alloc: A,
    audited: &Record<A>,
) -> Result<LagLedger<A>, Refusal>
    ensures stands { IfOk result (λ ledger. StandsAt (history_of audited.now) audited.now.groups [] 0 0 ledger) }
    ensures refused { IfErr result (λ e. e ≡ Refusal.NoMemory) }
{
    audited.keeps();
    let no_limits = LimitTable::new(alloc);
    let made = LagLedger::new(alloc, &no_limits);
    drop(no_limits);
    made
}

// promise more begun limits places stands: as first_ledger
/// Puts the limits of the entries that hold from a place or before into a ledger, which has those of the first `begun` entries. It
/// answers how many entries the ledger has then.
pub fn begin_limits<A: Allocator + Copy>(
    ledger: &mut LagLedger<A>,
    log: &Log<A>,
    groups: &Groups<A>,
    entries: &[LimitEntry],
    begun: usize,
    place: u64,
) -> usize
    requires scopes { length (latest entries.now) ≤ most_limits }
    requires rising { IsNonDecreasingBy (λ e. e.place) entries.now }
    requires known { AreEntriesKnown (length log.now.start) groups.now entries.now }
    requires begun { HoldFrom place (take begun entries.now) }
    requires limits { ledger.old.limits ≡ latest (take begun entries.now) }
    requires stands { StandsFor ledger.old log.now groups.now }
    ensures more { begun ≤ result }
    ensures begun { HaveBegun place entries.now result }
    ensures limits { ledger.new.limits ≡ latest (take result entries.now) }
    ensures places { (ledger.new.reported ≡ ledger.old.reported) × (ledger.new.extended ≡ ledger.old.extended) }
    ensures stands { StandsFor ledger.new log.now groups.now }
{
    let mut count = begun;
    while count < entries.len() && entries[count].place <= place {
        // The prover joins branches over a borrowed scope, not over a copied one.
        let scope = &entries[count].limit.scope;
        ledger.change(log, groups, *scope, entries[count].limit.amount);
        count += 1;
    }
    count
}

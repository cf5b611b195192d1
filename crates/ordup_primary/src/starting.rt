ghost use Rattle.std.specs.Prelude.{◌≡◌, [], length, map, replicate, IfOk, IfErr, OnOk};
ghost use Rattle.ordup_objects.specs.Serial.{History, IsLegalHistory};
ghost use Rattle.ordup_objects.specs.Tables.{initial_state};
ghost use Rattle.ordup_primary.specs.PrimaryInside.{first_kept, first_state, kept_of, HasLedger};

use crate::decisions::add_sites;
use crate::progress::Progress;
use crate::setup::Setup;
use ordup_limits::{LimitTable, StoreLedger};
use ordup_log::Log;
use ordup_objects::{Refusal, SiteId, or_give_up};
use std::alloc::Allocator;

/// Makes the log and the ledger of a primary at its start, and adds the sites and their limits to the lists.
pub(crate) fn begin<A: Allocator + Copy>(
    alloc: A,
    setup: &Setup<A>,
    sites: &mut Vec<Progress<A>, A>,
    limits: &mut Vec<LimitTable<A>, A>,
) -> Result<(Log<A>, StoreLedger<A>), Refusal>
    requires sites { sites.old.items ≡ [] }
    requires limits { limits.old.items ≡ [] }
    ensures log { IfOk result (λ r. r.0 ≡ record { start = initial_state setup.now.objects; sets = [] }) }
    ensures legal { IfOk result (λ r. IsLegalHistory r.0) }
    ensures sites { OnOk result (map kept_of sites.new.items ≡ replicate (length setup.now.sites) first_kept) }
    ensures limits { OnOk result (limits.new.items ≡ setup.now.limits) }
    ensures ledger { IfOk result (λ r. HasLedger (first_state setup.now) r.1) }
    ensures refused { IfErr result (λ e. e ≡ Refusal.NoMemory) }
{
    add_sites(sites, alloc, setup.sites())?;
    add_limits(limits, alloc, setup)?;
    let log = Log::new(alloc, setup.objects())?;
    let ledger = or_give_up!(first_store_ledger(alloc, setup, limits.as_slice()), log);
    Ok((log, ledger))
}

/// The ledger of a store, whose sites have the limits that were declared.
fn first_store_ledger<A: Allocator + Copy>(
    alloc: A,
    setup: &Setup<A>,
    limits: &[LimitTable<A>],
) -> Result<StoreLedger<A>, Refusal>
    requires { limits.now ≡ setup.now.limits }
    ensures ledger { IfOk result (λ ledger. HasLedger (first_state setup.now) ledger) }
    ensures refused { IfErr result (λ e. e ≡ Refusal.NoMemory) }
{
    setup.keeps();
    setup.objects().keeps();
    let ledger = StoreLedger::new(alloc, setup.groups(), limits)?;
    Ok(ledger)
}

/// Adds the limits of the sites as they were declared.
fn add_limits<A: Allocator + Copy>(
    limits: &mut Vec<LimitTable<A>, A>,
    alloc: A,
    setup: &Setup<A>,
) -> Result<(), Refusal>
    requires { limits.old.items ≡ [] }
    ensures limits { OnOk result (limits.new.items ≡ setup.now.limits) }
    ensures refused { IfErr result (λ e. e ≡ Refusal.NoMemory) }
{
    for site in 0..setup.sites() {
        let table = setup.limits(SiteId::new(site as u8)).copy(alloc)?;
        limits.push(table)?;
    }
    Ok(())
}

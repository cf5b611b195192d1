ghost use Rattle.std.specs.Prelude.{◌≡◌, ◌≤◌, ◌<◌, ℕ, IfOk, IfErr, length, min, replicate, slice_set};
ghost use Rattle.ordup_objects.specs.Sizes.{most_objects};
ghost use Rattle.ordup_log.specs.Spans.{IsScopeKnown};
ghost use Rattle.ordup_limits.specs.Entries.{AreEntriesKnown};
ghost use Rattle.ordup_limits.specs.Masks.{AreGroupMasks};
ghost use Rattle.ordup_limits.specs.StoreLedgers.{allowed, most_scopes, scope_index, AreWeights, IsFirstSite};
ghost use Rattle.ordup_limits.specs.Sizes.{greatest_amount};

use crate::limit_table::LimitTable;
use crate::masks::Masks;
use crate::sizes::GREATEST_AMOUNT;
use crate::weights::Weights;
use ordup_log::{Groups, Log, Scope};
use ordup_objects::Refusal;
use ordup_objects::sizes::{MOST_GROUPS, MOST_OBJECTS};
use std::alloc::{Allocator, Global};
use std::marker::Model;

/// The scopes that there may be: each object, each group, all objects and the count of updates.
const MOST_SCOPES: usize = MOST_OBJECTS + MOST_GROUPS + 2;

/// What a store ledger keeps of one site: what the updates weigh that it has reported, and its limits.
#[derive(Drop)]
pub(crate) struct SiteLedger<A: Allocator + Copy = Global> {
    reported: Weights<A>,
    /// By the number of a scope the amount of the limit on it; without one the greatest amount, which no log passes.
    amounts: Vec<u64, A>,
}

impl<A: Allocator + Copy> Model for SiteLedger<A> {
    ghost use Rattle.ordup_limits.specs.StoreLedgers.{SiteLedgerState};
    ghost use Rattle.ordup_limits.specs.SiteLedgerInside.{site_of, KeepsAmounts};

    ghost Value = { SiteLedgerState };

    ghost view = { site_of };

    ghost invariant = { KeepsAmounts };
}

impl<A: Allocator + Copy> SiteLedger<A> {
    /// A site with these limits that has reported nothing. The only refusal is `NoMemory`.
    pub(crate) fn new(alloc: A, groups: &Groups<A>, limits: &LimitTable<A>) -> Result<Self, Refusal>
        requires known { (n : ℕ) × ((n ≤ most_objects) × AreEntriesKnown n groups.now limits.now) }
        ensures site { IfOk result (λ site. IsFirstSite groups.now limits.now site) }
        ensures refused { IfErr result (λ e. e ≡ Refusal.NoMemory) }
    {
        groups.keeps();
        let mut site = SiteLedger {
            reported: Weights::new(alloc)?,
            amounts: for_each_scope(alloc, GREATEST_AMOUNT)?,
        };
        for entry in limits.entries() {
            site.put(&entry.limit.scope, entry.limit.amount);
        }
        Ok(site)
    }

    /// Puts down the amount of the limit on a scope.
    pub(crate) fn put(&mut self, scope: &Scope, amount: u64)
        requires { scope_index scope.now < most_scopes }
        ensures put { self.new ≡ record self.old { amounts = slice_set self.old.amounts (scope_index scope.now) (min amount greatest_amount) } }
        ensures count { length self.old.amounts ≡ most_scopes }
    {
        self.amounts[scope_index(*scope)] = amount.min(GREATEST_AMOUNT);
    }

    /// Notes that the site has reported the updates up to a place.
    pub(crate) fn report(&mut self, log: &Log<A>, groups: &Groups<A>, masks: &Masks<A>, to: u64)
        requires forward { self.old.reported.place ≤ to }
        requires last { to ≤ length log.now.sets }
        requires objects { length log.now.start ≤ most_objects }
        requires masks { AreGroupMasks groups.now masks.now }
        requires weights { AreWeights self.old.reported log.now groups.now }
        ensures place { self.new.reported.place ≡ to }
        ensures weights { AreWeights self.new.reported log.now groups.now }
        ensures amounts { self.new.amounts ≡ self.old.amounts }
    {
        self.reported.extend(log, groups, masks, to);
    }

    /// Up to which weight of the log the site keeps its limit on a scope.
    pub(crate) fn allowed(&self, log: &Log<A>, groups: &Groups<A>, scope: &Scope) -> u64
        requires weights { AreWeights self.now.reported log.now groups.now }
        requires index { scope_index scope.now < most_scopes }
        requires known { IsScopeKnown (length log.now.start) groups.now scope.now }
        ensures { result ≡ allowed log.now groups.now self.now scope.now }
    {
        self.amounts[scope_index(*scope)] + self.reported.on(log, groups, scope)
    }
}

/// One number for each scope.
pub(crate) fn for_each_scope<A: Allocator + Copy>(
    alloc: A,
    number: u64,
) -> Result<Vec<u64, A>, Refusal>
    ensures numbers { IfOk result (λ numbers. numbers.items ≡ replicate most_scopes number) }
    ensures refused { IfErr result (λ e. e ≡ Refusal.NoMemory) }
{
    Ok(Vec::from_elem(alloc, number, MOST_SCOPES)?)
}

/// The number of a scope: first the objects, then the groups, then all objects and the count of updates.
pub(crate) fn scope_index(scope: Scope) -> usize
    ensures { result ≡ scope_index scope }
{
    match scope {
        Scope::Object(object) => object.index(),
        Scope::Group(group) => MOST_OBJECTS + group.index(),
        Scope::All => MOST_OBJECTS + MOST_GROUPS,
        Scope::Count => MOST_OBJECTS + MOST_GROUPS + 1,
    }
}

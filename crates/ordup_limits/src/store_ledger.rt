ghost use Rattle.std.specs.Prelude.{◌≡◌, ◌==◌, ◌≤◌, ◌<◌, ◌+◌, ℕ, [], true, IfOk, IfErr, OnOk, All, length};
ghost use Rattle.std.specs.Int.{bit_at};
ghost use Rattle.std.specs.List.{HoldsAt};
ghost use Rattle.ordup_objects.specs.Serial.{set_at, History};
ghost use Rattle.ordup_objects.specs.Marks.{AreMarks};
ghost use Rattle.ordup_objects.specs.Sizes.{most_objects, most_sites};
ghost use Rattle.ordup_log.specs.Spans.{IsScopeKnown};
ghost use Rattle.ordup_limits.specs.Entries.{AreEntriesKnown};
ghost use Rattle.ordup_limits.specs.Limits.{is_same_scope};
ghost use Rattle.ordup_limits.specs.StoreLedgers.{allowed, counts_within, may_weigh, AreBelow, AreFirstSites, AreOver, BitsTellOver, GainsLimit, OthersStay, StoreStandsFor, StaysAt};

use crate::limit_table::LimitTable;
use crate::marks::take_off;
use crate::masks::{Masks, with_bit};
use crate::site_ledger::{SiteLedger, for_each_scope, scope_index};
use crate::weights::Weights;
use ordup_log::{GroupId, Groups, Log, Scope};
use ordup_objects::{ObjectId, Refusal, SiteId};
use std::alloc::{Allocator, Global};
use std::marker::Model;

// promise: as LagLedger
/// The ledger of a store: the weights of the updates by which its sites lag, kept while the log grows and the sites report.
///
/// It stands at one place of a log up to which updates were added, and for each site at the place up to which it has reported. An
/// update is added once, for all sites. All calls take one log, as it grows, and the same groups. The cost of a call grows with
/// the changes of the updates that it goes over, and not with the length of a span.
#[derive(Drop)]
pub struct StoreLedger<A: Allocator + Copy = Global> {
    /// For each object its groups, a bit for each.
    masks: Masks<A>,
    added: Weights<A>,
    sites: Vec<SiteLedger<A>, A>,
    /// By the number of a scope a weight up to which all sites keep their limits.
    kept: Vec<u64, A>,
}

impl<A: Allocator + Copy> Model for StoreLedger<A> {
    ghost use Rattle.ordup_limits.specs.StoreLedgers.{IsStoreLedger, StoreLedgerState};
    ghost use Rattle.ordup_limits.specs.StoreLedgerInside.{store_ledger_of};

    ghost Value = { StoreLedgerState };

    ghost view = { store_ledger_of };

    ghost invariant = { λ l. IsStoreLedger (store_ledger_of l) };
}

impl<A: Allocator + Copy> StoreLedger<A> {
    // promise count places stands sites: the ledger of a store stands for the log, and answers just the sites newly over a limit
    /// The ledger of a store over sites with these limits, at most 16, that have reported nothing. No update was added.
    ///
    /// It takes all the memory that it ever needs. The only refusal is `NoMemory`.
    pub fn new(alloc: A, groups: &Groups<A>, limits: &[LimitTable<A>]) -> Result<Self, Refusal>
        requires few { length limits.now ≤ most_sites }
        requires known { (n : ℕ) × ((n ≤ most_objects) × All (AreEntriesKnown n groups.now) limits.now) }
        ensures count { IfOk result (λ l. length l.sites ≡ length limits.now) }
        ensures places { IfOk result (λ l. l.added.place ≡ 0) }
        ensures stands { IfOk result (λ l. (h : History) → length h.start ≤ most_objects → StoreStandsFor l h groups.now) }
        ensures sites { IfOk result (λ l. AreFirstSites groups.now limits.now l.sites) }
        ensures refused { IfErr result (λ e. e ≡ Refusal.NoMemory) }
    {
        let masks = Masks::of_groups(alloc, groups)?;
        let added = Weights::new(alloc)?;
        let kept = for_each_scope(alloc, 0)?;
        let mut sites = Vec::new(alloc);
        add_sites(&mut sites, alloc, groups, limits)?;
        Ok(StoreLedger {
            masks,
            added,
            sites,
            kept,
        })
    }

    // promise place sites stands over there: as StoreLedger::new
    /// Adds the updates after the place so far, up to a later one, and answers the sites that the last of them takes over a
    /// limit, a bit for each, where no site was over one before it. It takes no memory.
    pub fn extend(&mut self, log: &Log<A>, groups: &Groups<A>, to: u64) -> u64
        requires some { 0 < to }
        requires forward { self.old.added.place ≤ to }
        requires last { to ≤ length log.now.sets }
        requires stands { StoreStandsFor self.old log.now groups.now }
        ensures place { self.new.added.place ≡ to }
        ensures sites { self.new.sites ≡ self.old.sites }
        ensures stands { StoreStandsFor self.new log.now groups.now }
        ensures over { BitsTellOver log.now groups.now to self.old.sites result }
        ensures there { (s : ℕ) → (bit_at result s == 1) ≡ true → s < length self.old.sites }
    {
        log.keeps();
        groups.keeps();
        self.added.extend(log, groups, &self.masks, to);
        self.sites_over(log, groups)
    }

    // promise place count others reported amounts stands: a report or a changed limit leaves the other sites
    /// Takes off the updates up to a place that a site has reported. It takes no memory.
    pub fn reported(&mut self, log: &Log<A>, groups: &Groups<A>, site: SiteId, to: u64)
        requires site { site < length self.old.sites }
        requires forward { HoldsAt (λ at. at.reported.place ≤ to) self.old.sites site }
        requires last { to ≤ length log.now.sets }
        requires stands { StoreStandsFor self.old log.now groups.now }
        ensures place { self.new.added ≡ self.old.added }
        ensures count { length self.new.sites ≡ length self.old.sites }
        ensures others { OthersStay site self.old.sites self.new.sites }
        ensures reported { HoldsAt (λ at. at.reported.place ≡ to) self.new.sites site }
        ensures amounts { StaysAt site (λ at. at.amounts) self.old.sites self.new.sites }
        ensures stands { StoreStandsFor self.new log.now groups.now }
    {
        self.sites[site.index()].report(log, groups, &self.masks, to);
    }

    // promise count marks refused: marks weigh the updates on each object, up to the place of the ledger or one before
    /// For each object how much the updates up to a place weigh on it. The place is the one so far, or the one before it.
    ///
    /// The only refusal is `NoMemory`.
    pub fn marks(
        &self,
        alloc: A,
        log: &Log<A>,
        groups: &Groups<A>,
        place: u64,
    ) -> Result<Vec<u64, A>, Refusal>
        requires near { (place ≤ self.now.added.place) × (self.now.added.place ≤ place + 1) }
        requires stands { StoreStandsFor self.now log.now groups.now }
        ensures count { IfOk result (λ marks. length marks.items ≡ length log.now.start) }
        ensures marks { IfOk result (λ marks. AreMarks log.now place marks.items) }
        ensures refused { IfErr result (λ e. e ≡ Refusal.NoMemory) }
    {
        log.keeps();
        let so_far = self.added.on_objects(log.objects());
        let mut marks = Vec::from_slice(alloc, so_far)?;
        if self.added.place() == place {
            return Ok(marks);
        }
        take_off(&mut marks, log, place + 1);
        Ok(marks)
    }

    // promise place count others reported limits stands: as StoreLedger::reported
    /// Changes the amount of the limit of a site on a scope, or begins a limit there, with an amount from 0 to 10^18. It takes no
    /// memory.
    pub fn change(
        &mut self,
        log: &Log<A>,
        groups: &Groups<A>,
        site: SiteId,
        scope: Scope,
        amount: u64,
    )
        requires site { site < length self.old.sites }
        requires known { IsScopeKnown (length log.now.start) groups.now scope }
        requires stands { StoreStandsFor self.old log.now groups.now }
        ensures place { self.new.added ≡ self.old.added }
        ensures count { length self.new.sites ≡ length self.old.sites }
        ensures others { OthersStay site self.old.sites self.new.sites }
        ensures reported { StaysAt site (λ at. at.reported) self.old.sites self.new.sites }
        ensures limits { GainsLimit (length log.now.start) groups.now (record { scope = scope; amount = amount }) site self.old.sites self.new.sites }
        ensures stands { StoreStandsFor self.new log.now groups.now }
    {
        groups.keeps();
        self.sites[site.index()].put(&scope, amount);
        self.kept[scope_index(scope)] = 0;
    }

    /// The sites that the update at the place takes over a limit, a bit for each, where no site was over one before it.
    ///
    /// By the number of a scope `kept` has a weight up to which all sites keep their limits. Only where the updates weigh more, the
    /// sites are looked at one by one, and the weight is found anew.
    fn sites_over(&mut self, log: &Log<A>, groups: &Groups<A>) -> u64
        requires some { 0 < self.old.added.place }
        requires stands { StoreStandsFor self.old log.now groups.now }
        ensures rest { self.new ≡ record self.old { kept = self.new.kept } }
        ensures stands { StoreStandsFor self.new log.now groups.now }
        ensures over { AreOver log.now groups.now self.old.added.place self.old.sites (may_weigh groups.now (set_at log.now self.old.added.place)) result }
    {
        log.keeps();
        let mut over = self.over_on(log, groups, &Scope::All);
        over |= self.over_on(log, groups, &Scope::Count);
        for change in log.set(self.added.place()).changes() {
            over |= self.over_with(log, groups, change.object);
        }
        over
    }

    /// The sites that are over a limit on an object or on one of its groups.
    #[inline(always)]
    fn over_with(&mut self, log: &Log<A>, groups: &Groups<A>, object: ObjectId) -> u64
        requires object { object < length log.now.start }
        requires stands { StoreStandsFor self.old log.now groups.now }
        ensures rest { self.new ≡ record self.old { kept = self.new.kept } }
        ensures stands { StoreStandsFor self.new log.now groups.now }
        ensures over { AreOver log.now groups.now self.old.added.place self.old.sites (counts_within groups.now object) result }
    {
        groups.keeps();
        let mut over = self.over_on(log, groups, &Scope::Object(object));
        let mut rest = self.masks.of(object);
        while rest != 0 {
            let bit = rest.trailing_zeros();
            let group = GroupId::new(bit as u8);
            over |= self.over_on(log, groups, &Scope::Group(group));
            rest &= !(1 << bit);
        }
        over
    }

    /// The sites that are over a limit on a scope.
    #[inline(always)]
    fn over_on(&mut self, log: &Log<A>, groups: &Groups<A>, scope: &Scope) -> u64
        requires known { IsScopeKnown (length log.now.start) groups.now scope.now }
        requires stands { StoreStandsFor self.old log.now groups.now }
        ensures rest { self.new ≡ record self.old { kept = self.new.kept } }
        ensures stands { StoreStandsFor self.new log.now groups.now }
        ensures over { AreOver log.now groups.now self.old.added.place self.old.sites (is_same_scope scope.now) result }
    {
        groups.keeps();
        let index = scope_index(*scope);
        let weight = self.added.on(log, groups, scope);
        if weight <= self.kept[index] {
            return 0;
        }
        let (over, least) = self.compare(log, groups, *scope, weight);
        self.kept[index] = least;
        over
    }

    /// The sites that are over a limit on a scope at a weight, and the least weight up to which each keeps it.
    // Kept out of its callers, which seldom need it. It takes the scope by value, so that they put none into memory.
    #[inline(never)]
    fn compare(&self, log: &Log<A>, groups: &Groups<A>, scope: Scope, weight: u64) -> (u64, u64)
        requires known { IsScopeKnown (length log.now.start) groups.now scope }
        requires stands { StoreStandsFor self.now log.now groups.now }
        ensures over { AreBelow log.now groups.now self.now.sites scope weight result.0 }
        ensures least { All (λ site. result.1 ≤ allowed log.now groups.now site scope) self.now.sites }
    {
        groups.keeps();
        let mut over = 0;
        let mut least = u64::MAX;
        for (index, site) in self.sites.iter().enumerate() {
            let allowed = site.allowed(log, groups, &scope);
            over = with_bit(over, index, weight > allowed);
            least = least.min(allowed);
        }
        (over, least)
    }
}

/// Adds the sites with their limits.
fn add_sites<A: Allocator + Copy>(
    sites: &mut Vec<SiteLedger<A>, A>,
    alloc: A,
    groups: &Groups<A>,
    limits: &[LimitTable<A>],
) -> Result<(), Refusal>
    requires none { sites.old.items ≡ [] }
    requires known { (n : ℕ) × ((n ≤ most_objects) × All (AreEntriesKnown n groups.now) limits.now) }
    ensures count { OnOk result (length sites.new.items ≡ length limits.now) }
    ensures sites { OnOk result (AreFirstSites groups.now limits.now sites.new.items) }
    ensures refused { IfErr result (λ e. e ≡ Refusal.NoMemory) }
{
    for table in limits {
        let site = SiteLedger::new(alloc, groups, table)?;
        sites.push(site)?;
    }
    Ok(())
}

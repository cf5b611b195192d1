ghost use Rattle.std.specs.Prelude.{◌≡◌, ◌≤◌, ◌<◌, ℕ, IfOk, IfErr, length, not, slice_index_or, true};
ghost use Rattle.ordup_objects.specs.Serial.{History};
ghost use Rattle.ordup_objects.specs.Sizes.{most_objects};
ghost use Rattle.ordup_log.specs.Groups.{GroupList};
ghost use Rattle.ordup_log.specs.Spans.{span, IsScopeKnown};
ghost use Rattle.ordup_limits.specs.Limits.{within, are_on_one_scope, AreScopesKnown};
ghost use Rattle.ordup_limits.specs.Entries.{latest, put, AreEntriesKnown};
ghost use Rattle.ordup_limits.specs.Sizes.{most_limits};

use crate::lag_weights::LagWeights;
use crate::limit::Limit;
use crate::limit_list::LimitList;
use crate::limit_table::LimitTable;
use crate::masks::Masks;
use ordup_log::{Groups, Log, Scope};
use ordup_objects::Refusal;
use std::alloc::{Allocator, Global};
use std::marker::Model;

// promise: ledgers take memory in `new` and for marks alone; no wrong body: their results have no refusal
/// The weight of the updates by which a site lags, kept while the log grows and the site reports.
///
/// It stands at two places of a log: the reported one, up to which the site has reported, and the extended one, up to which
/// updates were added. For each limit it keeps what the updates up to the extended place weigh, and which weight is allowed: the
/// amount and what the updates up to the reported place weigh. The span between the places passes the limit where the first is
/// above the second. The reported place may pass the extended one: then the span is empty and passes none.
///
/// All calls of a ledger take one log, as it grows, and the same groups. The cost of a call grows with the changes of the
/// updates that it goes over, and not with the length of the span.
#[derive(Drop)]
pub struct LagLedger<A: Allocator + Copy = Global> {
    /// The last limit on each scope.
    limits: LimitList,
    /// For each limit what the updates weigh up to the places.
    weights: LagWeights<A>,
    /// For each object the limits on whose scopes its changes count, once a call has seen the groups.
    masks: Masks<A>,
    has_masks: bool,
    /// The amount of the limit on the count of updates; without one the most updates of a log.
    count: u64,
}

impl<A: Allocator + Copy> Model for LagLedger<A> {
    ghost use Rattle.ordup_limits.specs.Ledgers.{LedgerState};
    ghost use Rattle.ordup_limits.specs.LagLedgerInside.{ledger_of, KeepsLedger};

    ghost Value = { LedgerState };

    ghost view = { ledger_of };

    ghost invariant = { KeepsLedger };
}

impl<A: Allocator + Copy> LagLedger<A> {
    ghost use Rattle.ordup_limits.specs.Ledgers.{StandsFor};
    ghost use Rattle.ordup_limits.specs.Masks.{AreMasks};

    // promise limits places stands: a ledger is always over exactly if its span passes a limit
    /// A ledger of these limits that stands at the places 0 and 0 of each log over at most 256 objects.
    ///
    /// It takes all the memory that it ever needs. The only refusal is `NoMemory`.
    pub fn new(alloc: A, limits: &LimitTable<A>) -> Result<Self, Refusal>
        ensures limits { IfOk result (λ ledger. ledger.limits ≡ latest limits.now) }
        ensures places { IfOk result (λ ledger. (ledger.reported ≡ 0) × (ledger.extended ≡ 0)) }
        ensures stands { IfOk result (λ ledger. (h : History) (groups : GroupList) → length h.start ≤ most_objects →
            AreEntriesKnown (length h.start) groups limits.now → StandsFor ledger h groups) }
        ensures refused { IfErr result (λ e. e ≡ Refusal.NoMemory) }
    {
        let limits = limits.latest().copy();
        let weights = LagWeights::new(alloc, &limits)?;
        let masks = Masks::new(alloc)?;
        let count = limits.least_count();
        Ok(LagLedger {
            limits,
            weights,
            masks,
            has_masks: false,
            count,
        })
    }

    // promise limits places stands: as LagLedger::new
    /// Adds the updates after the extended place, up to a later one. It takes no memory.
    pub fn extend(&mut self, log: &Log<A>, groups: &Groups<A>, to: u64)
        requires forward { self.old.extended ≤ to }
        requires last { to ≤ length log.now.sets }
        requires stands { StandsFor self.old log.now groups.now }
        ensures limits { self.new.limits ≡ self.old.limits }
        ensures places { (self.new.reported ≡ self.old.reported) × (self.new.extended ≡ to) }
        ensures stands { StandsFor self.new log.now groups.now }
    {
        log.keeps();
        groups.keeps();
        self.prepare(groups);
        self.weights.extend(log, &self.masks, to);
    }

    // promise limits places stands: as LagLedger::new
    /// Takes off the updates up to a place that the site has reported. It takes no memory.
    pub fn reported(&mut self, log: &Log<A>, groups: &Groups<A>, to: u64)
        requires forward { self.old.reported ≤ to }
        requires last { to ≤ length log.now.sets }
        requires stands { StandsFor self.old log.now groups.now }
        ensures limits { self.new.limits ≡ self.old.limits }
        ensures places { (self.new.reported ≡ to) × (self.new.extended ≡ self.old.extended) }
        ensures stands { StandsFor self.new log.now groups.now }
    {
        // A turn between threads reports for each site, also where there is nothing new.
        if to == self.weights.reported() {
            return;
        }
        log.keeps();
        groups.keeps();
        self.prepare(groups);
        self.weights.report(log, &self.masks, to);
    }

    // promise limits places stands: as LagLedger::new
    /// Changes the amount of the limit on a scope, or begins a limit there, with an amount from 0 to 10^18. It takes no memory.
    pub fn change(&mut self, log: &Log<A>, groups: &Groups<A>, scope: Scope, amount: u64)
        requires spare { length (put are_on_one_scope self.old.limits (record { scope = scope; amount = amount })) ≤ most_limits }
        requires known { IsScopeKnown (length log.now.start) groups.now scope }
        requires stands { StandsFor self.old log.now groups.now }
        ensures limits { self.new.limits ≡ put are_on_one_scope self.old.limits (record { scope = scope; amount = amount }) }
        ensures places { (self.new.reported ≡ self.old.reported) × (self.new.extended ≡ self.old.extended) }
        ensures stands { StandsFor self.new log.now groups.now }
    {
        log.keeps();
        groups.keeps();
        self.prepare(groups);
        let limit = Limit { scope, amount };
        // What is kept for the scope is put down again, also where it stays the same.
        let index = self.limits.index_for(&limit.scope);
        self.masks.put_scope(groups, &limit.scope, index);
        self.weights.put(index, &limit, log, groups);
        self.limits.put(&limit);
        self.count = self.limits.least_count();
    }

    /// Puts the ledger at two places of the log, wherever it stood. It takes no memory.
    ///
    /// The cost grows with the limits, and not with the updates between the places: a search for each object on which they count.
    pub fn stand_at(&mut self, log: &Log<A>, groups: &Groups<A>, reported: u64, extended: u64)
        requires reported { reported ≤ length log.now.sets }
        requires extended { extended ≤ length log.now.sets }
        requires stands { StandsFor self.old log.now groups.now }
        ensures limits { self.new.limits ≡ self.old.limits }
        ensures places { (self.new.reported ≡ reported) × (self.new.extended ≡ extended) }
        ensures stands { StandsFor self.new log.now groups.now }
    {
        log.keeps();
        self.weights
            .stand_at(&self.limits, log, groups, reported, extended);
    }

    // promise: as LagLedger::new
    /// Whether the span from the reported place to the extended one passes a limit. Equal is not over.
    pub fn over(&self) -> bool
        ensures { (h : History) (groups : GroupList) → StandsFor self.now h groups →
            result ≡ not (within h groups self.now.limits self.now.reported self.now.extended) }
    {
        self.weights.has_passed() || self.weights.lag() > self.count
    }

    // promise: a ledger knows its limits, and what its span weighs on each
    /// The last limit on each scope, in the order in which the scopes came.
    pub fn limits(&self) -> &[Limit]
        ensures { result.now ≡ self.now.limits }
    {
        self.limits.as_slice()
    }

    // promise: as LagLedger::limits
    /// What the span from the reported place to the extended one weighs on the scope of the limit with this index.
    pub fn weight(&self, index: usize) -> u64
        requires { index < length self.now.limits }
        ensures { (h : History) (groups : GroupList) (d : Limit) → StandsFor self.now h groups →
            result ≡ span h groups (slice_index_or self.now.limits index d).scope self.now.reported self.now.extended }
    {
        let limit = &self.limits.as_slice()[index];
        match limit.scope {
            Scope::Count => self.weights.lag(),
            Scope::Object(_) | Scope::Group(_) | Scope::All => self.weights.lag_on(index, limit),
        }
    }

    /// Puts the masks down, where that was not done.
    // Inlined, since each update and each report asks, and nearly always finds them.
    #[inline(always)]
    fn prepare(&mut self, groups: &Groups<A>)
        requires known { (n : ℕ) × AreScopesKnown n groups.now self.old.limits }
        requires masks { self.old.has_masks ≡ true → AreMasks groups.now self.old.limits self.old.masks }
        ensures masks { AreMasks groups.now self.new.limits self.new.masks }
        ensures rest { self.new ≡ record self.old { masks = self.new.masks; has_masks = true } }
    {
        if self.has_masks {
            return;
        }
        self.masks.fill(&self.limits, groups);
        self.has_masks = true;
    }
}

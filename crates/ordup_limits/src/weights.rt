ghost use Rattle.std.specs.Prelude.{◌≡◌, ◌≤◌, ◌<◌, ◌+◌, ◌*◌, ◌^◌, IfOk, IfErr, length, slice_index, take};
ghost use Rattle.ordup_objects.specs.Serial.{History};
ghost use Rattle.ordup_objects.specs.Sizes.{greatest_distance, greatest_weight, most_objects, most_updates};
ghost use Rattle.ordup_log.specs.Groups.{GroupList};
ghost use Rattle.ordup_log.specs.Spans.{span, IsScopeKnown};
ghost use Rattle.ordup_limits.specs.Masks.{AreGroupMasks};
ghost use Rattle.ordup_limits.specs.StoreLedgers.{most_scopes, raised_on, scope_index, AreFew, AreWeights, GainMove};

use crate::masks::Masks;
use crate::site_ledger::{for_each_scope, scope_index};
use ordup_log::{GroupId, Groups, Log, Scope};
use ordup_objects::{Moved, Refusal};
use std::alloc::{Allocator, Global};
use std::marker::Model;

/// What the updates up to a place of a log weigh on each scope.
#[derive(Drop)]
pub(crate) struct Weights<A: Allocator + Copy = Global> {
    place: u64,
    /// By the number of a scope what the updates up to the place weigh on it.
    totals: Vec<u64, A>,
}

impl<A: Allocator + Copy> Model for Weights<A> {
    ghost use Rattle.ordup_limits.specs.StoreLedgers.{WeightsAt};
    ghost use Rattle.ordup_limits.specs.WeightsInside.{weights_of, HasTotals};

    ghost Value = { WeightsAt };

    ghost view = { weights_of };

    ghost invariant = { HasTotals };
}

impl<A: Allocator + Copy> Weights<A> {
    /// The weights of no update. The only refusal is `NoMemory`.
    pub(crate) fn new(alloc: A) -> Result<Self, Refusal>
        ensures place { IfOk result (λ w. w.place ≡ 0) }
        ensures weights { IfOk result (λ w. (h : History) (groups : GroupList) → AreWeights w h groups) }
        ensures refused { IfErr result (λ e. e ≡ Refusal.NoMemory) }
    {
        Ok(Weights {
            place: 0,
            totals: for_each_scope(alloc, 0)?,
        })
    }

    /// Adds the updates after the place, up to a later one.
    // Inlined into a settlement and a report: the bench shows what a call costs.
    #[inline(always)]
    pub(crate) fn extend(&mut self, log: &Log<A>, groups: &Groups<A>, masks: &Masks<A>, to: u64)
        requires forward { self.old.place ≤ to }
        requires last { to ≤ length log.now.sets }
        requires objects { length log.now.start ≤ most_objects }
        requires masks { AreGroupMasks groups.now masks.now }
        requires weights { AreWeights self.old log.now groups.now }
        ensures place { self.new.place ≡ to }
        ensures weights { AreWeights self.new log.now groups.now }
    {
        while self.place() < to {
            self.add_update(log, groups, masks);
        }
    }

    /// Adds the update after the place.
    fn add_update(&mut self, log: &Log<A>, groups: &Groups<A>, masks: &Masks<A>)
        requires last { self.old.place < length log.now.sets }
        requires objects { length log.now.start ≤ most_objects }
        requires masks { AreGroupMasks groups.now masks.now }
        requires weights { AreWeights self.old log.now groups.now }
        ensures place { self.new.place ≡ self.old.place + 1 }
        ensures weights { AreWeights self.new log.now groups.now }
    {
        log.keeps();
        groups.keeps();
        self.place += 1;
        let moves = log.moves(self.place);
        self.add(&Scope::Count, 1);
        for moved in moves {
            self.add_move(log, groups, masks, moved);
        }
    }

    /// Adds how far a change moved its object: to the totals on the object, on all objects, and on the groups of the object.
    fn add_move(&mut self, log: &Log<A>, groups: &Groups<A>, masks: &Masks<A>, moved: &Moved)
        requires objects { length log.now.start ≤ most_objects }
        requires masks { AreGroupMasks groups.now masks.now }
        requires known { moved.now.object < length log.now.start }
        requires distance { moved.now.distance ≤ greatest_distance }
        requires few { AreFew self.old log.now groups.now }
        ensures place { self.new.place ≡ self.old.place }
        ensures raised { GainMove log.now groups.now moved.now self.old self.new }
    {
        groups.keeps();
        let object = moved.object;
        let weight = u64::from(moved.distance);
        self.add(&Scope::Object(object), weight);
        self.add(&Scope::All, weight);
        let mut rest = masks.of(object);
        while rest != 0 {
            let bit = rest.trailing_zeros();
            let group = GroupId::new(bit as u8);
            self.add(&Scope::Group(group), weight);
            rest &= !(1 << bit);
        }
    }

    /// Adds a weight to the total on a scope.
    #[inline(always)]
    fn add(&mut self, scope: &Scope, weight: u64)
        requires index { scope_index scope.now < most_scopes }
        requires fits { slice_index self.old.totals (scope_index scope.now) + weight < 2 ^ 64 }
        ensures raised { self.new ≡ record self.old { totals = raised_on scope.now weight self.old.totals } }
        ensures count { length self.old.totals ≡ most_scopes }
    {
        self.totals[scope_index(*scope)] += weight;
    }

    /// The place.
    pub(crate) fn place(&self) -> u64
        ensures { result ≡ self.now.place }
    {
        self.place
    }

    /// What the updates up to the place weigh on a scope.
    // Inlined, since each settlement asks for each scope of its update.
    #[inline(always)]
    pub(crate) fn on(&self, log: &Log<A>, groups: &Groups<A>, scope: &Scope) -> u64
        requires weights { AreWeights self.now log.now groups.now }
        requires index { scope_index scope.now < most_scopes }
        requires known { IsScopeKnown (length log.now.start) groups.now scope.now }
        ensures weight { result ≡ span log.now groups.now scope.now 0 self.now.place }
        ensures few { result ≤ greatest_weight * most_updates }
    {
        log.keeps();
        groups.keeps();
        self.totals[scope_index(*scope)]
    }

    /// What the updates up to the place weigh on each of the first objects, as many as that.
    pub(crate) fn on_objects(&self, count: usize) -> &[u64]
        requires { count ≤ most_objects }
        ensures totals { result.now ≡ take count self.now.totals }
        ensures count { length result.now ≡ count }
    {
        &self.totals.as_slice()[..count]
    }
}

ghost use Rattle.std.specs.Prelude.{◌≡◌, ◌==◌, ◌≤◌, ◌<◌, ◌+◌, ◌-◌, ◌*◌, ◌↔◌, ℕ, false, IfOk, IfErr, IsTrue, length, slice_index};
ghost use Rattle.std.specs.Int.{bit_at};
ghost use Rattle.ordup_objects.specs.Serial.{History};
ghost use Rattle.ordup_objects.specs.Sizes.{greatest_distance, greatest_weight, most_objects, most_updates};
ghost use Rattle.ordup_log.specs.Groups.{GroupList};
ghost use Rattle.ordup_log.specs.Spans.{IsScopeKnown};
ghost use Rattle.ordup_limits.specs.LagWeights.{AreLagWeights, HasPassed};
ghost use Rattle.ordup_limits.specs.Limits.{AreScopesKnown};
ghost use Rattle.ordup_limits.specs.PassedLimits.{ArePassed};
ghost use Rattle.ordup_limits.specs.Sizes.{greatest_amount, most_limits};
ghost use Rattle.ordup_limits.specs.Totals.{kept_amount, weighed, AreAtMost, AreRaised, AreRaisedBy, HaveTotalAt};

use crate::limit::Limit;
use crate::limit_list::LimitList;
use crate::masks::{Masks, with_bit};
use crate::sizes::MOST_LIMITS;
use crate::totals::{Totals, weighed};
use ordup_log::{Groups, Log};
use ordup_objects::Refusal;
use std::alloc::{Allocator, Global};
use std::marker::Model;

/// What the updates weigh by which a site lags, for each of its limits.
///
/// They stand at two places of a log: the reported one, up to which the site has reported, and the extended one, up to which
/// updates were added. The reported place may pass the extended one.
#[derive(Drop)]
pub(crate) struct LagWeights<A: Allocator + Copy = Global> {
    reported: u64,
    extended: u64,
    /// What the updates up to the extended place weigh on the scope of each limit; nothing is kept on the count of updates.
    added: Totals<A>,
    /// Up to which weight of `added` each limit is kept: its amount with what the updates up to the reported place weigh.
    allowed: Totals<A>,
    /// The limits for which `added` is above `allowed`, a bit for each.
    passed: u64,
}

impl<A: Allocator + Copy> Model for LagWeights<A> {
    ghost use Rattle.ordup_limits.specs.LagWeights.{LagWeightsAt};
    ghost use Rattle.ordup_limits.specs.LagWeightsInside.{lag_weights_of, KeepsPassed};

    ghost Value = { LagWeightsAt };

    ghost view = { lag_weights_of };

    ghost invariant = { KeepsPassed };
}

impl<A: Allocator + Copy> LagWeights<A> {
    /// The weights at the places 0 and 0. The only refusal is `NoMemory`.
    pub(crate) fn new(alloc: A, limits: &LimitList) -> Result<Self, Refusal>
        ensures places { IfOk result (λ w. (w.reported ≡ 0) × (w.extended ≡ 0)) }
        ensures weights { IfOk result (λ w. (h : History) (groups : GroupList) → AreLagWeights h groups limits.now w) }
        ensures refused { IfErr result (λ e. e ≡ Refusal.NoMemory) }
    {
        let added = Totals::new(alloc)?;
        let mut allowed = Totals::new(alloc)?;
        allowed.add_amounts(limits);
        Ok(LagWeights {
            reported: 0,
            extended: 0,
            added,
            allowed,
            passed: 0,
        })
    }

    /// Adds the updates after the extended place, up to a later one.
    pub(crate) fn extend(&mut self, log: &Log<A>, masks: &Masks<A>, to: u64)
        requires forward { self.old.extended ≤ to }
        requires last { to ≤ length log.now.sets }
        requires objects { length log.now.start ≤ most_objects }
        requires few { AreAtMost (greatest_weight * self.old.extended) self.old.added }
        ensures rest { self.new ≡ record self.old { extended = to; added = self.new.added } }
        ensures added { AreRaised log.now masks.now self.old.extended to self.old.added self.new.added }
    {
        log.keeps();
        for place in self.extended..to {
            self.add_update(log, masks, place);
        }
        self.extended = to;
    }

    /// Adds the update after a place.
    fn add_update(&mut self, log: &Log<A>, masks: &Masks<A>, place: u64)
        requires last { place < length log.now.sets }
        requires objects { length log.now.start ≤ most_objects }
        requires few { AreAtMost (greatest_weight * place) self.old.added }
        ensures rest { self.new ≡ record self.old { added = self.new.added } }
        ensures added { AreRaised log.now masks.now place (place + 1) self.old.added self.new.added }
    {
        log.keeps();
        let moves = log.moves(place + 1);
        for moved in moves {
            let mask = masks.of(moved.object);
            let distance = u64::from(moved.distance);
            self.add(mask, distance);
        }
    }

    /// Adds a weight for the limits whose bits are set in the mask, from the lowest on, and looks again at each of them.
    fn add(&mut self, mask: u64, weight: u64)
        requires weight { weight ≤ greatest_distance }
        requires few { AreAtMost (greatest_weight * most_updates) self.old.added }
        ensures rest { self.new ≡ record self.old { added = self.new.added } }
        ensures added { AreRaisedBy mask weight self.old.added self.new.added }
    {
        let mut rest = mask;
        while rest != 0 {
            let bit = rest.trailing_zeros();
            let index = bit as usize;
            let total = self.added.at(index) + weight;
            self.added.put(index, total);
            // A limit that was passed stays so, since its total grows.
            if total > self.allowed.at(index) {
                self.passed = with_bit(self.passed, index, true);
            }
            rest &= !(1 << bit);
        }
    }

    /// Allows what the updates after the reported place weigh, up to a later one.
    pub(crate) fn report(&mut self, log: &Log<A>, masks: &Masks<A>, to: u64)
        requires forward { self.old.reported ≤ to }
        requires last { to ≤ length log.now.sets }
        requires objects { length log.now.start ≤ most_objects }
        requires few { AreAtMost (greatest_amount + greatest_weight * self.old.reported) self.old.allowed }
        ensures rest { self.new ≡ record self.old { reported = to; allowed = self.new.allowed } }
        ensures allowed { AreRaised log.now masks.now self.old.reported to self.old.allowed self.new.allowed }
    {
        self.allowed.add_updates(log, masks, self.reported, to);
        self.reported = to;
        self.passed = passed_among(&self.added, &self.allowed, self.passed);
    }

    /// Puts a limit at an index, with what the updates up to the two places weigh on its scope.
    pub(crate) fn put(&mut self, index: usize, limit: &Limit, log: &Log<A>, groups: &Groups<A>)
        requires index { index < most_limits }
        requires known { IsScopeKnown (length log.now.start) groups.now limit.now.scope }
        requires reported { self.old.reported ≤ length log.now.sets }
        requires extended { self.old.extended ≤ length log.now.sets }
        ensures rest { self.new ≡ record self.old { added = self.new.added; allowed = self.new.allowed } }
        ensures added { HaveTotalAt index (weighed log.now groups.now limit.now.scope self.old.extended) self.old.added self.new.added }
        ensures allowed { HaveTotalAt index (kept_amount limit.now + weighed log.now groups.now limit.now.scope self.old.reported) self.old.allowed self.new.allowed }
    {
        log.keeps();
        groups.keeps();
        let total = weighed(log, groups, &limit.scope, self.extended);
        let allowed = limit.kept_amount() + weighed(log, groups, &limit.scope, self.reported);
        self.added.put(index, total);
        self.allowed.put(index, allowed);
        self.passed = with_bit(self.passed, index, total > allowed);
    }

    /// Puts the weights at two places of the log, wherever they stood.
    pub(crate) fn stand_at(
        &mut self,
        limits: &LimitList,
        log: &Log<A>,
        groups: &Groups<A>,
        reported: u64,
        extended: u64,
    )
        requires reported { reported ≤ length log.now.sets }
        requires extended { extended ≤ length log.now.sets }
        requires known { AreScopesKnown (length log.now.start) groups.now limits.now }
        requires weights { AreLagWeights log.now groups.now limits.now self.old }
        ensures places { (self.new.reported ≡ reported) × (self.new.extended ≡ extended) }
        ensures weights { AreLagWeights log.now groups.now limits.now self.new }
    {
        log.keeps();
        if reported != self.reported {
            self.allowed.put_down(limits, log, groups, reported);
            self.allowed.add_amounts(limits);
            self.reported = reported;
        }
        if extended != self.extended {
            self.added.put_down(limits, log, groups, extended);
            self.extended = extended;
        }
        self.passed = passed_of(&self.added, &self.allowed);
    }

    /// The reported place.
    pub(crate) fn reported(&self) -> u64
        ensures { result ≡ self.now.reported }
    {
        self.reported
    }

    /// Whether the updates weigh more than is allowed for some limit.
    pub(crate) fn has_passed(&self) -> bool
        ensures { IsTrue result ↔ HasPassed self.now }
    {
        self.passed != 0
    }

    /// How many updates there are after the reported place, up to the extended one.
    pub(crate) fn lag(&self) -> u64
        ensures { result ≡ self.now.extended - self.now.reported }
    {
        self.extended.saturating_sub(self.reported)
    }

    /// What these updates weigh on the scope of the limit at an index.
    pub(crate) fn lag_on(&self, index: usize, limit: &Limit) -> u64
        requires { index < most_limits }
        ensures { result ≡ slice_index self.now.added index - (slice_index self.now.allowed index - kept_amount limit.now) }
    {
        let reported = self.allowed.at(index).saturating_sub(limit.kept_amount());
        self.added.at(index).saturating_sub(reported)
    }
}

/// The limits for which more was added than is allowed, a bit for each.
fn passed_of<A: Allocator + Copy>(added: &Totals<A>, allowed: &Totals<A>) -> u64
    ensures { ArePassed result added.now allowed.now }
{
    let mut passed = 0;
    for index in 0..MOST_LIMITS {
        passed = with_bit(passed, index, added.at(index) > allowed.at(index));
    }
    passed
}

/// Those of a mask's limits for which more was added than is allowed, a bit for each. For no other limit was more added.
fn passed_among<A: Allocator + Copy>(added: &Totals<A>, allowed: &Totals<A>, mask: u64) -> u64
    requires { (i : ℕ) → i < most_limits → (bit_at mask i == 1) ≡ false → slice_index added.now i ≤ slice_index allowed.now i }
    ensures { ArePassed result added.now allowed.now }
{
    let mut passed = mask;
    let mut rest = mask;
    while rest != 0 {
        let bit = rest.trailing_zeros();
        let index = bit as usize;
        passed = with_bit(passed, index, added.at(index) > allowed.at(index));
        rest &= !(1 << bit);
    }
    passed
}

ghost use Rattle.std.specs.Prelude.{◌≡◌, ◌≤◌, ◌<◌, ◌+◌, ◌*◌, ℕ, IfOk, IfErr, length, replicate, slice_index, slice_index_or};
ghost use Rattle.ordup_objects.specs.Serial.{History};
ghost use Rattle.ordup_objects.specs.Sizes.{greatest_weight, greatest_distance, most_objects, most_updates};
ghost use Rattle.ordup_log.specs.Groups.{GroupList};
ghost use Rattle.ordup_log.specs.Spans.{IsScopeKnown};
ghost use Rattle.ordup_limits.specs.declared.limit.Limit.{Limit};
ghost use Rattle.ordup_limits.specs.Limits.{AreScopesKnown};
ghost use Rattle.ordup_limits.specs.Sizes.{greatest_amount, most_limits};
ghost use Rattle.ordup_limits.specs.Totals.{weighed, AreAllowed, AreAtMost, AreRaised, AreRaisedBy, AreTotals, HaveTotalAt};

use crate::limit::Limit;
use crate::limit_list::LimitList;
use crate::masks::Masks;
use crate::sizes::MOST_LIMITS;
use ordup_log::{Groups, Log, Scope};
use ordup_objects::Refusal;
use std::alloc::{Allocator, Global};
use std::marker::Model;

/// A total for each limit that there may be.
#[derive(Drop)]
pub(crate) struct Totals<A: Allocator + Copy = Global> {
    totals: Vec<u64, A>,
}

impl<A: Allocator + Copy> Model for Totals<A> {
    ghost use Rattle.std.specs.Prelude.{◌≡◌, ℕ, List, length};
    ghost use Rattle.ordup_limits.specs.Sizes.{most_limits};

    ghost Value = { List ℕ };

    ghost view = { λ t. t.totals.items };

    ghost invariant = { λ t. length t.totals.items ≡ most_limits };
}

impl<A: Allocator + Copy> Totals<A> {
    /// The totals of no update. The only refusal is `NoMemory`.
    pub(crate) fn new(alloc: A) -> Result<Self, Refusal>
        ensures totals { IfOk result (λ totals. totals ≡ replicate most_limits 0) }
        ensures refused { IfErr result (λ e. e ≡ Refusal.NoMemory) }
    {
        Ok(Totals {
            totals: Vec::from_elem(alloc, 0, MOST_LIMITS)?,
        })
    }

    /// The total of a limit.
    #[inline(always)]
    pub(crate) fn at(&self, limit: usize) -> u64
        requires { limit < most_limits }
        ensures { result ≡ slice_index self.now limit }
    {
        self.totals[limit]
    }

    /// Puts down the total of a limit.
    #[inline(always)]
    pub(crate) fn put(&mut self, limit: usize, total: u64)
        requires { limit < most_limits }
        ensures { HaveTotalAt limit total self.old self.new }
    {
        self.totals[limit] = total;
    }

    /// Puts down the totals of the updates up to a place, whatever was there: what these updates weigh for each limit, and 0
    /// elsewhere.
    pub(crate) fn put_down(
        &mut self,
        limits: &LimitList,
        log: &Log<A>,
        groups: &Groups<A>,
        place: u64,
    )
        requires last { place ≤ length log.now.sets }
        requires known { AreScopesKnown (length log.now.start) groups.now limits.now }
        ensures { AreTotals log.now groups.now limits.now place self.new }
    {
        log.keeps();
        groups.keeps();
        let list = limits.as_slice();
        for i in 0..MOST_LIMITS {
            self.totals[i] = total_of(list, log, groups, i, place);
        }
    }

    /// Adds the amount of each limit to its total, which makes what is allowed of what the updates up to a place weigh.
    pub(crate) fn add_amounts(&mut self, limits: &LimitList)
        requires { AreAtMost (greatest_weight * most_updates) self.old }
        ensures { (h : History) (groups : GroupList) (place : ℕ) →
            AreTotals h groups limits.now place self.old → AreAllowed h groups limits.now place self.new }
    {
        for (index, limit) in limits.as_slice().iter().enumerate() {
            self.totals[index] += limit.kept_amount();
        }
    }

    /// Adds the updates after a place, up to a later one, to the totals of the limits on whose scopes they count.
    pub(crate) fn add_updates(&mut self, log: &Log<A>, masks: &Masks<A>, from: u64, to: u64)
        requires forward { from ≤ to }
        requires last { to ≤ length log.now.sets }
        requires objects { length log.now.start ≤ most_objects }
        requires few { AreAtMost (greatest_amount + greatest_weight * from) self.old }
        ensures { AreRaised log.now masks.now from to self.old self.new }
    {
        log.keeps();
        for place in from..to {
            self.add_update(log, masks, place);
        }
    }

    /// Adds the update after a place.
    fn add_update(&mut self, log: &Log<A>, masks: &Masks<A>, place: u64)
        requires last { place < length log.now.sets }
        requires objects { length log.now.start ≤ most_objects }
        requires few { AreAtMost (greatest_amount + greatest_weight * place) self.old }
        ensures { AreRaised log.now masks.now place (place + 1) self.old self.new }
    {
        log.keeps();
        let moves = log.moves(place + 1);
        for moved in moves {
            self.add(masks.of(moved.object), u64::from(moved.distance));
        }
    }

    /// Adds a weight where a bit is set in the mask, from the lowest on.
    fn add(&mut self, mask: u64, weight: u64)
        requires weight { weight ≤ greatest_distance }
        requires few { AreAtMost (greatest_amount + greatest_weight * most_updates) self.old }
        ensures { AreRaisedBy mask weight self.old self.new }
    {
        let mut rest = mask;
        while rest != 0 {
            let index = rest.trailing_zeros();
            self.totals[index as usize] += weight;
            rest &= !(1 << index);
        }
    }
}

/// What the updates up to a place weigh on the scope of the limit with this number, and 0 where there is none.
fn total_of<A: Allocator + Copy>(
    limits: &[Limit],
    log: &Log<A>,
    groups: &Groups<A>,
    i: usize,
    place: u64,
) -> u64
    requires last { place ≤ length log.now.sets }
    requires known { AreScopesKnown (length log.now.start) groups.now limits.now }
    ensures total { (d : Limit) → i < length limits.now → result ≡ weighed log.now groups.now (slice_index_or limits.now i d).scope place }
    ensures none { length limits.now ≤ i → result ≡ 0 }
{
    if i >= limits.len() {
        return 0;
    }
    weighed(log, groups, &limits[i].scope, place)
}

/// What the updates up to a place weigh on a scope, by their changes: nothing on the count of updates.
pub(crate) fn weighed<A: Allocator + Copy>(
    log: &Log<A>,
    groups: &Groups<A>,
    scope: &Scope,
    place: u64,
) -> u64
    requires last { place ≤ length log.now.sets }
    requires known { IsScopeKnown (length log.now.start) groups.now scope.now }
    ensures { result ≡ weighed log.now groups.now scope.now place }
{
    match *scope {
        Scope::Count => 0,
        Scope::Object(_) | Scope::Group(_) | Scope::All => log.span(*scope, groups, 0, place),
    }
}

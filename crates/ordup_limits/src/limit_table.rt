ghost use Rattle.std.specs.Prelude.{◌≡◌, ◌≤◌, ◌<◌, ◌↔◌, ◌++◌, ◌∷◌, [], ℕ, None, Some, IfOk, IfErr, IfSome, IsTrue, IsNone, OnOk, length, slice_get};
ghost use Rattle.std.specs.List.{list_any};
ghost use Rattle.ordup_objects.specs.Refusals.{IsRefusal};
ghost use Rattle.ordup_log.specs.Spans.{span, IsScopeKnown};
ghost use Rattle.ordup_limits.specs.Limits.{scope_refusal, limit_refusal, is_same_scope, keeps_limit, within, first_passed, AreScopesKnown};
ghost use Rattle.ordup_limits.specs.Entries.{entry_of, changed, change_refusal, from_start, in_force, latest, HoldFrom, AreEntries, AreEntriesKnown};

use crate::entries::{has_spare, hold_from, in_force, put_entry};
use crate::limit::Limit;
use crate::limit_entry::LimitEntry;
use crate::limit_list::LimitList;
use crate::sizes::{GREATEST_AMOUNT, MOST_LIMITS};
use ordup_log::{Groups, Log, Scope};
use ordup_objects::{ObjectTable, Refusal};
use std::alloc::{AllocError, Allocator, Global};
use std::marker::Model;

/// The limits of a site, each with the first place for which it holds: on at most 64 scopes, in at most 1,088 entries.
///
/// A limit is a scope and an amount, in the unit of the values, or in updates where the scope is `Count`. A span passes the
/// limit where it weighs more than the amount; equal is not over. The limit in force on a scope at a place is the last one that
/// holds from that place or before.
#[derive(Drop)]
pub struct LimitTable<A: Allocator + Copy = Global> {
    entries: Vec<LimitEntry, A>,
    /// The last limit on each scope, in the order in which the scopes were declared.
    limits: LimitList,
}

impl<A: Allocator + Copy> Model for LimitTable<A> {
    ghost use Rattle.ordup_limits.specs.Entries.{Entries};
    ghost use Rattle.ordup_limits.specs.LimitTableInside.{KeepsEntries};

    ghost Value = { Entries };

    ghost view = { λ t. t.entries.items };

    ghost invariant = { KeepsEntries };
}

impl<A: Allocator + Copy> LimitTable<A> {
    // promise: the readers answer the table, which has `AreEntries`
    /// No limits yet. It takes no memory.
    pub fn new(alloc: A) -> Self
        ensures { result ≡ [] }
    {
        LimitTable {
            entries: Vec::new(alloc),
            limits: LimitList::new(),
        }
    }

    // promise copied refused: a copy has the same limits, or the last ones from the start on
    /// A copy of the table. The only refusal is `NoMemory`.
    pub fn copy(&self, alloc: A) -> Result<Self, Refusal>
        ensures copied { IfOk result (λ limits. limits ≡ self.now) }
        ensures refused { IfErr result (λ e. e ≡ Refusal.NoMemory) }
    {
        let entries = Vec::from_slice(alloc, self.entries.as_slice())?;
        Ok(LimitTable {
            entries,
            limits: self.limits.copy(),
        })
    }

    // promise copied refused: as LimitTable::copy
    /// The last limit on each scope, in the same order, all of them in force from the start. The only refusal is `NoMemory`.
    pub fn copy_latest(&self, alloc: A) -> Result<Self, Refusal>
        ensures copied { IfOk result (λ limits. limits ≡ from_start (latest self.now)) }
        ensures refused { IfErr result (λ e. e ≡ Refusal.NoMemory) }
    {
        let limits = self.limits.copy();
        let entries = entries_from_start(alloc, limits.as_slice())?;
        Ok(LimitTable { entries, limits })
    }

    // promise known added allowed refused err: a limit is added from the start on
    /// Adds a limit that holds from the start, whose amount lies from 0 to 10^18. No entry holds from later.
    ///
    /// It is refused `UnknownObject` or `UnknownGroup` where the scope's is not there, `OutOfRange` for the amount, `TooMany`
    /// for a 65th limit, `Repeated` where the scope has a limit, and `NoMemory`.
    pub fn add(
        &mut self,
        objects: &ObjectTable<A>,
        groups: &Groups<A>,
        scope: Scope,
        amount: u64,
    ) -> Result<(), Refusal>
        requires { HoldFrom 1 self.old }
        ensures known { OnOk result (IsScopeKnown (length objects.now) groups.now scope) }
        ensures added { OnOk result (self.new ≡ self.old ++ entry_of scope amount 1 ∷ []) }
        ensures allowed { OnOk result (limit_refusal (length objects.now) groups.now (latest self.old) scope amount ≡ None) }
        ensures refused { IfErr result (λ e. IsRefusal (limit_refusal (length objects.now) groups.now (latest self.old) scope amount) e) }
        ensures err { IfErr result (λ _. self.new ≡ self.old) }
    {
        // The prover joins branches over a borrowed scope, not over a copied one.
        let scope = &scope;
        check_scope(objects, groups, *scope)?;
        if amount > GREATEST_AMOUNT {
            return Err(Refusal::OutOfRange);
        }
        if self.limits.len() == MOST_LIMITS {
            return Err(Refusal::TooMany);
        }
        if has_scope(self.limits.as_slice(), scope) {
            return Err(Refusal::Repeated);
        }
        let limit = Limit {
            scope: *scope,
            amount,
        };
        put_entry(&mut self.entries, &LimitEntry { limit, place: 1 })?;
        self.limits.put(&limit);
        Ok(())
    }

    // promise known changed allowed refused err last: a limit changes or begins at a place
    /// Changes the limit on a scope from a place on, or begins one there, whose amount lies from 0 to 10^18. The place is at
    /// least 1, and no entry holds from later.
    ///
    /// An entry of the scope and the place is replaced, any other is added as the last. It is refused as `check_change` is, and
    /// `NoMemory`.
    pub fn change(
        &mut self,
        objects: &ObjectTable<A>,
        groups: &Groups<A>,
        scope: Scope,
        amount: u64,
        place: u64,
    ) -> Result<(), Refusal>
        requires begun { 0 < place }
        requires last { HoldFrom place self.old }
        ensures known { OnOk result (IsScopeKnown (length objects.now) groups.now scope) }
        ensures changed { OnOk result (self.new ≡ changed self.old (entry_of scope amount place)) }
        ensures allowed { OnOk result (change_refusal (length objects.now) groups.now self.old (entry_of scope amount place) ≡ None) }
        ensures refused { IfErr result (λ e. IsRefusal (change_refusal (length objects.now) groups.now self.old (entry_of scope amount place)) e) }
        ensures err { IfErr result (λ _. self.new ≡ self.old) }
        // No entry holds from later, so the next change may be made at the place too, or at a later one.
        ensures last { HoldFrom place self.new }
    {
        // The prover joins branches over a borrowed scope, not over a copied one.
        let scope = &scope;
        self.check_change(objects, groups, *scope, amount, place)?;
        let limit = Limit {
            scope: *scope,
            amount,
        };
        put_entry(&mut self.entries, &LimitEntry { limit, place })?;
        self.limits.put(&limit);
        Ok(())
    }

    // promise: as LimitTable::change
    /// Tests whether a change is allowed, and makes none.
    ///
    /// It is refused `UnknownObject` or `UnknownGroup` where the scope's is not there, `OutOfRange` for the amount, and `TooMany`
    /// where the change would make a 65th scope or a 1,089th entry.
    pub fn check_change(
        &self,
        objects: &ObjectTable<A>,
        groups: &Groups<A>,
        scope: Scope,
        amount: u64,
        place: u64,
    ) -> Result<(), Refusal>
        requires { HoldFrom place self.now }
        ensures known { OnOk result (IsScopeKnown (length objects.now) groups.now scope) }
        ensures allowed { OnOk result (change_refusal (length objects.now) groups.now self.now (entry_of scope amount place) ≡ None) }
        ensures refused { IfErr result (λ e. change_refusal (length objects.now) groups.now self.now (entry_of scope amount place) ≡ Some e) }
    {
        // The prover joins branches over a borrowed scope, not over a copied one.
        let scope = &scope;
        check_scope(objects, groups, *scope)?;
        if amount > GREATEST_AMOUNT {
            return Err(Refusal::OutOfRange);
        }
        let limit = Limit {
            scope: *scope,
            amount,
        };
        if !has_spare(
            self.entries.as_slice(),
            &self.limits,
            &LimitEntry { limit, place },
        ) {
            return Err(Refusal::TooMany);
        }
        Ok(())
    }

    /// What each table keeps, for the proofs of its users. It does nothing.
    #[inline(always)]
    pub fn keeps(&self)
        ensures { AreEntries self.now }
    {
        let _ = &self.entries;
    }

    // promise: as LimitTable::new
    // promise entries: as LimitTable::new
    /// How many scopes have a limit, at most 64.
    pub fn len(&self) -> usize
        ensures len { result ≡ length (latest self.now) }
        // What each table keeps, for the proofs of its users.
        ensures entries { AreEntries self.now }
    {
        self.limits.len()
    }

    // promise: as LimitTable::new
    /// The scope and the last amount of a limit, by the index of the scope in the order of declaration.
    pub fn get(&self, index: usize) -> (Scope, u64)
        requires { index < length (latest self.now) }
        ensures { slice_get (latest self.now) index ≡ Some (record { scope = result.0; amount = result.1 }) }
    {
        let limit = self.limits.as_slice()[index];
        (limit.scope, limit.amount)
    }

    /// The last limit on each scope, in the order in which the scopes were declared.
    pub(crate) fn latest(&self) -> &LimitList
        ensures { result.now ≡ latest self.now }
    {
        &self.limits
    }

    // promise: as LimitTable::new
    /// The entries, in the order of the places from which they hold.
    pub fn entries(&self) -> &[LimitEntry]
        ensures { result.now ≡ self.now }
    {
        self.entries.as_slice()
    }

    // promise: `is_same` compares all entries
    /// Whether two tables are the same: the same entries, limits and places alike, in the same order.
    pub fn is_same(&self, other: &LimitTable<A>) -> bool
        ensures { IsTrue result ↔ (self.now ≡ other.now) }
    {
        self.entries() == other.entries()
    }

    // promise over within: `over` answers the first limit in force that a span passes
    /// The index in the order of declaration of the first limit that the span from a place of the log to another passes, if it
    /// passes one. The limits are those in force at the second place.
    ///
    /// Where the first place is not before the second the span is empty, and passes none.
    pub fn over(&self, log: &Log<A>, groups: &Groups<A>, from: u64, to: u64) -> Option<usize>
        requires last { to ≤ length log.now.sets }
        requires known { AreEntriesKnown (length log.now.start) groups.now self.now }
        ensures over { result ≡ first_passed log.now groups.now (in_force self.now to) from to }
        ensures within { IsNone result ↔ IsTrue (within log.now groups.now (in_force self.now to) from to) }
    {
        if from >= to {
            return None;
        }
        if hold_from(self.entries.as_slice(), to) {
            return first_passed(self.limits.as_slice(), log, groups, from, to);
        }
        let limits = in_force(self.entries.as_slice(), to);
        first_passed(limits.as_slice(), log, groups, from, to)
    }
}

/// The index of the first of these limits that the span passes.
fn first_passed<A: Allocator + Copy>(
    limits: &[Limit],
    log: &Log<A>,
    groups: &Groups<A>,
    from: u64,
    to: u64,
) -> Option<usize>
    requires forward { from ≤ to }
    requires last { to ≤ length log.now.sets }
    requires known { AreScopesKnown (length log.now.start) groups.now limits.now }
    ensures over { result ≡ first_passed log.now groups.now limits.now from to }
    ensures within { IsNone result ↔ IsTrue (within log.now groups.now limits.now from to) }
{
    let mut all = None;
    for (index, limit) in limits.iter().enumerate() {
        if !keeps_limit(log, groups, from, to, &mut all, *limit) {
            return Some(index);
        }
    }
    None
}

/// Whether the span from a place to a later one keeps a limit.
///
/// No object and no group weighs more than all objects do, so most limits are kept without a sum of their own. What all
/// objects weigh is added up where a limit first asks for it.
fn keeps_limit<A: Allocator + Copy>(
    log: &Log<A>,
    groups: &Groups<A>,
    from: u64,
    to: u64,
    all: &mut Option<u64>,
    limit: Limit,
) -> bool
    requires forward { from ≤ to }
    requires last { to ≤ length log.now.sets }
    requires known { IsScopeKnown (length log.now.start) groups.now limit.scope }
    requires all { IfSome all.old (λ weight. weight ≡ span log.now groups.now Scope.All from to) }
    ensures kept { result ≡ keeps_limit log.now groups.now from to limit }
    ensures all { IfSome all.new (λ weight. weight ≡ span log.now groups.now Scope.All from to) }
{
    groups.keeps();
    match limit.scope {
        Scope::All => weight_of_all(log, groups, from, to, all) <= limit.amount,
        Scope::Count => to - from <= limit.amount,
        Scope::Object(_) | Scope::Group(_) => {
            weight_of_all(log, groups, from, to, all) <= limit.amount
                || log.span(limit.scope, groups, from, to) <= limit.amount
        }
    }
}

/// What the span weighs on all objects: added up the first time, and kept for the next.
fn weight_of_all<A: Allocator + Copy>(
    log: &Log<A>,
    groups: &Groups<A>,
    from: u64,
    to: u64,
    all: &mut Option<u64>,
) -> u64
    requires forward { from ≤ to }
    requires last { to ≤ length log.now.sets }
    requires all { IfSome all.old (λ weight. weight ≡ span log.now groups.now Scope.All from to) }
    ensures weight { result ≡ span log.now groups.now Scope.All from to }
    ensures all { IfSome all.new (λ weight. weight ≡ span log.now groups.now Scope.All from to) }
{
    if let Some(weight) = *all {
        return weight;
    }
    let weight = log.span(Scope::All, groups, from, to);
    *all = Some(weight);
    weight
}

// promise known allowed refused: a scope is refused exactly if its object or group is unknown
/// Tests that the object or group of a scope is there. It is refused `UnknownObject` or `UnknownGroup` where it is not.
pub fn check_scope<A: Allocator + Copy>(
    objects: &ObjectTable<A>,
    groups: &Groups<A>,
    scope: Scope,
) -> Result<(), Refusal>
    ensures known { OnOk result (IsScopeKnown (length objects.now) groups.now scope) }
    ensures allowed { OnOk result (scope_refusal (length objects.now) groups.now scope ≡ None) }
    ensures refused { IfErr result (λ e. scope_refusal (length objects.now) groups.now scope ≡ Some e) }
{
    match scope {
        Scope::Object(object) => {
            if object.index() >= objects.len() {
                return Err(Refusal::UnknownObject);
            }
        }
        Scope::Group(group) => {
            if group.index() >= groups.len() {
                return Err(Refusal::UnknownGroup);
            }
        }
        Scope::All => {}
        Scope::Count => {}
    }
    Ok(())
}

fn has_scope(limits: &[Limit], scope: &Scope) -> bool
    ensures { result ≡ list_any (λ l. is_same_scope l.scope scope.now) limits.now }
{
    limits.iter().any(|limit| limit.scope == *scope)
}

/// These limits as entries, all of them in force from the start.
fn entries_from_start<A: Allocator + Copy>(
    alloc: A,
    limits: &[Limit],
) -> Result<Vec<LimitEntry, A>, AllocError>
    ensures { IfOk result (λ entries. entries.items ≡ from_start limits.now) }
{
    let mut entries = Vec::with_capacity(alloc, limits.len())?;
    for limit in limits {
        entries.push_reserved(LimitEntry {
            limit: *limit,
            place: 1,
        });
    }
    Ok(entries)
}

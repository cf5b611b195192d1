ghost use Rattle.std.specs.Prelude.{◌≡◌, ◌≤◌, ◌↔◌, ℕ, ◌<◌, None, Some, IfSome, IfOk, IfErr, IsTrue, [], length, slice_get, option_map, All, OnOk, not, nat_lt, ◌||◌, ◌==◌};
ghost use Rattle.ordup_objects.specs.Sizes.{most_sites, greatest_capacity};
ghost use Rattle.ordup_objects.specs.Tables.{AreDistinct, AreNames, index_of, initial_state, names_of, object_refusal};
ghost use Rattle.ordup_objects.specs.Refusals.{IsRefusal};
ghost use Rattle.ordup_log.specs.Groups.{group_refusal};
ghost use Rattle.ordup_limits.specs.Entries.{AreEntriesKnown, HoldFrom};
ghost use Rattle.ordup_primary.specs.Declarations.{Declared, AreDeclared, with_object, with_group, with_site, with_limit, is_ready, site_refusal, site_limit_refusal, capacity_of, limits_of};
ghost use Rattle.ordup_primary.specs.Successors.{limits_from_start};
ghost use Rattle.ordup_log.specs.Groups.{AreGroupsKnown};

use crate::limit_tables::{are_same_limits, copy_latest, copy_limits};
use ordup_limits::{GroupId, Groups, LimitTable, Scope, check_scope};
use ordup_objects::sizes::{GREATEST_CAPACITY, MOST_SITES};
use ordup_objects::{Name, NameTable, ObjectId, ObjectTable, Refusal, SiteId, Values, or_give_up};
use std::alloc::{AllocError, Allocator, Global};
use std::marker::Model;

/// What is declared of a store before its start: the objects with their initial values, the groups with their members, and
/// the sites with the capacities of their feeds and their limits.
#[derive(Drop)]
pub struct Setup<A: Allocator + Copy = Global> {
    objects: ObjectTable<A>,
    groups: Groups<A>,
    capacities: NameTable<u64, A>,
    limits: Vec<LimitTable<A>, A>,
}

impl<A: Allocator + Copy> Model for Setup<A> {
    ghost use Rattle.ordup_primary.specs.Declarations.{Declared, AreDeclared};

    ghost Value = { Declared };

    ghost view = { λ s. record { objects = s.objects; groups = s.groups; sites = s.capacities; limits = s.limits.items } };

    ghost invariant = { λ s. AreDeclared (record { objects = s.objects; groups = s.groups; sites = s.capacities; limits = s.limits.items }) };
}

impl<A: Allocator + Copy> Setup<A> {
    // promise: the readers answer the setup, all in range; a copy is the same
    /// Nothing declared yet. It takes no memory.
    pub fn new(alloc: A) -> Self
        ensures { result ≡ record { objects = []; groups = []; sites = []; limits = [] } }
    {
        Setup {
            objects: ObjectTable::new(alloc),
            groups: Groups::new(alloc),
            capacities: NameTable::new(alloc),
            limits: Vec::new(alloc),
        }
    }

    // promise copied refused: as Setup::new
    /// A copy of the declarations. The only refusal is `NoMemory`.
    pub fn copy(&self, alloc: A) -> Result<Self, Refusal>
        ensures copied { IfOk result (λ setup. setup ≡ self.now) }
        ensures refused { IfErr result (λ e. e ≡ Refusal.NoMemory) }
    {
        let objects = self.objects.copy(alloc)?;
        let groups = or_give_up!(Groups::copy(&self.groups, alloc), objects);
        let capacities = or_give_up!(copy_capacities(alloc, &self.capacities), objects, groups);
        let copied = copy_limits(alloc, self.limits.as_slice());
        let limits = or_give_up!(copied, objects, groups, capacities);
        Ok(Setup {
            objects,
            groups,
            capacities,
            limits,
        })
    }

    /// The declarations of a successor: the same objects, each beginning at its value among these; the same groups and sites; and
    /// the last limits of these tables, one for each site, in force from the start. The only refusal is `NoMemory`.
    pub(crate) fn successor_with(
        &self,
        alloc: A,
        values: &Values<A>,
        tables: &[LimitTable<A>],
    ) -> Result<Self, Refusal>
        requires values { length values.now ≡ length self.now.objects }
        requires count { length tables.now ≡ length self.now.sites }
        requires known { All (AreEntriesKnown (length self.now.objects) self.now.groups) tables.now }
        ensures objects { IfOk result (λ successor. names_of successor.objects ≡ names_of self.now.objects) }
        ensures values { IfOk result (λ successor. initial_state successor.objects ≡ values.now) }
        ensures groups { IfOk result (λ successor. successor.groups ≡ self.now.groups) }
        ensures sites { IfOk result (λ successor. successor.sites ≡ self.now.sites) }
        ensures limits { IfOk result (λ successor. successor.limits ≡ limits_from_start tables.now) }
        ensures refused { IfErr result (λ e. e ≡ Refusal.NoMemory) }
    {
        let objects = self.objects.copy_with(alloc, values)?;
        let groups = or_give_up!(self.groups.copy(alloc), objects);
        let capacities = or_give_up!(copy_capacities(alloc, &self.capacities), objects, groups);
        let limits = or_give_up!(copy_latest(alloc, tables), objects, groups, capacities);
        Ok(Setup {
            objects,
            groups,
            capacities,
            limits,
        })
    }

    // promise declared object allowed refused err: objects, groups, sites and limits are declared as given
    /// Declares an object with its initial value, which lies from -1,000,000,000 to 1,000,000,000.
    ///
    /// It is refused `BadName`, `NameTaken`, `OutOfRange` for the value, `TooMany` for a 257th object, and `NoMemory`.
    pub fn object(&mut self, name: &[u8], initial: i64) -> Result<ObjectId, Refusal>
        ensures object { IfOk result (λ object. object ≡ length self.old.objects) }
        ensures declared { IfOk result (λ _. self.new ≡ with_object self.old name.now initial) }
        ensures allowed { IfOk result (λ _. object_refusal self.old.objects name.now initial ≡ None) }
        ensures refused { IfErr result (λ e. IsRefusal (object_refusal self.old.objects name.now initial) e) }
        ensures err { IfErr result (λ _. self.new ≡ self.old) }
    {
        self.objects.declare(name, initial)
    }

    // promise declared group allowed refused err: as Setup::object
    /// Declares a group of 1 to 64 objects.
    ///
    /// It is refused `BadName`, `NameTaken`, `UnknownObject`, `TooMany` for a 33rd group or a 65th member, `Empty`, `Repeated`,
    /// and `NoMemory`.
    pub fn group(&mut self, name: &[u8], members: &[ObjectId]) -> Result<GroupId, Refusal>
        ensures group { IfOk result (λ group. group ≡ length self.old.groups) }
        ensures declared { IfOk result (λ _. self.new ≡ with_group self.old name.now members.now) }
        ensures allowed { IfOk result (λ _. group_refusal (length self.old.objects) self.old.groups name.now members.now ≡ None) }
        ensures refused { IfErr result (λ e. IsRefusal (group_refusal (length self.old.objects) self.old.groups name.now members.now) e) }
        ensures err { IfErr result (λ _. self.new ≡ self.old) }
    {
        self.groups.declare(&self.objects, name, members)
    }

    // promise declared site allowed refused err: as Setup::object
    /// Declares a site with the capacity of its feed, 1 to 1,024 updates.
    ///
    /// It is refused `BadName`, `NameTaken`, `OutOfRange` for the capacity, `TooMany` for a 17th site, and `NoMemory`.
    pub fn site(&mut self, name: &[u8], capacity: u64) -> Result<SiteId, Refusal>
        ensures site { IfOk result (λ site. site ≡ length self.old.sites) }
        ensures declared { IfOk result (λ _. self.new ≡ with_site self.old name.now capacity) }
        ensures allowed { IfOk result (λ _. site_refusal self.old.sites name.now capacity ≡ None) }
        ensures refused { IfErr result (λ e. IsRefusal (site_refusal self.old.sites name.now capacity) e) }
        ensures err { IfErr result (λ _. self.new ≡ self.old) }
    {
        let name = self.check_site(name, capacity)?;
        let index = self.sites();
        let alloc = *self.limits.allocator();
        self.limits.reserve(1)?;
        self.capacities.push(name, capacity)?;
        self.limits.push_reserved(LimitTable::new(alloc));
        Ok(SiteId::new(index as u8))
    }

    /// The name of a site that may be declared. Any other is refused for the first reason that applies.
    fn check_site(&self, name: &[u8], capacity: u64) -> Result<Name, Refusal>
        ensures name { IfOk result (λ n. n ≡ name.now) }
        ensures allowed { IfOk result (λ _. site_refusal self.now.sites name.now capacity ≡ None) }
        ensures refused { IfErr result (λ e. site_refusal self.now.sites name.now capacity ≡ Some e) }
    {
        let name = Name::new(name)?;
        match self.refusal_of_site(&name, capacity) {
            Some(refusal) => Err(refusal),
            None => Ok(name),
        }
    }

    /// Why a site of this name is refused, if it is.
    fn refusal_of_site(&self, name: &Name, capacity: u64) -> Option<Refusal>
        ensures { result ≡ site_refusal self.now.sites name.now capacity }
    {
        if self.capacities.find(name.as_bytes()).is_some() {
            Some(Refusal::NameTaken)
        } else if !is_capacity(capacity) {
            Some(Refusal::OutOfRange)
        } else if self.sites() == MOST_SITES {
            Some(Refusal::TooMany)
        } else {
            None
        }
    }

    // promise declared allowed refused err: as Setup::object
    /// Declares a limit of a site, whose amount lies from 0 to 10^18.
    ///
    /// It is refused `UnknownObject`, `UnknownGroup`, `UnknownSite`, `OutOfRange` for the amount, `TooMany` for a 65th limit of
    /// the site, `Repeated` where the site has a limit on the scope, and `NoMemory`.
    pub fn limit(&mut self, site: SiteId, scope: Scope, amount: u64) -> Result<(), Refusal>
        ensures declared { OnOk result (self.new ≡ with_limit self.old site scope amount) }
        ensures allowed { OnOk result (site_limit_refusal self.old site scope amount ≡ None) }
        ensures refused { IfErr result (λ e. IsRefusal (site_limit_refusal self.old site scope amount) e) }
        ensures err { IfErr result (λ _. self.new ≡ self.old) }
    {
        // The prover joins branches over a borrowed scope, not over a copied one.
        let scope = &scope;
        check_scope(&self.objects, &self.groups, *scope)?;
        if site.index() >= self.sites() {
            return Err(Refusal::UnknownSite);
        }
        self.limits[site.index()].add(&self.objects, &self.groups, *scope, amount)
    }

    /// What each setup keeps, for the proofs of its users. It does nothing.
    #[inline(always)]
    pub fn keeps(&self)
        ensures { AreDeclared self.now }
    {
        let _ = &self.objects;
    }

    // promise: as Setup::new
    /// Whether a store can start: whether there is at least one object and one site.
    pub fn is_ready(&self) -> bool
        ensures { result ≡ is_ready self.now }
    {
        self.objects.len() > 0 && self.sites() > 0
    }

    // promise: as Setup::new
    /// The objects.
    pub fn objects(&self) -> &ObjectTable<A>
        ensures { result.now ≡ self.now.objects }
    {
        &self.objects
    }

    // promise groups members: as Setup::new
    /// The groups.
    pub fn groups(&self) -> &Groups<A>
        ensures groups { result.now ≡ self.now.groups }
        ensures members { AreGroupsKnown (length self.now.objects) self.now.groups }
    {
        &self.groups
    }

    // promise: as Setup::new
    /// How many sites there are, at most 16.
    pub fn sites(&self) -> usize
        ensures sites { result ≡ length self.now.sites }
        ensures few { length self.now.sites ≤ most_sites }
        ensures limits { length self.now.limits ≡ length self.now.sites }
        // What each setup keeps, for the proofs of its users.
        ensures names { AreNames self.now.sites }
        ensures distinct { AreDistinct self.now.sites }
    {
        self.capacities.len()
    }

    // promise: as Setup::new
    /// The site of this name, if there is one.
    pub fn find_site(&self, name: &[u8]) -> Option<SiteId>
        ensures index { option_map (λ s. s) result ≡ index_of name.now self.now.sites }
        ensures within { IfSome result (λ s. s < length self.now.sites) }
    {
        match self.capacities.find(name) {
            Some(index) => Some(SiteId::new(index as u8)),
            None => None,
        }
    }

    // promise: as Setup::new
    /// The name of a site.
    pub fn site_name(&self, site: SiteId) -> &Name
        requires { site < length self.now.sites }
        ensures { option_map (λ e. e.0) (slice_get self.now.sites site) ≡ Some result.now }
    {
        self.capacities.at(site.index()).0
    }

    // promise capacity some few: as Setup::new
    /// How many updates the feed of a site holds at most, as it was declared.
    pub fn capacity(&self, site: SiteId) -> u64
        requires { site < length self.now.sites }
        ensures capacity { result ≡ capacity_of self.now site }
        ensures some { 1 ≤ result }
        ensures few { result ≤ greatest_capacity }
    {
        *self.capacities.at(site.index()).1
    }

    // promise limits first known: as Setup::new
    /// The limits of a site, which hold from the start.
    pub fn limits(&self, site: SiteId) -> &LimitTable<A>
        requires { site < length self.now.sites }
        ensures limits { result.now ≡ limits_of self.now site }
        ensures first { HoldFrom 1 result.now }
        ensures known { AreEntriesKnown (length self.now.objects) self.now.groups result.now }
    {
        &self.limits[site.index()]
    }

    // promise: `is_same` compares all declarations
    /// Whether both declare the same: the objects, the groups, and the sites with their capacities and limits.
    pub fn is_same(&self, other: &Setup<A>) -> bool
        ensures { IsTrue result ↔ (self.now ≡ other.now) }
    {
        if !self.objects.is_same(&other.objects) {
            return false;
        }
        if !self.groups.is_same(&other.groups) {
            return false;
        }
        if !self.capacities.is_same(&other.capacities) {
            return false;
        }
        are_same_limits(self.limits.as_slice(), other.limits.as_slice())
    }

    /// Drops it, by one call, and gives its memory back.
    pub fn discard(self) {
        drop(self);
    }
}

/// Whether a feed may have this capacity.
fn is_capacity(capacity: u64) -> bool
    ensures { result ≡ not (capacity == 0 || nat_lt greatest_capacity capacity) }
{
    capacity > 0 && capacity <= GREATEST_CAPACITY
}

/// A copy of the names of sites, with the capacities of their feeds.
fn copy_capacities<A: Allocator + Copy>(
    alloc: A,
    capacities: &NameTable<u64, A>,
) -> Result<NameTable<u64, A>, AllocError>
    ensures { IfOk result (λ copied. copied ≡ capacities.now) }
{
    let mut copied = NameTable::new(alloc);
    or_give_up!(add_capacities(&mut copied, capacities), copied);
    Ok(copied)
}

/// Adds the names of sites, with the capacities of their feeds, to a table without names.
fn add_capacities<A: Allocator + Copy>(
    copied: &mut NameTable<u64, A>,
    capacities: &NameTable<u64, A>,
) -> Result<(), AllocError>
    requires { copied.old ≡ [] }
    ensures { IfOk result (λ _. copied.new ≡ capacities.now) }
{
    for index in 0..capacities.len() {
        let (name, capacity) = capacities.at(index);
        copied.push(*name, *capacity)?;
    }
    Ok(())
}

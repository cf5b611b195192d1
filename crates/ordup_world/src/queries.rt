ghost use Rattle.std.specs.Prelude.{◌≡◌, ℕ, ◌+◌, ◌<◌, ◌≤◌, None, Some, List, [], cond, length, option_map, slice_index_or, IfOk, IfErr, IfSome, IfNone, OnErr, IsSome, is_some};
ghost use Rattle.ordup_site.specs.Sites.{SiteState};
ghost use Rattle.ordup_query.specs.Sizes.{greatest_import_limit};
ghost use Rattle.ordup_world.specs.Events.{is_same};
ghost use Rattle.ordup_world.specs.Worlds.{find_query};
ghost use Rattle.ordup_world.specs.OpenQueries.{refusal_of, IsRead, IsBegun, IsOpenAt};

use crate::event::Answer;
use crate::sizes::MOST_QUERIES;
use crate::store::Store;
use indexmap::IndexMap;
use ordup_objects::{Hints, Name, NameBytes, ObjectId, Refusal, SiteId};
use ordup_primary::Primary;
use ordup_query::sizes::GREATEST_IMPORT_LIMIT;
use ordup_query::{Query, ReadAnswer};
use ordup_site::Site;
use std::alloc::{AllocError, Allocator, Global};
use std::hash::{BuildHasherDefault, FoldHasher};
use std::marker::Model;

/// A query that began at a site and has not ended.
#[derive(Drop)]
pub(crate) struct OpenQuery<A: Allocator + Copy = Global> {
    pub(crate) site: SiteId,
    pub(crate) query: Query<A>,
}

impl<A: Allocator + Copy> Model for OpenQuery<A> {
    ghost use Rattle.ordup_world.specs.Worlds.{OpenState};

    ghost Value = { OpenState };

    ghost view = { λ o. record { site = o.site; query = o.query } };
}

impl<A: Allocator + Copy> OpenQuery<A> {
    ghost use Rattle.ordup_site.specs.Sites.{SiteState};
    ghost use Rattle.ordup_query.specs.Queries.{refusal_at};
    ghost use Rattle.ordup_world.specs.OpenQueries.{site_at, with_answer, IsAnswered};

    /// Reads an object at the site of the query.
    fn read(&mut self, sites: &[Site<A>], object: ObjectId) -> Result<ReadAnswer, Refusal>
        requires site { self.old.site < length sites.now }
        requires marked { object < length self.old.query.marks }
        requires known { (s : ℕ) (d : SiteState) → s < length sites.now → object < length (slice_index_or sites.now s d).values }
        ensures ok { IfOk result (λ a. IsAnswered self.old (site_at sites.now self.old.site) object a) }
        ensures query { IfOk result (λ a. self.new ≡ with_answer self.old a) }
        ensures refused { IfErr result (λ e. refusal_at self.old.query (site_at sites.now self.old.site) object ≡ Some e) }
        ensures err { OnErr result (self.new ≡ self.old) }
    {
        self.query.read(&sites[self.site.index()], object)
    }
}

/// The open queries by their names.
#[derive(Drop)]
pub(crate) struct OpenQueries<A: Allocator + Copy = Global> {
    entries: IndexMap<Name, OpenQuery<A>, BuildHasherDefault<FoldHasher>, A>,
    hints: Hints,
}

impl<A: Allocator + Copy> Model for OpenQueries<A> {
    ghost use Rattle.ordup_world.specs.Worlds.{Queries};

    ghost Value = { Queries };

    ghost view = { λ q. q.entries.entries };
}

impl<A: Allocator + Copy> OpenQueries<A> {
    ghost use Rattle.ordup_world.specs.Worlds.{StoreState, IsSound, with_queries};
    ghost use Rattle.ordup_world.specs.StoreInside.{state_of};
    ghost use Rattle.ordup_world.specs.Steps.{StepsWorld};
    ghost use Rattle.ordup_world.specs.declared.event.Event.{Event};

    /// No open query.
    pub(crate) fn new(alloc: A) -> Self
        ensures { result ≡ [] }
    {
        OpenQueries {
            entries: IndexMap::new(alloc),
            hints: Hints::new(),
        }
    }

    /// A query begins at the site, with what is acknowledged now as its reference.
    #[inline(always)]
    pub(crate) fn begin(
        &mut self,
        store: &Store<A>,
        name: Name,
        site: SiteId,
        limit: u64,
    ) -> Answer<A>
        requires { IsSound (with_queries (state_of store.now) self.old) }
        ensures { StepsWorld (with_queries (state_of store.now) self.old) (Event.Begin name site limit) result (with_queries (state_of store.now) self.new) }
    {
        if site.index() >= store.sites.len() {
            return Answer::Refused(Refusal::UnknownSite);
        }
        if limit > GREATEST_IMPORT_LIMIT {
            return Answer::Refused(Refusal::OutOfRange);
        }
        if self.len() == MOST_QUERIES {
            return Answer::Refused(Refusal::TooMany);
        }
        if self.contains(name) {
            return Answer::Refused(Refusal::QueryOpen);
        }
        let Ok(open) = open(&store.primary, site, limit) else {
            return Answer::Refused(Refusal::NoMemory);
        };
        let Ok(()) = self.insert(name, open) else {
            return Answer::Refused(Refusal::NoMemory);
        };
        Answer::Begun {
            query: name,
            place: store.primary.acked(),
        }
    }

    /// The query reads an object at its site.
    #[inline(always)]
    pub(crate) fn read(&mut self, store: &Store<A>, name: &[u8], object: ObjectId) -> Answer<A>
        requires { IsSound (with_queries (state_of store.now) self.old) }
        ensures { StepsWorld (with_queries (state_of store.now) self.old) (Event.Read name.now object) result (with_queries (state_of store.now) self.new) }
    {
        if object.index() >= store.primary.setup().objects().len() {
            return Answer::Refused(Refusal::UnknownObject);
        }
        match self.read_at(name, store.sites.as_slice(), object) {
            Ok(answer) => Answer::ReadOut(answer),
            Err(refusal) => Answer::Refused(refusal),
        }
    }

    /// The query ends. Its answer is what its reads added up to.
    #[inline(always)]
    pub(crate) fn end(&mut self, name: Name) -> Answer<A>
        ensures { (store : StoreState) → IsSound (with_queries store self.old) → StepsWorld (with_queries store self.old) (Event.End name) result (with_queries store self.new) }
    {
        match self.remove(name) {
            Some(open) => Answer::Ended(open.query.end()),
            None => Answer::Refused(Refusal::UnknownQuery),
        }
    }

    /// The query ends without an answer.
    #[inline(always)]
    pub(crate) fn abandon(&mut self, name: Name) -> Answer<A>
        ensures { (store : StoreState) → IsSound (with_queries store self.old) → StepsWorld (with_queries store self.old) (Event.Abandon name) result (with_queries store self.new) }
    {
        match self.remove(name) {
            Some(_open) => Answer::Abandoned(name),
            None => Answer::Refused(Refusal::UnknownQuery),
        }
    }

    /// How many queries are open.
    fn len(&self) -> usize
        ensures { result ≡ length self.now }
    {
        self.entries.len()
    }

    /// Whether a query of this name is open.
    fn contains(&self, name: Name) -> bool
        ensures { result ≡ is_some (find_query name self.now) }
    {
        self.index_of(name.as_bytes()).is_some()
    }

    /// The index of the open query of this name, if there is one.
    // The guess is tried before the name is hashed.
    fn index_of(&self, name: &[u8]) -> Option<usize>
        ensures at { IfSome result (λ i. IsOpenAt self.now name.now i) }
        ensures none { IfNone result (find_query name.now self.now ≡ None) }
    {
        let guess = self.hints.guess(name);
        if let Some((key, _)) = self.entries.get_index(guess) {
            if key.is_spelled(name) {
                return Some(guess);
            }
        }
        self.index_by_hash(name)
    }

    /// The index of the open query of this name, if there is one, by its hash.
    // Not inlined, so that what calls `index_of` stays small.
    #[inline(never)]
    fn index_by_hash(&self, name: &[u8]) -> Option<usize>
        ensures at { IfSome result (λ i. IsOpenAt self.now name.now i) }
        ensures none { IfNone result (find_query name.now self.now ≡ None) }
    {
        self.entries.get_index_of(NameBytes { bytes: name })
    }

    /// A query begins, whose name is that of no open query.
    fn insert(&mut self, name: Name, query: OpenQuery<A>) -> Result<(), AllocError>
        requires { find_query name self.old ≡ None }
        ensures found { IfOk result (λ _. (q : List ℕ) → find_query q self.new ≡ cond (is_same name q) (Some query) (find_query q self.old)) }
        ensures len { IfOk result (λ _. length self.new ≡ length self.old + 1) }
        ensures err { OnErr result (self.new ≡ self.old) }
    {
        let index = self.entries.len();
        self.entries.insert(name, query)?;
        self.hints.note(name.as_bytes(), index);
        Ok(())
    }

    /// The query of this name reads an object at its site.
    #[inline(always)]
    fn read_at(
        &mut self,
        name: &[u8],
        sites: &[Site<A>],
        object: ObjectId,
    ) -> Result<ReadAnswer, Refusal>
        requires site { IfSome (find_query name.now self.old) (λ o. o.site < length sites.now) }
        requires marked { IfSome (find_query name.now self.old) (λ o. object < length o.query.marks) }
        requires known { (s : ℕ) (d : SiteState) → s < length sites.now → object < length (slice_index_or sites.now s d).values }
        ensures ok { IfOk result (λ a. IsRead self.old self.new name.now sites.now object a) }
        ensures refused { IfErr result (λ e. refusal_of (find_query name.now self.old) sites.now object ≡ Some e) }
        ensures err { OnErr result (self.new ≡ self.old) }
    {
        match self.index_of(name) {
            Some(index) => self
                .entries
                .get_index_mut(index)
                .unwrap()
                .read(sites, object),
            None => Err(Refusal::UnknownQuery),
        }
    }

    /// The open query of this name ends.
    fn remove(&mut self, name: Name) -> Option<OpenQuery<A>>
        ensures query { result ≡ find_query name self.old }
        ensures found { (q : List ℕ) → find_query q self.new ≡ cond (is_same name q) None (find_query q self.old) }
        ensures len { IsSome result → length self.new + 1 ≡ length self.old }
        ensures none { result ≡ None → self.new ≡ self.old }
    {
        let index = self.index_of(name.as_bytes())?;
        let (_, open) = self.entries.swap_remove_index(index).unwrap();
        // The last query stands at this index now.
        if let Some((moved, _)) = self.entries.get_index(index) {
            self.hints.note(moved.as_bytes(), index);
        }
        Some(open)
    }
}

/// A query that begins at a site now: its reference is what is acknowledged.
fn open<A: Allocator + Copy>(
    primary: &Primary<A>,
    site: SiteId,
    limit: u64,
) -> Result<OpenQuery<A>, Refusal>
    requires { limit ≤ greatest_import_limit }
    ensures begun { IfOk result (λ o. IsBegun primary.now site limit o) }
    ensures refused { IfErr result (λ e. e ≡ Refusal.NoMemory) }
{
    let marks = primary.marks()?;
    let query = Query::begin(primary.acked(), marks, limit)?;
    Ok(OpenQuery { site, query })
}

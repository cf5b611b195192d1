ghost use Rattle.std.specs.Prelude.{◌≡◌, None, [], IfOk, IfErr};
ghost use Rattle.ordup_objects.specs.Refusals.{IsRefusal};
ghost use Rattle.ordup_primary.specs.Declarations.{start_refusal};

use crate::event::{Answer, Event};
use crate::queries::OpenQueries;
use crate::store::Store;
use ordup_objects::{ObjectId, Refusal};
use ordup_primary::{Primary, Setup};
use std::alloc::{Allocator, Global};
use std::marker::Model;

/// A running store: its primary, its sites and its open queries. It moves by `step` and `read` alone, and waits for nobody.
#[derive(Drop)]
pub struct World<A: Allocator + Copy = Global> {
    store: Store<A>,
    queries: OpenQueries<A>,
}

impl<A: Allocator + Copy> Model for World<A> {
    ghost use Rattle.ordup_world.specs.Worlds.{WorldState, IsSound, with_queries};
    ghost use Rattle.ordup_world.specs.StoreInside.{state_of};

    ghost Value = { WorldState };

    ghost view = { λ w. with_queries (state_of w.store) w.queries };

    ghost invariant = { λ w. IsSound (with_queries (state_of w.store) w.queries) };
}

impl<A: Allocator + Copy> World<A> {
    ghost use Rattle.ordup_world.specs.Worlds.{StandsFor, IsSound, KeepsLimits};
    ghost use Rattle.ordup_world.specs.Steps.{StepsWorld, TakesEvent};
    ghost use Rattle.ordup_world.specs.declared.event.Event.{Event};
    ghost use Rattle.ordup_primary.specs.Primaries.{HasFewestRounds};

    // promise setup state sound limits fewest allowed refused: a store starts exactly with an object and a site, and stands for no event
    // promise sound: each site holds the serial result of a prefix, with `reported <= applied <= sent <= len` and a feed within capacity;
    // queries have their marks, and totals within limits
    // promise limits: acknowledged updates that a site has not applied keep its limits; no wrong body: the world acknowledges by
    // `Primary::settle` alone
    // promise fewest: each site has the fewest rounds at each place after each event, as its windows show; no wrong body: the world decides
    // by `Primary::settle` alone
    /// A started store, in which nothing has happened.
    ///
    /// It is refused `Empty` where the setup lacks an object or a site, and `NoMemory`.
    pub fn start(alloc: A, setup: Setup<A>) -> Result<Self, Refusal>
        ensures setup { IfOk result (λ world. world.primary.setup ≡ setup) }
        ensures state { IfOk result (λ world. StandsFor {A = A} setup world []) }
        ensures sound { IfOk result (λ world. IsSound world) }
        ensures limits { IfOk result (λ world. KeepsLimits world) }
        ensures fewest { IfOk result (λ world. HasFewestRounds world.primary) }
        ensures allowed { IfOk result (λ _. start_refusal setup ≡ None) }
        ensures refused { IfErr result (λ e. IsRefusal (start_refusal setup) e) }
    {
        if !setup.is_ready() {
            setup.discard();
            return Err(Refusal::Empty);
        }
        let store = Store::start(alloc, setup)?;
        Ok(World {
            store,
            queries: OpenQueries::new(alloc),
        })
    }

    // promise answer state setup: a world answers the next event as the model, or an allowed `NoMemory`, and then stands for all accepted
    // promise refused: a refused event changes nothing
    // promise sound: as World::start sound
    // promise limits: as World::start limits
    // promise imports: as run imports
    // promise fewest: as World::start fewest
    /// Takes one event and answers it. A refused event leaves everything as it was.
    // Inlined, and with it each step: a caller that knows the event moves neither it nor its answer.
    #[inline(always)]
    pub fn step(&mut self, event: Event<A>) -> Answer<A>
        ensures { TakesEvent self.old event result self.new }
    {
        self.take(event)
    }

    // promise answer state setup: as World::step answer
    // promise refused: as World::step refused
    // promise sound: as World::start sound
    // promise limits: as World::start limits
    // promise imports: as run imports
    // promise fewest: as World::start fewest
    /// Takes a read by the open query of this name, and answers it as `step` does. Bytes that spell no name are that of no query.
    // So a caller that has bytes need not make a name of them first.
    #[inline(always)]
    pub fn read(&mut self, query: &[u8], object: ObjectId) -> Answer<A>
        ensures { TakesEvent self.old (Event.Read query.now object) result self.new }
    {
        self.take_read(query, object)
    }

    /// Takes a read by the open query of this name, and answers it.
    #[inline(always)]
    fn take_read(&mut self, query: &[u8], object: ObjectId) -> Answer<A>
        ensures { StepsWorld self.old (Event.Read query.now object) result self.new }
    {
        self.queries.read(&self.store, query, object)
    }

    /// Takes one event and answers it.
    #[inline(always)]
    fn take(&mut self, event: Event<A>) -> Answer<A>
        ensures { StepsWorld self.old event result self.new }
    {
        match event {
            Event::Propose(set) => self.store.propose(set),
            Event::Send(site) => self.store.send(site),
            Event::Apply(site) => self.store.apply(site),
            Event::Report(site) => self.store.report(site),
            Event::Settle => self.store.settle(),
            Event::Relimit {
                site,
                scope,
                amount,
            } => self.store.relimit(site, &scope, amount),
            Event::Begin { query, site, limit } => self
                .queries
                .begin(&self.store, query, site, limit),
            Event::Read { query, object } => {
                self.queries.read(&self.store, query.as_bytes(), object)
            }
            Event::End(query) => self.queries.end(query),
            Event::Abandon(query) => self.queries.abandon(query),
            Event::Show(site) => self.store.show(site),
        }
    }

    // promise primary: the primary that a world lends is its own; no wrong body: a world has one primary
    // promise sound: as World::start sound
    // promise limits: as World::start limits
    // promise fewest: as World::start fewest
    /// The primary, with what was declared, the log, and what it knows of the sites.
    pub fn primary(&self) -> &Primary<A>
        ensures primary { result.now ≡ self.now.primary }
        ensures sound { IsSound self.now }
        ensures limits { KeepsLimits self.now }
        ensures fewest { HasFewestRounds self.now.primary }
    {
        &self.store.primary
    }

    /// Drops it, by one call, and gives its memory back.
    pub fn discard(self) {
        let World { store, queries } = self;
        store.discard();
        drop(queries);
    }
}

ghost use Rattle.std.specs.Prelude.{◌≡◌, true, [], length, replicate, IfOk, IfErr};
ghost use Rattle.ordup_primary.specs.Declarations.{is_ready};
ghost use Rattle.ordup_world.specs.Worlds.{first_site};

use crate::event::Answer;
use ordup_limits::{Scope, check_scope};
use ordup_objects::{MessageSet, Refusal, SiteId, or_give_up};
use ordup_primary::{Primary, Setup};
use ordup_site::Site;
use std::alloc::{Allocator, Global};

/// The primary and its sites, in order of declaration: a world without its queries.
#[derive(Drop)]
pub(crate) struct Store<A: Allocator + Copy = Global> {
    pub(crate) primary: Primary<A>,
    pub(crate) sites: Vec<Site<A>, A>,
}

impl<A: Allocator + Copy> Store<A> {
    ghost use Rattle.ordup_world.specs.Worlds.{IsStoreAfter, IsStore};
    ghost use Rattle.ordup_world.specs.StoreInside.{state_of};
    ghost use Rattle.ordup_world.specs.Steps.{StepsStore};
    ghost use Rattle.ordup_world.specs.declared.event.Event.{Event};

    /// The primary and the sites at the start, where an object and a site are declared.
    pub(crate) fn start(alloc: A, setup: Setup<A>) -> Result<Self, Refusal>
        requires { is_ready setup ≡ true }
        ensures state { IfOk result (λ store. IsStoreAfter {A = A} setup (state_of store) []) }
        ensures sound { IfOk result (λ store. IsStore (state_of store)) }
        ensures refused { IfErr result (λ e. e ≡ Refusal.NoMemory) }
    {
        let primary = Primary::new(alloc, setup)?;
        let sites = or_give_up!(first_sites(alloc, primary.setup()), primary.discard());
        Ok(Store { primary, sites })
    }

    /// Drops it, by one call, and gives its memory back.
    pub(crate) fn discard(self) {
        let Store { primary, sites } = self;
        primary.discard();
        drop(sites);
    }

    /// The primary numbers a message set as the next update.
    #[inline(always)]
    pub(crate) fn propose(&mut self, set: MessageSet<A>) -> Answer<A>
        requires { IsStore (state_of self.old) }
        ensures { StepsStore (state_of self.old) (Event.Propose set) result (state_of self.new) }
    {
        if !set.are_known(self.primary.setup().objects().len()) {
            return Answer::Refused(Refusal::UnknownObject);
        }
        match self.primary.propose(set) {
            Ok(number) => Answer::Proposed(number),
            Err(refusal) => Answer::Refused(refusal),
        }
    }

    /// The first update that was not sent to the site goes into its feed.
    #[inline(always)]
    pub(crate) fn send(&mut self, site: SiteId) -> Answer<A>
        requires { IsStore (state_of self.old) }
        ensures { StepsStore (state_of self.old) (Event.Send site) result (state_of self.new) }
    {
        if site.index() >= self.sites.len() {
            return Answer::Refused(Refusal::UnknownSite);
        }
        let sent = self.primary.sent(site);
        if sent == self.primary.log().len() {
            return Answer::Refused(Refusal::NothingToSend);
        }
        if sent - self.sites[site.index()].applied() == self.primary.setup().capacity(site) {
            return Answer::Refused(Refusal::FeedFull);
        }
        self.primary.mark_sent(site);
        Answer::Sent {
            site,
            number: sent + 1,
        }
    }

    /// The site applies the next update of its feed.
    #[inline(always)]
    pub(crate) fn apply(&mut self, site: SiteId) -> Answer<A>
        requires { IsStore (state_of self.old) }
        ensures { StepsStore (state_of self.old) (Event.Apply site) result (state_of self.new) }
    {
        if site.index() >= self.sites.len() {
            return Answer::Refused(Refusal::UnknownSite);
        }
        let sent = self.primary.sent(site);
        let applied = self.sites[site.index()].applied();
        if applied == sent {
            return Answer::Refused(Refusal::NothingToApply);
        }
        let number = applied + 1;
        self.sites[site.index()].apply_moves(self.primary.log().moves(number));
        Answer::Applied { site, number }
    }

    /// The site reports how many updates it applied.
    #[inline(always)]
    pub(crate) fn report(&mut self, site: SiteId) -> Answer<A>
        requires { IsStore (state_of self.old) }
        ensures { StepsStore (state_of self.old) (Event.Report site) result (state_of self.new) }
    {
        if site.index() >= self.sites.len() {
            return Answer::Refused(Refusal::UnknownSite);
        }
        let place = self.sites[site.index()].applied();
        self.primary.report(site, place);
        Answer::Reported { site, place }
    }

    /// The primary settles the head.
    #[inline(always)]
    pub(crate) fn settle(&mut self) -> Answer<A>
        requires { IsStore (state_of self.old) }
        ensures { StepsStore (state_of self.old) Event.Settle result (state_of self.new) }
    {
        match self.primary.settle() {
            Ok(settled) => Answer::Settlement(settled),
            Err(refusal) => Answer::Refused(refusal),
        }
    }

    /// The limit of the site on a scope is changed from the head on, or begins there.
    #[inline(always)]
    pub(crate) fn relimit(&mut self, site: SiteId, scope: &Scope, amount: u64) -> Answer<A>
        requires { IsStore (state_of self.old) }
        ensures { StepsStore (state_of self.old) (Event.Relimit site scope.now amount) result (state_of self.new) }
    {
        let setup = self.primary.setup();
        if let Err(refusal) = check_scope(setup.objects(), setup.groups(), *scope) {
            return Answer::Refused(refusal);
        }
        if site.index() >= self.sites.len() {
            return Answer::Refused(Refusal::UnknownSite);
        }
        match self.primary.relimit(site, *scope, amount) {
            Ok(place) => Answer::Relimited { site, place },
            Err(refusal) => Answer::Refused(refusal),
        }
    }

    /// The numbers and the values of the site.
    #[inline(always)]
    pub(crate) fn show(&self, site: SiteId) -> Answer<A>
        requires { IsStore (state_of self.now) }
        ensures { StepsStore (state_of self.now) (Event.Show site) result (state_of self.now) }
    {
        if site.index() >= self.sites.len() {
            return Answer::Refused(Refusal::UnknownSite);
        }
        let replica = &self.sites[site.index()];
        match replica.values().copy(*self.sites.allocator()) {
            Ok(values) => Answer::Shown {
                sent: self.primary.sent(site),
                applied: replica.applied(),
                reported: self.primary.reported(site),
                rounds: self.primary.rounds(site).len() as u64,
                values,
            },
            Err(refusal) => Answer::Refused(refusal),
        }
    }
}

/// The sites at the start: they applied nothing.
fn first_sites<A: Allocator + Copy>(alloc: A, setup: &Setup<A>) -> Result<Vec<Site<A>, A>, Refusal>
    ensures sites { IfOk result (λ sites. sites.items ≡ replicate (length setup.now.sites) (first_site setup.now)) }
    ensures refused { IfErr result (λ e. e ≡ Refusal.NoMemory) }
{
    let mut sites = Vec::with_capacity(alloc, setup.sites())?;
    or_give_up!(add_first_sites(alloc, setup, &mut sites), sites);
    Ok(sites)
}

/// Adds the sites at the start to a list that has none.
fn add_first_sites<A: Allocator + Copy>(
    alloc: A,
    setup: &Setup<A>,
    sites: &mut Vec<Site<A>, A>,
) -> Result<(), Refusal>
    requires { sites.old.items ≡ [] }
    ensures sites { IfOk result (λ _. sites.new.items ≡ replicate (length setup.now.sites) (first_site setup.now)) }
    ensures refused { IfErr result (λ e. e ≡ Refusal.NoMemory) }
{
    for _site in 0..setup.sites() {
        let site = Site::new(alloc, setup.objects())?;
        sites.push(site)?;
    }
    Ok(())
}

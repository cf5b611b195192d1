ghost use Rattle.std.specs.Prelude.{◌≡◌, ◌≤◌, ◌<◌, ◌+◌, None, [], length, replicate, slice_set, IfOk, IfErr};
ghost use Rattle.ordup_objects.specs.Refusals.{IsRefusal};
ghost use Rattle.ordup_primary.specs.Declarations.{start_refusal};
ghost use Rattle.ordup_primary.specs.Primaries.{first_progress};

mod relimiting;
mod settling;

use crate::parcel::Parcel;
use crate::progress::Progress;
use crate::setup::Setup;
use crate::starting::begin;
use ordup_limits::{LimitTable, StoreLedger};
use ordup_log::Log;
use ordup_objects::{MessageSet, Refusal, SiteId, or_give_up};
use ordup_rounds::Window;
use std::alloc::{Allocator, Global};
use std::marker::Model;

/// The primary of a store: what is declared, the log, what it knows of each site, and how far updates are acknowledged.
///
/// Updates are acknowledged in the order of their numbers. The head is the update after the last acknowledged one.
#[derive(Drop)]
pub struct Primary<A: Allocator + Copy = Global> {
    setup: Setup<A>,
    log: Log<A>,
    acked: u64,
    decided: u64,
    sites: Vec<Progress<A>, A>,
    /// The sites that reported another number since the last decision, a bit for each.
    moved: u64,
    /// The limits of each site, which begin as those that were declared.
    limits: Vec<LimitTable<A>, A>,
    /// The weights of the updates up to the head that the sites have not reported.
    ledger: StoreLedger<A>,
}

impl<A: Allocator + Copy> Model for Primary<A> {
    ghost use Rattle.std.specs.Prelude.{map};
    ghost use Rattle.ordup_primary.specs.Primaries.{PrimaryState};
    ghost use Rattle.ordup_primary.specs.PrimaryInside.{state_of, KeepsPrimary};

    ghost Value = { PrimaryState };

    ghost view = { state_of };

    ghost invariant = { KeepsPrimary };
}

impl<A: Allocator + Copy> Primary<A> {
    ghost use Rattle.ordup_objects.specs.Serial.{serial, set_at, with_update};
    ghost use Rattle.ordup_objects.specs.Sets.{AreKnown};
    ghost use Rattle.ordup_objects.specs.Tables.{initial_state, names_of};
    ghost use Rattle.ordup_objects.specs.Marks.{AreMarks};
    ghost use Rattle.ordup_log.specs.Appending.{append_refusal};
    ghost use Rattle.ordup_limits.specs.Entries.{AreEntriesKnown};
    ghost use Rattle.ordup_primary.specs.Primaries.{IsPrimary, progress_at, limits_at, reported_at, send_refusal, HasFewestRounds};
    ghost use Rattle.ordup_primary.specs.Reports.{changes_of};
    ghost use Rattle.ordup_primary.specs.Successors.{limits_from_start, successor_refusal};

    // promise setup log numbers sites limits refused: a primary begins with an empty log and the declared limits
    // promise sound IsPrimary.lags: acknowledged updates that a site has not reported keep its limits; at most the head is decided
    // besides
    // promise sound IsPrimary.sites: rounds are the decided places that forced a site, each reported before the next decision; reports
    // never fall
    /// A primary with an empty log, to which no site has reported.
    ///
    /// The setup is ready: it has an object and a site. The only refusal is `NoMemory`.
    pub fn new(alloc: A, setup: Setup<A>) -> Result<Self, Refusal>
        requires { start_refusal setup ≡ None }
        ensures setup { IfOk result (λ p. p.setup ≡ setup) }
        ensures log { IfOk result (λ p. p.log ≡ record { start = initial_state setup.objects; sets = [] }) }
        ensures numbers { IfOk result (λ p. (p.acked ≡ 0) × (p.decided ≡ 0)) }
        ensures sites { IfOk result (λ p. p.sites ≡ replicate (length setup.sites) first_progress) }
        ensures limits { IfOk result (λ p. p.limits ≡ setup.limits) }
        ensures sound { IfOk result (λ p. IsPrimary p) }
        ensures refused { IfErr result (λ e. e ≡ Refusal.NoMemory) }
    {
        setup.keeps();
        let mut sites = Vec::new(alloc);
        let mut limits = Vec::new(alloc);
        let begun = begin(alloc, &setup, &mut sites, &mut limits);
        let (log, ledger) = or_give_up!(begun, setup, sites, limits);
        Ok(Primary {
            setup,
            log,
            acked: 0,
            decided: 0,
            sites,
            moved: 0,
            limits,
            ledger,
        })
    }

    // promise number added allowed refused err: just the given set is numbered as the next update
    // promise sound IsPrimary.lags: as Primary::new IsPrimary.lags
    // promise sound IsPrimary.sites: as Primary::new IsPrimary.sites
    /// Numbers a message set as the next update.
    ///
    /// It is refused `LogFull` after 1,000,000 updates, `OutOfRange` where a result is out of range, and `NoMemory`.
    pub fn propose(&mut self, set: MessageSet<A>) -> Result<u64, Refusal>
        requires { AreKnown (length self.old.log.start) set }
        ensures number { IfOk result (λ k. k ≡ length self.old.log.sets + 1) }
        ensures added { IfOk result (λ _. self.new ≡ record self.old { log = with_update self.old.log set }) }
        ensures allowed { IfOk result (λ _. append_refusal self.old.log set ≡ None) }
        ensures refused { IfErr result (λ e. IsRefusal (append_refusal self.old.log set) e) }
        ensures err { IfErr result (λ _. self.new ≡ self.old) }
        ensures sound { IsPrimary self.new }
    {
        let appended = self.log.append(set);
        self.keeps();
        appended
    }

    // promise number set allowed refused: the first update not yet sent to a site is copied
    /// A copy of the first update that was not sent to a site.
    ///
    /// It is refused `NothingToSend` where all were sent, and `NoMemory`.
    pub fn next_for(&self, site: SiteId) -> Result<Parcel<A>, Refusal>
        requires { site < length self.now.sites }
        ensures number { IfOk result (λ parcel. parcel.number ≡ (progress_at self.now site).sent + 1) }
        ensures set { IfOk result (λ parcel. parcel.set ≡ set_at self.now.log parcel.number) }
        ensures allowed { IfOk result (λ _. send_refusal self.now site ≡ None) }
        ensures refused { IfErr result (λ e. IsRefusal (send_refusal self.now site) e) }
    {
        let sent = self.sent(site);
        if sent == self.log.len() {
            return Err(Refusal::NothingToSend);
        }
        let number = sent + 1;
        let set = self.log.copy_set(number)?;
        Ok(Parcel { number, set })
    }

    // promise marked: one update more was sent, or a place reported; nothing else changes
    // promise sound IsPrimary.lags: as Primary::new IsPrimary.lags
    // promise sound IsPrimary.sites: as Primary::new IsPrimary.sites
    /// Notes that one update more was sent to a site.
    pub fn mark_sent(&mut self, site: SiteId)
        requires site { site < length self.old.sites }
        requires unsent { (progress_at self.old site).sent < length self.old.log.sets }
        ensures sound { IsPrimary self.new }
        ensures marked { self.new ≡ record self.old { sites = slice_set self.old.sites site (record (progress_at self.old site) { sent = (progress_at self.old site).sent + 1 }) } }
    {
        self.sites[site.index()].sent += 1;
        self.keeps();
    }

    // promise noted: as Primary::mark_sent
    // promise noted: as Primary::settle later
    // promise sound IsPrimary.lags: as Primary::new IsPrimary.lags
    // promise sound IsPrimary.sites: as Primary::new IsPrimary.sites
    /// Notes that a site reported to have applied the updates up to a place.
    pub fn report(&mut self, site: SiteId, place: u64)
        requires site { site < length self.old.sites }
        requires risen { (progress_at self.old site).reported ≤ place }
        requires sent { place ≤ (progress_at self.old site).sent }
        ensures sound { IsPrimary self.new }
        ensures noted { self.new ≡ record self.old { sites = slice_set self.old.sites site (record (progress_at self.old site) { reported = place }) } }
    {
        if place == self.reported(site) {
            return;
        }
        self.setup.keeps();
        self.moved |= 1 << site.index();
        self.sites[site.index()].reported = place;
        self.ledger
            .reported(&self.log, self.setup.groups(), site, place);
        self.keeps();
    }

    // promise: the readers answer the primary
    /// What was declared.
    pub fn setup(&self) -> &Setup<A>
        ensures { result.now ≡ self.now.setup }
    {
        &self.setup
    }

    // promise: as Primary::new setup
    /// The limits of a site, each with the place from which it holds.
    pub fn limits(&self, site: SiteId) -> &LimitTable<A>
        requires { site < length self.now.sites }
        ensures limits { result.now ≡ limits_at self.now site }
        ensures known { AreEntriesKnown (length self.now.setup.objects) self.now.setup.groups result.now }
    {
        &self.limits[site.index()]
    }

    // promise: as Primary::setup
    /// The updates in their order.
    pub fn log(&self) -> &Log<A>
        ensures { result.now ≡ self.now.log }
    {
        &self.log
    }

    // promise sound IsPrimary.lags: as Primary::new IsPrimary.lags
    // promise sound IsPrimary.sites: as Primary::new IsPrimary.sites
    // promise: as Primary::setup
    /// How many updates are acknowledged.
    pub fn acked(&self) -> u64
        ensures acked { result ≡ self.now.acked }
        ensures sound { IsPrimary self.now }
    {
        self.acked
    }

    // promise: as Primary::setup
    /// How many updates are decided: those that are acknowledged, and the head where a settlement has decided it.
    pub fn decided(&self) -> u64
        ensures { result ≡ self.now.decided }
    {
        self.decided
    }

    // promise: as Primary::setup
    /// How many updates were sent to a site.
    pub fn sent(&self, site: SiteId) -> u64
        requires { site < length self.now.sites }
        ensures { result ≡ (progress_at self.now site).sent }
    {
        self.sites[site.index()].sent
    }

    // promise: as Primary::setup
    /// How many updates a site last reported as applied.
    pub fn reported(&self, site: SiteId) -> u64
        requires { site < length self.now.sites }
        ensures { result ≡ (progress_at self.now site).reported }
    {
        self.sites[site.index()].reported
    }

    // promise: as Primary::setup
    /// What a site had reported at the decision of a decided place.
    pub fn reported_at(&self, site: SiteId, place: u64) -> u64
        requires site { site < length self.now.sites }
        requires some { 0 < place }
        requires decided { place ≤ self.now.decided }
        ensures { result ≡ reported_at (progress_at self.now site) place }
    {
        self.sites[site.index()].reports.at(place)
    }

    // promise changes decided: report changes are the decided places with a new report
    /// The decided places at which the report of the site changed, in order, each with the new number. Before the first place it is
    /// 0.
    pub fn report_changes(&self, site: SiteId) -> &[(u32, u32)]
        requires { site < length self.now.sites }
        ensures changes { result.now ≡ changes_of (progress_at self.now site).reports }
        ensures decided { length (progress_at self.now site).reports ≡ self.now.decided }
    {
        self.sites[site.index()].reports.changes()
    }

    // promise: as Primary::setup
    /// The places at which a site was forced, in order.
    pub fn rounds(&self, site: SiteId) -> &[u64]
        requires { site < length self.now.sites }
        ensures { result.now ≡ (progress_at self.now site).rounds }
    {
        self.sites[site.index()].rounds.as_slice()
    }

    // promise windows: each round has a window, from the report then to the decided place
    // promise fewest: as Primary::settle fewest
    // promise: as Primary::setup
    /// A window for each round of a site, in order: from what the site had reported at the decision to the decided place.
    ///
    /// The updates of a window pass a limit of the site alone, and no two windows share a place. So each schedule that keeps
    /// the limits has a round in each of them, and none has fewer rounds than the site.
    pub fn windows(&self, site: SiteId) -> &[Window]
        requires { site < length self.now.sites }
        ensures windows { result.now ≡ (progress_at self.now site).windows }
        ensures fewest { HasFewestRounds self.now }
    {
        self.sites[site.index()].windows.as_slice()
    }

    /// What each primary keeps, for the proofs of its users. It does nothing.
    #[inline(always)]
    pub fn keeps(&self)
        ensures sound { IsPrimary self.now }
        ensures fewest { HasFewestRounds self.now }
    {
        let _ = &self.acked;
    }

    // promise objects values groups sites limits ready allowed refused: the successor is made exactly if all is acknowledged
    /// The setup of the successor of this store, in which each site begins with all that is in the log.
    ///
    /// - The same objects, each beginning at its value after the whole log.
    /// - The same groups, and the same sites with their capacities.
    /// - Each site's last limits, all of them in force from the start.
    /// - It is ready to start.
    /// - It is refused `NotYet` with the number of the last update while one is not acknowledged, and `NoMemory`.
    pub fn successor(&self, alloc: A) -> Result<Setup<A>, Refusal>
        ensures objects { IfOk result (λ successor. names_of successor.objects ≡ names_of self.now.setup.objects) }
        ensures values { IfOk result (λ successor. initial_state successor.objects ≡ serial self.now.log (length self.now.log.sets)) }
        ensures groups { IfOk result (λ successor. successor.groups ≡ self.now.setup.groups) }
        ensures sites { IfOk result (λ successor. successor.sites ≡ self.now.setup.sites) }
        ensures limits { IfOk result (λ successor. successor.limits ≡ limits_from_start self.now.limits) }
        ensures ready { IfOk result (λ successor. start_refusal successor ≡ None) }
        ensures allowed { IfOk result (λ _. successor_refusal self.now ≡ None) }
        ensures refused { IfErr result (λ e. IsRefusal (successor_refusal self.now) e) }
    {
        let number = self.log.len();
        if self.acked != number {
            return Err(Refusal::NotYet { number });
        }
        self.keeps();
        self.setup
            .successor_with(alloc, self.log.end(), self.limits.as_slice())
    }

    // promise count marks refused: marks weigh the acknowledged updates on each object
    /// For each object, in order of declaration, how much the acknowledged updates weigh on it.
    ///
    /// A query that begins now keeps them as its reference: a read imports the weight of the updates between those that are
    /// acknowledged now and those that the site has applied then. The only refusal is `NoMemory`.
    pub fn marks(&self) -> Result<Vec<u64, A>, Refusal>
        ensures count { IfOk result (λ marks. length marks.items ≡ length self.now.log.start) }
        ensures marks { IfOk result (λ marks. AreMarks self.now.log self.now.acked marks.items) }
        ensures refused { IfErr result (λ e. e ≡ Refusal.NoMemory) }
    {
        let alloc = *self.sites.allocator();
        self.ledger
            .marks(alloc, &self.log, self.setup.groups(), self.acked)
    }

    /// Drops it, by one call, and gives its memory back.
    pub fn discard(self) {
        drop(self);
    }
}

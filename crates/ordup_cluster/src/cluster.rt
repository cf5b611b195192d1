ghost use Rattle.std.specs.Prelude.{◌≡◌, ◌<◌, ◌≤◌, ◌+◌, None, IsNone, length, max, vec_len, IfOk, OnOk, IfErr, OnErr};
ghost use Rattle.std.specs.Vec.{vec_capacity};
ghost use Rattle.ordup_objects.specs.Refusals.{IsRefusal};
ghost use Rattle.ordup_objects.specs.Sizes.{most_updates};
ghost use Rattle.ordup_primary.specs.Declarations.{start_refusal};
ghost use Rattle.ordup_log.specs.Appending.{append_refusal};
ghost use Rattle.ordup_objects.specs.Sets.{AreKnown};
ghost use Rattle.ordup_conditions.specs.Conditions.{AreConditionsKnown};
ghost use Rattle.ordup_primary.specs.Primaries.{IsPrimary};
ghost use Rattle.ordup_holds.specs.Numbering.{IsTurn, with_numbered};
ghost use Rattle.ordup_holds.specs.Opening.{AreOpened};
ghost use Rattle.ordup_cluster.specs.Clusters.{most_before, opening_refusal};
ghost use Rattle.ordup_cluster.specs.Refusals.{IsNumber, IsNumberingError, IsProposalRefusal, IsProposalError, IsNotProposed, MeetsAll, IsSettlementRefusal, IsLimitPlace, IsBookRefusal, IsLimitChangeRefusal, undeclared_refusal, request_refusal};

use crate::bell::{Bell, Bells};
use crate::book_turns::BookTurns;
use crate::progress::Progress;
use crate::reserved::{Reserved, locked};
use crate::session::Session;
use crossbeam_utils::sync::EventCount;
use ordup_conditions::{Condition, check_conditions};
use ordup_holds::{
    Book, Numbered, ProposalError, SiteCell, number_if_and_turn, open, relimit, until,
    until_acknowledged,
};
use ordup_limits::check_scope;
use ordup_log::Scope;
use ordup_objects::{MessageSet, ObjectTable, Refusal, SiteId, or_give_up};
use ordup_primary::Setup;
use ordup_site::Site;
use std::alloc::Global;
use std::marker::Model;
use std::sync::atomic::{AtomicBool, AtomicU64, Ordering};
use std::sync::{Mutex, Wait};

/// The most updates that may come before a store: at a million a second they last for 30,000 years.
pub const MOST_BEFORE: u64 = 1_000_000_000_000_000_000;

/// A store that threads share. The numbers of updates, what sites have applied and what sessions have seen count from the updates that
/// came before it, as a log has a first index.
///
/// The book of the primary lies under one lock, and the cell of each site under one of its own. No lock is taken while another is
/// held. Each site has an applier in a thread of its own, and callers have sessions.
#[derive(Drop)]
pub struct Cluster {
    /// How many updates came before it.
    pub(crate) before: u64,
    pub(crate) book: Mutex<Book>,
    pub(crate) cells: Vec<Mutex<SiteCell>>,
    /// A copy of what was declared, so that no lock is taken to look at it.
    pub(crate) setup: Setup,
    /// Empty, with a place for the site of each cell.
    pub(crate) spare_sites: Vec<Site>,
    pub(crate) stopped: AtomicBool,
    /// How many updates the log has.
    pub(crate) numbered: AtomicU64,
    /// How many it has when its keeper ends.
    pub(crate) due: AtomicU64,
    /// How many updates are acknowledged, without those before it.
    pub(crate) acked: AtomicU64,
    /// Appliers sleep on it. It is told after each hold of the book that sent something.
    pub(crate) sent: EventCount,
    /// Whoever waits for a site sleeps on it. It rings after each update that a site applied.
    pub(crate) told: Bell,
    /// Whoever waits until an update is the head sleeps on the bell of its number.
    pub(crate) heads: Bells,
}

impl Model for Cluster {
    ghost use Rattle.ordup_cluster.specs.Clusters.{ClusterState};

    ghost Value = { ClusterState };

    ghost view = { λ c. record { before = c.before; start = c.setup } };

    ghost use Rattle.ordup_cluster.specs.ClusterInside.{KeepsCluster};

    ghost invariant = { KeepsCluster };
}

impl Cluster {
    // waits: none | never
    // promise cluster allowed refused: a cluster begins as declared, after so many updates, at most 10^18
    /// Opens a store before which no updates came. It is refused `Empty` where the setup lacks an object or a site, and else `NoMemory`
    /// alone.
    pub fn new(alloc: Global, setup: Setup) -> Result<Cluster, Refusal>
        ensures cluster { IfOk result (λ c. c ≡ record { before = 0; start = setup }) }
        ensures allowed { IfOk result (λ _. start_refusal setup ≡ None) }
        ensures refused { IfErr result (λ e. IsRefusal (start_refusal setup) e) }
    {
        Cluster::after(alloc, 0, setup)
    }

    // waits: as Cluster::new
    // promise cluster allowed refused: as Cluster::new
    /// Opens a store in which nothing has happened, and before which this many updates came, from 0 to 10^18. It takes the memory that
    /// `close` needs, and waits for nobody.
    ///
    /// - The store has what was declared.
    /// - It is opened only where there is an object and a site.
    /// - It is refused `LogFull` after more than 10^18 updates, `Empty` where the setup lacks an object or a site, and else `NoMemory`
    ///   alone.
    pub fn after(alloc: Global, before: u64, setup: Setup) -> Result<Cluster, Refusal>
        ensures cluster { IfOk result (λ c. c ≡ record { before = before; start = setup }) }
        ensures allowed { IfOk result (λ _. opening_refusal before setup ≡ None) }
        ensures refused { IfErr result (λ e. IsRefusal (opening_refusal before setup) e) }
    {
        if before > MOST_BEFORE {
            setup.discard();
            return Err(Refusal::LogFull);
        }
        let (book, cells) = open(alloc, setup)?;
        let reserved = or_give_up!(Reserved::new(alloc, &book, cells.len()), book, cells);
        Ok(Cluster::under_locks(before, book, cells, reserved))
    }

    /// The store of a book and of the cells of its sites, each of them under a lock of its own. Book and cells are those of the
    /// declarations, and nothing has happened in them.
    fn under_locks(before: u64, book: Book, cells: Vec<SiteCell>, reserved: Reserved) -> Cluster
        requires before { before ≤ most_before }
        requires opened { AreOpened reserved.setup book cells.items }
        requires some { 0 < length cells.items }
        requires locks { (vec_len reserved.locks ≡ 0) × (length cells.items ≤ vec_capacity reserved.locks) }
        requires sites { (vec_len reserved.sites ≡ 0) × (length cells.items ≤ vec_capacity reserved.sites) }
        ensures { result ≡ record { before = before; start = reserved.setup } }
    {
        let Reserved {
            setup,
            locks,
            sites,
        } = reserved;
        Cluster {
            before,
            book: Mutex::new(book),
            cells: locked(cells, locks),
            setup,
            spare_sites: sites,
            stopped: AtomicBool::new(false),
            numbered: AtomicU64::new(0),
            due: AtomicU64::new(u64::MAX),
            acked: AtomicU64::new(0),
            sent: EventCount::new(),
            told: Bell::new(),
            heads: Bells::new(),
        }
    }

    // waits: as Cluster::new
    // promise before bounded: as Cluster::new
    /// How many updates came before it, from 0 to 10^18. They are acknowledged, and each site has applied them.
    pub fn before(&self) -> u64
        ensures before { result ≡ self.now.before }
        ensures bounded { result ≤ most_before }
    {
        self.before
    }

    // waits: as Cluster::new
    /// How many updates it has, without those that came before. Once no proposal is being made, that is the length of its log.
    pub fn numbered(&self) -> u64 {
        self.numbered.load(Ordering::SeqCst)
    }

    // waits: as Cluster::new
    // promise: as Cluster::new
    /// The objects as they were declared, of which callers make their message sets. It takes no lock.
    pub fn objects(&self) -> &ObjectTable
        ensures { result.now ≡ self.now.start.objects }
    {
        self.setup.objects()
    }

    // waits: as Cluster::new
    // promise: as Cluster::new
    /// How many sites there are.
    pub fn sites(&self) -> usize
        ensures { result ≡ length self.now.start.sites }
    {
        self.cells.len()
    }

    // waits: of the book, once for each turn; the first turn is made in the hold that numbers the update. Once if it is refused, also
    // after `stop` | until the update is acknowledged, at most `turns` turns, with a pause before each but the first
    // promise seen some refused err: a success raises what the session has seen, a refusal leaves it; refusals come in no proved order
    /// Numbers a message set as the next update, and waits until it is acknowledged, for at most `turns` turns of the book, which
    /// are 1 or more. The first turn is made in the hold that numbers the update.
    ///
    /// - The session has seen the update, and no less than before.
    /// - The answer is the number of the update, one of the 1,000,000 after those that came before the store.
    /// - It is refused `Stopped` after `stop`, `UnknownObject`, `LogFull` after 1,000,000 updates, `OutOfRange` where a result is
    ///   out of range, and `NoMemory`: then nothing was numbered. It is refused `NotYet` with the number of the update where that
    ///   is not acknowledged after the last turn, or a turn is refused a growth: the update stands, and `settle` waits for it.
    /// - Where it is refused, the session stays as it was.
    pub fn propose<R: Wait>(
        &self,
        rt: &R,
        session: &mut Session,
        set: MessageSet,
        turns: u64,
    ) -> Result<u64, Refusal>
        requires { 1 ≤ turns }
        ensures seen { IfOk result (λ number. session.new.seen ≡ max session.old.seen number) }
        ensures some { IfOk result (IsNumber self.now.before) }
        ensures refused { IfErr result (IsProposalRefusal self.now.before) }
        ensures err { OnErr result (session.new ≡ session.old) }
    {
        match self.propose_if(rt, session, set, &[], turns) {
            Ok(number) => Ok(number),
            Err(ProposalError::Refused(refusal)) => Err(refusal),
            Err(ProposalError::Unmet(_)) => unreachable!(),
        }
    }

    // waits: as Cluster::propose
    // promise seen some err: as Cluster::propose
    // promise met refused: an update with conditions is numbered only if the state after it meets them; else the first unmet one is told
    /// The same of a message set with conditions: it is numbered only where the state after it meets them all, which is tested in the
    /// hold that numbers it. So two callers who each saw 3 bags cannot sell 5.
    ///
    /// - The state after the update meets each condition.
    /// - It is refused as `propose` is, with `UnknownObject` for an object of a condition too. Where the first condition that would not be
    ///   met is told, by its index, nothing was numbered. That comes after `UnknownObject` and before the other refusals.
    pub fn propose_if<R: Wait>(
        &self,
        rt: &R,
        session: &mut Session,
        set: MessageSet,
        conditions: &[Condition],
        turns: u64,
    ) -> Result<u64, ProposalError>
        requires { 1 ≤ turns }
        ensures seen { IfOk result (λ number. session.new.seen ≡ max session.old.seen number) }
        ensures some { IfOk result (IsNumber self.now.before) }
        ensures met { IfOk result (MeetsAll self.now.before set conditions.now) }
        ensures refused { IfErr result (IsProposalError self.now.before set conditions.now) }
        ensures err { OnErr result (session.new ≡ session.old) }
    {
        let heard = self.listen();
        let numbered = self.number(rt, set, conditions)?;
        match self.wait(rt, session, heard, numbered, turns) {
            Ok(number) => Ok(number),
            Err(refusal) => Err(ProposalError::Refused(refusal)),
        }
    }

    /// The hold of a proposal: its set is numbered, and the first turn is made. Where it is refused, nothing was numbered.
    fn number<R: Wait>(
        &self,
        rt: &R,
        set: MessageSet,
        conditions: &[Condition],
    ) -> Result<Numbered, ProposalError>
        ensures some { IfOk result (λ it. IsNumber self.now.before it.number) }
        ensures met { IfOk result (λ it. MeetsAll self.now.before set conditions.now it.number) }
        ensures refused { IfErr result (IsNumberingError set conditions.now) }
    {
        let stopped = self.stopped.load(Ordering::SeqCst);
        let mut book = self.book.lock(rt);
        let before = Progress::of(book.primary());
        let numbered = number_unless_stopped(rt, &mut book, set, conditions, stopped)?;
        let after = Progress::of(book.primary());
        drop(book);
        self.tell(before, after);
        self.note(numbered.number);
        Ok(Numbered {
            number: self.before + numbered.number,
            turn: self.counted(numbered.turn),
        })
    }

    // promise: as number_unless_stopped
    /// The rest of a proposal, once its set is numbered. It is refused only where the update is not acknowledged yet.
    fn wait<R: Wait>(
        &self,
        rt: &R,
        session: &mut Session,
        heard: u64,
        numbered: Numbered,
        turns: u64,
    ) -> Result<u64, Refusal>
        requires { 1 ≤ turns }
        ensures seen { OnOk result (session.new.seen ≡ max session.old.seen numbered.number) }
        ensures number { IfOk result (λ number. number ≡ numbered.number) }
        ensures refused { IfErr result (λ e. e ≡ Refusal.NotYet numbered.number) }
        ensures err { OnErr result (session.new ≡ session.old) }
    {
        let mut made = BookTurns::first(self, numbered.number, heard, numbered.turn);
        match until_acknowledged(rt, &mut made, numbered.number, turns) {
            Ok(()) => {
                session.see(numbered.number);
                Ok(numbered.number)
            }
            Err(number) => Err(Refusal::NotYet { number }),
        }
    }

    // waits: of the book, once to look up the update, and once for each turn | as `propose`, with a pause before each turn; no turn if the
    // update was acknowledged already
    // promise seen some refused err: as Cluster::propose
    /// Waits until the update with this number is acknowledged, for at most `turns` turns of the book, which are 1 or more. It
    /// makes no turn where the update is acknowledged already.
    ///
    /// - The session has seen the update, and no less than before.
    /// - The number is one that an update of the store may have, or one that came before it.
    /// - It is refused `OutOfRange` where no update has this number, `NoMemory` as soon as a turn is refused a growth, and `NotYet`
    ///   where the update is not acknowledged after the last turn. The last two come only for a number that an update of the store may
    ///   have: those before it are acknowledged.
    /// - Where it is refused, the session stays as it was.
    pub fn settle<R: Wait>(
        &self,
        rt: &R,
        session: &mut Session,
        number: u64,
        turns: u64,
    ) -> Result<(), Refusal>
        requires { 1 ≤ turns }
        ensures seen { OnOk result (session.new.seen ≡ max session.old.seen number) }
        ensures some { OnOk result ((0 < number) × (number ≤ self.now.before + most_updates)) }
        ensures refused { IfErr result (IsSettlementRefusal self.now.before number) }
        ensures err { OnErr result (session.new ≡ session.old) }
    {
        let (last, acked) = self.last_and_acked(rt);
        if number == 0 || number > last {
            return Err(Refusal::OutOfRange);
        }
        if number > self.before {
            let mut made = BookTurns::none(self, number, acked);
            until(rt, &mut made, number, turns)?;
        }
        session.see(number);
        Ok(())
    }

    /// The first hold of a settlement: how many updates there are, and how many are acknowledged, those before the store too.
    fn last_and_acked<R: Wait>(&self, rt: &R) -> (u64, u64)
        ensures { (self.now.before ≤ result.0) × (result.0 ≤ self.now.before + most_updates) }
    {
        let book = self.book.lock(rt);
        let primary = book.primary();
        (
            self.before + primary.log().len(),
            self.before.saturating_add(primary.acked()),
        )
    }

    // waits: of the book, once | for that lock
    // promise place allowed refused: a changed limit is refused for what is unknown, exactly then; else some sound primary answers
    /// Changes the limit of a site on a scope from the head on, or begins one there. The amount lies from 0 to 10^18. The updates
    /// that are decided keep the limits by which they were decided.
    ///
    /// It makes no turn and looks at no feed: what the site reported is what the turns have found. It may be called after `stop`.
    ///
    /// - The object or group of the scope is there, and so is the site.
    /// - The answer is the place of the head of some sound primary that allows the change: which one, no clause can say.
    /// - It is refused `UnknownObject` or `UnknownGroup` where the scope's is not there, `UnknownSite`, `OutOfRange` for the
    ///   amount, `TooMany` for a 65th scope or a 1,089th entry of the site, `HeadPending` where the head is decided and not
    ///   acknowledged, `LagOver` where the acknowledged updates that the site has not reported weigh more than the amount, and
    ///   `NoMemory`, in this order.
    pub fn relimit<R: Wait>(
        &self,
        rt: &R,
        site: SiteId,
        scope: Scope,
        amount: u64,
    ) -> Result<u64, Refusal>
        ensures allowed { IfOk result (λ _. undeclared_refusal self.now site scope ≡ None) }
        ensures place { IfOk result (IsLimitPlace self.now.before site scope amount) }
        ensures refused { IfErr result (IsLimitChangeRefusal self.now site scope amount) }
    {
        // The prover joins branches over a borrowed scope, not over a copied one.
        let scope = &scope;
        check_scope(self.setup.objects(), self.setup.groups(), *scope)?;
        if site.index() >= self.cells.len() {
            return Err(Refusal::UnknownSite);
        }
        self.relimit_declared(rt, site, *scope, amount)
    }

    /// The hold in which a limit is changed.
    fn relimit_declared<R: Wait>(
        &self,
        rt: &R,
        site: SiteId,
        scope: Scope,
        amount: u64,
    ) -> Result<u64, Refusal>
        ensures place { IfOk result (IsLimitPlace self.now.before site scope amount) }
        ensures refused { IfErr result (IsBookRefusal site scope amount) }
    {
        let mut book = self.book.lock(rt);
        let place = relimit(&mut book, site, scope, amount)?;
        Ok(self.before + place)
    }

    // waits: as Cluster::new
    /// Ends the appliers once their feeds are empty, and the keeper. Proposals are refused from now on.
    pub fn stop(&self) {
        self.stopped.store(true, Ordering::SeqCst);
        self.sent.notify_all();
        self.told.ring();
    }
}

// promise: a refusal by the stop, the objects or the log leaves the book; then only `NotYet` comes
/// The hold in which a set is numbered, with the book that it lends: the set is numbered, and the first turn is made.
///
/// It is refused `Stopped` where the store was stopped, and else `UnknownObject`; then the first condition that would not be met is told;
/// and else it is refused `LogFull`, `OutOfRange` and `NoMemory`, in this order. Then nothing was numbered.
fn number_unless_stopped<R: Wait>(
    rt: &R,
    book: &mut Book,
    set: MessageSet,
    conditions: &[Condition],
    stopped: bool,
) -> Result<Numbered, ProposalError>
    ensures some { IfOk result (λ it. IsNumber 0 it.number) }
    ensures met { IfOk result (λ it. MeetsAll 0 set conditions.now it.number) }
    ensures turn { IfOk result (λ it. IsTurn (with_numbered book.old set) book.new it.turn) }
    ensures request { IfOk result (λ _. request_refusal stopped (length book.old.primary.log.start) set conditions.now ≡ None) }
    ensures allowed { IfOk result (λ _. append_refusal book.old.primary.log set ≡ None) }
    ensures refused { IfErr result (IsNotProposed stopped book.old.primary.log set conditions.now) }
    ensures sound { IsPrimary book.old.primary }
    ensures err { OnErr result (book.new ≡ book.old) }
{
    let objects = book.primary().log().objects();
    if let Some(refusal) = request_refusal(stopped, objects, &set, conditions) {
        drop(set);
        return Err(ProposalError::Refused(refusal));
    }
    number_if_and_turn(rt, book, set, conditions)
}

/// Why a set with conditions is refused before the log is looked at, if it is.
fn request_refusal(
    stopped: bool,
    objects: usize,
    set: &MessageSet,
    conditions: &[Condition],
) -> Option<Refusal>
    ensures refusal { result ≡ request_refusal stopped objects set.now conditions.now }
    ensures set { IsNone result → AreKnown objects set.now }
    ensures conditions { IsNone result → AreConditionsKnown objects conditions.now }
{
    if stopped {
        return Some(Refusal::Stopped);
    }
    if !set.are_known(objects) || check_conditions(objects, conditions).is_err() {
        return Some(Refusal::UnknownObject);
    }
    None
}

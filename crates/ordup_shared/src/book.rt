//! The calls on a book.
ghost use Rattle.std.specs.Prelude.{◌≡◌, ◌+◌, None, Some, IfOk, IfErr, OnErr, OnOk, length, map};
ghost use Rattle.ordup_conditions.specs.Conditions.{AreMet};
ghost use Rattle.ordup_objects.specs.Refusals.{IsRefusal};
ghost use Rattle.ordup_objects.specs.Serial.{serial};
ghost use Rattle.ordup_objects.specs.Sets.{AreKnown};
ghost use Rattle.ordup_log.specs.Appending.{append_refusal};
ghost use Rattle.ordup_holds.specs.Numbering.{IsTurn, with_numbered};
ghost use Rattle.ordup_holds.specs.Relimiting.{with_changed_limit};
ghost use Rattle.ordup_shapes.specs.Conditions.{condition_of, conditions_refusal};
ghost use Rattle.ordup_shapes.specs.Scopes.{code_refusal, scope_of};
ghost use Rattle.ordup_shared.specs.Books.{IsNotNumberedUnder, IsNotProposed, IsProposed, Proposes, Relimits, TellsError, TellsLag, TellsProgress, Turns, relimit_refusal};
ghost use Rattle.ordup_shared.specs.Statuses.{IsRefused};
ghost use Rattle.ordup_shared.specs.Things.{AtHandle, AtKind, OnHandle, OnKind, book_of};

use crate::handle::Handle;
use crate::open_book::OpenBook;
use crate::primary::{tell_lag, tell_progress, told_of};
use crate::status::{CLOSED, DONE, OTHER, UNMET, status_of};
use crate::thing::Kind;
use ordup_holds::{Book, Numbered, ProposalError, number_if_and_turn, relimit, turn};
use ordup_log::Scope;
use ordup_objects::{MessageSet, ObjectTable, Refusal, SiteId};
use ordup_primary::Primary;
use ordup_ring::RingSendEnd;
use ordup_shapes::{
    Lag, Progress, RawChange, RawCondition, Told, read_conditions, read_scope, read_set,
};
use std::alloc::Global;

// promise: a proposal numbers just the given set, where its conditions are met after it, and makes a turn; or nothing changes
/// Numbers a message set, where the state after it meets the conditions, and makes a turn.
///
/// Where a condition is not met nothing changes but `unmet`, which is the index of the first such one.
#[unsafe(no_mangle)]
pub extern "C" fn ordup_book_propose(
    alloc: Global,
    book: &mut Handle,
    changes: &[RawChange],
    conditions: &[RawCondition],
    told: &mut Told,
) -> u32
    ensures { OnHandle book_of book.old.held.thing book.new.held.thing result (told.new ≡ told.old) (λ b c. Proposes b c changes.now conditions.now told.old told.new result) }
{
    let Some(mut thing) = book.take(alloc) else {
        return CLOSED;
    };
    let status = propose_in(alloc, &mut thing.kind, changes, conditions, told);
    book.put(thing);
    status
}

fn propose_in(
    alloc: Global,
    kind: &mut Kind,
    changes: &[RawChange],
    conditions: &[RawCondition],
    told: &mut Told,
) -> u32
    ensures { OnKind book_of kind.old kind.new result (told.new ≡ told.old) (λ b c. Proposes b c changes.now conditions.now told.old told.new result) }
{
    match kind {
        Kind::OfBook(book) => propose(alloc, book, changes, conditions, told),
        Kind::OfSetup(_) | Kind::OfSite(_) | Kind::OfQuery(_) => OTHER,
    }
}

fn propose(
    alloc: Global,
    book: &mut OpenBook,
    changes: &[RawChange],
    conditions: &[RawCondition],
    told: &mut Told,
) -> u32
    ensures { Proposes book.old book.new changes.now conditions.now told.old told.new result }
{
    match number(alloc, &mut book.book, changes, conditions) {
        Ok(numbered) => {
            *told = told_of(book.book.primary(), numbered.number, &numbered.turn);
            DONE
        }
        Err(error) => tell_error(error, told),
    }
}

/// Tells why a proposal was not numbered.
fn tell_error(error: ProposalError, told: &mut Told) -> u32
    ensures { TellsError error told.old told.new result }
{
    match error {
        ProposalError::Refused(refusal) => status_of(&refusal),
        ProposalError::Unmet(index) => {
            told.unmet = index as u64;
            UNMET
        }
    }
}

/// Numbers the set of these changes, where its conditions are met after it, and makes a turn.
fn number(
    alloc: Global,
    book: &mut Book<RingSendEnd>,
    changes: &[RawChange],
    conditions: &[RawCondition],
) -> Result<Numbered, ProposalError>
    ensures proposed { IfOk result (λ it. IsProposed book.old book.new changes.now conditions.now it.number it.turn) }
    ensures refused { IfErr result (IsNotProposed book.old.primary.log changes.now conditions.now) }
    ensures err { OnErr result (book.new ≡ book.old) }
{
    match read_set(alloc, objects_of(book.primary()), changes) {
        Ok(set) => number_set(alloc, book, set, conditions),
        Err(refusal) => Err(ProposalError::Refused(refusal)),
    }
}

/// The objects of a primary, as many as its log is over.
fn objects_of(primary: &Primary) -> &ObjectTable
    ensures { length result.now ≡ length primary.now.log.start }
{
    primary.keeps();
    primary.setup().objects()
}

/// Numbers a set, where these conditions are met after it, and makes a turn.
fn number_set(
    alloc: Global,
    book: &mut Book<RingSendEnd>,
    set: MessageSet,
    conditions: &[RawCondition],
) -> Result<Numbered, ProposalError>
    requires { AreKnown (length book.old.primary.log.start) set }
    ensures bounds { OnOk result (conditions_refusal (length book.old.primary.log.start) conditions.now ≡ None) }
    ensures allowed { OnOk result (append_refusal book.old.primary.log set ≡ None) }
    ensures number { IfOk result (λ it. it.number ≡ length book.old.primary.log.sets + 1) }
    ensures turn { IfOk result (λ it. IsTurn (with_numbered book.old set) book.new it.turn) }
    ensures met { IfOk result (λ it. AreMet (serial book.new.primary.log it.number) (map condition_of conditions.now)) }
    ensures refused { IfErr result (IsNotNumberedUnder book.old.primary.log set conditions.now) }
    ensures err { OnErr result (book.new ≡ book.old) }
{
    match read_conditions(alloc, book.primary().log().objects(), conditions) {
        Ok(conditions) => {
            let numbered = number_if_and_turn(&(), book, set, conditions.as_slice());
            drop(conditions);
            numbered
        }
        Err(refusal) => {
            drop(set);
            Err(ProposalError::Refused(refusal))
        }
    }
}

// promise: a turn is that of the holds, and what it leaves is told
/// Makes a turn: hears the sites, settles and sends.
#[unsafe(no_mangle)]
pub extern "C" fn ordup_book_turn(alloc: Global, book: &mut Handle, told: &mut Told) -> u32
    ensures { OnHandle book_of book.old.held.thing book.new.held.thing result (told.new ≡ told.old) (λ b c. Turns b c told.new result) }
{
    let Some(mut thing) = book.take(alloc) else {
        return CLOSED;
    };
    let status = turn_in(&mut thing.kind, told);
    book.put(thing);
    status
}

fn turn_in(kind: &mut Kind, told: &mut Told) -> u32
    ensures { OnKind book_of kind.old kind.new result (told.new ≡ told.old) (λ b c. Turns b c told.new result) }
{
    match kind {
        Kind::OfBook(book) => make_turn(book, told),
        Kind::OfSetup(_) | Kind::OfSite(_) | Kind::OfQuery(_) => OTHER,
    }
}

fn make_turn(book: &mut OpenBook, told: &mut Told) -> u32
    ensures { Turns book.old book.new told.new result }
{
    let turn = turn(&(), &mut book.book);
    *told = told_of(book.book.primary(), 0, &turn);
    DONE
}

// promise: a limit changes as by the hold, or nothing does
/// Changes a limit of a site on a scope from the head on, or begins one there, and tells the place of the head.
#[unsafe(no_mangle)]
pub extern "C" fn ordup_book_relimit(
    alloc: Global,
    book: &mut Handle,
    site: u32,
    kind: u32,
    id: u32,
    amount: u64,
    place: &mut u64,
) -> u32
    ensures { OnHandle book_of book.old.held.thing book.new.held.thing result (place.new ≡ place.old) (λ b c. Relimits b c site kind id amount place.old place.new result) }
{
    let Some(mut thing) = book.take(alloc) else {
        return CLOSED;
    };
    let status = relimit_in(&mut thing.kind, site, kind, id, amount, place);
    book.put(thing);
    status
}

fn relimit_in(thing: &mut Kind, site: u32, kind: u32, id: u32, amount: u64, place: &mut u64) -> u32
    ensures { OnKind book_of thing.old thing.new result (place.new ≡ place.old) (λ b c. Relimits b c site kind id amount place.old place.new result) }
{
    match thing {
        Kind::OfBook(book) => relimit_book(book, site, kind, id, amount, place),
        Kind::OfSetup(_) | Kind::OfSite(_) | Kind::OfQuery(_) => OTHER,
    }
}

fn relimit_book(
    book: &mut OpenBook,
    site: u32,
    kind: u32,
    id: u32,
    amount: u64,
    place: &mut u64,
) -> u32
    ensures { Relimits book.old book.new site kind id amount place.old place.new result }
{
    match change_or_status(&mut book.book, site, kind, id, amount) {
        Ok(head) => {
            *place = head;
            DONE
        }
        Err(status) => status,
    }
}

/// Changes a limit, or answers the status that says why not.
#[tactic(auto, using(crate::proofs::StatusLemmas::is_refused))]
fn change_or_status(
    book: &mut Book<RingSendEnd>,
    site: u32,
    kind: u32,
    id: u32,
    amount: u64,
) -> Result<u64, u32>
    ensures place { IfOk result (λ k. k ≡ book.old.primary.acked + 1) }
    ensures changed { IfOk result (λ _. book.new ≡ with_changed_limit book.old site (scope_of kind id) amount) }
    ensures allowed { IfOk result (λ _. relimit_refusal book.old.primary site kind id amount ≡ None) }
    ensures refused { IfErr result (IsRefused (relimit_refusal book.old.primary site kind id amount)) }
    ensures err { OnErr result (book.new ≡ book.old) }
{
    match change_limit(book, site, kind, id, amount) {
        Ok(place) => Ok(place),
        Err(refusal) => Err(status_of(&refusal)),
    }
}

fn change_limit(
    book: &mut Book<RingSendEnd>,
    site: u32,
    kind: u32,
    id: u32,
    amount: u64,
) -> Result<u64, Refusal>
    ensures place { IfOk result (λ k. k ≡ book.old.primary.acked + 1) }
    ensures changed { IfOk result (λ _. book.new ≡ with_changed_limit book.old site (scope_of kind id) amount) }
    ensures allowed { IfOk result (λ _. relimit_refusal book.old.primary site kind id amount ≡ None) }
    ensures refused { IfErr result (λ e. IsRefusal (relimit_refusal book.old.primary site kind id amount) e) }
    ensures err { OnErr result (book.new ≡ book.old) }
{
    let scope = &scope_in(book.primary(), kind, id)?;
    // The scope is refused before a site that is none, as the hold does.
    if site as usize >= book.primary().setup().sites() {
        return Err(Refusal::UnknownSite);
    }
    match relimit(book, SiteId::new(site as u8), *scope, amount) {
        Ok(place) => Ok(place),
        Err(refusal) => Err(refusal),
    }
}

/// The scope of this kind, on the object or group of this number, of a primary.
fn scope_in(primary: &Primary, kind: u32, id: u32) -> Result<Scope, Refusal>
    ensures scope { IfOk result (λ scope. scope ≡ scope_of kind id) }
    ensures allowed { IfOk result (λ _. code_refusal (length primary.now.setup.objects) primary.now.setup.groups kind id ≡ None) }
    ensures refused { IfErr result (λ e. code_refusal (length primary.now.setup.objects) primary.now.setup.groups kind id ≡ Some e) }
{
    let setup = primary.setup();
    read_scope(setup.objects(), setup.groups(), kind, id)
}

// promise stays: as ordup_site_read stays
// promise told: what the primary knows of a site is told, with its limits as they are and its lag beside them
/// Tells what the primary knows of a site.
#[unsafe(no_mangle)]
pub extern "C" fn ordup_book_progress(
    alloc: Global,
    book: &mut Handle,
    site: u32,
    progress: &mut Progress,
) -> u32
    ensures stays { book.new.held.thing ≡ book.old.held.thing }
    ensures told { AtHandle book_of book.old.held.thing result (progress.new ≡ progress.old) (λ b. TellsProgress b.book.primary site progress.old progress.new result) }
{
    let Some(thing) = book.take(alloc) else {
        return CLOSED;
    };
    let status = progress_in(&thing.kind, site, progress);
    book.put(thing);
    status
}

fn progress_in(kind: &Kind, site: u32, progress: &mut Progress) -> u32
    ensures { AtKind book_of kind.now result (progress.new ≡ progress.old) (λ b. TellsProgress b.book.primary site progress.old progress.new result) }
{
    match kind {
        Kind::OfBook(book) => tell_progress(book.book.primary(), site, progress),
        Kind::OfSetup(_) | Kind::OfSite(_) | Kind::OfQuery(_) => OTHER,
    }
}

// promise stays: as ordup_site_read stays
// promise told: as ordup_book_progress told
/// Tells a limit of a site as it is now, by its index in the order in which the scopes were first limited, and what the acknowledged
/// updates weigh on its scope that the site has not reported.
#[unsafe(no_mangle)]
pub extern "C" fn ordup_book_lag(
    alloc: Global,
    book: &mut Handle,
    site: u32,
    limit: u32,
    lag: &mut Lag,
) -> u32
    ensures stays { book.new.held.thing ≡ book.old.held.thing }
    ensures told { AtHandle book_of book.old.held.thing result (lag.new ≡ lag.old) (λ b. TellsLag b.book.primary site limit lag.old lag.new result) }
{
    let Some(thing) = book.take(alloc) else {
        return CLOSED;
    };
    let status = lag_in(&thing.kind, site, limit, lag);
    book.put(thing);
    status
}

fn lag_in(kind: &Kind, site: u32, limit: u32, lag: &mut Lag) -> u32
    ensures { AtKind book_of kind.now result (lag.new ≡ lag.old) (λ b. TellsLag b.book.primary site limit lag.old lag.new result) }
{
    match kind {
        Kind::OfBook(book) => tell_lag(book.book.primary(), site, limit, lag),
        Kind::OfSetup(_) | Kind::OfSite(_) | Kind::OfQuery(_) => OTHER,
    }
}

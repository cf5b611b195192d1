//! The calls that open and compare what belongs to a cluster.
ghost use Rattle.std.specs.Prelude.{◌≡◌, None, IfOk, IfErr, ⊤};
ghost use Rattle.ordup_objects.specs.Refusals.{IsRefusal};
ghost use Rattle.ordup_primary.specs.Declarations.{start_refusal};
ghost use Rattle.ordup_primary.specs.Successors.{successor_refusal};
ghost use Rattle.ordup_holds.specs.Opening.{AreOpened};
ghost use Rattle.ordup_shared.specs.Books.{Compares, IsFirstBook, IsSuccessor, OpensBook, OpensSite, OpensSiteOf, OpensSuccessor};
ghost use Rattle.ordup_shared.specs.Statuses.{IsRefused};
ghost use Rattle.ordup_shared.specs.Things.{AtHandle, AtKind, OnKind, Opened, book_of, setup_of, site_of};

use crate::handle::Handle;
use crate::open_book::OpenBook;
use crate::open_site::OpenSite;
use crate::opening::{put_new, room};
use crate::status::{CLOSED, DONE, FOREIGN, MIXED, NO_MEMORY, OPEN, OTHER, status_of};
use crate::thing::Kind;
use ordup_holds::{agree, open_as};
use ordup_objects::{Refusal, SiteId, Values};
use ordup_primary::{Primary, Setup};
use ordup_ring::RingFeed;
use std::alloc::Global;
use std::mem;

// promise stays: as ordup_site_read stays
// promise opened: a book opens with an empty log, and all its sites are there to be opened
/// Opens the book of what is declared, with the number by which the host tells its clusters apart.
#[unsafe(no_mangle)]
pub extern "C" fn ordup_book_open(
    alloc: Global,
    setup: &mut Handle,
    cluster: u64,
    book: &mut Handle,
) -> u32
    ensures stays { setup.new.held.thing ≡ setup.old.held.thing }
    ensures opened { OpensBook setup.old.held.thing cluster book.old.held.thing book.new.held.thing result }
{
    if book.is_open() {
        return OPEN;
    }
    let Some(thing) = setup.take(alloc) else {
        return CLOSED;
    };
    let status = book_in(alloc, &thing.kind, cluster, book);
    setup.put(thing);
    status
}

fn book_in(alloc: Global, kind: &Kind, cluster: u64, book: &mut Handle) -> u32
    requires { book.old.held.thing ≡ None }
    ensures { AtKind setup_of kind.now result (book.new.held.thing ≡ None) (λ d. Opened book_of book.new.held.thing result (IsRefused (start_refusal d) result) (IsFirstBook d cluster)) }
{
    match kind {
        Kind::OfSetup(setup) => open_book(alloc, setup, cluster, book),
        Kind::OfBook(_) | Kind::OfSite(_) | Kind::OfQuery(_) => OTHER,
    }
}

#[tactic(auto, using(crate::proofs::StatusLemmas::is_refused))]
fn open_book(alloc: Global, setup: &Setup, cluster: u64, book: &mut Handle) -> u32
    requires { book.old.held.thing ≡ None }
    ensures { Opened book_of book.new.held.thing result (IsRefused (start_refusal setup.now) result) (IsFirstBook setup.now cluster) }
{
    match first_book(alloc, setup, cluster) {
        Ok(opened) => put_new(alloc, book, Kind::OfBook(opened)),
        Err(refusal) => status_of(&refusal),
    }
}

/// The book of what is declared.
fn first_book(alloc: Global, setup: &Setup, cluster: u64) -> Result<OpenBook, Refusal>
    ensures opened { IfOk result (λ b. AreOpened setup.now b.book b.cells.items) }
    ensures cluster { IfOk result (λ b. b.cluster ≡ cluster) }
    ensures allowed { IfOk result (λ _. start_refusal setup.now ≡ None) }
    ensures refused { IfErr result (λ e. IsRefusal (start_refusal setup.now) e) }
{
    // For the proof: there are few sites.
    let _sites = setup.sites();
    if !setup.is_ready() {
        return Err(Refusal::Empty);
    }
    let (book, cells) = open_as::<RingFeed>(alloc, setup.copy(alloc)?)?;
    Ok(OpenBook {
        book,
        cells,
        cluster,
    })
}

// promise: the last site that no handle has yet is opened; where that is refused the book keeps it
/// Opens the last site that no handle has yet, and tells which it is.
#[unsafe(no_mangle)]
pub extern "C" fn ordup_site_open(
    alloc: Global,
    book: &mut Handle,
    site: &mut Handle,
    index: &mut u32,
) -> u32
    ensures { OpensSiteOf book.old.held.thing book.new.held.thing site.old.held.thing site.new.held.thing index.old index.new result }
{
    if site.is_open() {
        return OPEN;
    }
    let Some(mut thing) = book.take(alloc) else {
        return CLOSED;
    };
    let status = site_in(alloc, &mut thing.kind, site, index);
    book.put(thing);
    status
}

fn site_in(alloc: Global, kind: &mut Kind, site: &mut Handle, index: &mut u32) -> u32
    requires { site.old.held.thing ≡ None }
    ensures { OnKind book_of kind.old kind.new result ((site.new.held.thing ≡ None) × (index.new ≡ index.old)) (λ b c. OpensSite b c site.new.held.thing index.old index.new result) }
{
    match kind {
        Kind::OfBook(book) => open_site(alloc, book, site, index),
        Kind::OfSetup(_) | Kind::OfSite(_) | Kind::OfQuery(_) => OTHER,
    }
}

fn open_site(alloc: Global, book: &mut OpenBook, site: &mut Handle, index: &mut u32) -> u32
    requires { site.old.held.thing ≡ None }
    ensures { OpensSite book.old book.new site.new.held.thing index.old index.new result }
{
    if book.cells.is_empty() {
        return status_of(&Refusal::UnknownSite);
    }
    // The memory of the handle is taken before the cell leaves the book.
    let Some(mut thing) = room(alloc) else {
        return NO_MEMORY;
    };
    let Some(cell) = book.cells.pop() else {
        drop(thing);
        return status_of(&Refusal::UnknownSite);
    };
    *index = book.cells.len() as u32;
    let opened = OpenSite {
        cell,
        index: *index,
        cluster: book.cluster,
    };
    drop(mem::replace(&mut thing.kind, Kind::OfSite(opened)));
    site.put(thing);
    DONE
}

// promise stays: as ordup_site_read stays
// promise others: as ordup_site_read stays
// promise compared: a site of a cluster agrees with its book exactly if it holds a prefix between what it reported and was sent
/// Compares a site with the log of its book.
#[unsafe(no_mangle)]
pub extern "C" fn ordup_book_compare(alloc: Global, book: &mut Handle, site: &mut Handle) -> u32
    ensures stays { book.new.held.thing ≡ book.old.held.thing }
    ensures others { site.new.held.thing ≡ site.old.held.thing }
    ensures compared { AtHandle book_of book.old.held.thing result ⊤ (λ b. AtHandle site_of site.old.held.thing result ⊤ (λ s. Compares b s result)) }
{
    let Some(thing) = book.take(alloc) else {
        return CLOSED;
    };
    let status = compare_in(alloc, &thing.kind, site);
    book.put(thing);
    status
}

fn compare_in(alloc: Global, kind: &Kind, site: &mut Handle) -> u32
    ensures stays { site.new.held.thing ≡ site.old.held.thing }
    ensures compared { AtKind book_of kind.now result ⊤ (λ b. AtHandle site_of site.old.held.thing result ⊤ (λ s. Compares b s result)) }
{
    match kind {
        Kind::OfBook(book) => compare_with(alloc, book, site),
        Kind::OfSetup(_) | Kind::OfSite(_) | Kind::OfQuery(_) => OTHER,
    }
}

fn compare_with(alloc: Global, book: &OpenBook, site: &mut Handle) -> u32
    ensures stays { site.new.held.thing ≡ site.old.held.thing }
    ensures compared { AtHandle site_of site.old.held.thing result ⊤ (λ s. Compares book.now s result) }
{
    let Some(thing) = site.take(alloc) else {
        return CLOSED;
    };
    let status = compare_kinds(alloc, book, &thing.kind);
    site.put(thing);
    status
}

fn compare_kinds(alloc: Global, book: &OpenBook, kind: &Kind) -> u32
    ensures { AtKind site_of kind.now result ⊤ (λ s. Compares book.now s result) }
{
    match kind {
        Kind::OfSite(site) => compare(alloc, book, site),
        Kind::OfSetup(_) | Kind::OfBook(_) | Kind::OfQuery(_) => OTHER,
    }
}

fn compare(alloc: Global, book: &OpenBook, site: &OpenSite) -> u32
    ensures { Compares book.now site.now result }
{
    if site.cluster != book.cluster {
        return FOREIGN;
    }
    let primary = book.book.primary();
    if site.index as usize >= primary.setup().sites() {
        return status_of(&Refusal::UnknownSite);
    }
    let Ok(values) = Values::initial(alloc, primary.setup().objects()) else {
        return NO_MEMORY;
    };
    if agree(
        primary,
        SiteId::new(site.index as u8),
        site.cell.site(),
        values,
    ) {
        DONE
    } else {
        MIXED
    }
}

// promise stays: as ordup_site_read stays
// promise opened: the successor is declared as the primary's, or refused where an update waits
/// Opens the declarations of the successor, which begins with what this book ended with.
#[unsafe(no_mangle)]
pub extern "C" fn ordup_book_successor(alloc: Global, book: &mut Handle, setup: &mut Handle) -> u32
    ensures stays { book.new.held.thing ≡ book.old.held.thing }
    ensures opened { OpensSuccessor book.old.held.thing setup.old.held.thing setup.new.held.thing result }
{
    if setup.is_open() {
        return OPEN;
    }
    let Some(thing) = book.take(alloc) else {
        return CLOSED;
    };
    let status = successor_in(alloc, &thing.kind, setup);
    book.put(thing);
    status
}

fn successor_in(alloc: Global, kind: &Kind, setup: &mut Handle) -> u32
    requires { setup.old.held.thing ≡ None }
    ensures { AtKind book_of kind.now result (setup.new.held.thing ≡ None) (λ b. Opened setup_of setup.new.held.thing result (IsRefused (successor_refusal b.book.primary) result) (IsSuccessor b.book.primary)) }
{
    match kind {
        Kind::OfBook(book) => open_successor(alloc, book.book.primary(), setup),
        Kind::OfSetup(_) | Kind::OfSite(_) | Kind::OfQuery(_) => OTHER,
    }
}

#[tactic(auto, using(crate::proofs::StatusLemmas::is_refused))]
fn open_successor(alloc: Global, primary: &Primary, setup: &mut Handle) -> u32
    requires { setup.old.held.thing ≡ None }
    ensures { Opened setup_of setup.new.held.thing result (IsRefused (successor_refusal primary.now) result) (IsSuccessor primary.now) }
{
    match primary.successor(alloc) {
        Ok(declared) => put_new(alloc, setup, Kind::OfSetup(declared)),
        Err(refusal) => status_of(&refusal),
    }
}

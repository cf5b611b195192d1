//! The calls on a query, and the end of a handle.
ghost use Rattle.std.specs.Prelude.{◌≡◌, None, IfOk, IfErr, IsSome, MatchOption, is_some};
ghost use Rattle.ordup_shared.specs.declared.status.TheConstants.{DONE};
ghost use Rattle.ordup_objects.specs.Refusals.{IsRefusal};
ghost use Rattle.ordup_query.specs.Queries.{begin_refusal};
ghost use Rattle.ordup_shared.specs.Queries.{Ends, IsFirstQuery, OpensQuery, ReadsFor, has_mark};
ghost use Rattle.ordup_shared.specs.Statuses.{IsRefused};
ghost use Rattle.ordup_shared.specs.Things.{AtHandle, AtKind, OnHandle, OnKind, Opened, book_of, query_of, site_of};

use crate::handle::Handle;
use crate::open_book::OpenBook;
use crate::open_query::OpenQuery;
use crate::open_site::OpenSite;
use crate::opening::put_new;
use crate::status::{CLOSED, DONE, FOREIGN, OPEN, OTHER, status_of};
use crate::thing::{Kind, Thing};
use ordup_holds::begin;
use ordup_objects::{ObjectId, Refusal};
use ordup_query::ReadAnswer;
use ordup_shapes::{Charged, Ended};
use std::alloc::Global;

// promise stays: as ordup_site_read stays
// promise opened: a query begins at what is acknowledged, or its limit or memory is refused
/// Begins a query with an import limit, whose reference is what is acknowledged now.
#[unsafe(no_mangle)]
pub extern "C" fn ordup_query_open(
    alloc: Global,
    book: &mut Handle,
    limit: u64,
    query: &mut Handle,
) -> u32
    ensures stays { book.new.held.thing ≡ book.old.held.thing }
    ensures opened { OpensQuery book.old.held.thing limit query.old.held.thing query.new.held.thing result }
{
    if query.is_open() {
        return OPEN;
    }
    let Some(thing) = book.take(alloc) else {
        return CLOSED;
    };
    let status = query_in(alloc, &thing.kind, limit, query);
    book.put(thing);
    status
}

fn query_in(alloc: Global, kind: &Kind, limit: u64, query: &mut Handle) -> u32
    requires { query.old.held.thing ≡ None }
    ensures { AtKind book_of kind.now result (query.new.held.thing ≡ None) (λ b. Opened query_of query.new.held.thing result (IsRefused (begin_refusal limit) result) (IsFirstQuery b limit)) }
{
    match kind {
        Kind::OfBook(book) => open_query(alloc, book, limit, query),
        Kind::OfSetup(_) | Kind::OfSite(_) | Kind::OfQuery(_) => OTHER,
    }
}

#[tactic(auto, using(crate::proofs::StatusLemmas::is_refused))]
fn open_query(alloc: Global, book: &OpenBook, limit: u64, query: &mut Handle) -> u32
    requires { query.old.held.thing ≡ None }
    ensures { Opened query_of query.new.held.thing result (IsRefused (begin_refusal limit) result) (IsFirstQuery book.now limit) }
{
    match first_query(book, limit) {
        Ok(begun) => put_new(alloc, query, Kind::OfQuery(begun)),
        Err(refusal) => status_of(&refusal),
    }
}

/// A query of a book.
fn first_query(book: &OpenBook, limit: u64) -> Result<OpenQuery, Refusal>
    ensures first { IfOk result (IsFirstQuery book.now limit) }
    ensures refused { IfErr result (λ e. IsRefusal (begin_refusal limit) e) }
{
    let query = begin(&book.book, limit)?;
    Ok(OpenQuery {
        query,
        cluster: book.cluster,
    })
}

// promise stays: as ordup_site_read stays
// promise read: a read of a query is that of `Query`; one at a site of another cluster is refused
/// Reads an object at a site for a query: its value there, what the read imports, and what the query comes to.
#[unsafe(no_mangle)]
pub extern "C" fn ordup_query_read(
    alloc: Global,
    query: &mut Handle,
    site: &mut Handle,
    object: u32,
    out: &mut Charged,
) -> u32
    ensures stays { site.new.held.thing ≡ site.old.held.thing }
    ensures read { OnHandle query_of query.old.held.thing query.new.held.thing result (out.new ≡ out.old) (λ q r. AtHandle site_of site.old.held.thing result ((r ≡ q) × (out.new ≡ out.old)) (λ s. ReadsFor q r s object out.old out.new result)) }
{
    let Some(mut thing) = query.take(alloc) else {
        return CLOSED;
    };
    let status = read_in(alloc, &mut thing.kind, site, object, out);
    query.put(thing);
    status
}

fn read_in(alloc: Global, kind: &mut Kind, site: &mut Handle, object: u32, out: &mut Charged) -> u32
    ensures stays { site.new.held.thing ≡ site.old.held.thing }
    ensures read { OnKind query_of kind.old kind.new result (out.new ≡ out.old) (λ q r. AtHandle site_of site.old.held.thing result ((r ≡ q) × (out.new ≡ out.old)) (λ s. ReadsFor q r s object out.old out.new result)) }
{
    match kind {
        Kind::OfQuery(query) => read_at(alloc, query, site, object, out),
        Kind::OfSetup(_) | Kind::OfBook(_) | Kind::OfSite(_) => OTHER,
    }
}

fn read_at(
    alloc: Global,
    query: &mut OpenQuery,
    site: &mut Handle,
    object: u32,
    out: &mut Charged,
) -> u32
    ensures stays { site.new.held.thing ≡ site.old.held.thing }
    ensures read { AtHandle site_of site.old.held.thing result ((query.new ≡ query.old) × (out.new ≡ out.old)) (λ s. ReadsFor query.old query.new s object out.old out.new result) }
{
    let Some(thing) = site.take(alloc) else {
        return CLOSED;
    };
    let status = read_kind(query, &thing.kind, object, out);
    site.put(thing);
    status
}

fn read_kind(query: &mut OpenQuery, kind: &Kind, object: u32, out: &mut Charged) -> u32
    ensures { AtKind site_of kind.now result ((query.new ≡ query.old) × (out.new ≡ out.old)) (λ s. ReadsFor query.old query.new s object out.old out.new result) }
{
    match kind {
        Kind::OfSite(site) => read(query, site, object, out),
        Kind::OfSetup(_) | Kind::OfBook(_) | Kind::OfQuery(_) => OTHER,
    }
}

fn read(query: &mut OpenQuery, site: &OpenSite, object: u32, out: &mut Charged) -> u32
    ensures { ReadsFor query.old query.new site.now object out.old out.new result }
{
    if site.cluster != query.cluster {
        return FOREIGN;
    }
    if !has_mark(query, site, object) {
        return status_of(&Refusal::UnknownObject);
    }
    match query
        .query
        .read(site.cell.site(), ObjectId::new(object as u16))
    {
        Ok(answer) => {
            *out = charged(query, answer);
            DONE
        }
        Err(refusal) => status_of(&refusal),
    }
}

/// What an accepted read tells.
fn charged(query: &OpenQuery, answer: ReadAnswer) -> Charged
    ensures { result ≡ record { value = answer.value; import = answer.import; total = answer.total; place = query.now.query.place; reads = query.now.query.reads } }
{
    Charged {
        value: answer.value,
        import: answer.import,
        total: answer.total,
        place: query.query.place(),
        reads: query.query.reads(),
    }
}

/// Whether a query and a site have an object of this number.
fn has_mark(query: &OpenQuery, site: &OpenSite, object: u32) -> bool
    ensures { result ≡ has_mark query.now site.now object }
{
    object <= u16::MAX as u32
        && (object as usize) < query.query.objects()
        && (object as usize) < site.cell.site().len()
}

// promise: the end of a query tells its reference, its sums and its reads, and closes its handle; any other stays as it was
/// Ends a query, closes its handle, and tells what it came to.
#[unsafe(no_mangle)]
pub extern "C" fn ordup_query_end(alloc: Global, query: &mut Handle, out: &mut Ended) -> u32
    ensures { Ends query.old.held.thing query.new.held.thing out.old out.new result }
{
    let Some(thing) = query.take(alloc) else {
        return CLOSED;
    };
    if !is_query(&thing.kind) {
        query.put(thing);
        return OTHER;
    }
    let Thing { kind } = Box::into_inner(thing);
    end(kind, out)
}

fn is_query(kind: &Kind) -> bool
    ensures { result ≡ is_some (query_of kind.now) }
{
    match kind {
        Kind::OfQuery(_) => true,
        Kind::OfSetup(_) | Kind::OfBook(_) | Kind::OfSite(_) => false,
    }
}

fn end(kind: Kind, out: &mut Ended) -> u32
    requires { IsSome (query_of kind) }
    ensures { MatchOption (query_of kind) ⊥ (λ q. (result ≡ DONE) × (out.new ≡ record { place = q.query.place; sum = q.query.sum; total = q.query.total; reads = q.query.reads })) }
{
    match kind {
        Kind::OfQuery(OpenQuery { query, cluster: _ }) => {
            let answer = query.end();
            *out = Ended {
                place: answer.place,
                sum: answer.sum,
                total: answer.total,
                reads: answer.reads,
            };
            DONE
        }
        Kind::OfSetup(_) | Kind::OfBook(_) | Kind::OfSite(_) => OTHER,
    }
}

// promise: a closed handle is none, and each call says so
/// Closes a handle, if it is open, and gives back what it is of.
#[unsafe(no_mangle)]
pub extern "C" fn ordup_handle_close(alloc: Global, handle: &mut Handle)
    ensures { handle.new.held.thing ≡ None }
{
    if let Some(thing) = handle.take(alloc) {
        drop(thing);
    }
}

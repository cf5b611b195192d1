//! The calls on a site.
ghost use Rattle.std.specs.Prelude.{◌≡◌, ◌<◌, ◌≤◌, ◌++◌, true, List, length, map, drop};
ghost use Rattle.std.specs.List.{list_all};
ghost use Rattle.ordup_shared.specs.Sites.{Applies, Reads, ReadsMany, applied_of, has_object, level_status, value_of};
ghost use Rattle.ordup_shared.specs.Things.{AtHandle, AtKind, OnHandle, OnKind, site_of};

use crate::handle::Handle;
use crate::open_site::OpenSite;
use crate::status::{BEHIND, CLOSED, DONE, MORE, NOTHING, OTHER, UNKNOWN_OBJECT};
use crate::thing::Kind;
use ordup_holds::{SiteCell, take};
use ordup_objects::ObjectId;
use ordup_ring::RingTakeEnd;
use ordup_shapes::Seen;
use std::alloc::Global;

// promise: a site applies the next update of its feed, or nothing changes
/// Applies the next update of a site's feed, if there is one, and tells its number.
#[unsafe(no_mangle)]
pub extern "C" fn ordup_site_apply(alloc: Global, site: &mut Handle, number: &mut u64) -> u32
    ensures { OnHandle site_of site.old.held.thing site.new.held.thing result (number.new ≡ number.old) (λ s t. Applies s t number.old number.new result) }
{
    let Some(mut thing) = site.take(alloc) else {
        return CLOSED;
    };
    let status = apply_in(&mut thing.kind, number);
    site.put(thing);
    status
}

fn apply_in(kind: &mut Kind, number: &mut u64) -> u32
    ensures { OnKind site_of kind.old kind.new result (number.new ≡ number.old) (λ s t. Applies s t number.old number.new result) }
{
    match kind {
        Kind::OfSite(site) => apply(site, number),
        Kind::OfSetup(_) | Kind::OfBook(_) | Kind::OfQuery(_) => OTHER,
    }
}

fn apply(site: &mut OpenSite, number: &mut u64) -> u32
    ensures { Applies site.old site.new number.old number.new result }
{
    match take(&(), &mut site.cell) {
        Some(taken) => {
            *number = taken;
            DONE
        }
        None => NOTHING,
    }
}

// promise stays: a call that looks at a handle leaves it as it was
// promise read: a read answers the value after the updates that the site took, and how many these are; or that they are too few
/// Reads an object at a site: its value, and how many updates the site applied. The status says whether these are as many as the
/// reader has seen.
#[unsafe(no_mangle)]
pub extern "C" fn ordup_site_read(
    alloc: Global,
    site: &mut Handle,
    object: u32,
    seen: u64,
    out: &mut Seen,
) -> u32
    ensures stays { site.new.held.thing ≡ site.old.held.thing }
    ensures read { AtHandle site_of site.old.held.thing result (out.new ≡ out.old) (λ s. Reads s object seen out.old out.new result) }
{
    let Some(thing) = site.take(alloc) else {
        return CLOSED;
    };
    let status = read_in(&thing.kind, object, seen, out);
    site.put(thing);
    status
}

fn read_in(kind: &Kind, object: u32, seen: u64, out: &mut Seen) -> u32
    ensures { AtKind site_of kind.now result (out.new ≡ out.old) (λ s. Reads s object seen out.old out.new result) }
{
    match kind {
        Kind::OfSite(site) => read(site, object, seen, out),
        Kind::OfSetup(_) | Kind::OfBook(_) | Kind::OfQuery(_) => OTHER,
    }
}

fn read(site: &OpenSite, object: u32, seen: u64, out: &mut Seen) -> u32
    ensures { Reads site.now object seen out.old out.new result }
{
    if !has_object(&site.cell, object) {
        return UNKNOWN_OBJECT;
    }
    *out = Seen {
        value: value_of(&site.cell, object),
        applied: applied_of(&site.cell),
    };
    level_status(&site.cell, seen)
}

// promise stays: as ordup_site_read stays
// promise read: all values are of one state; where one is unknown or has no room nothing is written
/// Reads several objects at a site, all after the same updates: their values, and how many updates the site applied. The status says
/// whether these are as many as the reader has seen.
#[unsafe(no_mangle)]
pub extern "C" fn ordup_site_read_many(
    alloc: Global,
    site: &mut Handle,
    objects: &[u32],
    seen: u64,
    values: &mut [i64],
    applied: &mut u64,
) -> u32
    ensures stays { site.new.held.thing ≡ site.old.held.thing }
    ensures read { AtHandle site_of site.old.held.thing result ((values.new ≡ values.old) × (applied.new ≡ applied.old)) (λ s. ReadsMany s.cell objects.now seen (record { values = values.old; applied = applied.old }) (record { values = values.new; applied = applied.new }) result) }
{
    let Some(thing) = site.take(alloc) else {
        return CLOSED;
    };
    let status = read_many_in(&thing.kind, objects, seen, values, applied);
    site.put(thing);
    status
}

fn read_many_in(
    kind: &Kind,
    objects: &[u32],
    seen: u64,
    values: &mut [i64],
    applied: &mut u64,
) -> u32
    ensures { AtKind site_of kind.now result ((values.new ≡ values.old) × (applied.new ≡ applied.old)) (λ s. ReadsMany s.cell objects.now seen (record { values = values.old; applied = applied.old }) (record { values = values.new; applied = applied.new }) result) }
{
    match kind {
        Kind::OfSite(site) => read_many(&site.cell, objects, seen, values, applied),
        Kind::OfSetup(_) | Kind::OfBook(_) | Kind::OfQuery(_) => OTHER,
    }
}

fn read_many(
    cell: &SiteCell<RingTakeEnd>,
    objects: &[u32],
    seen: u64,
    values: &mut [i64],
    applied: &mut u64,
) -> u32
    ensures { ReadsMany cell.now objects.now seen (record { values = values.old; applied = applied.old }) (record { values = values.new; applied = applied.new }) result }
{
    if !have_objects(cell, objects) {
        return UNKNOWN_OBJECT;
    }
    if values.len() < objects.len() {
        return MORE;
    }
    write_values(cell, objects, values);
    *applied = applied_of(cell);
    level_status(cell, seen)
}

/// Writes the values of objects over the front of a buffer.
fn write_values(cell: &SiteCell<RingTakeEnd>, objects: &[u32], values: &mut [i64])
    requires objects { list_all (has_object cell.now) objects.now ≡ true }
    requires room { length objects.now ≤ length values.old }
    ensures { values.new ≡ map (value_of cell.now) objects.now ++ drop (length objects.now) values.old }
{
    for index in 0..objects.len() {
        values[index] = value_of(cell, objects[index]);
    }
}

fn have_objects(cell: &SiteCell<RingTakeEnd>, objects: &[u32]) -> bool
    ensures { result ≡ list_all (has_object cell.now) objects.now }
{
    objects.iter().all(|object| has_object(cell, *object))
}

/// Whether a site has an object of this number.
fn has_object(cell: &SiteCell<RingTakeEnd>, object: u32) -> bool
    ensures { result ≡ has_object cell.now object }
{
    object <= u16::MAX as u32 && (object as usize) < cell.site().len()
}

/// The value of an object.
fn value_of(cell: &SiteCell<RingTakeEnd>, object: u32) -> i64
    requires { has_object cell.now object ≡ true }
    ensures { result ≡ value_of cell.now object }
{
    cell.site().value(ObjectId::new(object as u16))
}

/// How many updates a site applied.
fn applied_of(cell: &SiteCell<RingTakeEnd>) -> u64
    ensures { result ≡ applied_of cell.now }
{
    cell.site().applied()
}

/// Whether a site applied as many updates as a reader has seen, as a status.
fn level_status(cell: &SiteCell<RingTakeEnd>, seen: u64) -> u32
    ensures { result ≡ level_status cell.now seen }
{
    if applied_of(cell) < seen {
        BEHIND
    } else {
        DONE
    }
}

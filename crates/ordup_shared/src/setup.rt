//! The calls on declarations.
ghost use Rattle.std.specs.Prelude.{◌≡◌, None, [], IfOk, OnOk, IfErr, map, ⊤};
ghost use Rattle.ordup_objects.specs.Refusals.{IsRefusal};
ghost use Rattle.ordup_primary.specs.Declarations.{with_limit};
ghost use Rattle.ordup_shapes.specs.Scopes.{scope_of};
ghost use Rattle.ordup_shared.specs.declared.status.TheConstants.{NO_MEMORY};
ghost use Rattle.ordup_shared.specs.Setups.{DeclaresGroup, DeclaresLimit, DeclaresMembers, DeclaresObject, DeclaresSite, limit_refusal, member_of, nothing_declared};
ghost use Rattle.ordup_shared.specs.Things.{OnHandle, OnKind, Opened, OpensHandle, setup_of};

use crate::handle::Handle;
use crate::opening::put_new;
use crate::status::{CLOSED, DONE, NO_MEMORY, OPEN, OTHER, status_of};
use crate::thing::Kind;
use ordup_objects::{ObjectId, Refusal, SiteId, or_give_up};
use ordup_primary::Setup;
use ordup_shapes::read_scope;
use std::alloc::{AllocError, Global};

// promise: declarations begin empty
/// Opens a handle on declarations, of which there are none yet.
#[unsafe(no_mangle)]
pub extern "C" fn ordup_setup_open(alloc: Global, setup: &mut Handle) -> u32
    ensures { OpensHandle setup.old.held.thing setup.new.held.thing result (Opened setup_of setup.new.held.thing result (result ≡ NO_MEMORY) (λ d. d ≡ nothing_declared)) }
{
    if setup.is_open() {
        return OPEN;
    }
    put_new(alloc, setup, Kind::OfSetup(Setup::new(alloc)))
}

// promise: objects, groups, sites and limits are declared as given, or refused in order
/// Declares an object with its initial value, and tells its number.
#[unsafe(no_mangle)]
pub extern "C" fn ordup_setup_object(
    alloc: Global,
    setup: &mut Handle,
    name: &[u8],
    initial: i64,
    id: &mut u32,
) -> u32
    ensures { OnHandle setup_of setup.old.held.thing setup.new.held.thing result (id.new ≡ id.old) (λ d e. DeclaresObject d e name.now initial id.old id.new result) }
{
    let Some(mut thing) = setup.take(alloc) else {
        return CLOSED;
    };
    let status = object_in(&mut thing.kind, name, initial, id);
    setup.put(thing);
    status
}

fn object_in(kind: &mut Kind, name: &[u8], initial: i64, id: &mut u32) -> u32
    ensures { OnKind setup_of kind.old kind.new result (id.new ≡ id.old) (λ d e. DeclaresObject d e name.now initial id.old id.new result) }
{
    match kind {
        Kind::OfSetup(setup) => declare_object(setup, name, initial, id),
        Kind::OfBook(_) | Kind::OfSite(_) | Kind::OfQuery(_) => OTHER,
    }
}

#[tactic(auto, using(crate::proofs::StatusLemmas::is_refused))]
fn declare_object(setup: &mut Setup, name: &[u8], initial: i64, id: &mut u32) -> u32
    ensures { DeclaresObject setup.old setup.new name.now initial id.old id.new result }
{
    match setup.object(name, initial) {
        Ok(object) => {
            *id = object.index() as u32;
            DONE
        }
        Err(refusal) => status_of(&refusal),
    }
}

// promise: as ordup_setup_object
/// Declares a group of objects, and tells its number.
#[unsafe(no_mangle)]
pub extern "C" fn ordup_setup_group(
    alloc: Global,
    setup: &mut Handle,
    name: &[u8],
    objects: &[u32],
    id: &mut u32,
) -> u32
    ensures { OnHandle setup_of setup.old.held.thing setup.new.held.thing result (id.new ≡ id.old) (λ d e. DeclaresGroup d e name.now objects.now id.old id.new result) }
{
    let Some(mut thing) = setup.take(alloc) else {
        return CLOSED;
    };
    let status = group_in(alloc, &mut thing.kind, name, objects, id);
    setup.put(thing);
    status
}

fn group_in(alloc: Global, kind: &mut Kind, name: &[u8], objects: &[u32], id: &mut u32) -> u32
    ensures { OnKind setup_of kind.old kind.new result (id.new ≡ id.old) (λ d e. DeclaresGroup d e name.now objects.now id.old id.new result) }
{
    match kind {
        Kind::OfSetup(setup) => declare_group(alloc, setup, name, objects, id),
        Kind::OfBook(_) | Kind::OfSite(_) | Kind::OfQuery(_) => OTHER,
    }
}

fn declare_group(
    alloc: Global,
    setup: &mut Setup,
    name: &[u8],
    objects: &[u32],
    id: &mut u32,
) -> u32
    ensures { DeclaresGroup setup.old setup.new name.now objects.now id.old id.new result }
{
    let Ok(members) = members_of(alloc, objects) else {
        return NO_MEMORY;
    };
    let status = declare_members(setup, name, members.as_slice(), id);
    drop(members);
    status
}

#[tactic(auto, using(crate::proofs::StatusLemmas::is_refused))]
fn declare_members(setup: &mut Setup, name: &[u8], members: &[ObjectId], id: &mut u32) -> u32
    ensures { DeclaresMembers setup.old setup.new name.now members.now id.old id.new result }
{
    match setup.group(name, members) {
        Ok(group) => {
            *id = group.index() as u32;
            DONE
        }
        Err(refusal) => status_of(&refusal),
    }
}

/// The objects of these numbers.
fn members_of(alloc: Global, objects: &[u32]) -> Result<Vec<ObjectId>, AllocError>
    ensures { IfOk result (λ members. members.items ≡ map member_of objects.now) }
{
    let mut members = Vec::new(alloc);
    or_give_up!(add_members(objects, &mut members), members);
    Ok(members)
}

/// Adds the objects of these numbers to a list without any.
fn add_members(objects: &[u32], members: &mut Vec<ObjectId>) -> Result<(), AllocError>
    requires { members.old.items ≡ [] }
    ensures { OnOk result (members.new.items ≡ map member_of objects.now) }
{
    for index in 0..objects.len() {
        members.push(member_of(objects[index]))?;
    }
    Ok(())
}

/// The object of a number, as a member of a group.
fn member_of(object: u32) -> ObjectId
    ensures { result ≡ member_of object }
{
    ObjectId::new(object.min(u16::MAX as u32) as u16)
}

// promise: as ordup_setup_object
/// Declares a site with the capacity of its feed, and tells its number.
#[unsafe(no_mangle)]
pub extern "C" fn ordup_setup_site(
    alloc: Global,
    setup: &mut Handle,
    name: &[u8],
    capacity: u64,
    id: &mut u32,
) -> u32
    ensures { OnHandle setup_of setup.old.held.thing setup.new.held.thing result (id.new ≡ id.old) (λ d e. DeclaresSite d e name.now capacity id.old id.new result) }
{
    let Some(mut thing) = setup.take(alloc) else {
        return CLOSED;
    };
    let status = site_in(&mut thing.kind, name, capacity, id);
    setup.put(thing);
    status
}

fn site_in(kind: &mut Kind, name: &[u8], capacity: u64, id: &mut u32) -> u32
    ensures { OnKind setup_of kind.old kind.new result (id.new ≡ id.old) (λ d e. DeclaresSite d e name.now capacity id.old id.new result) }
{
    match kind {
        Kind::OfSetup(setup) => declare_site(setup, name, capacity, id),
        Kind::OfBook(_) | Kind::OfSite(_) | Kind::OfQuery(_) => OTHER,
    }
}

#[tactic(auto, using(crate::proofs::StatusLemmas::is_refused))]
fn declare_site(setup: &mut Setup, name: &[u8], capacity: u64, id: &mut u32) -> u32
    ensures { DeclaresSite setup.old setup.new name.now capacity id.old id.new result }
{
    match setup.site(name, capacity) {
        Ok(site) => {
            *id = site.index() as u32;
            DONE
        }
        Err(refusal) => status_of(&refusal),
    }
}

// promise: as ordup_setup_object
/// Declares a limit of a site on a scope, which holds from the start.
#[unsafe(no_mangle)]
pub extern "C" fn ordup_setup_limit(
    alloc: Global,
    setup: &mut Handle,
    site: u32,
    kind: u32,
    id: u32,
    amount: u64,
) -> u32
    ensures { OnHandle setup_of setup.old.held.thing setup.new.held.thing result ⊤ (λ d e. DeclaresLimit d e site kind id amount result) }
{
    let Some(mut thing) = setup.take(alloc) else {
        return CLOSED;
    };
    let status = limit_in(&mut thing.kind, site, kind, id, amount);
    setup.put(thing);
    status
}

#[tactic(auto, using(crate::proofs::StatusLemmas::is_refused))]
fn limit_in(thing: &mut Kind, site: u32, kind: u32, id: u32, amount: u64) -> u32
    ensures { OnKind setup_of thing.old thing.new result ⊤ (λ d e. DeclaresLimit d e site kind id amount result) }
{
    match thing {
        Kind::OfSetup(setup) => match declare_limit(setup, site, kind, id, amount) {
            Ok(()) => DONE,
            Err(refusal) => status_of(&refusal),
        },
        Kind::OfBook(_) | Kind::OfSite(_) | Kind::OfQuery(_) => OTHER,
    }
}

fn declare_limit(
    setup: &mut Setup,
    site: u32,
    kind: u32,
    id: u32,
    amount: u64,
) -> Result<(), Refusal>
    ensures declared { OnOk result (setup.new ≡ with_limit setup.old site (scope_of kind id) amount) }
    ensures allowed { OnOk result (limit_refusal setup.old site kind id amount ≡ None) }
    ensures refused { IfErr result (λ e. IsRefusal (limit_refusal setup.old site kind id amount) e) }
    ensures err { IfErr result (λ _. setup.new ≡ setup.old) }
{
    let scope = &read_scope(setup.objects(), setup.groups(), kind, id)?;
    if site as usize >= setup.sites() {
        return Err(Refusal::UnknownSite);
    }
    setup.limit(SiteId::new(site as u8), *scope, amount)
}

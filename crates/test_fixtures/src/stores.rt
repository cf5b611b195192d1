//! Sites with their feeds and limits, and stores of x, y and such sites.
use crate::objects::{add, x, y};
use ordup_limits::Scope;
use ordup_objects::{Refusal, SiteId};
use ordup_primary::{Primary, Setup};
use std::alloc::Allocator;

/// A site: its name, the capacity of its feed, and its limit, if it has one.
pub type Site = (&'static str, u64, Option<(Scope, u64)>);

/// Declares x and y.
fn declare_objects<A: Allocator + Copy>(setup: &mut Setup<A>) -> Result<(), Refusal> {
    if [setup.object(b"x", 0)?, setup.object(b"y", 10)?] == [x(), y()] {
        Ok(())
    } else {
        Err(Refusal::UnknownObject)
    }
}

/// Declares a site.
fn declare_site<A: Allocator + Copy>(setup: &mut Setup<A>, site: &Site) -> Result<(), Refusal> {
    let (name, capacity, limit) = *site;
    let site = setup.site(name.as_bytes(), capacity)?;
    match limit {
        Some((scope, amount)) => setup.limit(site, scope, amount),
        None => Ok(()),
    }
}

/// Declares x, y and these sites.
fn declare_all<A: Allocator + Copy>(setup: &mut Setup<A>, sites: &[Site]) -> Result<(), Refusal> {
    declare_objects(setup)?;
    for site in sites {
        declare_site(setup, site)?;
    }
    Ok(())
}

/// The declarations of x, y and these sites.
pub fn declared<A: Allocator + Copy>(alloc: A, sites: &[Site]) -> Result<Setup<A>, Refusal> {
    let mut setup = Setup::new(alloc);
    match declare_all(&mut setup, sites) {
        Ok(()) => Ok(setup),
        Err(refusal) => {
            setup.discard();
            Err(refusal)
        }
    }
}

/// A primary of x, y and these sites.
pub fn started<A: Allocator + Copy>(alloc: A, sites: &[Site]) -> Result<Primary<A>, Refusal> {
    let setup = declared(alloc, sites)?;
    if setup.is_ready() {
        Primary::new(alloc, setup)
    } else {
        setup.discard();
        Err(Refusal::Empty)
    }
}

/// Proposes the update that adds a number to x, and answers its number.
pub fn propose_add<A: Allocator + Copy>(primary: &mut Primary<A>, n: i64) -> Result<u64, Refusal> {
    primary.keeps();
    let set = add(primary.setup().objects(), x(), n)?;
    primary.propose(set)
}

/// Notes that the next update was sent to a site.
pub fn mark_sent<A: Allocator + Copy>(
    primary: &mut Primary<A>,
    site: SiteId,
) -> Result<(), Refusal> {
    primary.keeps();
    if site.index() >= primary.setup().sites() {
        return Err(Refusal::UnknownSite);
    }
    if primary.sent(site) >= primary.log().len() {
        return Err(Refusal::NothingToSend);
    }
    primary.mark_sent(site);
    Ok(())
}

/// Notes that a site reported all that was sent to it.
pub fn report_all<A: Allocator + Copy>(
    primary: &mut Primary<A>,
    site: SiteId,
) -> Result<(), Refusal> {
    primary.keeps();
    if site.index() >= primary.setup().sites() {
        return Err(Refusal::UnknownSite);
    }
    let sent = primary.sent(site);
    if primary.reported(site) > sent {
        return Err(Refusal::OutOfRange);
    }
    primary.report(site, sent);
    Ok(())
}

//! Whether a site agrees with a primary.
use crate::expect::made;
use ordup_cluster::holds::agree;
use ordup_objects::{MessageSet, Values};
use ordup_primary::Primary;
use ordup_site::Site;
use std::alloc::Global;
use std::process::Abort;
use std::test::Fail;
use test_fixtures::{a, add, expect, propose_add, started, x};

/// A site of what a primary has at the start.
fn first_site(rt: &impl Abort, alloc: Global, primary: &Primary) -> Site {
    let Ok(site) = Site::new(alloc, primary.setup().objects()) else {
        panic!(rt; "there is no memory for a site")
    };
    site
}

/// Proposes the update that adds a number to x, and notes that it was sent to a.
fn send(rt: &impl Abort, primary: &mut Primary, n: i64) {
    expect!(rt; propose_add(primary, n).is_ok());
    mark_sent(rt, primary);
}

/// Notes that the next update was sent to a.
fn mark_sent(rt: &impl Abort, primary: &mut Primary) {
    primary.keeps();
    expect!(rt; primary.setup().sites() > 0);
    expect!(rt; primary.sent(a()) < primary.log().len());
    primary.mark_sent(a());
}

/// Applies the set that adds a number to x at a site.
fn apply(rt: &impl Abort, primary: &Primary, site: &mut Site, n: i64) {
    let set = made(rt, add(primary.setup().objects(), x(), n));
    apply_set(rt, site, &set);
}

fn apply_set(rt: &impl Abort, site: &mut Site, set: &MessageSet) {
    expect!(rt; set.are_known(site.len()));
    expect!(rt; site.values().allows(set));
    expect!(rt; site.applied() < 1_000_000);
    site.apply(set);
}

/// Whether a site agrees, as the site a of a primary.
fn agrees(rt: &impl Abort, alloc: Global, primary: &Primary, replica: &Site) -> bool {
    primary.keeps();
    expect!(rt; primary.setup().sites() > 0);
    let Ok(values) = Values::initial(alloc, primary.setup().objects()) else {
        panic!(rt; "there is no memory for values")
    };
    agree(primary, a(), replica, values)
}

/// Compares a site with the log, before and after a wrong update.
// shows: agree
#[test]
fn a_site_agrees_where_it_holds_what_it_applied(rt: HostRuntime) -> Result<(), Fail> {
    let alloc = rt.alloc();
    let mut primary = started(alloc, &[("a", 4, None)])?;
    let mut replica = first_site(&rt, alloc, &primary);
    send(&rt, &mut primary, 3);
    expect!(&rt; agrees(&rt, alloc, &primary, &replica));
    apply(&rt, &primary, &mut replica, 4);
    expect!(&rt; !agrees(&rt, alloc, &primary, &replica));
    // Dropped by a call, which is proved once for all tests: docs/DECISIONS.md, Tests.
    drop(replica);
    primary.discard();
    Ok(())
}

/// Compares a site that applied more than it was sent.
// shows: agree
#[test]
fn a_site_agrees_only_up_to_what_it_was_sent(rt: HostRuntime) -> Result<(), Fail> {
    let alloc = rt.alloc();
    let mut primary = started(alloc, &[("a", 4, None)])?;
    let mut replica = first_site(&rt, alloc, &primary);
    send(&rt, &mut primary, 3);
    apply(&rt, &primary, &mut replica, 3);
    expect!(&rt; agrees(&rt, alloc, &primary, &replica));
    apply(&rt, &primary, &mut replica, 3);
    expect!(&rt; !agrees(&rt, alloc, &primary, &replica));
    drop(replica);
    primary.discard();
    Ok(())
}

//! The readers of a primary, and of what it holds.
ghost use Rattle.std.specs.Prelude.{◌≡◌};

use crate::expect::made;
use ordup_limits::{GroupId, Scope};
use ordup_objects::{Moved, Name};
use ordup_primary::{Primary, Setup, Window};
use std::process::Abort;
use test_fixtures::{a, adding, b, expect, expect_eq, x, y};
use test_memory_fixtures::{Heap, Scarce, grouped};

/// The group of x and y.
pub(crate) fn g() -> GroupId
    ensures { result ≡ 0 }
{
    GroupId::new(0)
}

/// Reads names and refusals.
fn expect_names(rt: &impl Abort) {
    expect!(rt; Name::new(b"x").is_ok());
    let Err(refusal) = Name::new(b"9x") else {
        panic!(rt; "a name begins with a digit")
    };
    expect_eq!(rt; refusal.number(), 4);
    expect_eq!(rt; refusal.name(), "BadName");
}

/// Reads objects.
fn expect_objects<'a>(rt: &impl Abort, setup: &Setup<Heap<'a>>) {
    let objects = setup.objects();
    expect!(rt; objects.len() == 2);
    expect_eq!(rt; objects.find(b"y"), Some(y()));
    expect_eq!(rt; objects.find(b"z"), None);
    expect!(rt; objects.name(y()).as_bytes() == b"y".as_slice());
    expect_eq!(rt; objects.initial(y()), 10);
}

/// Reads groups.
fn expect_groups<'a>(rt: &impl Abort, setup: &Setup<Heap<'a>>) {
    let groups = setup.groups();
    expect!(rt; groups.len() == 1);
    expect_eq!(rt; groups.find(b"g"), Some(g()));
    expect_eq!(rt; groups.find(b"h"), None);
    expect!(rt; groups.name(g()).as_bytes() == b"g".as_slice());
    expect!(rt; groups.members(g()) == [x(), y()].as_slice());
}

/// Reads sites.
fn expect_sites<'a>(rt: &impl Abort, setup: &Setup<Heap<'a>>) {
    expect!(rt; setup.is_ready());
    expect!(rt; setup.sites() == 2);
    expect_eq!(rt; setup.find_site(b"b"), Some(b()));
    expect_eq!(rt; setup.find_site(b"c"), None);
    expect!(rt; setup.site_name(b()).as_bytes() == b"b".as_slice());
    expect_eq!(rt; setup.capacity(b()), 4);
}

/// Reads limits: of a 6 on the group.
fn expect_limits<'a>(rt: &impl Abort, setup: &Setup<Heap<'a>>) {
    expect!(rt; setup.sites() == 2);
    let limits = setup.limits(a());
    expect!(rt; limits.len() == 1);
    expect!(rt; limits.entries().len() == 1);
    let (scope, amount) = limits.get(0);
    expect!(rt; scope == Scope::Group(g()));
    expect_eq!(rt; amount, 6);
}

/// Reads the updates: 3 is added to x and to y, then 1 to y, then 4 to x and 3 to y.
fn expect_updates<'a>(rt: &impl Abort, primary: &Primary<Heap<'a>>) {
    let log = primary.log();
    expect!(rt; log.objects() == 2);
    expect!(rt; log.len() == 3);
    expect!(rt; log.set(2).changes() == [adding(y(), 1)].as_slice());
    expect_eq!(rt; log.end_value(x()), 7);
    expect_eq!(rt; log.end_value(y()), 17);
    let moved = Moved {
        object: y(),
        value: 17,
        distance: 3,
    };
    expect_eq!(rt; log.moves(3).last().copied(), Some(moved));
}

/// Reads what the updates weigh.
fn expect_weights<'a>(rt: &impl Abort, primary: &Primary<Heap<'a>>) {
    let (log, groups) = (primary.log(), primary.setup().groups());
    expect!(rt; groups.len() == 1);
    expect!(rt; log.objects() == 2);
    expect!(rt; log.len() == 3);
    expect_eq!(rt; log.weight(3, Scope::Object(x()), groups), 4);
    expect_eq!(rt; log.weight(3, Scope::Group(g()), groups), 7);
    expect_eq!(rt; log.span(Scope::Object(y()), groups, 0, 3), 7);
    expect_eq!(rt; log.span(Scope::Group(g()), groups, 1, 3), 8);
    expect_eq!(rt; log.span(Scope::All, groups, 0, 3), 14);
    expect_eq!(rt; log.span(Scope::Count, groups, 1, 3), 2);
}

/// The place of the first limit of a that the updates up to another pass.
fn passed<'a>(rt: &impl Abort, primary: &Primary<Heap<'a>>, to: u64) -> Option<usize> {
    let (setup, log) = (primary.setup(), primary.log());
    expect!(rt; setup.sites() > 0);
    expect!(rt; log.objects() == setup.objects().len());
    expect!(rt; to <= log.len());
    setup.limits(a()).over(log, setup.groups(), 0, to)
}

/// Reads what was sent, reported and decided.
fn expect_reported<'a>(rt: &impl Abort, primary: &Primary<Heap<'a>>) {
    primary.keeps();
    expect!(rt; primary.setup().sites() == 2);
    expect!(rt; primary.decided() == 3);
    expect_eq!(rt; primary.acked(), 2);
    expect_eq!(rt; [primary.sent(a()), primary.reported(a())], [2, 2]);
    expect_eq!(rt; [primary.sent(b()), primary.reported(b())], [0, 0]);
    expect_eq!(rt; [primary.reported_at(a(), 2), primary.reported_at(a(), 3)], [0, 2]);
    expect_eq!(rt; primary.report_changes(a()).last().copied(), Some((3, 2)));
}

/// Reads rounds and windows: a has two rounds, of which the second waits for it, and b has none.
fn expect_rounds<'a>(rt: &impl Abort, primary: &Primary<Heap<'a>>) {
    primary.keeps();
    expect!(rt; primary.setup().sites() == 2);
    expect!(rt; primary.rounds(a()) == [2, 3].as_slice());
    let windows = [Window { from: 0, to: 2 }, Window { from: 2, to: 3 }];
    expect!(rt; primary.windows(a()) == windows.as_slice());
    expect!(rt; primary.windows(b()).is_empty());
    expect!(rt; primary.waits_for(a()));
    expect!(rt; !primary.waits_for(b()));
    expect!(rt; primary.limits(b()).len() == 1);
}

/// Calls each reader of a primary, and of what it holds.
// shows: no memory
#[test]
fn the_readers_of_a_primary_take_no_memory(rt: HostRuntime) {
    let scarce = Scarce::new(rt.alloc(), u64::MAX);
    let world = made(&rt, grouped(&scarce));
    let primary = world.primary();
    scarce.allow(0);
    expect_names(&rt);
    expect_objects(&rt, primary.setup());
    expect_groups(&rt, primary.setup());
    expect_sites(&rt, primary.setup());
    expect_limits(&rt, primary.setup());
    expect_updates(&rt, primary);
    expect_weights(&rt, primary);
    expect_reported(&rt, primary);
    expect_rounds(&rt, primary);
    // 3 + 3 on g, and then 6 + 1.
    expect_eq!(&rt; [passed(&rt, primary, 1), passed(&rt, primary, 2)], [None, Some(0)]);
    expect!(&rt; !scarce.has_refused());
    world.discard();
}

//! The objects x at 0 and y at 10, the site a, updates of them, and runs over them.
//!
//! Tests drop by a call what a run left, which is proved once for all of them: docs/DECISIONS.md, Tests.
use crate::expect::made;
use crate::promises::run;
use ordup_limits::Scope;
use ordup_objects::{Change, MessageSet, ObjectTable, Op, Refusal};
use ordup_world::{Event, Run, Setup};
use std::alloc::Global;
use std::process::Abort;
use test_fixtures::{a, add, expect_eq, set_of, x, y};

/// The scope of x alone.
pub(crate) fn on_x() -> Scope {
    Scope::Object(x())
}

/// The declarations of x, y, and the site a with these limits, whose feed has a capacity of 4 updates.
pub(crate) fn declared(rt: &impl Abort, alloc: Global, limits: &[(Scope, u64)]) -> Setup {
    let mut setup = Setup::new(alloc);
    expect_eq!(rt; setup.object(b"x", 0), Ok(x()));
    expect_eq!(rt; setup.object(b"y", 10), Ok(y()));
    expect_eq!(rt; setup.site(b"a", 4), Ok(a()));
    for &(scope, amount) in limits {
        expect_eq!(rt; setup.limit(a(), scope, amount), Ok(()));
    }
    setup
}

/// The message set in which x and y take each other's value.
pub(crate) fn swap(rt: &impl Abort, alloc: Global, objects: &ObjectTable) -> MessageSet {
    let changes = [
        Change {
            object: x(),
            op: Op::Take(y()),
        },
        Change {
            object: y(),
            op: Op::Take(x()),
        },
    ];
    made(rt, set_of(alloc, objects, &changes))
}

/// A proposal of the update that adds a number to x.
fn propose_add(rt: &impl Abort, setup: &Setup, n: i64) -> Event {
    Event::Propose(made(rt, add(setup.objects(), x(), n)))
}

/// Runs two updates that add 5 and then 1 to x. The second forces a round of a, and is settled until a has reported it; then a is
/// shown.
pub(crate) fn run_forced_and_awaited(rt: &impl Abort, alloc: Global) -> Result<Run, Refusal> {
    let setup = declared(rt, alloc, &[(on_x(), 5)]);
    let events = [
        propose_add(rt, &setup, 5),
        Event::Settle,
        propose_add(rt, &setup, 1),
        Event::Settle,
        Event::Settle,
        Event::Send(a()),
        Event::Send(a()),
        Event::Apply(a()),
        Event::Report(a()),
        Event::Settle,
        Event::Apply(a()),
        Event::Report(a()),
        Event::Settle,
        Event::Show(a()),
    ];
    let Ok(events) = Vec::from_array(alloc, events) else {
        panic!(rt; "there is no memory for the events")
    };
    run(alloc, setup, events)
}

/// A change of the limit of a on x.
fn limit_x(amount: u64) -> Event {
    Event::Relimit {
        site: a(),
        scope: on_x(),
        amount,
    }
}

/// Runs two updates that add 3 and then 1 to x. The limit on x is changed before the first, between them and after them, and some
/// changes are refused. The second update forces a round of a.
pub(crate) fn run_limited_anew(rt: &impl Abort, alloc: Global) -> Result<Run, Refusal> {
    let setup = declared(rt, alloc, &[(on_x(), 5)]);
    let events = [
        limit_x(9),
        propose_add(rt, &setup, 3),
        Event::Settle,
        limit_x(2),
        limit_x(3),
        propose_add(rt, &setup, 1),
        Event::Settle,
        limit_x(9),
        Event::Send(a()),
        Event::Send(a()),
        Event::Apply(a()),
        Event::Apply(a()),
        Event::Report(a()),
        limit_x(9),
        Event::Settle,
        limit_x(u64::MAX),
        limit_x(0),
        Event::Show(a()),
    ];
    let Ok(events) = Vec::from_array(alloc, events) else {
        panic!(rt; "there is no memory for the events")
    };
    run(alloc, setup, events)
}

/// Runs the update in which x and y swap their values, which a applies; then a is shown. It has no limit.
pub(crate) fn run_swapped(rt: &impl Abort, alloc: Global) -> Result<Run, Refusal> {
    let setup = declared(rt, alloc, &[]);
    let events = [
        Event::Propose(swap(rt, alloc, setup.objects())),
        Event::Send(a()),
        Event::Apply(a()),
        Event::Show(a()),
    ];
    let Ok(events) = Vec::from_array(alloc, events) else {
        panic!(rt; "there is no memory for the events")
    };
    run(alloc, setup, events)
}

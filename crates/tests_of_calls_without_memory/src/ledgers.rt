//! Ledgers of the updates of a primary.
ghost use Rattle.std.specs.Prelude.{◌≡◌, [], IfOk};
ghost use Rattle.ordup_limits.specs.Ledgers.{StandsFor};

use crate::expect::made;
use crate::readers::g;
use ordup_limits::{LagLedger, LimitTable, Scope};
use ordup_objects::Refusal;
use ordup_primary::Primary;
use std::process::Abort;
use test_fixtures::{a, expect, expect_eq};
use test_memory_fixtures::{Heap, Scarce, grouped};

/// A ledger of the limits of a, at the places 0 and 0 of the log.
fn ledger_of_a<'a>(
    rt: &impl Abort,
    heap: Heap<'a>,
    primary: &Primary<Heap<'a>>,
) -> Result<LagLedger<Heap<'a>>, Refusal>
    ensures places { IfOk result (λ ledger. (ledger.reported ≡ 0) × (ledger.extended ≡ 0)) }
    ensures stands { IfOk result (λ ledger. StandsFor ledger primary.now.log primary.now.setup.groups) }
{
    let setup = primary.setup();
    expect!(rt; setup.sites() > 0);
    expect!(rt; primary.log().objects() == setup.objects().len());
    LagLedger::new(heap, setup.limits(a()))
}

/// Whether a is over as updates are added and reported: 6 on g is not over 6, 6 + 1 is, and without the first 1 is not.
fn over_as_it_reports<'a>(
    rt: &impl Abort,
    heap: Heap<'a>,
    primary: &Primary<Heap<'a>>,
) -> [bool; 3] {
    let Ok(mut ledger) = ledger_of_a(rt, heap, primary) else {
        panic!(rt; "there is no ledger")
    };
    let (log, groups) = (primary.log(), primary.setup().groups());
    expect!(rt; log.len() == 3);
    heap.allow(0);
    ledger.extend(log, groups, 1);
    let with_one = ledger.over();
    ledger.extend(log, groups, 2);
    let with_two = ledger.over();
    ledger.reported(log, groups, 1);
    let over = [with_one, with_two, ledger.over()];
    expect!(rt; !heap.has_refused());
    drop(ledger);
    over
}

/// A ledger without limits, at the places 0 and 0 of the log.
fn ledger_of_none<'a>(
    rt: &impl Abort,
    heap: Heap<'a>,
    primary: &Primary<Heap<'a>>,
) -> Result<LagLedger<Heap<'a>>, Refusal>
    ensures limits { IfOk result (λ ledger. ledger.limits ≡ []) }
    ensures places { IfOk result (λ ledger. (ledger.reported ≡ 0) × (ledger.extended ≡ 0)) }
    ensures stands { IfOk result (λ ledger. StandsFor ledger primary.now.log primary.now.setup.groups) }
{
    expect!(rt; primary.log().objects() == primary.setup().objects().len());
    LagLedger::new(heap, &LimitTable::new(heap))
}

/// Whether it is over with two updates added, before it gets a limit of 6 on g and after: they weigh 6 + 1.
fn over_as_it_is_limited<'a>(
    rt: &impl Abort,
    heap: Heap<'a>,
    primary: &Primary<Heap<'a>>,
) -> [bool; 2] {
    heap.allow_all();
    let Ok(mut ledger) = ledger_of_none(rt, heap, primary) else {
        panic!(rt; "there is no ledger")
    };
    let (log, groups) = (primary.log(), primary.setup().groups());
    expect!(rt; log.len() == 3);
    expect!(rt; groups.len() == 1);
    heap.allow(0);
    ledger.extend(log, groups, 2);
    let unlimited = ledger.over();
    ledger.change(log, groups, Scope::Group(g()), 6);
    let over = [unlimited, ledger.over()];
    expect!(rt; !heap.has_refused());
    drop(ledger);
    over
}

/// Keeps ledgers of the updates of a primary.
// shows: no memory
#[test]
fn ledgers_take_no_memory(rt: HostRuntime) {
    let scarce = Scarce::new(rt.alloc(), u64::MAX);
    let world = made(&rt, grouped(&scarce));
    let primary = world.primary();
    expect_eq!(&rt; over_as_it_reports(&rt, &scarce, primary), [false, true, false]);
    expect_eq!(&rt; over_as_it_is_limited(&rt, &scarce, primary), [false, true]);
    world.discard();
}

//! A change of a limit of a primary, with each of its growths refused in turn.
use crate::copies::digest_of;
use crate::expect::made;
use ordup_limits::{Limit, LimitEntry, Scope};
use ordup_objects::Refusal;
use ordup_primary::{Primary, Settled};
use std::process::Abort;
use test_fixtures::{a, expect, expect_eq, propose_add, x};
use test_memory_fixtures::{Heap, Scarce, started};

/// Adds 3 to x by an update that is acknowledged. It is within the limit of a on x, which is 5, and a does not report it.
fn acknowledge<'a>(rt: &impl Abort, primary: &mut Primary<Heap<'a>>) {
    expect_eq!(rt; propose_add(primary, 3), Ok(1));
    match primary.settle() {
        Ok(Settled::Acked(number)) => expect_eq!(rt; number, 1),
        _ => panic!(rt; "nothing is acknowledged"),
    }
}

/// Lowers the limit of a on a scope to the 3 that it lags by there, or begins one.
fn relimit<'a>(
    rt: &impl Abort,
    primary: &mut Primary<Heap<'a>>,
    scope: &Scope,
) -> Result<u64, Refusal> {
    primary.keeps();
    expect!(rt; primary.setup().sites() > 0);
    primary.relimit(a(), *scope, 3)
}

/// A limit that holds from a place on.
fn entry(scope: &Scope, amount: u64, place: u64) -> LimitEntry {
    let scope = *scope;
    LimitEntry {
        limit: Limit { scope, amount },
        place,
    }
}

/// Whether a has the limit of 5 on x, and from place 2 on that of 3 on the scope.
fn is_changed<'a>(rt: &impl Abort, primary: &Primary<Heap<'a>>, scope: &Scope) -> bool {
    primary.keeps();
    expect!(rt; primary.setup().sites() > 0);
    let wanted = [entry(&Scope::Object(x()), 5, 1), entry(scope, 3, 2)];
    primary.limits(a()).entries() == wanted.as_slice()
}

/// Changes a limit with this count of growths allowed, and again with memory where one is refused: whether one was refused.
fn is_refused<'a>(
    rt: &impl Abort,
    heap: Heap<'a>,
    primary: &mut Primary<Heap<'a>>,
    scope: &Scope,
    allowed: u64,
) -> bool {
    let before = digest_of(rt, heap, primary);
    heap.allow(allowed);
    let mut place = relimit(rt, primary, scope);
    let refused = heap.has_refused();
    if refused {
        expect!(rt; place == Err(Refusal::NoMemory), allowed);
        expect!(rt; digest_of(rt, heap, primary) == before, allowed);
        heap.allow_all();
        place = relimit(rt, primary, scope);
    }
    expect!(rt; place == Ok(2), allowed);
    expect!(rt; is_changed(rt, primary, scope), allowed);
    refused
}

/// How many growths a change of a limit meets, each of which is refused in turn.
fn growths_of_change<'a>(rt: &impl Abort, heap: Heap<'a>, scope: &Scope) -> u64 {
    for allowed in 0..100u64 {
        let mut primary = made(rt, started(heap));
        acknowledge(rt, &mut primary);
        let refused = is_refused(rt, heap, &mut primary, scope, allowed);
        primary.discard();
        if !refused {
            return allowed;
        }
    }
    panic!(rt; "its growths have no end")
}

/// Refuses each growth of a change of the limit on a scope that has one, and of a change that begins one.
// shows: Primary::relimit err; want of memory
#[test]
fn each_growth_of_a_changed_limit_is_refused(rt: HostRuntime) {
    let scarce = Scarce::new(rt.alloc(), 0);
    expect!(&rt; growths_of_change(&rt, &scarce, &Scope::Object(x())) > 0);
    expect!(&rt; growths_of_change(&rt, &scarce, &Scope::All) > 0);
}

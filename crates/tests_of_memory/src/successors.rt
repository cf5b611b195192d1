//! The successor of a primary's store: when there is one, what it begins with, and each growth of its setup refused in turn.
use crate::expect::made;
use crate::promises::successor;
use ordup_limits::{Limit, LimitEntry, Scope};
use ordup_objects::Refusal;
use ordup_primary::{Primary, Settled, Setup};
use std::process::Abort;
use test_fixtures::{a, expect, expect_eq, mark_sent, propose_add, report_all, x, y};
use test_memory_fixtures::{Heap, Scarce, started};

/// Settles the head, and expects that this is acknowledged, where it is anything.
fn settle<'a>(rt: &impl Abort, primary: &mut Primary<Heap<'a>>, acked: Option<u64>) {
    let settled = match primary.settle() {
        Ok(Settled::Acked(number)) => Some(number),
        _ => None,
    };
    expect_eq!(rt; settled, acked);
}

/// Lowers the limit of a on x to the 3 that it lags by.
fn lower<'a>(rt: &impl Abort, primary: &mut Primary<Heap<'a>>) {
    primary.keeps();
    expect!(rt; primary.setup().sites() > 0);
    expect_eq!(rt; primary.relimit(a(), Scope::Object(x()), 3), Ok(2));
}

/// Notes that one update more was sent to a, and that a reported all that was sent to it.
fn reach<'a>(rt: &impl Abort, primary: &mut Primary<Heap<'a>>) {
    made(rt, mark_sent(primary, a()));
    made(rt, report_all(primary, a()));
}

/// Why the store of a primary has no successor, if it has none.
fn refusal<'a>(heap: Heap<'a>, primary: &Primary<Heap<'a>>) -> Option<Refusal> {
    match successor(heap, primary) {
        Ok(successor_setup) => {
            successor_setup.discard();
            None
        }
        Err(refusal) => Some(refusal),
    }
}

/// While an update waits there is no successor, also where it is decided. In the end x is 3 + 1.
fn end<'a>(rt: &impl Abort, heap: Heap<'a>, primary: &mut Primary<Heap<'a>>) {
    expect_eq!(rt; refusal(heap, primary), None);
    expect_eq!(rt; propose_add(primary, 3), Ok(1));
    expect_eq!(rt; refusal(heap, primary), Some(Refusal::NotYet { number: 1 }));
    settle(rt, primary, Some(1));
    lower(rt, primary);
    expect_eq!(rt; propose_add(primary, 1), Ok(2));
    settle(rt, primary, None);
    expect_eq!(rt; refusal(heap, primary), Some(Refusal::NotYet { number: 2 }));
    reach(rt, primary);
    reach(rt, primary);
    expect_eq!(rt; refusal(heap, primary), Some(Refusal::NotYet { number: 2 }));
    settle(rt, primary, Some(2));
}

/// x begins at 4, and y at 10. The site a has a feed of 4, and the limit of 3 on x is in force from the start.
fn expect_successor<'a>(rt: &impl Abort, successor_setup: &Setup<Heap<'a>>) {
    let objects = successor_setup.objects();
    expect!(rt; objects.len() == 2);
    expect_eq!(rt; objects.initial(x()), 4);
    expect_eq!(rt; objects.initial(y()), 10);
    expect_eq!(rt; objects.find(b"x"), Some(x()));
    expect_eq!(rt; objects.find(b"y"), Some(y()));
    expect_eq!(rt; successor_setup.find_site(b"a"), Some(a()));
    expect!(rt; successor_setup.sites() == 1);
    expect!(rt; successor_setup.capacity(a()) == 4);
    let limit = Limit {
        scope: Scope::Object(x()),
        amount: 3,
    };
    let wanted = [LimitEntry { limit, place: 1 }];
    expect!(rt; successor_setup.limits(a()).entries() == wanted.as_slice());
}

/// Makes the setup with this count of growths allowed: whether one was refused.
fn is_refused<'a>(
    rt: &impl Abort,
    heap: Heap<'a>,
    primary: &Primary<Heap<'a>>,
    allowed: u64,
) -> bool {
    heap.allow(allowed);
    let refused = match successor(heap, primary) {
        Ok(successor_setup) => {
            expect_successor(rt, &successor_setup);
            successor_setup.discard();
            None
        }
        Err(refusal) => Some(refusal),
    };
    expect!(rt; (refused == Some(Refusal::NoMemory)) == heap.has_refused(), allowed);
    refused.is_some()
}

// shows: Primary::successor values limits allowed refused; want of memory
#[test]
fn there_is_a_successor_once_all_is_acknowledged(rt: HostRuntime) {
    let scarce = Scarce::new(rt.alloc(), 0);
    let mut primary = made(&rt, started(&scarce));
    end(&rt, &scarce, &mut primary);
    let mut growths = 0u64;
    for allowed in 0..100u64 {
        if !is_refused(&rt, &scarce, &primary, allowed) {
            growths = allowed;
            break;
        }
    }
    expect!(&rt; growths > 0);
    primary.discard();
}

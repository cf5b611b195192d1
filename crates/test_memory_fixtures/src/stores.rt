//! A store of x, y and the site a, whose limit on x is 5. It is made with memory.
use crate::scarce::Heap;
use ordup_limits::Scope;
use ordup_objects::Refusal;
use ordup_primary::{Primary, Setup};
use test_fixtures::{Site, x};

/// The site a.
fn a() -> Site {
    ("a", 4, Some((Scope::Object(x()), 5)))
}

/// The declarations of the store.
pub fn declared<'a>(heap: Heap<'a>) -> Result<Setup<Heap<'a>>, Refusal> {
    heap.allow_all();
    test_fixtures::declared(heap, &[a()])
}

/// The primary of the store.
pub fn started<'a>(heap: Heap<'a>) -> Result<Primary<Heap<'a>>, Refusal> {
    heap.allow_all();
    test_fixtures::started(heap, &[a()])
}

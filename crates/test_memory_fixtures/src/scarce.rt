//! An allocator that gives a count of allocations and no more.
use std::alloc::{AllocError, Allocator, Global};
use std::cell::Cell;

/// Passes each call on, and refuses every allocation after those that are allowed.
#[derive(Drop)]
pub struct Scarce<A: Allocator> {
    heap: A,
    /// How many allocations there are up to the first that is refused, with that one. It is 0 once one was refused.
    until_refused: Cell<u64>,
}

/// Where what is tested takes its memory from.
pub type Heap<'a> = &'a Scarce<Global>;

impl<A: Allocator> Scarce<A> {
    pub fn new(heap: A, allocations: u64) -> Self {
        Scarce {
            heap,
            until_refused: Cell::new(allocations.saturating_add(1)),
        }
    }

    /// Allows this count of allocations from now on.
    pub fn allow(&self, allocations: u64) {
        self.until_refused.set(allocations.saturating_add(1));
    }

    /// Allows more allocations than a test makes.
    pub fn allow_all(&self) {
        self.allow(u64::MAX);
    }

    /// Whether one was refused since they were last allowed.
    pub fn has_refused(&self) -> bool {
        self.until_refused.get() == 0
    }
}

/// Takes one of those that are allowed, where there is one.
fn take_one(until_refused: &Cell<u64>) -> bool {
    let count = until_refused.get();
    until_refused.set(count.saturating_sub(1));
    count > 1
}

unsafe impl<A: Allocator> Allocator for Scarce<A> {
    ghost dealloc_token = { λ scarce ty ptr. A.dealloc_token scarce.heap ty ptr };

    fn allocate(&self, size: usize, align: usize) -> Result<*mut u8, AllocError> {
        if take_one(&self.until_refused) {
            self.heap.allocate(size, align)
        } else {
            Err(AllocError)
        }
    }

    unsafe fn deallocate(&self, ptr: *mut u8, size: usize, align: usize) {
        self.heap.deallocate(ptr, size, align);
    }
}

//! How long the threads of a test wait.
use std::sync::atomic::{AtomicBool, Ordering};
use std::thread;

/// How often a thread looks for what it waits for before the test fails.
pub const TRIES: u64 = 10_000_000;

/// How many turns a proposal has.
pub const TURNS: u64 = 1_000_000;

/// Waits until a flag is raised, and answers whether it was within this count of tries.
pub fn is_raised_within(flag: &AtomicBool, tries: u64) -> bool {
    for _ in 0..tries {
        if flag.load(Ordering::SeqCst) {
            return true;
        }
        thread::yield_now();
    }
    false
}

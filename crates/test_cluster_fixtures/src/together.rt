//! What the threads of a test do: each its part, over what they share.
//!
//! Each closure of a `join` is proved with all that it captures. Here that is done once for all tests.
use std::sync::Wait;
use std::thread;
use std::thread::Threads;

/// The parts of a test, which are numbered from 0. Beyond the last one nothing is done. What a part may do beside waiting, such as
/// failing the test, the test says of the runtime `R`.
pub trait Parts<R: Wait> {
    fn part(&self, rt: &R, number: u8);
}

/// Does two parts from this number on, each in a thread of its own.
pub fn do_two<R: Threads + Wait + Sync, P: Parts<R> + Sync>(rt: &R, parts: &P, first: u8) {
    thread::join(
        rt,
        move || parts.part(rt, first),
        move || parts.part(rt, first.saturating_add(1)),
    );
}

/// Does four parts from this number on.
pub fn do_four<R: Threads + Wait + Sync, P: Parts<R> + Sync>(rt: &R, parts: &P, first: u8) {
    thread::join(
        rt,
        move || do_two(rt, parts, first),
        move || do_two(rt, parts, first.saturating_add(2)),
    );
}

/// Does the parts from 0 to 7.
pub fn do_eight<R: Threads + Wait + Sync, P: Parts<R> + Sync>(rt: &R, parts: &P) {
    thread::join(
        rt,
        move || do_four(rt, parts, 0),
        move || do_four(rt, parts, 4),
    );
}

/// Does the parts from 0 to 9.
pub fn do_ten<R: Threads + Wait + Sync, P: Parts<R> + Sync>(rt: &R, parts: &P) {
    thread::join(
        rt,
        move || do_eight(rt, parts),
        move || do_two(rt, parts, 8),
    );
}

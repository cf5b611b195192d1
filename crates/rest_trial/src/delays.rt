//! Delays that differ from one to the next, so that what another thread does comes now before and now after each step.
use ordup_cluster::Gate;
use ordup_objects::SiteId;
use std::sync::Wait;
use std::time::{Clock, Duration};
use std::{hint, thread};

/// A gate that delays each of its calls.
pub(crate) struct Delays;

impl Gate for Delays {
    fn before_apply<R: Wait>(&self, _rt: &R, site: SiteId, number: u64) {
        delay(number, site.index() as u64);
    }

    fn at_apply<R: Wait>(&self, _rt: &R, site: SiteId, number: u64) {
        delay(number, 16u64.wrapping_add(site.index() as u64));
    }
}

/// Lets time pass, as it follows from the number of an update and from the place where that is: one time in two none, else up to some
/// microseconds, and one time in 64 what other threads take that the processor is yielded to.
pub(crate) fn delay(number: u64, place: u64) {
    let mixed = mixed(number, place);
    if mixed == 63 {
        thread::yield_now();
    } else if mixed < 32 {
        spin(mixed.saturating_mul(8));
    }
}

/// Lets more time pass, in which a thread that finds nothing to do comes to its sleep: one time in four the caller sleeps for some
/// microseconds.
pub(crate) fn long_delay(clock: &impl Clock, number: u64, place: u64) {
    let mixed = mixed(number, place);
    if mixed < 16 {
        thread::sleep(clock, Duration::from_micros(mixed));
    } else if mixed < 32 {
        spin(mixed.saturating_mul(256));
    }
}

/// A number from 0 to 63.
fn mixed(number: u64, place: u64) -> u64 {
    number
        .wrapping_mul(64)
        .wrapping_add(place)
        .wrapping_mul(0x9E37_79B9_7F4A_7C15)
        >> 58
}

fn spin(times: u64) {
    for _ in 0..times {
        hint::spin_loop();
    }
}

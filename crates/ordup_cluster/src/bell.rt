use crossbeam_utils::Backoff;
use std::sync::Wait;
use std::sync::atomic::{AtomicU64, Ordering};
use std::time::Duration;

/// How often one looks again before it sleeps, with longer and longer spins. It gives no processor up: on a busy machine that costs more
/// than a sleep.
pub(crate) const LOOKS: u64 = 7;

/// For how many milliseconds a pause sleeps at most.
const LONGEST: u64 = 1;

/// An event count whose waits may be limited in time. Whoever waits listens, then looks for what it waits for, and sleeps only where
/// the bell did not ring since it listened. Whoever changes what is waited for rings the bell after the change.
#[derive(Drop)]
pub(crate) struct Bell {
    rung: AtomicU64,
    sleepers: AtomicU64,
}

impl Bell {
    pub(crate) fn new() -> Bell {
        Bell {
            rung: AtomicU64::new(0),
            sleepers: AtomicU64::new(0),
        }
    }

    /// How often it rang, for the wait that may follow.
    pub(crate) fn listen(&self) -> u64 {
        self.rung.load(Ordering::SeqCst)
    }

    /// Wakes all that sleep, and ends each wait that does not sleep yet.
    pub(crate) fn ring(&self) {
        self.rung.fetch_add(1, Ordering::SeqCst);
        if self.sleepers.load(Ordering::SeqCst) != 0 {
            self.rung.wake_all();
        }
    }

    /// Waits until it rang after this was heard, for a millisecond at most.
    pub(crate) fn pause<R: Wait>(&self, rt: &R, heard: u64) {
        let backoff = Backoff::new();
        for _ in 0..LOOKS {
            if self.listen() != heard {
                return;
            }
            backoff.spin();
        }
        self.sleepers.fetch_add(1, Ordering::SeqCst);
        if self.listen() == heard {
            self.rung
                .park_timeout(rt, low_bits(heard), Duration::from_millis(LONGEST));
        }
        self.sleepers.fetch_sub(1, Ordering::SeqCst);
    }

    /// Sleeps until it rang after this was heard.
    pub(crate) fn wait<R: Wait>(&self, rt: &R, heard: u64) {
        self.sleepers.fetch_add(1, Ordering::SeqCst);
        for _ in rt.forever() {
            if self.listen() != heard {
                break;
            }
            self.rung.park(rt, low_bits(heard));
        }
        self.sleepers.fetch_sub(1, Ordering::SeqCst);
    }
}

/// Bells by number, so that whoever rings for one number wakes few that wait for others.
#[derive(Drop)]
pub(crate) struct Bells {
    bells: [Bell; 16],
}

impl Bells {
    pub(crate) fn new() -> Bells {
        Bells {
            bells: [
                Bell::new(),
                Bell::new(),
                Bell::new(),
                Bell::new(),
                Bell::new(),
                Bell::new(),
                Bell::new(),
                Bell::new(),
                Bell::new(),
                Bell::new(),
                Bell::new(),
                Bell::new(),
                Bell::new(),
                Bell::new(),
                Bell::new(),
                Bell::new(),
            ],
        }
    }

    /// The bell of a number.
    pub(crate) fn of(&self, number: u64) -> &Bell {
        &self.bells[(number % 16) as usize]
    }

    /// Rings for each number after this one, up to the last.
    pub(crate) fn ring(&self, after: u64, last: u64) {
        for number in after..last.min(after.saturating_add(16)) {
            self.of(number.saturating_add(1)).ring();
        }
    }
}

/// What a sleeper's word is compared by.
fn low_bits(count: u64) -> u32 {
    (count & 0xffff_ffff) as u32
}

/// Sleeps for a millisecond. It asks no clock.
pub(crate) fn nap<R: Wait>(rt: &R) {
    AtomicU64::new(0).park_timeout(rt, 0, Duration::from_millis(LONGEST));
}

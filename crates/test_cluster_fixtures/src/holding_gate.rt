//! A gate that holds a site up.
use crate::waiting::is_raised_within;
use ordup_cluster::Gate;
use ordup_objects::SiteId;
use std::sync::Wait;
use std::sync::atomic::{AtomicBool, Ordering};

/// Which call of a gate holds the site a up.
#[derive(Clone, Copy, PartialEq, Eq)]
pub enum Held {
    /// The one that no lock is held in.
    BeforeApply,
    /// The one under the lock of the site.
    AtApply,
}

/// Holds the site a up before its first update until it is opened, or its tries are spent.
#[derive(Drop)]
pub struct HoldingGate {
    by: Held,
    tries: u64,
    /// Whether it holds the site, or has held it.
    holding: AtomicBool,
    open: AtomicBool,
    gave_up: AtomicBool,
}

impl HoldingGate {
    /// A gate that is closed.
    pub fn new(by: Held, tries: u64) -> HoldingGate {
        HoldingGate {
            by,
            tries,
            holding: AtomicBool::new(false),
            open: AtomicBool::new(false),
            gave_up: AtomicBool::new(false),
        }
    }

    /// Which of its calls holds the site up.
    pub fn by(&self) -> Held {
        self.by
    }

    /// Opens it.
    pub fn open(&self) {
        self.open.store(true, Ordering::SeqCst);
    }

    /// Raised once it holds the site.
    pub fn holding(&self) -> &AtomicBool {
        &self.holding
    }

    /// Whether its tries were spent.
    pub fn gave_up(&self) -> bool {
        self.gave_up.load(Ordering::SeqCst)
    }

    fn hold(&self, site: SiteId, number: u64) {
        if site.index() == 0 && number == 1 {
            self.holding.store(true, Ordering::SeqCst);
            if !is_raised_within(&self.open, self.tries) {
                self.gave_up.store(true, Ordering::SeqCst);
            }
        }
    }
}

impl Gate for HoldingGate {
    fn before_apply<R: Wait>(&self, _rt: &R, site: SiteId, number: u64) {
        if self.by == Held::BeforeApply {
            self.hold(site, number);
        }
    }

    fn at_apply<R: Wait>(&self, _rt: &R, site: SiteId, number: u64) {
        if self.by == Held::AtApply {
            self.hold(site, number);
        }
    }
}

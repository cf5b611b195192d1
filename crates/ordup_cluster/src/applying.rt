//! What the threads of a store do that no caller waits for: they apply what comes to a site, and make the turns that are left.
ghost use Rattle.std.specs.Prelude.{◌<◌, length};

use crate::bell::{LOOKS, nap};
use crate::cluster::Cluster;
use crate::gate::Gate;
use crossbeam_utils::Backoff;
use ordup_holds::{has_work, take};
use ordup_objects::{Refusal, SiteId};
use std::sync::Wait;
use std::sync::atomic::Ordering;

impl Cluster {
    // waits: of its site, twice for each look at its feed | until a look that began after `stop` finds the feed empty
    /// Applies what comes to a site, and ends with a turn that began after `stop` and found the feed empty. It answers how many
    /// updates it applied. It runs in a thread of its own, and sleeps while its feed is empty.
    pub fn applier<G: Gate, R: Wait>(&self, rt: &R, site: SiteId, gate: &G) -> u64
        requires { site < length self.now.start.sites }
    {
        let mut count = 0u64;
        let mut looks = 0u64;
        let backoff = Backoff::new();
        for _ in rt.forever() {
            let sleep = if looks < LOOKS {
                None
            } else {
                Some(self.sent.prepare_wait())
            };
            let stopping = self.stopped.load(Ordering::SeqCst);
            match self.apply_next(rt, site, gate) {
                Some(_) => {
                    self.told.ring();
                    count = count.saturating_add(1);
                    looks = 0;
                    backoff.reset();
                }
                None if stopping => break,
                None => match sleep {
                    Some(key) => key.wait(rt),
                    None => {
                        looks += 1;
                        backoff.spin();
                    }
                },
            }
        }
        count
    }

    /// One turn of an applier: the site applies the next update of its feed, if there is one, and the answer is its number, as the
    /// store's feed has it.
    fn apply_next<G: Gate, R: Wait>(&self, rt: &R, site: SiteId, gate: &G) -> Option<u64>
        requires { site < length self.now.start.sites }
    {
        let next = self.cells[site.index()].lock(rt).next();
        gate.before_apply(rt, site, self.before.saturating_add(next));
        let mut cell = self.cells[site.index()].lock(rt);
        let next = cell.next();
        gate.at_apply(rt, site, self.before.saturating_add(next));
        take(rt, &mut cell)
    }

    // waits: as `finish` | until `stop`, or until the store has so many updates
    /// Finishes what callers began and do not wait for, until `stop`: it makes a turn where an update is not acknowledged, or not sent
    /// to each site, whenever a site told something, once a millisecond at most. It runs in a thread of its own, and sleeps else.
    pub fn keeper<R: Wait>(&self, rt: &R) {
        self.keeper_until(rt, u64::MAX);
    }

    // waits: as Cluster::keeper
    /// The same, until `stop` or until the store has this many updates, without those that came before it.
    pub fn keeper_until<R: Wait>(&self, rt: &R, updates: u64) {
        self.due.store(updates, Ordering::SeqCst);
        for _ in rt.forever() {
            let heard = self.listen();
            let is_over = self.stopped.load(Ordering::SeqCst) || self.numbered() >= updates;
            let kept = self.keep(rt);
            if is_over {
                break;
            }
            // After a growth that was refused it tries again.
            if kept.is_ok() {
                self.told.wait(rt, heard);
            }
            nap(rt);
        }
    }

    // waits: of the book, before each turn and in it | until all updates are acknowledged and sent, at most `turns` turns, with a pause
    // after each
    /// Makes turns until all updates are acknowledged and sent to each site, at most so many. Between two it sleeps until a site told
    /// something, for a millisecond at most.
    pub fn finish<R: Wait>(&self, rt: &R, turns: u64) {
        for _ in 0..turns {
            let heard = self.listen();
            if let Ok(false) = self.keep(rt) {
                return;
            }
            self.pause(rt, heard);
        }
    }

    /// One turn, where something is left to do. It answers whether it made one.
    fn keep<R: Wait>(&self, rt: &R) -> Result<bool, Refusal> {
        let is_left = has_work(self.book.lock(rt).primary());
        if is_left {
            self.turn(rt)?;
        }
        Ok(is_left)
    }
}

//! What a hold of the book tells those who sleep, and on what a caller sleeps between two turns.
ghost use Rattle.std.specs.Prelude.{◌≡◌, ◌≤◌, ◌+◌, IfOk};
ghost use Rattle.ordup_objects.specs.Sizes.{most_updates};

use crate::cluster::Cluster;
use crate::progress::Progress;
use ordup_holds::turn;
use ordup_objects::Refusal;
use std::sync::Wait;
use std::sync::atomic::Ordering;

impl Cluster {
    /// Notes that the log has this many updates, and wakes the keeper where that is for as many as it keeps.
    pub(crate) fn note(&self, number: u64) {
        self.numbered.fetch_max(number, Ordering::SeqCst);
        if number >= self.due.load(Ordering::SeqCst) {
            self.told.ring();
        }
    }

    /// What a turn answered, with the updates that came before the store. Where it was refused a growth, the keeper is woken, since no
    /// site may have anything to tell.
    pub(crate) fn counted(&self, acked: Result<u64, Refusal>) -> Result<u64, Refusal>
        requires { IfOk acked (λ a. a ≤ most_updates) }
        ensures { IfOk acked (λ a. IfOk result (λ b. b ≡ self.now.before + a)) }
    {
        match acked {
            Ok(acked) => Ok(self.before + acked),
            Err(refusal) => {
                self.told.ring();
                Err(refusal)
            }
        }
    }

    /// What is heard of the sites, for the pause that may follow.
    pub(crate) fn listen(&self) -> u64 {
        self.told.listen()
    }

    /// Sleeps, for a millisecond at most, before the next turn for the update with this number: until a site told something after this
    /// was heard, where the update is the head, and else until it is.
    pub(crate) fn pause_for<R: Wait>(&self, rt: &R, number: u64, heard: u64) {
        let head = self.heads.of(number.saturating_sub(self.before));
        let heard_of_head = head.listen();
        let acked = self
            .before
            .saturating_add(self.acked.load(Ordering::SeqCst));
        if acked.saturating_add(1) < number {
            head.pause(rt, heard_of_head);
        } else {
            self.told.pause(rt, heard);
        }
    }

    /// Sleeps until a site told something after this was heard, for a millisecond at most.
    pub(crate) fn pause<R: Wait>(&self, rt: &R, heard: u64) {
        self.told.pause(rt, heard);
    }

    /// A turn of the book. It answers how many updates are acknowledged, those before the store too.
    pub(crate) fn turn<R: Wait>(&self, rt: &R) -> Result<u64, Refusal> {
        let mut book = self.book.lock(rt);
        let before = Progress::of(book.primary());
        let acked = turn(rt, &mut book);
        let after = Progress::of(book.primary());
        drop(book);
        self.tell(before, after);
        self.counted(acked)
    }

    /// Tells those who wait for it what a hold of the book changed. Each acknowledged update makes the next one the head.
    pub(crate) fn tell(&self, before: Progress, after: Progress) {
        if after.sent != before.sent {
            self.sent.notify_all();
        }
        if after.acked != before.acked {
            self.acked.fetch_max(after.acked, Ordering::SeqCst);
            self.heads.ring(before.acked, after.acked.saturating_add(1));
        }
    }
}

//! How the head is settled.
ghost use Rattle.std.specs.Prelude.{◌≡◌, ◌≤◌, ◌+◌, ◌<◌, None, length, IfOk, IfErr};
ghost use Rattle.ordup_objects.specs.Refusals.{IsRefusal};
ghost use Rattle.ordup_objects.specs.Sizes.{most_sites};

use crate::decisions::{last_place, put_down, reserve_decision};
use crate::primary::Primary;
use crate::settled::Settled;
use crate::site_list::SiteList;
use crate::site_mask::sites_among;
use ordup_objects::{Refusal, SiteId};
use std::alloc::Allocator;

impl<A: Allocator + Copy> Primary<A> {
    ghost use Rattle.ordup_primary.specs.Primaries.{IsPrimary, settle_refusal, forced_now, waiting_now, waits_for, settled_as, acked_or_round, acked_or_waiting, acked_after, Decides, HasFewestRounds};

    // promise first later: the first settlement alone decides the head, by the reports then
    // promise answer: the head is acknowledged exactly if each forced site has reported it
    // promise later: a late report cancels no round
    // promise allowed refused only_first err: `NothingToSettle` comes exactly if all is acknowledged, never for a decided head
    // promise fewest: a site has the fewest rounds at each place, as its windows show
    // promise sound IsPrimary.lags: as Primary::new IsPrimary.lags
    // promise sound IsPrimary.sites: as Primary::new IsPrimary.sites
    // promise first: as Primary::windows
    /// Settles the head, the update after the last acknowledged one.
    ///
    /// The first settlement of the head decides it. A site for which the span from what it has reported to the head passes a
    /// limit is forced: the update waits for it. Where no site is forced, the head is acknowledged at once, and else by the
    /// first later settlement at which each forced site has reported it.
    ///
    /// It is refused `NothingToSettle` where all updates are acknowledged, and `NoMemory`. A later settlement is never refused.
    pub fn settle(&mut self) -> Result<Settled, Refusal>
        ensures answer { IfOk result (λ settled. settled ≡ settled_as self.old) }
        ensures first { IfOk result (λ _. self.old.acked ≡ self.old.decided → Decides self.old self.new) }
        ensures later { IfOk result (λ _. self.old.acked < self.old.decided → self.new ≡ record self.old { acked = acked_after self.old.acked (waiting_now self.old) }) }
        ensures allowed { IfOk result (λ _. settle_refusal self.old ≡ None) }
        ensures refused { IfErr result (λ e. IsRefusal (settle_refusal self.old) e) }
        ensures only_first { IfErr result (λ _. self.old.acked ≡ self.old.decided) }
        ensures err { IfErr result (λ _. self.new ≡ self.old) }
        ensures sound { IsPrimary self.new }
        ensures fewest { HasFewestRounds self.new }
    {
        let settled = self.settle_head();
        self.keeps();
        settled
    }

    // promise: as Primary::settle answer
    /// Whether the head waits for a site: it is decided and not acknowledged, it forced the site, and the site has not reported it.
    ///
    /// The rounds of a site end with the head exactly where the head forced it, so nothing is weighed again.
    pub fn waits_for(&self, site: SiteId) -> bool
        requires { site < length self.now.sites }
        ensures { result ≡ waits_for self.now site }
    {
        let head = self.acked + 1;
        if self.acked == self.decided || self.reported(site) >= head {
            return false;
        }
        last_place(self.rounds(site)) == head
    }

    /// Settles the head, if there is one.
    fn settle_head(&mut self) -> Result<Settled, Refusal>
        ensures answer { IfOk result (λ settled. settled ≡ settled_as self.old) }
        ensures first { IfOk result (λ _. self.old.acked ≡ self.old.decided → Decides self.old self.new) }
        ensures later { IfOk result (λ _. self.old.acked < self.old.decided → self.new ≡ record self.old { acked = acked_after self.old.acked (waiting_now self.old) }) }
        ensures allowed { IfOk result (λ _. settle_refusal self.old ≡ None) }
        ensures refused { IfErr result (λ e. IsRefusal (settle_refusal self.old) e) }
        ensures only_first { IfErr result (λ _. self.old.acked ≡ self.old.decided) }
        ensures err { IfErr result (λ _. self.new ≡ self.old) }
    {
        if self.acked == self.log.len() {
            return Err(Refusal::NothingToSettle);
        }
        let head = self.acked + 1;
        if self.acked == self.decided {
            self.decide(head)
        } else {
            Ok(self.wait(head))
        }
    }

    /// The first settlement of the head, which decides it.
    fn decide(&mut self, head: u64) -> Result<Settled, Refusal>
        requires first { self.old.acked ≡ self.old.decided }
        requires head { head ≡ self.old.acked + 1 }
        requires some { head ≤ length self.old.log.sets }
        ensures answer { IfOk result (λ settled. settled ≡ acked_or_round (self.old.acked + 1) (forced_now self.old)) }
        ensures decides { IfOk result (λ _. Decides self.old self.new) }
        ensures refused { IfErr result (λ e. e ≡ Refusal.NoMemory) }
        ensures err { IfErr result (λ _. self.new ≡ self.old) }
    {
        let over = self.ledger.extend(&self.log, self.setup.groups(), head);
        let forced = sites_among(over, self.setup.sites());
        let mask = self.moved | over;
        reserve_decision(&mut self.sites, mask)?;
        put_down(&mut self.sites, mask, over, head);
        self.moved = 0;
        self.decided = head;
        if forced.as_slice().is_empty() {
            self.acked = head;
            return Ok(Settled::Acked(head));
        }
        Ok(Settled::Round {
            k: head,
            sites: forced,
        })
    }

    /// A later settlement of the head.
    fn wait(&mut self, head: u64) -> Settled
        requires later { self.old.acked < self.old.decided }
        requires head { head ≡ self.old.acked + 1 }
        requires some { head ≤ length self.old.log.sets }
        ensures answer { result ≡ acked_or_waiting (self.old.acked + 1) (waiting_now self.old) }
        ensures later { self.new ≡ record self.old { acked = acked_after self.old.acked (waiting_now self.old) } }
    {
        let waiting = self.waiting_now();
        if waiting.as_slice().is_empty() {
            self.acked = head;
            return Settled::Acked(head);
        }
        Settled::Waiting {
            k: head,
            sites: waiting,
        }
    }

    /// How many sites there are, at most 16.
    fn count(&self) -> usize
        ensures count { result ≡ length self.now.sites }
        ensures few { length self.now.sites ≤ most_sites }
    {
        self.setup.sites()
    }

    /// The sites that the head, which is decided, waits for.
    fn waiting_now(&self) -> SiteList
        requires { self.now.acked < self.now.decided }
        ensures { result ≡ waiting_now self.now }
    {
        let mut waiting = SiteList::new();
        for index in 0..self.count() {
            let site = SiteId::new(index as u8);
            if self.waits_for(site) {
                waiting.push(site);
            }
        }
        waiting
    }
}

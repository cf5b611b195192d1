ghost use Rattle.std.specs.Prelude.{◌≡◌, ◌↔◌, ◌<◌, ◌≤◌, ℕ, false, length, IfOk, IfErr, OnOk, OnErr};
ghost use Rattle.ordup_primary.specs.Primaries.{progress_at};
ghost use Rattle.ordup_holds.specs.Books.{KeepsBook, IsTied};
ghost use Rattle.ordup_holds.specs.Turning.{Reported, Sent, SentOut, AtEachSite, SameFeeds, Acknowledges, SettlesOut, Turned, TurnedInPart, IsAtRest, kept_at, with_progress, send_bound};

use crate::book::Book;
use crate::sides::SendSide;
use ordup_feed::Sender;
use ordup_objects::{Refusal, SiteId};
use ordup_primary::{Primary, Settled, next_updates_may_follow};

// promise acked turned log refused part: a turn is looks, reports, settlements and pushes alone, these up to the capacity; refused memory
// leaves what was made
/// One turn of a book: for each site a look at its feed, whose number the site then reports; settlements while they acknowledge the
/// head; and for each site the updates that it may be sent, while its feed is not full. It answers how many updates are
/// acknowledged.
///
/// It is refused `NoMemory` as soon as a growth is refused. What was made before it stands.
pub fn turn<H, E: Sender<H>>(rt: &H, book: &mut Book<E>) -> Result<u64, Refusal>
    ensures acked { IfOk result (λ acked. acked ≡ book.new.primary.acked) }
    ensures turned { OnOk result (Turned book.old book.new) }
    ensures refused { IfErr result (λ e. e ≡ Refusal.NoMemory) }
    ensures part { OnErr result (TurnedInPart book.old book.new) }
    ensures log { book.new.primary.log ≡ book.old.primary.log }
{
    let Book { primary, ends, .. } = book;
    report_all(rt, primary, ends);
    settle_all(primary)?;
    send_all(rt, primary, ends)?;
    Ok(primary.acked())
}

// promise: `has_work` says no exactly if all is acknowledged and sent
/// Whether an update is not acknowledged, or not sent to each site.
pub fn has_work(primary: &Primary) -> bool
    ensures { (result ≡ false) ↔ IsAtRest primary.now }
{
    primary.keeps();
    let last = primary.log().len();
    if primary.acked() < last {
        return true;
    }
    for index in 0..primary.setup().sites() {
        if primary.sent(SiteId::new(index as u8)) < last {
            return true;
        }
    }
    false
}

/// For each site one look, and a report of its number.
fn report_all<H, E: Sender<H>>(rt: &H, primary: &mut Primary, ends: &mut Vec<SendSide<E>>)
    requires kept { KeepsBook primary.old ends.old.items }
    ensures kept { KeepsBook primary.new ends.new.items }
    ensures reported { AtEachSite Reported (record { primary = primary.old; ends = ends.old.items }) (record { primary = primary.new; ends = ends.new.items }) }
{
    primary.keeps();
    for index in 0..primary.setup().sites() {
        let site = SiteId::new(index as u8);
        report(rt, primary, &mut ends[index], site);
    }
}

/// One look at the feed of a site, and a report of its number.
fn report<H, E: Sender<H>>(rt: &H, primary: &mut Primary, end: &mut SendSide<E>, site: SiteId)
    requires site { site < length primary.old.sites }
    requires tied { IsTied primary.old site end.old }
    ensures tied { IsTied primary.new site end.new }
    ensures site { primary.new ≡ with_progress primary.old site (progress_at primary.new site) }
    ensures reported { Reported site (kept_at primary.old site end.old) (kept_at primary.new site end.new) }
{
    primary.keeps();
    let place = end.look(rt);
    primary.report(site, place);
}

/// Settlements while they acknowledge the head.
fn settle_all(primary: &mut Primary) -> Result<(), Refusal>
    ensures feeds { SameFeeds primary.old primary.new }
    ensures settled { OnOk result (SettlesOut primary.old primary.new) }
    ensures refused { IfErr result (λ e. e ≡ Refusal.NoMemory) }
    ensures part { OnErr result ((n : ℕ) × Acknowledges n primary.old primary.new) }
{
    while primary.acked() < primary.log().len() {
        match primary.settle()? {
            Settled::Acked(_) => {}
            Settled::Round { .. } | Settled::Waiting { .. } => return Ok(()),
        }
    }
    Ok(())
}

/// For each site the updates that it may be sent, while its feed is not full.
fn send_all<H, E: Sender<H>>(
    rt: &H,
    primary: &mut Primary,
    ends: &mut Vec<SendSide<E>>,
) -> Result<(), Refusal>
    requires kept { KeepsBook primary.old ends.old.items }
    ensures kept { KeepsBook primary.new ends.new.items }
    ensures sent { AtEachSite (Sent (send_bound primary.old)) (record { primary = primary.old; ends = ends.old.items }) (record { primary = primary.new; ends = ends.new.items }) }
    ensures out { OnOk result (AtEachSite (SentOut (send_bound primary.old)) (record { primary = primary.old; ends = ends.old.items }) (record { primary = primary.new; ends = ends.new.items })) }
    ensures refused { IfErr result (λ e. e ≡ Refusal.NoMemory) }
{
    primary.keeps();
    for index in 0..primary.setup().sites() {
        let site = SiteId::new(index as u8);
        send(rt, primary, &mut ends[index], site)?;
    }
    Ok(())
}

/// The updates that a site may be sent, while its feed is not full.
fn send<H, E: Sender<H>>(
    rt: &H,
    primary: &mut Primary,
    end: &mut SendSide<E>,
    site: SiteId,
) -> Result<(), Refusal>
    requires site { site < length primary.old.sites }
    requires tied { IsTied primary.old site end.old }
    ensures tied { IsTied primary.new site end.new }
    ensures site { primary.new ≡ with_progress primary.old site (progress_at primary.new site) }
    ensures sent { Sent (send_bound primary.old) site (kept_at primary.old site end.old) (kept_at primary.new site end.new) }
    ensures out { OnOk result (SentOut (send_bound primary.old) site (kept_at primary.old site end.old) (kept_at primary.new site end.new)) }
    ensures refused { IfErr result (λ e. e ≡ Refusal.NoMemory) }
{
    next_updates_may_follow();
    let last = last_to_send(primary, site);
    while primary.sent(site) < last {
        primary.keeps();
        // A copy for a full feed would be made in vain.
        if end.is_full(rt) {
            return Ok(());
        }
        let parcel = primary.next_for(site)?;
        match end.push(rt, parcel) {
            Ok(()) => primary.mark_sent(site),
            Err(_) => return Ok(()),
        }
    }
    Ok(())
}

/// The last update that a site may be sent: the head where it waits for the site, and else the last of the log.
fn last_to_send(primary: &Primary, site: SiteId) -> u64
    requires { site < length primary.now.sites }
    ensures bound { result ≡ send_bound primary.now site }
    ensures logged { result ≤ length primary.now.log.sets }
{
    if primary.waits_for(site) {
        primary.acked() + 1
    } else {
        primary.log().len()
    }
}

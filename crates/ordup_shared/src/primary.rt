//! What a primary tells a host.
ghost use Rattle.std.specs.Prelude.{◌≡◌, ◌↔◌, ◌<◌, sum_by, length};
ghost use Rattle.ordup_log.specs.Spans.{IsScopeKnown, span};
ghost use Rattle.ordup_primary.specs.Primaries.{progress_at};
ghost use Rattle.ordup_holds.specs.Turning.{IsAtRest};
ghost use Rattle.ordup_shared.specs.Books.{TellsLag, TellsOf, TellsProgress, lag_of, starved};

use crate::status::{DONE, status_of};
use ordup_holds::has_work;
use ordup_log::Scope;
use ordup_objects::{Refusal, SiteId};
use ordup_primary::Primary;
use ordup_shapes::{Lag, Progress, Told, id_of, kind_of};

/// What a hold of the book leaves.
pub(crate) fn told_of(primary: &Primary, number: u64, turn: &Result<u64, Refusal>) -> Told
    ensures { TellsOf primary.now number turn.now result }
{
    Told {
        number,
        acked: primary.acked(),
        logged: primary.log().len(),
        sent: sent(primary),
        unmet: 0,
        is_starved: starved(turn),
        has_work: work(primary),
    }
}

/// 1 where a turn was refused a growth, else 0.
fn starved(turn: &Result<u64, Refusal>) -> u32
    ensures { result ≡ starved turn.now }
{
    match turn {
        Ok(_) => 0,
        Err(_) => 1,
    }
}

/// 1 where an update is not acknowledged, or not sent to each site, else 0.
fn work(primary: &Primary) -> u32
    ensures none { (result ≡ 0) ↔ IsAtRest primary.now }
    ensures flag { result < 2 }
{
    if has_work(primary) { 1 } else { 0 }
}

/// How many updates were sent, over all sites.
fn sent(primary: &Primary) -> u64
    ensures { result ≡ sum_by (λ site. site.sent) primary.now.sites }
{
    primary.keeps();
    let mut sent = 0u64;
    for index in 0..primary.setup().sites() {
        sent += primary.sent(SiteId::new(index as u8));
    }
    sent
}

/// What a primary knows of a site.
pub(crate) fn tell_progress(primary: &Primary, site: u32, progress: &mut Progress) -> u32
    ensures { TellsProgress primary.now site progress.old progress.new result }
{
    primary.keeps();
    if site as usize >= primary.setup().sites() {
        return status_of(&Refusal::UnknownSite);
    }
    let site = SiteId::new(site as u8);
    *progress = Progress {
        sent: primary.sent(site),
        reported: primary.reported(site),
        rounds: primary.rounds(site).len() as u64,
    };
    DONE
}

/// A limit of a site, and its lag beside it.
pub(crate) fn tell_lag(primary: &Primary, site: u32, index: u32, lag: &mut Lag) -> u32
    ensures { TellsLag primary.now site index lag.old lag.new result }
{
    primary.keeps();
    if site as usize >= primary.setup().sites() {
        return status_of(&Refusal::UnknownSite);
    }
    let site = SiteId::new(site as u8);
    let limits = primary.limits(site);
    if index as usize >= limits.len() {
        return status_of(&Refusal::OutOfRange);
    }
    let (scope, amount) = limits.get(index as usize);
    *lag = lag_of(primary, site, scope, amount);
    DONE
}

/// A limit of a site, and what the acknowledged updates weigh on its scope that the site has not reported.
fn lag_of(primary: &Primary, site: SiteId, scope: Scope, amount: u64) -> Lag
    requires site { site < length primary.now.sites }
    requires known { IsScopeKnown (length primary.now.setup.objects) primary.now.setup.groups scope }
    ensures { result ≡ lag_of primary.now site (record { scope = scope; amount = amount }) }
{
    let scope = &scope;
    Lag {
        kind: kind_of(*scope),
        id: id_of(*scope),
        amount,
        weight: weight_of(primary, site, *scope),
    }
}

/// What the acknowledged updates weigh on a scope that a site has not reported.
fn weight_of(primary: &Primary, site: SiteId, scope: Scope) -> u64
    requires site { site < length primary.now.sites }
    requires known { IsScopeKnown (length primary.now.setup.objects) primary.now.setup.groups scope }
    ensures { result ≡ span primary.now.log primary.now.setup.groups scope (progress_at primary.now site).reported primary.now.acked }
{
    primary.keeps();
    let scope = &scope;
    let reported = primary.reported(site);
    let acked = primary.acked();
    if reported >= acked {
        return 0;
    }
    primary
        .log()
        .span(*scope, primary.setup().groups(), reported, acked)
}

ghost use Rattle.std.specs.Prelude.{◌≡◌, ◌++◌, ◌<◌, [], IfOk, OnOk, length};
ghost use Rattle.ordup_cluster.specs.Clusters.{IsClosed};
ghost use Rattle.ordup_primary.specs.Primaries.{IsPrimary};
ghost use Rattle.ordup_plan.specs.Outcomes.{outcome_text, site_text, certified_text};

use crate::tally::Tally;
use ordup_cluster::Closed;
use ordup_objects::{SiteId, or_give_up};
use ordup_primary::Primary;
use ordup_site::Site;
use ordup_text::{TextBuffer, push_done, push_numbered, push_values, push_with_number};
use std::alloc::{AllocError, Global};

/// The outcome as text: what is left of a cluster, and how its callers were answered.
pub(crate) fn outcome_of(
    alloc: Global,
    closed: &Closed,
    tally: Tally,
) -> Result<TextBuffer, AllocError>
    ensures { IfOk result (λ out. out.text ≡ outcome_text closed.now tally.refused tally.pending) }
{
    let mut out = TextBuffer::new(alloc);
    or_give_up!(push_outcome(&mut out, closed, tally), out);
    Ok(out)
}

/// Adds the outcome to a text that is empty.
fn push_outcome(out: &mut TextBuffer, closed: &Closed, tally: Tally) -> Result<(), AllocError>
    requires { out.old.text ≡ [] }
    ensures { OnOk result (out.new.text ≡ outcome_text closed.now tally.refused tally.pending) }
{
    let primary = closed.primary();
    primary.keeps();
    push_done(out, b"log ", primary.log().len())?;
    push_done(out, b"refused ", tally.refused)?;
    push_done(out, b"pending ", tally.pending)?;
    for index in 0..primary.setup().sites() {
        let site = SiteId::new(index as u8);
        push_site(out, primary, site, closed.site(site))?;
    }
    for index in 0..primary.setup().sites() {
        push_certified(out, primary, SiteId::new(index as u8))?;
    }
    Ok(())
}

/// Adds what a site applied, how many rounds it had, and what it holds.
fn push_site(
    out: &mut TextBuffer,
    primary: &Primary,
    site: SiteId,
    held: &Site,
) -> Result<(), AllocError>
    requires { site < length primary.now.sites }
    ensures { OnOk result (out.new.text ≡ out.old.text ++ site_text primary.now site held.now) }
{
    primary.keeps();
    out.push(b"site ")?;
    out.push(primary.setup().site_name(site).as_bytes())?;
    push_with_number(out, b" applied ", held.applied())?;
    push_with_number(out, b" rounds ", primary.rounds(site).len() as u64)?;
    push_values(out, primary.setup().objects(), held.values().as_slice())?;
    out.push(b"\n")?;
    Ok(())
}

/// Adds how many rounds a site had, which are the fewest that its record can have.
///
/// The check of the site's record would answer the same number, so no record is formed: each record of a primary is valid, and of a
/// valid record the check answers the number of its rounds.
fn push_certified(out: &mut TextBuffer, primary: &Primary, site: SiteId) -> Result<(), AllocError>
    requires { site < length primary.now.sites }
    ensures { OnOk result (out.new.text ≡ out.old.text ++ certified_text primary.now site) }
{
    primary.keeps();
    push_numbered(
        out,
        b"certified ",
        primary.setup().site_name(site).as_bytes(),
        primary.rounds(site).len() as u64,
    )
}

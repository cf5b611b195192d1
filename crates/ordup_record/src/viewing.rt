ghost use Rattle.std.specs.Prelude.{◌≡◌, None, Some, IfOk, IfErr, length, ◌<◌};
ghost use Rattle.ordup_record.specs.RecordsOf.{record_of, record_refusal};
ghost use Rattle.ordup_audit.specs.Validity.{IsValid};

use ordup_audit::{RecordView, ReportChanges};
use ordup_objects::{Refusal, SiteId, prefixes_of_legal_histories_are_legal};
use ordup_primary::Primary;
use std::alloc::Allocator;

// promise content valid allowed refused: the same record is lent, and refused for an unknown site alone
/// The record of a site of a primary, lent: nothing is copied, and no memory is taken. It promises, clause by clause:
///
/// - `content`: it is the record that [`record_of`](crate::record_of) gives.
/// - `valid`: it is valid.
/// - `allowed`: a record is given of a site that is declared.
/// - `refused`: the call is refused `UnknownSite` where the site is not declared, and never else.
pub fn view_of<A: Allocator + Copy>(
    primary: &Primary<A>,
    site: SiteId,
) -> Result<RecordView<'_, A>, Refusal>
    ensures content { IfOk result (λ r. r ≡ record_of primary.now site) }
    ensures valid { IfOk result (λ r. IsValid r) }
    ensures allowed { IfOk result (λ _. record_refusal primary.now site ≡ None) }
    ensures refused { IfErr result (λ e. record_refusal primary.now site ≡ Some e) }
{
    primary.keeps();
    if site.index() >= primary.setup().sites() {
        return Err(Refusal::UnknownSite);
    }
    Ok(lent_by(primary, site))
}

/// What a primary has of a site, as a record.
pub(crate) fn lent_by<A: Allocator + Copy>(primary: &Primary<A>, site: SiteId) -> RecordView<'_, A>
    requires { site < length primary.now.sites }
    ensures content { result ≡ record_of primary.now site }
    ensures valid { IsValid result }
{
    primary.keeps();
    let setup = primary.setup();
    let name = setup.site_name(site);
    let objects = setup.objects();
    let groups = setup.groups();
    let limits = primary.limits(site);
    let log = primary.log();
    name.keeps();
    objects.keeps();
    groups.keeps();
    limits.keeps();
    prefixes_of_legal_histories_are_legal();
    RecordView {
        site: name,
        objects,
        groups,
        limits,
        log,
        logged: primary.decided(),
        rest: &[],
        reports: ReportChanges::Steps(primary.report_changes(site)),
        rounds: primary.rounds(site),
        windows: primary.windows(site),
    }
}

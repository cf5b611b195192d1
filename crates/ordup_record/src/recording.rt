ghost use Rattle.std.specs.Prelude.{◌≡◌, ◌<◌, [], None, IfOk, IfErr, OnOk, length};
ghost use Rattle.ordup_objects.specs.Refusals.{IsRefusal};
ghost use Rattle.ordup_audit.specs.Records.{history_of};
ghost use Rattle.ordup_audit.specs.RecordInside.{state_of, AreParts};
ghost use Rattle.ordup_audit.specs.RecordViews.{changes_in};
ghost use Rattle.ordup_audit.specs.Validity.{IsValid};
ghost use Rattle.ordup_record.specs.RecordsOf.{record_of, record_refusal};

use crate::viewing::lent_by;
use ordup_audit::{Record, RecordParts, RecordView, ReportChange, ReportChanges};
use ordup_limits::{Groups, LimitTable};
use ordup_objects::{ObjectTable, Refusal, SiteId, or_give_up};
use ordup_primary::Primary;
use std::alloc::Allocator;

// promise content allowed refused: the record of a site is what the primary has of it
// promise valid: the record of a primary is valid
/// The record of a site of a primary: copies of what `view_of` lends. It promises, clause by clause:
///
/// - `content`: the record holds what the primary has: the declarations, the decided updates, and the limits, reports, rounds and
///   windows of the site.
/// - `valid`: it is valid, so an auditor who checks it finds the rounds to be the fewest.
/// - `allowed`: a record is given of a site that is declared.
/// - `refused`: the call is refused `UnknownSite` where the site is not declared, and else `NoMemory` alone.
pub fn record_of<A: Allocator + Copy>(
    alloc: A,
    primary: &Primary<A>,
    site: SiteId,
) -> Result<Record<A>, Refusal>
    ensures content { IfOk result (λ r. r ≡ record_of primary.now site) }
    ensures valid { IfOk result (λ r. IsValid r) }
    ensures allowed { IfOk result (λ _. record_refusal primary.now site ≡ None) }
    ensures refused { IfErr result (λ e. IsRefusal (record_refusal primary.now site) e) }
{
    primary.keeps();
    if site.index() >= primary.setup().sites() {
        return Err(Refusal::UnknownSite);
    }
    let mut parts = first_parts(alloc, primary, site)?;
    or_give_up!(
        copy_parts(alloc, &lent_by(primary, site), &mut parts),
        parts
    );
    Ok(Record::from_parts(parts))
}

/// The site's name and the decided updates, and nothing else of the record of a site. It is refused `NoMemory` alone.
fn first_parts<A: Allocator + Copy>(
    alloc: A,
    primary: &Primary<A>,
    site: SiteId,
) -> Result<RecordParts<A>, Refusal>
    requires { site < length primary.now.sites }
    ensures site { IfOk result (λ parts. parts.site ≡ (record_of primary.now site).site) }
    ensures log { IfOk result (λ parts. parts.log ≡ history_of (record_of primary.now site)) }
    ensures rest { IfOk result (λ parts. parts.rest.items ≡ []) }
    ensures refused { IfErr result (λ e. e ≡ Refusal.NoMemory) }
{
    primary.keeps();
    let log = primary.log().copy_prefix(alloc, primary.decided())?;
    Ok(RecordParts {
        site: *primary.setup().site_name(site),
        objects: ObjectTable::new(alloc),
        groups: Groups::new(alloc),
        limits: LimitTable::new(alloc),
        log,
        rest: Vec::new(alloc),
        reports: Vec::new(alloc),
        rounds: Vec::new(alloc),
        windows: Vec::new(alloc),
    })
}

/// Copies what is lent of a record into the first parts of it. It is refused `NoMemory` alone.
// It owns no part, so that the proof takes none apart where memory is refused.
fn copy_parts<A: Allocator + Copy>(
    alloc: A,
    audited: &RecordView<'_, A>,
    parts: &mut RecordParts<A>,
) -> Result<(), Refusal>
    requires site { parts.old.site ≡ audited.now.site }
    requires log { parts.old.log ≡ history_of audited.now }
    requires rest { parts.old.rest.items ≡ [] }
    ensures parts { OnOk result (AreParts parts.new) }
    ensures content { OnOk result (state_of parts.new ≡ audited.now) }
    ensures refused { IfErr result (λ e. e ≡ Refusal.NoMemory) }
{
    audited.keeps();
    copy_declared(alloc, audited, parts)?;
    copy_decided(alloc, audited, parts)?;
    Ok(())
}

/// Copies what is declared. It is refused `NoMemory` alone.
fn copy_declared<A: Allocator + Copy>(
    alloc: A,
    audited: &RecordView<'_, A>,
    parts: &mut RecordParts<A>,
) -> Result<(), Refusal>
    ensures objects { OnOk result (parts.new.objects ≡ audited.now.objects) }
    ensures groups { OnOk result (parts.new.groups ≡ audited.now.groups) }
    ensures limits { OnOk result (parts.new.limits ≡ audited.now.limits) }
    ensures kept { OnOk result (parts.new ≡ record parts.old { objects = parts.new.objects; groups = parts.new.groups; limits = parts.new.limits }) }
    ensures refused { IfErr result (λ e. e ≡ Refusal.NoMemory) }
{
    parts.objects = audited.objects().copy(alloc)?;
    parts.groups = audited.groups().copy(alloc)?;
    parts.limits = audited.limits().copy(alloc)?;
    Ok(())
}

/// Copies what came of the decisions: the reports, the rounds and the windows. It is refused `NoMemory` alone.
fn copy_decided<A: Allocator + Copy>(
    alloc: A,
    audited: &RecordView<'_, A>,
    parts: &mut RecordParts<A>,
) -> Result<(), Refusal>
    ensures reports { OnOk result (parts.new.reports.items ≡ audited.now.reports) }
    ensures rounds { OnOk result (parts.new.rounds.items ≡ audited.now.rounds) }
    ensures windows { OnOk result (parts.new.windows.items ≡ audited.now.windows) }
    ensures kept { OnOk result (parts.new ≡ record parts.old { reports = parts.new.reports; rounds = parts.new.rounds; windows = parts.new.windows }) }
    ensures refused { IfErr result (λ e. e ≡ Refusal.NoMemory) }
{
    parts.reports = copy_changes(alloc, audited.reports())?;
    let Ok(rounds) = Vec::from_slice(alloc, audited.rounds()) else {
        return Err(Refusal::NoMemory);
    };
    parts.rounds = rounds;
    let Ok(windows) = Vec::from_slice(alloc, audited.windows()) else {
        return Err(Refusal::NoMemory);
    };
    parts.windows = windows;
    Ok(())
}

/// The report changes that are lent, copied. It is refused `NoMemory` alone.
fn copy_changes<A: Allocator + Copy>(
    alloc: A,
    lent: ReportChanges<'_>,
) -> Result<Vec<ReportChange, A>, Refusal>
    ensures copied { IfOk result (λ changes. changes.items ≡ changes_in lent.entry) }
    ensures refused { IfErr result (λ e. e ≡ Refusal.NoMemory) }
{
    let mut changes = Vec::with_capacity(alloc, lent.len())?;
    for i in 0..lent.len() {
        changes.push_reserved(lent.at(i));
    }
    Ok(changes)
}

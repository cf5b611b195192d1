//! Public calls whose clauses no proof above them cites, as in `promises.rt` of `test_cluster_fixtures`.
ghost use Rattle.std.specs.Prelude.{◌≡◌, ◌<◌, ◌≤◌, ◌+◌, ◌+ℤ◌, List, ◌∷◌, None, length, IfOk, IfErr, OnErr};
ghost use Rattle.ordup_objects.specs.Refusals.{IsRefusal};
ghost use Rattle.ordup_primary.specs.LimitChanges.{limit_change_refusal};
ghost use Rattle.ordup_primary.specs.Primaries.{IsPrimary, site_view};
ghost use Rattle.ordup_query.specs.Queries.{HasRead, read_refusal, summed_up};
ghost use Rattle.ordup_query.specs.declared.answer.ReadAnswer.{ReadAnswer};
ghost use Rattle.ordup_cluster.specs.Refusals.{IsQueryRefusal};
ghost use Rattle.ordup_holds.specs.Relimiting.{with_changed_limit};

use ordup_cluster::SiteQuery;
use ordup_cluster::holds::{self, Book};
use ordup_limits::Scope;
use ordup_objects::{ObjectId, Refusal, SiteId};
use ordup_query::{QueryAnswer, ReadAnswer};
use std::sync::Wait;

/// `holds::relimit`.
pub fn relimit_in_hold(
    book: &mut Book,
    site: SiteId,
    scope: Scope,
    amount: u64,
) -> Result<u64, Refusal>
    ensures place { IfOk result (λ k. k ≡ book.old.primary.acked + 1) }
    ensures changed { IfOk result (λ _. book.new ≡ with_changed_limit book.old site scope amount) }
    ensures allowed { IfOk result (λ _. limit_change_refusal (site_view book.old.primary site) scope amount ≡ None) }
    ensures refused { IfErr result (λ e. IsRefusal (limit_change_refusal (site_view book.old.primary site) scope amount) e) }
    ensures err { OnErr result (book.new ≡ book.old) }
    ensures sound { IsPrimary book.old.primary }
{
    holds::relimit(book, site, scope, amount)
}

/// `SiteQuery::read`.
pub fn read<R: Wait>(
    rt: &R,
    query: &mut SiteQuery<'_>,
    object: ObjectId,
) -> Result<ReadAnswer, Refusal>
    ensures total { IfOk result (λ a. a.total ≡ query.old.total + a.import) }
    ensures query { IfOk result (λ a. query.new ≡ record query.old { sum = query.old.sum +ℤ a.value; total = a.total; reads = query.old.reads + 1 }) }
    ensures reads { (answers : List ReadAnswer) → HasRead query.old answers → IfOk result (λ a. HasRead query.new (a ∷ answers)) }
    ensures marked { IfOk result (λ _. object < length query.old.marks) }
    ensures allowed { IfOk result (λ a. read_refusal query.old.reads query.old.limit query.old.total a.import ≡ None) }
    ensures refused { IfErr result (IsQueryRefusal query.old object) }
    ensures err { OnErr result (query.new ≡ query.old) }
{
    query.read(rt, object)
}

/// `SiteQuery::end`.
pub fn end(query: SiteQuery<'_>) -> QueryAnswer
    ensures answer { result ≡ record { place = query.entry.place; sum = query.entry.sum; total = query.entry.total; reads = query.entry.reads } }
    ensures reads { (answers : List ReadAnswer) → HasRead query.entry answers → result ≡ summed_up query.entry.place answers }
    ensures within { result.total ≤ query.entry.limit }
{
    query.end()
}

//! Public calls of clusters whose clauses no proof above them cites, and that tests of several crates make. Each function makes one
//! of these calls, and its contract has the same clauses, so the prover refuses the function where the call promises less.
ghost use Rattle.std.specs.Prelude.{◌≡◌, ◌<◌, ◌≤◌, ◌+◌, pos, None, length, max, IfOk, IfErr, OnOk, OnErr};
ghost use Rattle.ordup_objects.specs.Refusals.{IsRefusal};
ghost use Rattle.ordup_objects.specs.Sizes.{most_updates};
ghost use Rattle.ordup_cluster.specs.Refusals.{IsNumber, IsProposalRefusal, IsSettlementRefusal, IsReadRefusal, IsLimitPlace, IsLimitChangeRefusal, site_query_refusal, undeclared_refusal};

use ordup_cluster::{Cluster, SeenValue, Session, SiteQuery};
use ordup_limits::Scope;
use ordup_objects::{MessageSet, ObjectId, Refusal, SiteId};
use std::sync::Wait;

/// `Cluster::propose`.
pub fn propose<R: Wait>(
    rt: &R,
    cluster: &Cluster,
    session: &mut Session,
    set: MessageSet,
    turns: u64,
) -> Result<u64, Refusal>
    requires { 1 ≤ turns }
    ensures seen { IfOk result (λ number. session.new.seen ≡ max session.old.seen number) }
    ensures some { IfOk result (IsNumber cluster.now.before) }
    ensures refused { IfErr result (IsProposalRefusal cluster.now.before) }
    ensures err { OnErr result (session.new ≡ session.old) }
{
    cluster.propose(rt, session, set, turns)
}

/// `Cluster::settle`.
pub fn settle<R: Wait>(
    rt: &R,
    cluster: &Cluster,
    session: &mut Session,
    number: u64,
    turns: u64,
) -> Result<(), Refusal>
    requires { 1 ≤ turns }
    ensures seen { OnOk result (session.new.seen ≡ max session.old.seen number) }
    ensures some { OnOk result ((0 < number) × (number ≤ cluster.now.before + most_updates)) }
    ensures refused { IfErr result (IsSettlementRefusal cluster.now.before number) }
    ensures err { OnErr result (session.new ≡ session.old) }
{
    cluster.settle(rt, session, number, turns)
}

/// `Cluster::read`.
pub fn read_at<R: Wait>(
    rt: &R,
    cluster: &Cluster,
    session: &mut Session,
    site: SiteId,
    object: ObjectId,
) -> Result<SeenValue, Refusal>
    ensures applied { IfOk result (λ read. session.old.seen ≤ read.applied) }
    ensures before { IfOk result (λ read. cluster.now.before ≤ read.applied) }
    ensures bounded { IfOk result (λ read. read.applied ≤ cluster.now.before + most_updates) }
    ensures seen { IfOk result (λ read. session.new.seen ≡ read.applied) }
    ensures allowed { IfOk result (λ _. (object < length cluster.now.start.objects) × (site < length cluster.now.start.sites)) }
    ensures refused { IfErr result (IsReadRefusal cluster.now (record { object = object; site = site; seen = session.old.seen })) }
    ensures err { OnErr result (session.new ≡ session.old) }
{
    cluster.read(rt, session, site, object)
}

/// `Cluster::read_when_level`.
pub fn read_when_level<R: Wait>(
    rt: &R,
    cluster: &Cluster,
    session: &mut Session,
    site: SiteId,
    object: ObjectId,
    pauses: u64,
) -> Result<SeenValue, Refusal>
    ensures applied { IfOk result (λ read. session.old.seen ≤ read.applied) }
    ensures before { IfOk result (λ read. cluster.now.before ≤ read.applied) }
    ensures bounded { IfOk result (λ read. read.applied ≤ cluster.now.before + most_updates) }
    ensures seen { IfOk result (λ read. session.new.seen ≡ read.applied) }
    ensures allowed { IfOk result (λ _. (object < length cluster.now.start.objects) × (site < length cluster.now.start.sites)) }
    ensures refused { IfErr result (IsReadRefusal cluster.now (record { object = object; site = site; seen = session.old.seen })) }
    ensures err { OnErr result (session.new ≡ session.old) }
{
    cluster.read_when_level(rt, session, site, object, pauses)
}

/// `Cluster::relimit`.
pub fn relimit<R: Wait>(
    rt: &R,
    cluster: &Cluster,
    site: SiteId,
    scope: Scope,
    amount: u64,
) -> Result<u64, Refusal>
    ensures allowed { IfOk result (λ _. undeclared_refusal cluster.now site scope ≡ None) }
    ensures place { IfOk result (IsLimitPlace cluster.now.before site scope amount) }
    ensures refused { IfErr result (IsLimitChangeRefusal cluster.now site scope amount) }
{
    cluster.relimit(rt, site, scope, amount)
}

/// `Cluster::begin`.
pub fn begin<'a, R: Wait>(
    rt: &R,
    cluster: &'a Cluster,
    site: SiteId,
    limit: u64,
) -> Result<SiteQuery<'a>, Refusal>
    ensures query { IfOk result (λ q. q ≡ record { place = q.place; marks = q.marks; limit = limit; sum = pos 0; total = 0; reads = 0 }) }
    ensures place { IfOk result (λ q. (cluster.now.before ≤ q.place) × (q.place ≤ cluster.now.before + most_updates)) }
    ensures allowed { IfOk result (λ _. site_query_refusal (length cluster.now.start.sites) site limit ≡ None) }
    ensures refused { IfErr result (λ e. IsRefusal (site_query_refusal (length cluster.now.start.sites) site limit) e) }
{
    cluster.begin(rt, site, limit)
}

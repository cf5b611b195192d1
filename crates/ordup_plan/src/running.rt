ghost use Rattle.std.specs.Prelude.{◌≡◌, ◌^◌, ◌+◌, ◌<◌, ◌≤◌, ◌⊎◌, ℕ, None, IfErr, IfOk, IfSome, length, sum_by, vec_len};
ghost use Rattle.ordup_objects.specs.Sizes.{most_sites};
ghost use Rattle.ordup_primary.specs.Declarations.{start_refusal};
ghost use Rattle.ordup_plan.specs.Counting.{counted};
ghost use Rattle.ordup_plan.specs.Outcomes.{IsOutcome, outcome_text};

use crate::caller::propose_all;
use crate::dealing::deal;
use crate::outcome::outcome_of;
use crate::tally::{Tally, added_up};
use ordup_cluster::{Closed, Cluster, OpenGate};
use ordup_objects::{MessageSet, Refusal, SiteId, or_give_up};
use ordup_primary::Setup;
use ordup_text::TextBuffer;
use std::alloc::Global;
use std::num::NonZeroU8;
use std::sync::Wait;
use std::sync::atomic::{AtomicBool, Ordering};
use std::thread;
use std::thread::{Promise, PromisedHandle, Threads};

/// The promise of a caller: it counts no more proposals than it has sets.
#[derive(Drop)]
struct Proposes {
    sets: usize,
}

impl Promise<Option<Tally>> for Proposes {
    ghost kept_by = { λ p r. IfSome r (λ t. counted t ≤ p.sets) };
}

// promise outcome IsOutcome: the outcome is of a closed cluster with the plan's declarations, an update for each set that was not refused,
// and the fewest rounds
// promise refused: a plan is refused only `NoMemory` or `Mixed`
/// Opens a cluster, has callers in threads of their own propose the sets, and answers the outcome as text.
///
/// Set i goes to caller `(i - 1) mod callers + 1`, which proposes its sets one after another, with 1,000,000 turns each. Each site
/// has its applier in a thread of its own. All threads have ended when it returns.
///
/// It is refused `NoMemory`, also where a thread cannot be started, and `Mixed` for the first site that does not agree with the
/// log, or for the first of all where the log has more or fewer updates than sets were numbered. Once a caller is refused memory
/// before its set is numbered, or cannot be started, the plan is called off. Each of the others then ends after the proposal that
/// it is in. It waits for that one as ever, since the appliers are stopped only once all callers have ended.
pub fn run_threads<R: Threads + Wait + Sync>(
    rt: &R,
    alloc: Global,
    setup: Setup,
    sets: Vec<MessageSet>,
    callers: NonZeroU8,
) -> Result<TextBuffer, Refusal>
    requires { start_refusal setup ≡ None }
    ensures outcome { IfOk result (λ out. IsOutcome (record { before = 0; start = setup }) (length sets.items) out.text) }
    ensures refused { IfErr result (λ e. (e ≡ Refusal.NoMemory) ⊎ ((s : ℕ) × (e ≡ Refusal.Mixed s))) }
{
    setup.keeps();
    let proposed = sets.len() as u64;
    let cluster = Cluster::new(alloc, setup)?;
    let hands = or_give_up!(deal(alloc, sets, callers.get()), cluster);
    let Some(tally) = with_appliers(rt, alloc, &cluster, hands) else {
        cluster.discard();
        return Err(Refusal::NoMemory);
    };
    close(alloc, cluster, tally, proposed)
}

/// Closes a cluster to which so many sets were proposed, and answers the outcome as text.
fn close(
    alloc: Global,
    cluster: Cluster,
    tally: Tally,
    proposed: u64,
) -> Result<TextBuffer, Refusal>
    requires { counted tally ≤ proposed }
    ensures outcome { IfOk result (λ out. IsOutcome cluster proposed out.text) }
    ensures refused { IfErr result (λ e. (e ≡ Refusal.NoMemory) ⊎ ((s : ℕ) × (e ≡ Refusal.Mixed s))) }
{
    let closed = cluster.close()?;
    let outcome = if_whole(alloc, &closed, tally, proposed);
    closed.discard();
    outcome
}

/// The outcome as text, where the log has an update for each of so many sets that was not refused.
fn if_whole(
    alloc: Global,
    closed: &Closed,
    tally: Tally,
    proposed: u64,
) -> Result<TextBuffer, Refusal>
    requires { counted tally ≤ proposed }
    ensures updates { IfOk result (λ _. length closed.now.primary.log.sets + tally.refused ≡ proposed) }
    ensures shows { IfOk result (λ out. out.text ≡ outcome_text closed.now tally.refused tally.pending) }
    ensures refused { IfErr result (λ e. (e ≡ Refusal.NoMemory) ⊎ ((s : ℕ) × (e ≡ Refusal.Mixed s))) }
{
    if closed.primary().log().len() != proposed - tally.refused {
        return Err(Refusal::Mixed {
            site: SiteId::new(0),
        });
    }
    Ok(outcome_of(alloc, closed, tally)?)
}

/// Starts the appliers, lets the callers propose, stops the cluster once all of them have ended, and waits for all threads.
fn with_appliers<R: Threads + Wait + Sync>(
    rt: &R,
    alloc: Global,
    cluster: &Cluster,
    hands: Vec<Vec<MessageSet>>,
) -> Option<Tally>
    requires few { length cluster.now.start.sites ≤ most_sites }
    requires bounded { sum_by vec_len hands.items < 2 ^ 64 }
    ensures { IfSome result (λ t. counted t ≤ sum_by vec_len hands.items) }
{
    thread::scope(
        thread::scope_env(),
        rt,
        |scope| -> Option<Tally>
            requires { (length cluster.now.start.sites ≤ most_sites) × (sum_by vec_len hands.items < 2 ^ 64) }
            ensures { IfSome result (λ t. counted t ≤ sum_by vec_len hands.items) }
        {
            for index in 0..cluster.sites() {
                let applier = scope.spawn(
                    move || -> u64
                        requires { (index < length cluster.now.start.sites) × (length cluster.now.start.sites ≤ most_sites) }
                    { cluster.applier(rt, SiteId::new(index as u8), &OpenGate) },
                );
                if applier.is_err() {
                    cluster.stop();
                    return None;
                }
            }
            let tally = propose_in_threads(rt, alloc, cluster, hands);
            cluster.stop();
            tally
        },
    )
}

/// Lets each caller propose its hand in a thread of its own, and waits for all of them. Where one cannot be started, those that
/// were end after the proposal that they are in.
fn propose_in_threads<R: Threads + Wait + Sync>(
    rt: &R,
    alloc: Global,
    cluster: &Cluster,
    hands: Vec<Vec<MessageSet>>,
) -> Option<Tally>
    requires { sum_by vec_len hands.items < 2 ^ 64 }
    ensures { IfSome result (λ t. counted t ≤ sum_by vec_len hands.items) }
{
    let called_off = &AtomicBool::new(false);
    thread::scope(
        thread::scope_env(),
        rt,
        |scope| -> Option<Tally>
            requires { sum_by vec_len hands.items < 2 ^ 64 }
            ensures { IfSome result (λ t. counted t ≤ sum_by vec_len hands.items) }
        {
            let mut callers = Vec::new(alloc);
            for sets in hands {
                let promise = Proposes { sets: sets.len() };
                let started = scope.spawn_with(
                    promise,
                    move || -> Option<Tally>
                        ensures { IfSome result (λ t. counted t ≤ vec_len sets) }
                    { propose_all(rt, cluster, called_off, sets) },
                );
                let kept = match started {
                    Ok(caller) => callers.push(caller).is_ok(),
                    Err(_) => false,
                };
                if !kept {
                    called_off.store(true, Ordering::SeqCst);
                    return None;
                }
            }
            gather(rt, callers)
        },
    )
}

/// Waits for the callers, and adds up what all of them count.
fn gather<R: Threads>(
    rt: &R,
    callers: Vec<PromisedHandle<Option<Tally>, Proposes>>,
) -> Option<Tally>
    requires { sum_by (λ c. c.promise.sets) callers.items < 2 ^ 64 }
    ensures { IfSome result (λ t. counted t ≤ sum_by (λ c. c.promise.sets) callers.items) }
{
    match thread::join_promised(rt, callers) {
        Ok(tallies) => added_up(tallies),
        Err(_) => None,
    }
}

ghost use Rattle.std.specs.Prelude.{◌≡◌, ◌≤◌, None, [], IfOk, IfErr, vec_capacity};
ghost use Rattle.ordup_objects.specs.Refusals.{IsRefusal};
ghost use Rattle.ordup_primary.specs.Declarations.{start_refusal};
ghost use Rattle.ordup_primary.specs.Primaries.{HasFewestRounds};
ghost use Rattle.ordup_world.specs.Events.{AreAnswers, past_after};
ghost use Rattle.ordup_world.specs.Worlds.{StandsFor, IsSound, KeepsLimits};
ghost use Rattle.ordup_world.specs.Imports.{KeepImports};
ghost use Rattle.ordup_world.specs.Along.{Along, KeepSites, HaveFewest};

use crate::event::{Answer, Event};
use crate::outcome::Run;
use crate::world::World;
use ordup_objects::{Refusal, or_give_up};
use ordup_primary::Setup;
use std::alloc::{Allocator, Global};

// promise along: each event of a list keeps the numbers, the feeds and the limits; no wrong body: each event is a `World::step`
// promise imports: each query keeps its limit after each event; each value is off by at most its import, the sum by the total; with total
// 0 all are of one state; no wrong body: a query reads by `Query::read` alone
// promise answers state setup allowed refused: a list of events has the answers of the model; the world then stands for those accepted
// promise sound: as World::start sound
// promise limits: as World::start limits
// promise rounds fewest: as World::start fewest
/// Starts a store and takes the events in their order. A refused event leaves everything as it was. It promises, clause by clause:
///
/// - `answers`: the answers are the replies to the events, each over those that were accepted before it.
/// - `state`: the world stands for the setup and the accepted events.
/// - `setup`: the world's setup is the one that was given.
/// - `sound`: each site holds the serial result of a prefix of the log, and the world's other conditions hold.
/// - `limits`: at the end, the acknowledged updates that a site has not applied weigh at most each of its limits.
/// - `rounds`: at the end, each site's forced rounds are the fewest of any schedule that keeps its limits, shown by as many
///   windows.
/// - `imports`: after each event, each open query keeps its import limit.
/// - `along`: after each event, each site keeps its limits. It has applied what it reported, and no more than was sent to it, and
///   its feed holds no more than its capacity.
/// - `fewest`: after each event, each site's forced rounds were the fewest.
/// - `allowed`: it succeeds only where nothing refuses the start.
/// - `refused`: it is refused `Empty` where the setup lacks an object or a site, and else `NoMemory` alone. It takes what the start
///   and the list of answers need before the first event.
pub fn run<A: Allocator + Copy>(
    alloc: A,
    setup: Setup<A>,
    events: Vec<Event<A>, A>,
) -> Result<Run<A>, Refusal>
    ensures answers { IfOk result (λ run. AreAnswers setup [] events.items run.answers.items) }
    ensures state { IfOk result (λ run. StandsFor setup run.world (past_after [] events.items run.answers.items)) }
    ensures setup { IfOk result (λ run. run.world.primary.setup ≡ setup) }
    ensures sound { IfOk result (λ run. IsSound run.world) }
    ensures limits { IfOk result (λ run. KeepsLimits run.world) }
    ensures rounds { IfOk result (λ run. HasFewestRounds run.world.primary) }
    ensures imports { IfOk result (λ run. Along (KeepImports setup) [] events.items run.answers.items) }
    ensures along { IfOk result (λ run. Along (KeepSites setup) [] events.items run.answers.items) }
    ensures fewest { IfOk result (λ run. Along (HaveFewest setup) [] events.items run.answers.items) }
    ensures allowed { IfOk result (λ _. start_refusal setup ≡ None) }
    ensures refused { IfErr result (λ e. IsRefusal (start_refusal setup) e) }
{
    let (mut world, mut answers) = start(alloc, setup, events.len())?;
    for event in events {
        answers.push_reserved(world.step(event));
    }
    Ok(Run { world, answers })
}

/// A started store, and no answers yet, with spare capacity for `count` of them.
fn start<A: Allocator + Copy>(
    alloc: A,
    setup: Setup<A>,
    count: usize,
) -> Result<(World<A>, Vec<Answer<A>, A>), Refusal>
    ensures answers { IfOk result (λ started. started.1.items ≡ []) }
    ensures spare { IfOk result (λ started. count ≤ vec_capacity started.1) }
    ensures state { IfOk result (λ started. StandsFor {A = A} setup started.0 []) }
    ensures setup { IfOk result (λ started. started.0.primary.setup ≡ setup) }
    ensures sound { IfOk result (λ started. IsSound started.0) }
    ensures limits { IfOk result (λ started. KeepsLimits started.0) }
    ensures allowed { IfOk result (λ _. start_refusal setup ≡ None) }
    ensures refused { IfErr result (λ e. IsRefusal (start_refusal setup) e) }
{
    let world = World::start(alloc, setup)?;
    let answers = or_give_up!(Vec::with_capacity(alloc, count), world.discard());
    Ok((world, answers))
}

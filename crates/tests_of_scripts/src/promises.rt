//! Public calls whose clauses no proof above them cites. Each function makes one of these calls, and its contract has the same
//! clauses, so the prover refuses the function where the call promises less. Tests make the calls by them.
ghost use Rattle.std.specs.Prelude.{◌≡◌, ◌<◌, [], None, length, IfOk, IfErr};
ghost use Rattle.ordup_objects.specs.Refusals.{IsRefusal};
ghost use Rattle.ordup_objects.specs.Serial.{serial};
ghost use Rattle.ordup_objects.specs.States.{value_at};
ghost use Rattle.ordup_primary.specs.Declarations.{start_refusal};
ghost use Rattle.ordup_primary.specs.Primaries.{HasFewestRounds};
ghost use Rattle.ordup_world.specs.Along.{Along, KeepSites, HaveFewest};
ghost use Rattle.ordup_world.specs.Events.{AreAnswers, past_after};
ghost use Rattle.ordup_world.specs.Imports.{KeepImports};
ghost use Rattle.ordup_world.specs.Worlds.{StandsFor, IsSound, KeepsLimits};

use ordup_log::Log;
use ordup_objects::{ObjectId, Refusal};
use ordup_world::{Event, Run, Setup};
use std::alloc::Allocator;

/// `ordup_world::run`.
pub fn run<A: Allocator + Copy>(
    alloc: A,
    setup: Setup<A>,
    events: Vec<Event<A>, A>,
) -> Result<Run<A>, Refusal>
    ensures answers { IfOk result (λ run. AreAnswers setup [] events.items run.answers.items) }
    ensures state { IfOk result (λ run. StandsFor setup run.world (past_after [] events.items run.answers.items)) }
    ensures setup { IfOk result (λ run. run.world.primary.setup ≡ setup) }
    ensures sound { IfOk result (λ run. IsSound run.world) }
    ensures limits { IfOk result (λ run. KeepsLimits run.world) }
    ensures rounds { IfOk result (λ run. HasFewestRounds run.world.primary) }
    ensures imports { IfOk result (λ run. Along (KeepImports setup) [] events.items run.answers.items) }
    ensures along { IfOk result (λ run. Along (KeepSites setup) [] events.items run.answers.items) }
    ensures fewest { IfOk result (λ run. Along (HaveFewest setup) [] events.items run.answers.items) }
    ensures allowed { IfOk result (λ _. start_refusal setup ≡ None) }
    ensures refused { IfErr result (λ e. IsRefusal (start_refusal setup) e) }
{
    ordup_world::run(alloc, setup, events)
}

/// `Log::end_value`.
pub fn end_value(log: &Log, object: ObjectId) -> i64
    requires { object < length log.now.start }
    ensures { result ≡ value_at (serial log.now (length log.now.sets)) object }
{
    log.end_value(object)
}

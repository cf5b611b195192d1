//! A public call whose clauses no proof above it cites. The function makes this call, and its contract has the same clauses, so the
//! prover refuses the function where the call promises less. The test makes the call by it.
ghost use Rattle.std.specs.Prelude.{◌≡◌, None, length, IfOk, IfErr};
ghost use Rattle.ordup_objects.specs.Refusals.{IsRefusal};
ghost use Rattle.ordup_objects.specs.Serial.{serial};
ghost use Rattle.ordup_objects.specs.Tables.{initial_state, names_of};
ghost use Rattle.ordup_primary.specs.Declarations.{start_refusal};
ghost use Rattle.ordup_primary.specs.Successors.{limits_from_start, successor_refusal};

use ordup_objects::Refusal;
use ordup_primary::{Primary, Setup};
use std::alloc::Allocator;

/// `Primary::successor`.
pub fn successor<A: Allocator + Copy>(alloc: A, primary: &Primary<A>) -> Result<Setup<A>, Refusal>
    ensures objects { IfOk result (λ successor. names_of successor.objects ≡ names_of primary.now.setup.objects) }
    ensures values { IfOk result (λ successor. initial_state successor.objects ≡ serial primary.now.log (length primary.now.log.sets)) }
    ensures groups { IfOk result (λ successor. successor.groups ≡ primary.now.setup.groups) }
    ensures sites { IfOk result (λ successor. successor.sites ≡ primary.now.setup.sites) }
    ensures limits { IfOk result (λ successor. successor.limits ≡ limits_from_start primary.now.limits) }
    ensures ready { IfOk result (λ successor. start_refusal successor ≡ None) }
    ensures allowed { IfOk result (λ _. successor_refusal primary.now ≡ None) }
    ensures refused { IfErr result (λ e. IsRefusal (successor_refusal primary.now) e) }
{
    primary.successor(alloc)
}

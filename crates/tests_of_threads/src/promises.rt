//! Public calls whose clauses no proof above them cites, as in `promises.rt` of `test_cluster_fixtures`.
ghost use Rattle.std.specs.Prelude.{◌≡◌, [], None, IfOk, IfErr};
ghost use Rattle.ordup_objects.specs.Refusals.{IsRefusal};
ghost use Rattle.ordup_objects.specs.Tables.{initial_state};
ghost use Rattle.ordup_feed.specs.Parcels.{feed_refusal};

use ordup_feed::{Feed, SendEnd, TakeEnd};
use ordup_objects::{ObjectTable, Refusal};
use std::alloc::Global;

/// `Feed::new`. Both ends are of one feed.
pub fn new_feed(
    alloc: Global,
    objects: &ObjectTable,
    capacity: u64,
) -> Result<(SendEnd, TakeEnd), Refusal>
    ensures sender { IfOk result (λ ends. ends.0 ≡ record { feed = ends.0.feed; start = initial_state objects.now; pushed = []; known = 0 }) }
    ensures taker { IfOk result (λ ends. ends.1 ≡ record { feed = ends.0.feed; start = initial_state objects.now; taken = []; told = 0 }) }
    ensures holds { IfOk result (λ ends. ends.0.feed.capacity ≡ capacity) }
    ensures allowed { IfOk result (λ _. feed_refusal capacity ≡ None) }
    ensures refused { IfErr result (λ e. IsRefusal (feed_refusal capacity) e) }
{
    Feed::new(alloc, objects, capacity)
}

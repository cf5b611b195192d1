ghost use Rattle.std.specs.Prelude.{◌≡◌, length};
ghost use Rattle.ordup_objects.specs.Sizes.{most_changes};

use crate::sizes::MOST_CHANGES;
use std::marker::Model;

/// What each change of a message set makes of its object's value, in the order of the changes.
///
/// `Values::results` computes them once, in place. `Values::push_moves` and `Values::put` use them.
#[derive(Drop)]
pub struct Results {
    pub(crate) results: [i64; MOST_CHANGES],
}

impl Model for Results {
    ghost use Rattle.std.specs.Prelude.{◌≡◌, List, ℤ, length};
    ghost use Rattle.ordup_objects.specs.Sizes.{most_changes};

    ghost Value = { List ℤ };

    ghost view = { λ r. r.results };

    ghost invariant = { λ r. length r.results ≡ most_changes };
}

impl Results {
    /// Memory for the results of a message set.
    pub fn new() -> Self {
        Results {
            results: [0; MOST_CHANGES],
        }
    }

    // promise: as Values::initial
    /// The results, in the order of the changes. What stands after them has no meaning.
    pub fn as_slice(&self) -> &[i64]
        ensures results { result.now ≡ self.now }
        ensures spare { length result.now ≡ most_changes }
    {
        &self.results
    }
}
